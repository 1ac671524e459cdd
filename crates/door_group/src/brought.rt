//! What was heard of a call.

ghost use Rattle.std.specs.Prelude.{◌≡◌, ◌<◌, ◌-◌, ◌^◌};
ghost use Rattle.door_group.specs.Rule.{follow, hear, later, news, next_place, place_after};

use harp_types::{Call, Cause, Reply, ServerId};
use node_loop::Heard;
use rpc_door::is_reply_to;

/// What was heard of a call since its last ask or turn.
#[derive(Drop)]
pub enum Brought {
    Nothing,
    /// It can't be served, for the last cause that was heard.
    Refused(Cause),
    /// It is answered.
    Ended(Reply),
}

/// What follows a turn of a call.
#[derive(Drop)]
pub enum Next {
    /// It has ended.
    Ends(Reply),
    /// It is asked again at a place.
    AsksAt(ServerId),
    /// It waits on.
    WaitsOn,
}

/// How many turns without news are too many.
const PATIENCE: u64 = 50;

/// What one thing says of a call: nothing where it is of another one, or no reply to this one.
fn news(client: u32, number: u64, call: &Call, heard: Heard) -> Brought
    ensures { result ≡ news client number call.now heard }
{
    match heard {
        Heard::Answer {
            client: c,
            number: n,
            reply,
            ..
        } => {
            if c == client && n == number && is_reply_to(call, &reply) {
                Brought::Ended(reply)
            } else {
                Brought::Nothing
            }
        }
        Heard::CannotServe {
            client: c,
            number: n,
            cause,
        } => {
            if c == client && n == number {
                Brought::Refused(cause)
            } else {
                Brought::Nothing
            }
        }
    }
}

/// What was heard, and then this. What follows the answer is passed over.
fn later(brought: Brought, news: Brought) -> Brought
    ensures { result ≡ later brought news }
{
    match brought {
        Brought::Ended(reply) => Brought::Ended(reply),
        Brought::Nothing => news,
        Brought::Refused(last) => match news {
            Brought::Nothing => Brought::Refused(last),
            Brought::Refused(cause) => Brought::Refused(cause),
            Brought::Ended(reply) => Brought::Ended(reply),
        },
    }
}

/// What was heard, with one thing more.
pub fn hear(client: u32, number: u64, call: &Call, brought: Brought, heard: Heard) -> Brought
    ensures { result ≡ hear client number call.now brought heard }
{
    later(brought, news(client, number, call, heard))
}

/// The next place round.
pub fn next_place(place: ServerId) -> ServerId
    ensures { result ≡ next_place place }
{
    match place {
        ServerId::Zero => ServerId::One,
        ServerId::One => ServerId::Two,
        ServerId::Two => ServerId::Zero,
    }
}

/// Where a call is asked again that can't be served at a place.
pub fn place_after(place: ServerId, cause: Cause) -> ServerId
    ensures { result ≡ place_after place cause }
{
    match cause {
        Cause::NotLeader { hint: Some(hint) } => hint,
        Cause::NotLeader { hint: None } => next_place(place),
        Cause::BadClient => place,
        Cause::NotYetOpen => place,
        Cause::NoPromise => place,
        Cause::LogFull => place,
        Cause::Old => place,
    }
}

/// What follows a turn that brought this, where so many before it brought nothing.
pub fn follow(place: ServerId, quiet: u64, brought: Brought) -> Next
    requires { quiet < 2 ^ 64 - 1 }
    ensures { result ≡ follow place quiet brought }
{
    match brought {
        Brought::Ended(reply) => Next::Ends(reply),
        Brought::Refused(cause) => Next::AsksAt(place_after(place, cause)),
        Brought::Nothing => {
            if quiet + 1 == PATIENCE {
                Next::AsksAt(next_place(place))
            } else {
                Next::WaitsOn
            }
        }
    }
}
