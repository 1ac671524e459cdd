//! When and where a call is asked again.

ghost use Rattle.std.specs.Prelude.{◌≡◌, ◌<◌, ◌^◌};
ghost use Rattle.client_calls.specs.Waits.{asked_again, first_wait, hinted, next_round, place_after};

use harp_types::{Cause, ServerId};

/// The first pause, in milliseconds.
const FIRST_PAUSE: u64 = 200;

/// No pause is longer.
pub const LONGEST_PAUSE: u64 = 2_000;

/// When and where a call is asked again that isn't answered by then.
#[derive(Clone, Copy)]
pub struct Wait {
    pub place: ServerId,
    /// In milliseconds of the clock.
    pub due: u64,
    /// How long the pause is that it ends.
    pub pause: u64,
}

/// The next server round.
fn next_round(place: ServerId) -> ServerId
    ensures { result ≡ next_round place }
{
    match place {
        ServerId::Zero => ServerId::One,
        ServerId::One => ServerId::Two,
        ServerId::Two => ServerId::Zero,
    }
}

/// Where a call is asked next that this server can't serve. One that names itself leads no open view
/// yet, and another one may.
fn place_after(place: ServerId, cause: Cause) -> ServerId
    ensures { result ≡ place_after place cause }
{
    match cause {
        Cause::NotLeader { hint: Some(hint) } if hint.is(place) => next_round(place),
        Cause::NotLeader { hint: Some(hint) } => hint,
        Cause::NotLeader { hint: None } => next_round(place),
        Cause::BadClient => place,
        Cause::NotYetOpen => place,
        Cause::NoPromise => place,
        Cause::LogFull => place,
        Cause::Old => place,
    }
}

impl Wait {
    /// That of a call that was asked for the first time, at a server, at this moment.
    pub fn first(place: ServerId, now: u64) -> Wait
        requires { now < 2 ^ 62 }
        ensures { result ≡ first_wait place now }
    {
        Wait {
            place: next_round(place),
            due: now + FIRST_PAUSE,
            pause: FIRST_PAUSE,
        }
    }

    /// That of one that was asked again at this moment.
    pub fn again(self, now: u64) -> Wait
        requires { now < 2 ^ 62 }
        ensures { result ≡ asked_again now self }
    {
        let pause = self.pause.saturating_mul(2).min(LONGEST_PAUSE);
        Wait {
            place: next_round(self.place),
            due: now + pause,
            pause,
        }
    }

    /// That of one that a server can't serve.
    pub fn hinted(self, by: ServerId, cause: Cause) -> Wait
        ensures { result ≡ hinted by cause self }
    {
        Wait {
            place: place_after(by, cause),
            ..self
        }
    }
}
