//! The calls of one client.

ghost use Rattle.std.specs.Prelude.{◌≡◌, ◌≤◌, ◌<◌, ℕ, List, [], false, true, Err, IfErr, IfOk, OnErr, OnOk};
ghost use Rattle.harp_types.specs.declared.server.ServerId.TheVariants.{Zero};
ghost use Rattle.rpc_door.specs.Results.{is_reply_to};
ghost use Rattle.rpc_door.specs.declared.group.Exchange.{Exchange as Made};
ghost use Rattle.rpc_door.specs.declared.group.GroupFault.TheVariants as group;
ghost use Rattle.door_group.specs.Rule.{AreMade, AreReady, Before, EndsRightly, Fails, GaveUpOne};
ghost use Rattle.door_group.specs.Rule.{GivesUp, IsMade, LeadsOn, Standing, TurnBrings, asked};
ghost use Rattle.door_group.specs.Rule.{brings};
ghost use Rattle.door_group.specs.Rule.Outcome.{Done};

use crate::brought::{Brought, Next, follow, hear};
use crate::servers::{Servers, ServersFault};
use harp_types::{Call, Cred, Reply, ServerId};
use rpc_door::{Group, GroupFault};
use std::alloc::Global;

/// Under what a call is asked.
#[derive(Clone, Copy, PartialEq, Eq)]
struct Ticket {
    client: u32,
    number: u64,
    cred: Cred,
}

/// Asks a call at a place.
fn ask<S: Servers>(
    alloc: Global,
    servers: &mut S,
    place: ServerId,
    ticket: Ticket,
    call: &Call,
) -> Result<(), ServersFault>
    requires { S.runs servers.old }
    ensures runs { OnOk result (S.runs servers.new) }
    ensures asks { OnOk result ((w : S.Scene) → S.stands servers.old w
        → LeadsOn (S.asks place (asked ticket call.now)) (S.stands servers.new)
        (S.said servers.old) (S.said servers.new) w) }
    ensures broken { OnErr result ((w : S.Scene) → S.stands servers.old w
        → S.ask_breaks place (asked ticket call.now) w (S.trail servers.new)) }
    ensures failed { result ≡ Err ServersFault.Failed
        → Fails (S.failed servers.new) (S.faults servers.old) (S.faults servers.new) }
    ensures count { S.faults servers.old ≤ S.faults servers.new }
    ensures on { (o : S.Basis) → S.on servers.old o → S.on servers.new o }
{
    servers.ask(
        alloc,
        place,
        ticket.client,
        ticket.number,
        ticket.cred,
        call,
    )
}

/// Looks at all that was heard: what it brings for a call.
fn listen<S: Servers>(servers: &mut S, client: u32, number: u64, call: &Call) -> Brought
    requires { S.runs servers.old }
    ensures brings { result ≡ brings client number call.now (S.said servers.old) }
    ensures form { EndsRightly call.now result }
    ensures ready { AreReady S.runs S.said servers.new }
    ensures stands { (w : S.Scene) → S.stands servers.old w → S.stands servers.new w }
    ensures count { S.faults servers.old ≤ S.faults servers.new }
    ensures on { (o : S.Basis) → S.on servers.old o → S.on servers.new o }
{
    let mut brought = Brought::Nothing;
    loop {
        match servers.hear() {
            Some(heard) => brought = hear(client, number, call, brought, heard),
            None => return brought,
        }
    }
}

/// Takes a turn: what is heard by then of a call.
fn take_turn<S: Servers>(
    alloc: Global,
    servers: &mut S,
    ticket: Ticket,
    call: &Call,
) -> Result<Brought, ServersFault>
    requires { S.runs servers.old }
    ensures turn { IfOk result (λ b. (w : S.Scene) → S.stands servers.old w
        → TurnBrings S.turns (S.stands servers.new) ticket.client ticket.number call.now
        (S.said servers.old) b w) }
    ensures broken { OnErr result ((w : S.Scene) → S.stands servers.old w
        → S.turn_breaks w (S.trail servers.new)) }
    ensures form { IfOk result (λ b. EndsRightly call.now b) }
    ensures ready { IfOk result (λ _. AreReady S.runs S.said servers.new) }
    ensures failed { result ≡ Err ServersFault.Failed
        → Fails (S.failed servers.new) (S.faults servers.old) (S.faults servers.new) }
    ensures count { S.faults servers.old ≤ S.faults servers.new }
    ensures on { (o : S.Basis) → S.on servers.old o → S.on servers.new o }
{
    servers.turn(alloc)?;
    Ok(listen(servers, ticket.client, ticket.number, call))
}

/// The fault of a call that a fault of the servers is.
fn of_servers(fault: ServersFault) -> GroupFault
    ensures failed { result ≡ GroupFault.Failed → fault ≡ ServersFault.Failed }
    ensures spent { result ≡ GroupFault.Spent → ⊥ }
{
    match fault {
        ServersFault::Failed => GroupFault::Failed,
        ServersFault::NoMemory => GroupFault::NoMemory,
    }
}

/// Makes a call: asks it at a place, and then takes turns, at most so many, until it is answered;
/// by what is heard it is asked again, there or elsewhere. Gives the reply and where it was asked
/// last.
fn make_call<S: Servers>(
    alloc: Global,
    servers: &mut S,
    turns: u64,
    place: ServerId,
    ticket: Ticket,
    call: &Call,
) -> Result<(Reply, ServerId), GroupFault>
    requires { AreReady S.runs S.said servers.old }
    ensures ready { IfOk result (λ _. AreReady S.runs S.said servers.new) }
    ensures done { IfOk result (λ x. (w : S.Scene) → S.stands servers.old w
        → (v : S.Scene)
        × IsMade S.turns S.asks S.turn_breaks S.ask_breaks turns (asked ticket call.now)
        (Done x.0 x.1 v) place w × S.stands servers.new v) }
    ensures form { IfOk result (λ x. is_reply_to call.now x.0 ≡ true) }
    ensures given_up { IfErr result (λ why. (w : S.Scene) → S.stands servers.old w
        → GivesUp (S.stands servers.new) (S.trail servers.new)
        (λ o. IsMade S.turns S.asks S.turn_breaks S.ask_breaks turns (asked ticket call.now) o
        place w) why) }
    ensures failed { result ≡ Err GroupFault.Failed
        → Fails (S.failed servers.new) (S.faults servers.old) (S.faults servers.new) }
    ensures count { S.faults servers.old ≤ S.faults servers.new }
    ensures on { (o : S.Basis) → S.on servers.old o → S.on servers.new o }
{
    match ask(alloc, servers, place, ticket, call) {
        Ok(()) => {}
        Err(fault) => return Err(of_servers(fault)),
    }
    let mut place = place;
    let mut left = turns;
    let mut quiet = 0;
    while left > 0 {
        left -= 1;
        let brought = match take_turn(alloc, servers, ticket, call) {
            Ok(brought) => brought,
            Err(fault) => return Err(of_servers(fault)),
        };
        match follow(place, quiet, brought) {
            Next::Ends(reply) => return Ok((reply, place)),
            Next::WaitsOn => {
                quiet += 1;
                continue;
            }
            Next::AsksAt(next) => place = next,
        }
        quiet = 0;
        if left == 0 {
            return Err(GroupFault::Spent);
        }
        match ask(alloc, servers, place, ticket, call) {
            Ok(()) => {}
            Err(fault) => return Err(of_servers(fault)),
        }
    }
    Err(GroupFault::Spent)
}

/// A client of servers, which numbers its calls one after the other.
#[derive(Drop)]
pub struct Asker<S> {
    servers: S,
    client: u32,
    /// The most turns of a call.
    turns: u64,
    /// The number of the next call.
    next: u64,
    /// Where it is asked first.
    place: ServerId,
    /// How many calls were given up.
    spent: u64,
    stopped: bool,
}

impl<S: Servers> Asker<S> {
    /// A client with this number, whose first call has this number and is asked at server 0. Each
    /// of its calls has so many turns.
    pub fn new(servers: S, client: u32, first: u64, turns: u64) -> Asker<S>
        ensures { result ≡ record {
          servers = servers;
          client = client;
          turns = turns;
          next = first;
          place = Zero;
          spent = 0;
          stopped = false;
        } }
    {
        Asker {
            servers,
            client,
            turns,
            next: first,
            place: ServerId::Zero,
            spent: 0,
            stopped: false,
        }
    }

    /// The servers that it asks.
    pub fn servers(&self) -> &S
        ensures { result.now ≡ self.now.servers }
    {
        &self.servers
    }
}

impl<S: Servers> Group for Asker<S> {
    ghost Start = { Before S.Scene };

    // After a call that was given up it tells that one too.
    ghost told = { λ a first made. (c : Before S.Scene)
        × AreMade S.turns S.asks S.turn_breaks S.ask_breaks a.client a.turns made first c
        × (a.next ≡ c.number) × (a.place ≡ c.place)
        × (a.stopped ≡ false → S.stands a.servers c.scene)
        × (a.stopped ≡ true → GaveUpOne S.turns S.asks S.turn_breaks S.ask_breaks a.client a.turns
        (S.stands a.servers) (S.trail a.servers) c) };

    // A call that was given up was asked just by the rule too.
    ghost unanswered = { λ a why first made cred call. (c : Before S.Scene)
        × AreMade S.turns S.asks S.turn_breaks S.ask_breaks a.client a.turns made first c
        × GivesUp (S.stands a.servers) (S.trail a.servers)
        (λ o. IsMade S.turns S.asks S.turn_breaks S.ask_breaks a.turns
        (record { client = a.client; number = c.number; cred = cred; call = call })
        o c.place c.scene) why
        × (why ≡ group.Failed → S.failed a.servers) };

    ghost runs = { λ a. (a.stopped ≡ false) × AreReady S.runs S.said a.servers };

    ghost counts = { λ a. record { failed = S.faults a.servers; spent = a.spent } };

    ghost Basis = { Standing S.Basis };

    ghost on = { λ a o. (a.client ≡ o.client) × (a.turns ≡ o.turns) × S.on a.servers o.basis };

    fn call(&mut self, alloc: Global, cred: Cred, call: &Call) -> Result<Reply, GroupFault> {
        let ticket = Ticket {
            client: self.client,
            number: self.next,
            cred,
        };
        match make_call(
            alloc,
            &mut self.servers,
            self.turns,
            self.place,
            ticket,
            call,
        ) {
            Ok((reply, place)) => {
                self.place = place;
                self.next = self.next.saturating_add(1);
                Ok(reply)
            }
            Err(fault) => {
                self.stopped = true;
                if fault == GroupFault::Spent {
                    self.spent = self.spent.saturating_add(1);
                }
                Err(fault)
            }
        }
    }
}
