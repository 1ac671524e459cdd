//! A client of a group, which numbers its calls.

ghost use Rattle.std.specs.Prelude.{◌≤◌};

use crate::asking::Outside;
use crate::making::make_call;
use client_calls::Ticket;
use harp_types::{Call, Cred, Reply, ServerId};
use node_link::{Clock, Link};
use rpc_door::{Group, GroupFault};
use std::alloc::Global;

/// A client that asks three servers over a link, whose place 0 it sends from, by a clock. It
/// numbers its calls one after the other.
#[derive(Drop)]
pub struct GroupClient<L, C> {
    outside: Outside<L, C>,
    /// The port of the first server at 127.0.0.1; the others have the two behind it.
    port: u16,
    client: u32,
    /// The most steps of a call.
    steps: u64,
    /// The number of the next call.
    next: u64,
    /// Where it is asked first.
    place: ServerId,
    /// How many calls were given up.
    spent: u64,
    stopped: bool,
    ghost fits: { port ≤ 65533 },
}

impl<L, C> GroupClient<L, C> {
    ghost use Rattle.std.specs.Prelude.{◌≡◌, ◌≤◌};
    ghost use Rattle.node_link.specs.Traffic.{last_port};
    ghost use Rattle.group_client.specs.Calling.{IsNew};

    /// A client with this number, of the servers of which the first has this port. Place 0 of the
    /// link is open, at a port that isn't one of theirs. The client's first call has the number
    /// `first`, and each of its calls so many steps: an ask, or a wait for a datagram.
    pub fn new(
        link: L,
        clock: C,
        port: u16,
        client: u32,
        first: u64,
        steps: u64,
    ) -> GroupClient<L, C>
        requires { port ≤ last_port }
        ensures new { IsNew result port client first steps }
        ensures outside { result.outside ≡ record { link = link; clock = clock } }
    {
        GroupClient {
            outside: Outside { link, clock },
            port,
            client,
            steps,
            next: first,
            place: ServerId::Zero,
            spent: 0,
            stopped: false,
        }
    }
}

impl<L: Link, C: Clock> Group for GroupClient<L, C> {
    ghost use Rattle.std.specs.Prelude.{◌≡◌, ◌≤◌, false, true};
    ghost use Rattle.group_client.specs.Calling.{before_call, caller_of, scene_of};
    ghost use Rattle.group_client.specs.Rule.{AreMade, Basis, Before, GaveUpOne, GivesUp};

    ghost Start = { Before };

    // After a call that was given up it tells that one too.
    ghost told = { λ g first made.
        (g.stopped ≡ false → AreMade (caller_of g) made first (before_call L.told C.told g))
        × (g.stopped ≡ true → (c : Before) × AreMade (caller_of g) made first c
        × GaveUpOne (caller_of g) c (scene_of L.told C.told g.outside)) };

    // A call that was given up was asked just by the rule too.
    ghost unanswered = { λ g why first made cred call. (c : Before)
        × AreMade (caller_of g) made first c
        × GivesUp (caller_of g) why cred call c (scene_of L.told C.told g.outside) };

    ghost runs = { λ g. g.stopped ≡ false };

    ghost counts = { λ g. record { failed = L.faults g.outside.link; spent = g.spent } };

    ghost Basis = { Basis };

    ghost on = { λ g o. (caller_of g ≡ o.caller) × (o.faults ≤ L.faults g.outside.link) };

    fn call(&mut self, alloc: Global, cred: Cred, call: &Call) -> Result<Reply, GroupFault> {
        let ticket = Ticket {
            port: self.port,
            client: self.client,
            number: self.next,
            cred,
        };
        match make_call(
            alloc,
            &mut self.outside,
            ticket,
            call,
            self.steps,
            self.place,
        ) {
            Ok(replied) => {
                self.place = replied.by;
                self.next = self.next.saturating_add(1);
                Ok(replied.reply)
            }
            Err(fault) => {
                self.stopped = true;
                if fault == GroupFault::Spent {
                    self.spent = self.spent.saturating_add(1);
                }
                Err(fault)
            }
        }
    }
}
