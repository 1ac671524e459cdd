//! The datagrams that wait for the places of a link in memory.

ghost use Rattle.std.specs.Prelude.{◌≡◌, ◌++◌, [], ◌∷◌, drop, IfOk, OnOk};
ghost use Rattle.std.specs.Option.{option_copied};
ghost use Rattle.harp_types.specs.Trio.{value_of, with_value};
ghost use Rattle.harp_types.specs.declared.server.ServerId.{ServerId as Place};
ghost use Rattle.node_link.specs.Traffic.{first};
ghost use Rattle.node_link.specs.Memory.{waiting_at};

use crate::link::{Datagram, Waiting};
use harp_types::ServerId;
use std::alloc::{AllocError, Global};
use std::collections::VecDeque;
use std::marker::Model;

/// A queue of datagrams for each place.
#[derive(Drop)]
pub struct Queues {
    zero: VecDeque<Datagram>,
    one: VecDeque<Datagram>,
    two: VecDeque<Datagram>,
}

impl Model for Queues {
    ghost use Rattle.std.specs.Prelude.{List};
    ghost use Rattle.harp_types.specs.declared.trio.Trio.{Trio};
    ghost use Rattle.node_link.specs.declared.link.Datagram.{Datagram};

    ghost Value = { Trio (List Datagram) };

    ghost view = { λ q. record { zero = q.zero.items; one = q.one.items; two = q.two.items } };
}

impl Queues {
    /// Empty queues.
    fn new(alloc: Global) -> Queues
        ensures { result ≡ record { zero = []; one = []; two = [] } }
    {
        Queues {
            zero: VecDeque::new(alloc),
            one: VecDeque::new(alloc),
            two: VecDeque::new(alloc),
        }
    }

    /// Each datagram in the queue of its place.
    pub fn of(alloc: Global, waiting: Vec<Waiting>) -> Result<Queues, AllocError>
        ensures { IfOk result (λ queues. (place : Place)
            → value_of queues place ≡ waiting_at place waiting.items) }
    {
        let mut queues = Queues::new(alloc);
        for one in waiting {
            queues.push(one)?;
        }
        Ok(queues)
    }

    // The datagram comes last in the queue of its place.
    fn push(&mut self, one: Waiting) -> Result<(), AllocError>
        ensures { OnOk result ((place : Place)
            → value_of self.new place ≡ value_of self.old place ++ waiting_at place (one ∷ [])) }
    {
        match one.place {
            ServerId::Zero => self.zero.push_back(one.datagram)?,
            ServerId::One => self.one.push_back(one.datagram)?,
            ServerId::Two => self.two.push_back(one.datagram)?,
        }
        Ok(())
    }

    /// The first datagram of a place.
    pub fn first(&self, place: ServerId) -> Option<&Datagram>
        ensures { option_copied result ≡ first (value_of self.now place) }
    {
        match place {
            ServerId::Zero => self.zero.front(),
            ServerId::One => self.one.front(),
            ServerId::Two => self.two.front(),
        }
    }

    /// Takes the first datagram of a place.
    pub fn take_first(&mut self, place: ServerId) -> Option<Datagram>
        ensures value { result ≡ first (value_of self.old place) }
        ensures rest { self.new
            ≡ with_value self.old place (drop 1 (value_of self.old place)) }
    {
        match place {
            ServerId::Zero => self.zero.pop_front(),
            ServerId::One => self.one.pop_front(),
            ServerId::Two => self.two.pop_front(),
        }
    }
}
