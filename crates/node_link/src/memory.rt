//! A link in memory, some of whose calls fail.

ghost use Rattle.std.specs.Prelude.{◌≡◌, ◌≤◌, [], ◌↔◌, Some, IfOk, OnOk, OnErr, IsErr, Err};
ghost use Rattle.harp_types.specs.Streams.{Rose};
ghost use Rattle.harp_types.specs.Memory.{FailsNext, before_calls, after_fault, after_success};
ghost use Rattle.harp_types.specs.Trio.{value_of};
ghost use Rattle.harp_types.specs.declared.server.ServerId.{ServerId as Place};
ghost use Rattle.node_link.specs.Traffic.{TakesNext, next_at, with_sent, without_next};
ghost use Rattle.node_link.specs.Memory.{waiting_at};

use crate::link::{Datagram, Link, LinkFault, SentDatagram, TakenDatagram, Waiting};
use crate::queues::Queues;
use harp_types::{Bytes, Failed, FailingCalls, Peer, ServerId};
use std::alloc::{AllocError, Global};
use std::marker::Model;

/// A link that gives the datagrams of a list, and keeps what is sent over it. Nothing that is sent
/// is received again.
#[derive(Drop)]
pub struct MemLink {
    left: Queues,
    taken: Vec<TakenDatagram>,
    sent: Vec<SentDatagram>,
    failing: FailingCalls,
}

impl Model for MemLink {
    ghost use Rattle.node_link.specs.Memory.{Carrying};

    ghost Value = { Carrying };

    ghost view = { λ m. record {
      traffic = record {
        taken = m.taken.items;
        sent = m.sent.items;
        left = m.left;
      };
      failing = m.failing;
    } };
}

impl MemLink {
    /// A link that gives these datagrams, each to its place and those of one place in order. Its
    /// calls with these numbers, from 1, fail.
    pub fn new(alloc: Global, left: Vec<Waiting>, fails: Vec<u64>) -> Result<MemLink, AllocError>
        ensures taken { IfOk result (λ m. m.traffic.taken ≡ []) }
        ensures sent { IfOk result (λ m. m.traffic.sent ≡ []) }
        ensures left { IfOk result (λ m. (place : Place)
            → value_of m.traffic.left place ≡ waiting_at place left.items) }
        ensures failing { IfOk result (λ m. m.failing ≡ before_calls fails.items) }
    {
        Ok(MemLink {
            left: Queues::of(alloc, left)?,
            taken: Vec::new(alloc),
            sent: Vec::new(alloc),
            failing: FailingCalls::new(fails),
        })
    }

    /// The datagrams taken, in order.
    pub fn taken(&self) -> &[TakenDatagram]
        ensures { result.now ≡ self.now.traffic.taken }
    {
        self.taken.as_slice()
    }

    /// The datagrams sent, in order.
    pub fn sent(&self) -> &[SentDatagram]
        ensures { result.now ≡ self.now.traffic.sent }
    {
        self.sent.as_slice()
    }

    // Takes the next datagram of a place, where one is left. Where memory runs out, it is left.
    fn take_next(&mut self, alloc: Global, place: ServerId) -> Result<Option<Datagram>, AllocError>
        ensures value { IfOk result (λ d. d ≡ next_at place self.old.traffic) }
        ensures taken { OnOk result (self.new.traffic ≡ without_next place self.old.traffic) }
        ensures kept { OnErr result (self.new.traffic ≡ self.old.traffic) }
        ensures failing { self.new.failing ≡ self.old.failing }
    {
        let Some(first) = self.left.first(place) else {
            return Ok(None);
        };
        let copy = first.copy(alloc)?;
        self.taken.reserve(1)?;
        if let Some(datagram) = self.left.take_first(place) {
            self.taken.push_reserved(TakenDatagram { place, datagram });
        }
        Ok(Some(copy))
    }

    // Keeps a datagram that is sent. Where memory runs out, it isn't sent.
    fn keep_sent(
        &mut self,
        alloc: Global,
        place: ServerId,
        to: Peer,
        bytes: &[u8],
    ) -> Result<(), AllocError>
        ensures sent { OnOk result (self.new.traffic
            ≡ with_sent (record { place = place; to = to; bytes = bytes.now }) self.old.traffic) }
        ensures kept { OnErr result (self.new.traffic ≡ self.old.traffic) }
        ensures failing { self.new.failing ≡ self.old.failing }
    {
        let bytes = Bytes::from_vec(Vec::from_slice(alloc, bytes)?);
        self.sent.push(SentDatagram { place, to, bytes })?;
        Ok(())
    }
}

impl Link for MemLink {
    ghost told = { λ m. Some m.traffic };

    ghost faults = { λ m. m.failing.faults };

    ghost unsent = { λ _. 0 };

    fn unsent(&self) -> u64 {
        0
    }

    fn bind(&mut self, place: ServerId, port: u16) -> Result<(), Failed>
        ensures kept { Some self.new.traffic ≡ Some self.old.traffic }
        ensures rose { OnErr result (Rose self.old.failing.faults self.new.failing.faults) }
        ensures count { self.old.failing.faults ≤ self.new.failing.faults }

        ensures fails { IsErr result ↔ FailsNext self.old.failing }
        ensures failed { OnErr result (self.new.failing ≡ after_fault self.old.failing) }
        ensures passed { OnOk result (self.new.failing ≡ after_success self.old.failing) }
    {
        if self.failing.call_fails() {
            return Err(Failed);
        }
        Ok(())
    }

    /// It doesn't wait.
    fn receive(
        &mut self,
        alloc: Global,
        place: ServerId,
        wait_ms: u32,
    ) -> Result<Option<Datagram>, LinkFault>
        ensures taken { IfOk result (λ d. TakesNext place d (Some self.old.traffic)
            (Some self.new.traffic)) }
        ensures kept { OnErr result (Some self.new.traffic ≡ Some self.old.traffic) }
        ensures rose { result ≡ Err LinkFault.Failed
            → Rose self.old.failing.faults self.new.failing.faults }
        ensures count { self.old.failing.faults ≤ self.new.failing.faults }

        ensures fails { (result ≡ Err LinkFault.Failed) ↔ FailsNext self.old.failing }
        ensures failed { result ≡ Err LinkFault.Failed
            → self.new.failing ≡ after_fault self.old.failing }
        ensures passed { (result ≡ Err LinkFault.Failed → ⊥)
            → self.new.failing ≡ after_success self.old.failing }
    {
        if self.failing.call_fails() {
            return Err(LinkFault::Failed);
        }
        Ok(self.take_next(alloc, place)?)
    }

    fn send(
        &mut self,
        alloc: Global,
        place: ServerId,
        to: Peer,
        bytes: &[u8],
    ) -> Result<(), LinkFault>
        ensures sent { OnOk result (Some self.new.traffic
            ≡ Some (with_sent (record { place = place; to = to; bytes = bytes.now })
            self.old.traffic)) }
        ensures kept { OnErr result (Some self.new.traffic ≡ Some self.old.traffic) }
        ensures rose { result ≡ Err LinkFault.Failed
            → Rose self.old.failing.faults self.new.failing.faults }
        ensures count { self.old.failing.faults ≤ self.new.failing.faults }

        ensures fails { (result ≡ Err LinkFault.Failed) ↔ FailsNext self.old.failing }
        ensures failed { result ≡ Err LinkFault.Failed
            → self.new.failing ≡ after_fault self.old.failing }
        ensures passed { (result ≡ Err LinkFault.Failed → ⊥)
            → self.new.failing ≡ after_success self.old.failing }
    {
        if self.failing.call_fails() {
            return Err(LinkFault::Failed);
        }
        Ok(self.keep_sent(alloc, place, to, bytes)?)
    }
}
