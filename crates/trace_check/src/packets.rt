//! What each packet acknowledges.

ghost use Rattle.std.specs.Prelude.{◌≡◌, ℕ, OnOk, None};
ghost use Rattle.trace_check.specs.Packets.{packet_at, IsNumbered};

use crate::marks::Key;
use std::alloc::{AllocError, Global};
use std::collections::BTreeMap;

/// An acknowledgement: between which servers and in which view, its top and the moment that it
/// promises.
#[derive(Clone, Copy)]
pub struct SentAck {
    pub key: Key,
    pub top: u64,
    pub until: u64,
}

/// What the first packet of each number acknowledges, if anything.
#[derive(Drop)]
pub struct Packets {
    /// Those whose number was the next one, from 0, as all numbers of a run are.
    in_order: Vec<Option<SentAck>>,
    /// The others.
    others: BTreeMap<u64, Option<SentAck>>,
}

impl Packets {
    /// There is no packet.
    pub fn new(alloc: Global) -> Packets
        ensures { (number : ℕ) → packet_at result number ≡ None }
    {
        Packets {
            in_order: Vec::new(alloc),
            others: BTreeMap::new(alloc),
        }
    }

    /// What the packet of a number acknowledges, where there is one.
    pub fn get(&self, number: u64) -> Option<Option<SentAck>>
        ensures { result ≡ packet_at self.now number }
    {
        match self.in_order.get(number as usize) {
            Some(ack) => Some(*ack),
            None => self.others.get(&number).copied(),
        }
    }

    /// The number has this packet, unless it has one.
    pub fn note(&mut self, number: u64, ack: Option<SentAck>) -> Result<(), AllocError>
        ensures { OnOk result (IsNumbered number ack self.old self.new) }
    {
        if self.get(number).is_some() {
            return Ok(());
        }
        if number as usize == self.in_order.len() {
            self.in_order.push(ack)?;
            return Ok(());
        }
        self.others.insert(number, ack)?;
        Ok(())
    }
}
