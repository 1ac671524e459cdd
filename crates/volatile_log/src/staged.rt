//! The records that a server pulls for a view.

ghost use Rattle.std.specs.Prelude.{◌≡◌, ◌+◌, ◌<◌, ◌≤◌, ◌^◌, ◌↔◌, IfOk, IfErr, IsTrue, OnOk, []};
ghost use Rattle.std.specs.VecDeque.{deque_capacity};
ghost use Rattle.volatile_log.specs.Log.{IsStaged, next, room, with_staged};

use crate::records::take_room;
use event_record::Record;
use std::alloc::{AllocError, Global};
use std::collections::VecDeque;
use std::marker::Model;

/// The staging list: records from a first index on, which a server collects up to a view's start
/// before it accepts the view. Its old log stays whole until then.
#[derive(Drop)]
pub struct Staged {
    first: u64,
    start: u64,
    records: VecDeque<Record>,
}

impl Model for Staged {
    ghost use Rattle.volatile_log.specs.Log.{IsStaged, StagedValue};

    ghost Value = { StagedValue };

    ghost view = { λ s. record { first = s.first; start = s.start; records = s.records.items } };

    ghost invariant = { λ s. IsStaged (record { first = s.first; start = s.start; records = s.records.items }) };
}

impl Staged {
    /// An empty list for the records from `first` to `start`. It takes the memory for them at once.
    pub fn new(alloc: Global, first: u64, start: u64) -> Result<Staged, AllocError>
        requires few { start < first + room }
        requires limit { start < 2 ^ 62 }
        ensures { IfOk result (λ s. s ≡ record { first = first; start = start; records = [] }) }
    {
        let wanted = (start + 1).saturating_sub(first);
        Ok(Staged {
            first,
            start,
            records: VecDeque::with_capacity(alloc, wanted as usize)?,
        })
    }

    /// Takes the next record. For want of memory it comes back, and the list is as before.
    pub fn take(&mut self, item: Record) -> Result<(), (AllocError, Record)>
        requires wanted { next self.old ≤ self.old.start }
        requires next { item.index ≡ next self.old }
        ensures ok { OnOk result (self.new ≡ with_staged self.old item) }
        ensures err { IfErr result (λ both. (both.1 ≡ item) × (self.new ≡ self.old)) }
    {
        match self.records.push_back(item) {
            Ok(()) => Ok(()),
            Err(failed) => Err((AllocError, failed.value)),
        }
    }

    /// Whether all records up to the start are there.
    pub fn is_full(&self) -> bool
        ensures { IsTrue result ↔ (self.now.start < next self.now) }
    {
        self.next() > self.start
    }

    /// The index of the record that is wanted next.
    pub fn next(&self) -> u64
        ensures value { result ≡ next self.now }
        ensures order { IsStaged self.now }
    {
        self.first + self.records.len() as u64
    }

    /// The records.
    pub(crate) fn into_records(self) -> VecDeque<Record>
        ensures value { result.items ≡ self.records }
        ensures order { IsStaged self }
    {
        self.records
    }

    /// The records, with the memory for all that a log has room for. For want of memory the list comes back.
    pub(crate) fn into_room(self) -> Result<VecDeque<Record>, Staged>
        ensures ok { IfOk result (λ records. (records.items ≡ self.records) × (room ≤ deque_capacity records)) }
        ensures err { IfErr result (λ staged. staged ≡ self) }
        ensures order { IsStaged self }
    {
        let mut staged = self;
        if take_room(&mut staged.records).is_err() {
            return Err(staged);
        }
        Ok(staged.records)
    }
}
