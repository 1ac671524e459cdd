//! The log of a server that is active in its view.

ghost use Rattle.std.specs.Prelude.{◌≡◌, ℕ, ◌+◌, ◌<◌, ◌≤◌, ◌^◌, ◌↔◌, length, IfOk, IfErr, IfSome, IsErr, IsSome, OnOk};
ghost use Rattle.std.specs.Option.{option_copied};
ghost use Rattle.volatile_log.specs.Log.{IsLog, LogValue, applied_to, committed_to, dropped_to, empty_log, lowered_to, record_at, room, top, with_record};

use crate::frozen::FrozenLog;
use crate::records::drop_front;
use event_record::Record;
use harp_types::LOG_ROOM;
use std::alloc::{AllocError, Global};
use std::collections::VecDeque;
use std::marker::Model;

/// The log has no room for another record: 32,768 stand in it.
#[derive(Clone, Copy, PartialEq, Eq)]
pub struct LogFull;

/// A log that records are added to and committed in. It has the records base + 1 to top, at most
/// 32,768 and each with the index of its place; base <= LB <= AP <= CP <= top, all below 2^62.
/// Those up to LB are on this server's disk, those up to AP are applied to its tree, and those up
/// to CP are committed (Harp paper). The room is taken when the log is made.
#[derive(Drop)]
pub struct ActiveLog {
    pub(crate) base: u64,
    pub(crate) lb: u64,
    pub(crate) ap: u64,
    pub(crate) cp: u64,
    pub(crate) records: VecDeque<Record>,
}

impl Model for ActiveLog {
    ghost use Rattle.std.specs.Prelude.{◌≤◌};
    ghost use Rattle.std.specs.VecDeque.{deque_capacity};
    ghost use Rattle.volatile_log.specs.Log.{IsLog, LogValue, room};

    ghost Value = { LogValue };

    ghost view = { λ l. record {
      base = l.base;
      lb = l.lb;
      ap = l.ap;
      cp = l.cp;
      records = l.records.items;
    } };

    ghost invariant = { λ l. IsLog (record {
      base = l.base;
      lb = l.lb;
      ap = l.ap;
      cp = l.cp;
      records = l.records.items;
    })
        × (room ≤ deque_capacity l.records) };
}

impl ActiveLog {
    /// An empty log, all numbers 0. It takes the memory for 32,768 records at once.
    pub fn start(alloc: Global) -> Result<ActiveLog, AllocError>
        ensures { IfOk result (λ log. log ≡ empty_log) }
    {
        Ok(ActiveLog {
            base: 0,
            lb: 0,
            ap: 0,
            cp: 0,
            records: VecDeque::with_capacity(alloc, LOG_ROOM)?,
        })
    }

    /// Adds the next record. LogFull comes exactly where 32,768 records stand; the record comes
    /// back with it, and the log is as before. It takes no memory.
    pub fn append(&mut self, item: Record) -> Result<(), (LogFull, Record)>
        requires next { item.index ≡ top self.old + 1 }
        requires limit { item.index < 2 ^ 62 }
        ensures ok { OnOk result (self.new ≡ with_record self.old item) }
        ensures full { IsErr result ↔ (length self.old.records ≡ room) }
        ensures back { IfErr result (λ both. (both.1 ≡ item) × (self.new ≡ self.old)) }
    {
        if self.records.len() == LOG_ROOM {
            return Err((LogFull, item));
        }
        self.records.push_back_reserved(item);
        Ok(())
    }

    /// Commits the records up to this index, which is from CP to top.
    pub fn commit_to(&mut self, n: u64)
        requires { (self.old.cp ≤ n) × (n ≤ top self.old) }
        ensures { self.new ≡ committed_to self.old n }
    {
        self.cp = n;
    }

    /// Applies the records up to this index, which is from AP to CP.
    pub fn applied_to(&mut self, n: u64)
        requires { (self.old.ap ≤ n) × (n ≤ self.old.cp) }
        ensures { self.new ≡ applied_to self.old n }
    {
        self.ap = n;
    }

    /// Keeps that the records up to this index, which is from LB to AP, are on this server's disk.
    pub fn lower_to(&mut self, n: u64)
        requires { (self.old.lb ≤ n) × (n ≤ self.old.ap) }
        ensures { self.new ≡ lowered_to self.old n }
    {
        self.lb = n;
    }

    /// Drops the records up to this index, which is from the base to LB.
    pub fn drop_to(&mut self, n: u64)
        requires { (self.old.base ≤ n) × (n ≤ self.old.lb) }
        ensures { self.new ≡ dropped_to self.old n }
    {
        drop_front(&mut self.records, (n - self.base) as usize);
        self.base = n;
    }

    /// The same log, to which nothing is added and in which nothing is committed any more.
    pub fn freeze(self) -> FrozenLog
        ensures { result ≡ self }
    {
        FrozenLog {
            base: self.base,
            lb: self.lb,
            ap: self.ap,
            cp: self.cp,
            records: self.records,
        }
    }

    /// The record of an index, None exactly outside base + 1 to top.
    pub fn item(&self, index: u64) -> Option<&Record>
        ensures found { IsSome result ↔ ((self.now.base < index) × (index ≤ top self.now)) }
        ensures value { option_copied result ≡ record_at self.now index }
        ensures index { IfSome result (λ r. r.now.index ≡ index) }
    {
        if index <= self.base {
            return None;
        }
        self.records.get((index - self.base - 1) as usize)
    }

    /// The index before the first record.
    pub fn base(&self) -> u64
        ensures value { result ≡ self.now.base }
        ensures order { IsLog self.now }
    {
        self.base
    }

    /// The greatest index up to which all records are on this server's disk.
    pub fn lb(&self) -> u64
        ensures value { result ≡ self.now.lb }
        ensures order { IsLog self.now }
    {
        self.lb
    }

    /// The greatest index up to which all records are applied to this server's tree.
    pub fn ap(&self) -> u64
        ensures value { result ≡ self.now.ap }
        ensures order { IsLog self.now }
    {
        self.ap
    }

    /// The greatest index up to which all records are committed.
    pub fn cp(&self) -> u64
        ensures value { result ≡ self.now.cp }
        ensures order { IsLog self.now }
    {
        self.cp
    }

    /// The index of the last record.
    pub fn top(&self) -> u64
        ensures value { result ≡ top self.now }
        ensures order { IsLog self.now }
    {
        self.base + self.records.len() as u64
    }
}
