//! The log of a server that takes part in no view.

ghost use Rattle.std.specs.Prelude.{◌≡◌, ◌+◌, ◌<◌, ◌≤◌, ◌⊎◌, ◌↔◌, IfOk, IfErr, IfSome, IsSome};
ghost use Rattle.std.specs.Option.{option_copied};
ghost use Rattle.volatile_log.specs.Log.{IsLog, adopted_log, next, record_at, resumed_log, room, top};

use crate::active::ActiveLog;
use crate::bare::EmptyLog;
use crate::records::{drop_front, take_room};
use crate::staged::Staged;
use event_record::Record;
use std::collections::VecDeque;
use std::marker::Model;

/// A log that is only read: that of a server that rests, or that joined a view and hasn't accepted it.
/// Its records and numbers are those of the log that was frozen or loaded.
#[derive(Drop)]
pub struct FrozenLog {
    pub(crate) base: u64,
    pub(crate) lb: u64,
    pub(crate) ap: u64,
    pub(crate) cp: u64,
    pub(crate) records: VecDeque<Record>,
}

impl Model for FrozenLog {
    ghost use Rattle.volatile_log.specs.Log.{IsLog, LogValue};

    ghost Value = { LogValue };

    ghost view = { λ l. record { base = l.base; lb = l.lb; ap = l.ap; cp = l.cp; records = l.records.items } };

    ghost invariant = { λ l. IsLog (record { base = l.base; lb = l.lb; ap = l.ap; cp = l.cp; records = l.records.items }) };
}

impl FrozenLog {
    /// The log of these records and numbers, which stand as those of a log do. It takes no memory.
    pub fn of(base: u64, lb: u64, ap: u64, cp: u64, items: Vec<Record>) -> FrozenLog
        requires { IsLog (record { base = base; lb = lb; ap = ap; cp = cp; records = items.items }) }
        ensures { result ≡ record { base = base; lb = lb; ap = ap; cp = cp; records = items.items } }
    {
        FrozenLog {
            base,
            lb,
            ap,
            cp,
            records: VecDeque::from_vec(items),
        }
    }

    /// The log of the source of a view with this base. It fails only for want of memory, and then the
    /// log comes back.
    pub fn resume(self, base: u64) -> Result<ActiveLog, FrozenLog>
        requires within { (self.base ≤ base) × (base ≤ top self) }
        requires low { (base ≤ self.lb) ⊎ ((self.lb ≡ self.base) × (self.ap ≡ self.base)) }
        ensures ok { IfOk result (λ log. log ≡ resumed_log self base) }
        ensures err { IfErr result (λ log. log ≡ self) }
    {
        let mut log = self;
        if take_room(&mut log.records).is_err() {
            return Err(log);
        }
        let FrozenLog {
            base: old,
            lb,
            ap,
            cp,
            mut records,
        } = log;
        drop_front(&mut records, (base - old) as usize);
        Ok(ActiveLog {
            base,
            lb: lb.max(base),
            ap: ap.max(base),
            cp: cp.max(base),
            records,
        })
    }

    /// The log of a data server that accepts a view with this base and CP, of which it isn't the
    /// source: the records up to CP and the staged ones, without those up to the base. It fails only
    /// for want of memory, and then both values come back.
    pub fn adopt(self, staged: Staged, base: u64, cp: u64) -> Result<ActiveLog, (FrozenLog, Staged)>
        requires full { staged.start < next staged }
        requires first { staged.first ≡ self.cp + 1 }
        requires base { (self.base ≤ base) × (base ≤ self.lb) }
        requires cp { (self.cp ≤ staged.start) × (cp ≤ staged.start) }
        requires room { staged.start ≤ base + room }
        ensures ok { IfOk result (λ log. log ≡ adopted_log self staged.records base cp) }
        ensures err { IfErr result (λ both. (both.0 ≡ self) × (both.1 ≡ staged)) }
    {
        let mut log = self;
        if take_room(&mut log.records).is_err() {
            return Err((log, staged));
        }
        let FrozenLog {
            base: old,
            lb,
            ap,
            cp: own,
            mut records,
        } = log;
        records.truncate((own - old) as usize);
        drop_front(&mut records, (base - old) as usize);
        let mut more = staged.into_records();
        match records.append(&mut more) {
            Ok(()) => {}
            Err(_) => unreachable!(),
        }
        Ok(ActiveLog {
            base,
            lb,
            ap,
            cp: own.max(cp),
            records,
        })
    }

    /// The same log with LB and AP at the base, as a witness has it.
    pub fn at_base(self) -> FrozenLog
        ensures { result ≡ record self { lb = self.base; ap = self.base } }
    {
        FrozenLog {
            base: self.base,
            lb: self.base,
            ap: self.base,
            cp: self.cp,
            records: self.records,
        }
    }

    /// Nothing, as a server has that becomes a witness or is demoted.
    pub fn forget(self) -> EmptyLog {
        EmptyLog
    }

    /// The record of an index, None exactly outside base + 1 to top.
    pub fn item(&self, index: u64) -> Option<&Record>
        ensures found { IsSome result ↔ ((self.now.base < index) × (index ≤ top self.now)) }
        ensures value { option_copied result ≡ record_at self.now index }
        ensures index { IfSome result (λ r. r.now.index ≡ index) }
    {
        if index <= self.base {
            return None;
        }
        self.records.get((index - self.base - 1) as usize)
    }

    /// The index before the first record.
    pub fn base(&self) -> u64
        ensures value { result ≡ self.now.base }
        ensures order { IsLog self.now }
    {
        self.base
    }

    /// The greatest index up to which all records are on this server's disk.
    pub fn lb(&self) -> u64
        ensures value { result ≡ self.now.lb }
        ensures order { IsLog self.now }
    {
        self.lb
    }

    /// The greatest index up to which all records are applied to this server's tree.
    pub fn ap(&self) -> u64
        ensures value { result ≡ self.now.ap }
        ensures order { IsLog self.now }
    {
        self.ap
    }

    /// The greatest index up to which all records are committed.
    pub fn cp(&self) -> u64
        ensures value { result ≡ self.now.cp }
        ensures order { IsLog self.now }
    {
        self.cp
    }

    /// The index of the last record.
    pub fn top(&self) -> u64
        ensures value { result ≡ top self.now }
        ensures order { IsLog self.now }
    {
        self.base + self.records.len() as u64
    }
}
