//! Servers without records.

ghost use Rattle.std.specs.Prelude.{◌≡◌, ◌+◌, ◌<◌, ◌≤◌, IfOk, IfErr};
ghost use Rattle.volatile_log.specs.Log.{adopted_by_empty, adopted_by_lost, next, room};

use crate::active::ActiveLog;
use crate::staged::Staged;
use std::marker::Model;

/// What a data server has that was a storer and lost its records, as by a crash: the number LB of
/// records that are on its disk.
#[derive(Drop)]
pub struct LostLog {
    lb: u64,
}

impl Model for LostLog {
    ghost use Rattle.std.specs.Prelude.{ℕ};

    ghost Value = { ℕ };

    ghost view = { λ l. l.lb };
}

impl LostLog {
    /// What is left of a log where the records up to LB are on the disk.
    pub fn of(lb: u64) -> LostLog
        ensures { result ≡ lb }
    {
        LostLog { lb }
    }

    /// The greatest index up to which all records are on this server's disk.
    pub fn lb(&self) -> u64
        ensures { result ≡ self.now }
    {
        self.lb
    }

    /// The log of a data server that accepts a view with this base and CP: the staged records. It
    /// fails only for want of memory, and then both values come back.
    pub fn adopt(self, staged: Staged, base: u64, cp: u64) -> Result<ActiveLog, (LostLog, Staged)>
        requires full { staged.start < next staged }
        requires first { staged.first ≡ base + 1 }
        requires base { (base ≤ self) × (self ≤ staged.start) }
        requires cp { cp ≤ staged.start }
        requires room { staged.start ≤ base + room }
        ensures ok { IfOk result (λ log. log ≡ adopted_by_lost self staged.records base cp) }
        ensures err { IfErr result (λ both. (both.0 ≡ self) × (both.1 ≡ staged)) }
    {
        match staged.into_room() {
            Ok(records) => Ok(ActiveLog {
                base,
                lb: self.lb,
                ap: self.lb,
                cp: self.lb.max(cp),
                records,
            }),
            Err(staged) => Err((self, staged)),
        }
    }

    /// Nothing, as a server has that becomes a witness.
    pub fn forget(self) -> EmptyLog {
        EmptyLog
    }
}

/// What a server has that stands outside of its view: no log.
#[derive(Drop)]
pub struct EmptyLog;

impl EmptyLog {
    /// No log.
    pub fn new() -> EmptyLog {
        EmptyLog
    }

    /// The log of a witness that accepts a view with this base and CP: the staged records, with LB and
    /// AP at the base. It fails only for want of memory, and then both values come back.
    pub fn adopt(self, staged: Staged, base: u64, cp: u64) -> Result<ActiveLog, (EmptyLog, Staged)>
        requires full { staged.start < next staged }
        requires first { staged.first ≡ base + 1 }
        requires base { base ≤ staged.start }
        requires cp { cp ≤ staged.start }
        requires room { staged.start ≤ base + room }
        ensures ok { IfOk result (λ log. log ≡ adopted_by_empty staged.records base cp) }
        ensures err { IfErr result (λ both. (both.0 ≡ self) × (both.1 ≡ staged)) }
    {
        match staged.into_room() {
            Ok(records) => Ok(ActiveLog {
                base,
                lb: base,
                ap: base,
                cp: base.max(cp),
                records,
            }),
            Err(staged) => Err((self, staged)),
        }
    }
}
