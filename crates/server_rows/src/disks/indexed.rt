//! A log with its index, which grow together and are dropped together.

ghost use Rattle.std.specs.Prelude.{◌≡◌, ◌≤◌, ◌<◌, ◌+◌, ◌^◌, IfSome, OnSome};
ghost use Rattle.volatile_log.specs.Log.{top};
ghost use Rattle.overlay.specs.Index.{Entries};
ghost use Rattle.server_rows.specs.Indexed.{IsOver};

use crate::disks::records::record;
use event_record::{Index, Record};
use harp_cells::Change;
use overlay::CellIndex;
use std::alloc::Global;
use volatile_log::ActiveLog;

/// A log and the index over its records.
#[derive(Drop)]
pub(crate) struct Indexed {
    pub(crate) log: ActiveLog,
    pub(crate) index: CellIndex,
    ghost is: { IsOver index log },
}

// One more record.
fn add(log: &mut ActiveLog, index: &mut CellIndex, item: Record) -> Option<()>
    requires is { IsOver index.old log.old }
    requires next { item.index ≡ top log.old + 1 }
    requires limit { item.index < 2 ^ 62 }
    ensures over { OnSome result (IsOver index.new log.new) }
{
    index
        .add(item.index().get(), item.fields().changes.as_slice())
        .ok()?;
    match log.append(item) {
        Ok(()) => Some(()),
        Err(_) => None,
    }
}

// Applies all records, so that each of them may go.
fn apply_all(log: &mut ActiveLog)
    ensures over { (index : Entries) → IsOver index log.old → IsOver index log.new }
    ensures base { log.new.base ≡ log.old.base }
    ensures lb { log.new.lb ≡ top log.old }
{
    let top = log.top();
    log.commit_to(top);
    log.applied_to(top);
    log.lower_to(top);
}

// Without the records up to n.
fn drop_both(log: &mut ActiveLog, index: &mut CellIndex, n: u64)
    requires is { IsOver index.old log.old }
    requires base { log.old.base ≤ n }
    requires lb { n ≤ log.old.lb }
    ensures over { IsOver index.new log.new }
{
    index.drop_to(log, n);
    log.drop_to(n);
}

impl Indexed {
    /// No record.
    pub(crate) fn new(alloc: Global) -> Option<Indexed> {
        Some(Indexed {
            log: ActiveLog::start(alloc).ok()?,
            index: CellIndex::new(alloc),
        })
    }

    /// With one more record, of these changes.
    pub(crate) fn append(self, alloc: Global, changes: Vec<Change>) -> Option<Indexed> {
        let Indexed { mut log, mut index } = self;
        let place = log.top() + 1;
        if place >= 1 << 62 {
            return None;
        }
        let record = record(alloc, Index::new(place), changes)?;
        add(&mut log, &mut index, record)?;
        Some(Indexed { log, index })
    }

    /// Without the records up to n, where it is from the base to the top.
    pub(crate) fn drop_to(self, n: u64) -> Option<Indexed> {
        let Indexed { mut log, mut index } = self;
        if n < log.base() || n > log.top() {
            return None;
        }
        apply_all(&mut log);
        drop_both(&mut log, &mut index, n);
        Some(Indexed { log, index })
    }
}
