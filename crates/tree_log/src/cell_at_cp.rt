//! What a cell holds after the committed records of a log.

ghost use Rattle.std.specs.Prelude.{◌≡◌, ◌≤◌, IfOk, Err};
ghost use Rattle.cell_cache.specs.Entries.{AreOf};
ghost use Rattle.harp_types.specs.Streams.{Rose};
ghost use Rattle.harp_cells.specs.Effect.{Reads};
ghost use Rattle.harp_store.specs.Disk.{cells_told};
ghost use Rattle.overlay.specs.Index.{IsIndexOf};
ghost use Rattle.tree_log.specs.Committed.{committed_over};
ghost use Rattle.tree_log.specs.TreeLog.{changes_in};

use crate::tree_log::{TreeLog, follow};
use cell_cache::Cached;
use harp_cells::{Cell, CellFault, CellRead, Value};
use harp_store::Store;
use overlay::{At, CellIndex};
use std::alloc::{AllocError, Global};
use volatile_log::ActiveLog;

// A copy of what was fetched.
fn fetched<R: CellRead>(alloc: Global, cells: &R) -> Result<Option<Value>, AllocError>
    ensures { IfOk result (λ value. value ≡ R.found cells.now) }
{
    match cells.value() {
        None => Ok(None),
        Some(value) => Ok(Some(value.copy(alloc)?)),
    }
}

// What a cell holds after the committed records of a log, over other cells.
fn value_over<U: CellRead>(
    alloc: Global,
    under: &mut U,
    index: &CellIndex,
    log: &ActiveLog,
    cell: Cell,
) -> Result<Option<Value>, CellFault>
    requires { IsIndexOf index.now log.now.base (changes_in log.now.records) }
    ensures value { IfOk result (Reads (committed_over log.now (U.cells under.old)) cell) }
    ensures left { U.left under.new ≡ U.left under.old }
    ensures rose { result ≡ Err CellFault.StoreFailed
        → Rose (U.faults under.old) (U.faults under.new) }
    ensures count { U.faults under.old ≤ U.faults under.new }
{
    let mut at = At::new(under, index, log, log.cp());
    at.fetch(cell)?;
    Ok(fetched(alloc, &at)?)
}

impl TreeLog {
    /// What a cell holds after the committed updates.
    pub fn cell<D: Store>(
        &mut self,
        alloc: Global,
        store: &mut D,
        cell: Cell,
    ) -> Result<Option<Value>, CellFault>
        requires { AreOf (cells_told (D.told store.old)) self.old.cached }
        ensures value { IfOk result (Reads (committed_over self.old.log
            (cells_told (D.told store.old))) cell) }
        ensures log { self.new.log ≡ self.old.log }
        ensures cached { AreOf (cells_told (D.told store.new)) self.new.cached }
        ensures kept { D.told store.new ≡ D.told store.old }
        ensures rose { result ≡ Err CellFault.StoreFailed
            → Rose (D.faults store.old) (D.faults store.new) }
        ensures count { D.faults store.old ≤ D.faults store.new }
    {
        let _ = self.log.top();
        follow(&mut self.index, &mut self.indexed, &self.log)?;
        let mut cached = Cached::new(alloc, store, &mut self.cache);
        value_over(alloc, &mut cached, &self.index, &self.log, cell)
    }
}
