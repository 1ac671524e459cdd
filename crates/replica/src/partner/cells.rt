//! What a partner's cells hold.

ghost use Rattle.std.specs.Prelude.{◌≡◌, ◌≤◌, Err, IfOk};
ghost use Rattle.cell_cache.specs.Entries.{AreOf};
ghost use Rattle.harp_types.specs.Streams.{Rose};
ghost use Rattle.harp_cells.specs.Effect.{Reads};
ghost use Rattle.harp_store.specs.Disk.{cells_told};
ghost use Rattle.tree_log.specs.Committed.{committed_over};

use crate::partner::Partner;
use harp_cells::{Cell, CellFault, Value};
use harp_store::Store;
use std::alloc::Global;

impl Partner {
    /// What a cell holds after the committed updates.
    pub fn cell<D: Store>(
        &mut self,
        alloc: Global,
        store: &mut D,
        cell: Cell,
    ) -> Result<Option<Value>, CellFault>
        requires { AreOf (cells_told (D.told store.old)) self.old.cached }
        ensures value { IfOk result (Reads (committed_over self.old.log
            (cells_told (D.told store.old))) cell) }
        ensures same { self.new ≡ record self.old { cached = self.new.cached } }
        ensures cached { AreOf (cells_told (D.told store.new)) self.new.cached }
        ensures kept { D.told store.new ≡ D.told store.old }
        ensures rose { result ≡ Err CellFault.StoreFailed
            → Rose (D.faults store.old) (D.faults store.new) }
        ensures count { D.faults store.old ≤ D.faults store.new }
    {
        let _ = self.log.top();
        self.log.cell(alloc, store, cell)
    }
}
