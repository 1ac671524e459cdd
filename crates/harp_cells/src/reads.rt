//! Where cells and changes are read from.

ghost use Rattle.std.specs.Prelude.{◌≡◌, ◌≤◌, ◌+◌, ◌-◌, ◌<◌, ℕ, List, [], Option, None, length, slice_index_or, OnOk, OnErr, Err};
ghost use Rattle.std.specs.Option.{option_copied};
ghost use Rattle.harp_types.specs.Streams.{Rose};
ghost use Rattle.harp_cells.specs.declared.value.Value.{Value as CellValue};
ghost use Rattle.harp_cells.specs.declared.change.Change.{Change as CellChange};
ghost use Rattle.harp_cells.specs.Effect.{Cells, Reads};

use crate::cell::Cell;
use crate::change::Change;
use crate::value::Value;
use std::alloc::AllocError;

/// Why a cell wasn't read.
#[derive(Clone, Copy, PartialEq, Eq)]
pub enum CellFault {
    /// The store under the cells failed.
    StoreFailed,
    /// No memory was left.
    NoMemory,
}

impl From<AllocError> for CellFault {
    ghost use Rattle.harp_cells.specs.declared.reads.CellFault.TheVariants.{NoMemory};

    ghost from_gives = { λ _ fault. fault ≡ NoMemory };

    fn from(_: AllocError) -> CellFault {
        CellFault::NoMemory
    }
}

/// Cells that can be read: a read of one is `fetch`, and then `value`.
pub trait CellRead {
    // What each cell holds, where the cells tell it.
    ghost cells: { Self → Option Cells };

    // What the cell holds that was fetched last: nothing where it is absent, where that fetch
    // failed, or where none was made.
    ghost found: { Self → Option CellValue };

    // How many calls of the store failed, which never falls.
    ghost faults: { Self → ℕ };

    // What reads leave as it is; of a reader that borrows what lies under it, also which value it
    // borrows.
    ghost Left: { Type 0 };

    ghost left: { Self → Self.Left };

    /// Fetches what a cell holds. It changes no cell.
    fn fetch(&mut self, cell: Cell) -> Result<(), CellFault>
        ensures found { OnOk result (Reads (cells self.old) cell (found self.new)) }
        ensures none { OnErr result (found self.new ≡ None) }
        ensures kept { cells self.new ≡ cells self.old }
        ensures left { left self.new ≡ left self.old }
        ensures rose { result ≡ Err CellFault.StoreFailed
            → Rose (faults self.old) (faults self.new) }
        ensures count { faults self.old ≤ faults self.new };

    /// Lends what was fetched last. It takes no memory.
    fn value(&self) -> Option<&Value>
        ensures { option_copied result ≡ found self.now };
}

/// Changes by the records that they came with. The records have consecutive indices, from the one
/// above the base on.
pub trait ChangeLog {
    // The index of the record before the first one.
    ghost base: { Self → ℕ };

    // The changes of each record, from the first one on.
    ghost records: { Self → List (List CellChange) };

    /// The index of the first record; one above `last` where there is none.
    fn first(&self) -> u64
        ensures { result ≡ base self.now + 1 };

    /// The index of the last record, or of the one before the first where there is none.
    fn last(&self) -> u64
        ensures { result ≡ base self.now + length (records self.now) };

    /// The changes of a record.
    fn changes(&self, index: u64) -> &[Change]
        requires from { base self.now < index }
        requires to { index ≤ base self.now + length (records self.now) }
        ensures { result.now ≡ slice_index_or (records self.now) (index - (base self.now + 1)) [] };
}
