//! The cells after some of the records of a log.

ghost use Rattle.std.specs.Prelude.{◌≡◌, ℕ, ◌+◌, ◌-◌, ◌≤◌, length, Option, None, Some, OnOk, OnErr, Err};
ghost use Rattle.std.specs.Option.{option_copied};
ghost use Rattle.harp_types.specs.Streams.{Rose};
ghost use Rattle.harp_cells.specs.Effect.{Reads};
ghost use Rattle.overlay.specs.Index.{IsIndexOf};
ghost use Rattle.overlay.specs.Overlay.{told_over, found_over};

use crate::index::CellIndex;
use crate::set::last_set;
use harp_cells::{Cell, CellFault, CellRead, Change, ChangeLog, Value};

/// The cells after the records of a log up to an index: what the last record that sets a cell makes
/// of it, and else what lies under. A read costs a look-up in the index and a pass over the changes
/// for each record that it looks at, and copies no value.
#[derive(Drop)]
pub struct At<'a, U, L: ChangeLog> {
    under: &'a mut U,
    index: &'a CellIndex,
    log: &'a L,
    upto: u64,
    // The changes of a record from the last one on that sets the cell that was fetched last; none
    // where it was fetched from what lies under.
    found: &'a [Change],
    ghost to: { upto ≤ L.base log.now + length (L.records log.now) },
    ghost is: { IsIndexOf index.now (L.base log.now) (L.records log.now) },
}

impl<'a, U: CellRead, L: ChangeLog> At<'a, U, L> {
    /// The cells after the records up to `upto`. Nothing is fetched.
    pub fn new(under: &'a mut U, index: &'a CellIndex, log: &'a L, upto: u64) -> At<'a, U, L>
        requires from { L.base log.now ≤ upto }
        requires to { upto ≤ L.base log.now + length (L.records log.now) }
        requires index { IsIndexOf index.now (L.base log.now) (L.records log.now) }
        ensures same_reference { result.under.ghost_name ≡ under.entry.ghost_name }
        ensures under { result.under.now ≡ under.old }
        ensures log { result.log.now ≡ log.now }
        ensures upto { result.upto ≡ upto }
    {
        At {
            under,
            index,
            log,
            upto,
            found: &[],
        }
    }
}

impl<U: CellRead, L: ChangeLog> CellRead for At<'_, U, L> {
    ghost cells = { λ s. told_over (L.base s.log.now) (L.records s.log.now) s.upto
        (U.cells s.under.now) };

    ghost found = { λ s. found_over s.found.now (U.found s.under.now) };

    ghost faults = { λ s. U.faults s.under.now };

    ghost Left = { ℕ × U.Left };

    ghost left = { λ s. (s.under.ghost_name, U.left s.under.now) };

    fn fetch(&mut self, cell: Cell) -> Result<(), CellFault> {
        self.found = last_set(self.index, self.log, self.upto, cell);
        if self.found.is_empty() {
            self.under.fetch(cell)
        } else {
            Ok(())
        }
    }

    fn value(&self) -> Option<&Value> {
        match self.found.first() {
            None => self.under.value(),
            Some(Change::Put { value, .. }) => Some(value.get()),
            Some(Change::Erase { .. } | Change::EraseFrom { .. }) => None,
        }
    }
}
