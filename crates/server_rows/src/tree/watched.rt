//! Cells whose fetches are counted, and of which one can be broken.

use harp_cells::{Cell, CellFault, CellRead, MemCells, Value};
use std::alloc::Global;

/// Cells in memory. A fetch of the broken one fails.
#[derive(Drop)]
pub struct Watched {
    pub cells: MemCells,
    pub broken: Option<Cell>,
    /// The fetches of blocks and slots since this was set to 0.
    pub fetched: u32,
    has_failed: bool,
    faults: u64,
}

impl Watched {
    /// No cells, of which none is broken.
    pub fn new(alloc: Global) -> Watched {
        Watched {
            cells: MemCells::new(alloc),
            broken: None,
            fetched: 0,
            has_failed: false,
            faults: 0,
        }
    }
}

impl CellRead for Watched {
    ghost use Rattle.std.specs.Prelude.{None, if◌then◌else◌};
    ghost use Rattle.harp_cells.specs.Memory.{fetched_in};

    ghost cells = { λ w. None };

    ghost found = { λ w. if w.has_failed then None else fetched_in w.cells };

    ghost faults = { λ w. w.faults };

    ghost Left = { Unit {0} };

    ghost left = { λ w. tt };

    fn fetch(&mut self, cell: Cell) -> Result<(), CellFault> {
        self.has_failed = self.broken == Some(cell);
        if self.has_failed {
            self.faults = self.faults.saturating_add(1);
            return Err(CellFault::StoreFailed);
        }
        if matches!(cell, Cell::Block { .. } | Cell::Slot { .. }) {
            self.fetched = self.fetched.saturating_add(1);
        }
        self.cells.fetch(cell)
    }

    fn value(&self) -> Option<&Value> {
        if self.has_failed {
            None
        } else {
            self.cells.value()
        }
    }
}
