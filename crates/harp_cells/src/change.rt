//! Changes of cells.

ghost use Rattle.std.specs.Prelude.{◌≡◌, IfOk};
ghost use Rattle.harp_cells.specs.declared.change.Change.TheVariants as change;
ghost use Rattle.harp_cells.specs.Effect.{sets};

use crate::cell::Cell;
use crate::shared::SharedValue;
use crate::value::Value;
use std::alloc::{AllocError, Global};

/// A change of cells, whatever they hold before.
#[derive(Drop)]
pub enum Change {
    /// The cell holds the value.
    Put { cell: Cell, value: SharedValue },
    /// The cell is absent.
    Erase { cell: Cell },
    /// All blocks of the object from the first on are absent.
    EraseFrom { object: u32, first: u32 },
}

impl Change {
    /// The change that puts a value in a cell. The value isn't copied.
    pub fn put(alloc: Global, cell: Cell, value: Value) -> Result<Change, AllocError>
        ensures { IfOk result (λ put. put ≡ change.Put cell value) }
    {
        Ok(Change::Put {
            cell,
            value: SharedValue::new(alloc, value)?,
        })
    }

    /// An equal change, which shares the value.
    pub fn copy(&self, _alloc: Global) -> Result<Change, AllocError>
        ensures { IfOk result (λ copy. copy ≡ self.now) }
    {
        match self {
            Change::Put { cell, value } => Ok(Change::Put {
                cell: *cell,
                value: value.share()?,
            }),
            Change::Erase { cell } => Ok(Change::Erase { cell: *cell }),
            Change::EraseFrom { object, first } => Ok(Change::EraseFrom {
                object: *object,
                first: *first,
            }),
        }
    }

    /// Whether the change sets the cell, to a value or to none.
    #[tactic(auto, unfolding(crate::specs::Effect::sets))]
    pub fn sets(&self, cell: Cell) -> bool
        ensures { result ≡ sets self.now cell }
    {
        match self {
            Change::Put { cell: at, .. } => at.is(cell),
            Change::Erase { cell: at } => at.is(cell),
            Change::EraseFrom { object, first } => cell.is_block_from(*object, *first),
        }
    }
}
