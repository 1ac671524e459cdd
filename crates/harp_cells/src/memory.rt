//! Cells in memory.

ghost use Rattle.std.specs.Prelude.{◌≡◌, ◌<◌, ◌≤◌, [], ◌∷◌, length, true, None, Some, IsOk, IsSome, IfNone, IfSome, OnOk, OnErr, Err, if◌then◌else◌};
ghost use Rattle.std.specs.Option.{option_copied};
ghost use Rattle.harp_types.specs.Streams.{Rose};
ghost use Rattle.harp_cells.specs.declared.cell.Cell.{Cell as CellName};
ghost use Rattle.harp_cells.specs.declared.cell.Cell.TheVariants as cell;
ghost use Rattle.harp_cells.specs.declared.change.Change.TheVariants as change;
ghost use Rattle.harp_cells.specs.Effect.{is_cell, is_block_from, Reads};
ghost use Rattle.harp_cells.specs.Memory.{Entries, cell_in, held, fetched_in, HoldsNothing, BecomesBy, BecomesByPart};

use crate::cell::{Cell, Key};
use crate::change::Change;
use crate::reads::{CellFault, CellRead};
use crate::value::Value;
use std::alloc::{AllocError, Global};
use std::collections::BTreeMap;
use std::marker::Model;

/// A map of cells in memory. A read and a change cost a logarithm of the number of values, and an
/// erasure of blocks one for each block that goes.
#[derive(Drop)]
pub struct MemCells {
    values: BTreeMap<Key, Value>,
    fetched: Option<Cell>,
}

impl Model for MemCells {
    ghost use Rattle.harp_cells.specs.Memory.{Keyed};

    ghost Value = { Keyed };

    ghost view = { λ m. record { entries = m.values.entries; fetched = m.fetched } };
}

// The number of the object's first block that holds a value, from a number on.
fn first_block(values: &BTreeMap<Key, Value>, object: u32, first: u32) -> Option<u32>
    ensures from { IfSome result (λ block. first ≤ block) }
    ensures found { IfSome result (λ block. IsSome
        (cell_in values.now.entries (cell.Block object block))) }
    ensures none { IfNone result ((c : CellName) → is_block_from object first c ≡ true
        → cell_in values.now.entries c ≡ None) }
{
    let (key, _) = values.range((3, object, first)..).next()?;
    if key.0 == 3 && key.1 == object {
        Some(key.2)
    } else {
        None
    }
}

// The value of a cell goes, where there is one.
fn drop_value(values: &mut BTreeMap<Key, Value>, cell: Cell)
    ensures gone { (c : CellName) → cell_in values.new.entries c ≡ (if is_cell cell c then None
        else cell_in values.old.entries c) }
    ensures fewer { IsSome (cell_in values.old.entries cell)
        → length values.new.entries < length values.old.entries }
{
    values.remove(&cell.key());
}

impl MemCells {
    /// No cells.
    #[tactic(auto, unfolding(crate::specs::Memory::cell_in))]
    pub fn new(alloc: Global) -> MemCells
        ensures cells { HoldsNothing result }
        ensures fetched { result.fetched ≡ None }
    {
        MemCells {
            values: BTreeMap::new(alloc),
            fetched: None,
        }
    }

    /// The cell holds the value. Where memory runs out, nothing is changed.
    pub fn put(&mut self, cell: Cell, value: Value) -> Result<(), AllocError>
        ensures put { OnOk result (BecomesBy (change.Put cell value ∷ []) self.old self.new) }
        ensures kept { OnErr result (self.new ≡ self.old) }
        ensures fetched { self.new.fetched ≡ self.old.fetched }
    {
        self.values.insert(cell.key(), value)?;
        Ok(())
    }

    /// The cell is absent.
    pub fn erase(&mut self, cell: Cell)
        ensures erased { BecomesBy (change.Erase cell ∷ []) self.old self.new }
        ensures fetched { self.new.fetched ≡ self.old.fetched }
    {
        drop_value(&mut self.values, cell);
    }

    /// All blocks of the object from the first on are absent.
    pub fn erase_from(&mut self, object: u32, first: u32)
        ensures erased { BecomesBy (change.EraseFrom object first ∷ []) self.old self.new }
        ensures fetched { self.new.fetched ≡ self.old.fetched }
    {
        while let Some(block) = first_block(&self.values, object, first) {
            drop_value(&mut self.values, Cell::Block { object, block });
        }
    }

    fn apply_one(&mut self, alloc: Global, change: &Change) -> Result<(), AllocError>
        ensures done { OnOk result (BecomesBy (change.now ∷ []) self.old self.new) }
        ensures kept { OnErr result (self.new ≡ self.old) }
        ensures fetched { self.new.fetched ≡ self.old.fetched }
    {
        match change {
            Change::Put { cell, value } => self.put(*cell, value.get().copy(alloc)?)?,
            Change::Erase { cell } => self.erase(*cell),
            Change::EraseFrom { object, first } => self.erase_from(*object, *first),
        }
        Ok(())
    }

    /// Makes the changes, one after the other. Where memory runs out, a first part of them is made.
    pub fn apply(&mut self, alloc: Global, changes: &[Change]) -> Result<(), AllocError>
        ensures done { OnOk result (BecomesBy changes.now self.old self.new) }
        ensures part { OnErr result (BecomesByPart changes.now self.old self.new) }
        ensures fetched { self.new.fetched ≡ self.old.fetched }
    {
        for change in changes {
            self.apply_one(alloc, change)?;
        }
        Ok(())
    }
}

impl CellRead for MemCells {
    ghost cells = { λ m. Some (held m) };

    ghost found = { λ m. fetched_in m };

    ghost faults = { λ m. 0 };

    ghost Left = { Entries };

    ghost left = { λ m. m.entries };

    /// It always succeeds.
    fn fetch(&mut self, cell: Cell) -> Result<(), CellFault>
        ensures found { OnOk result (Reads (Some (held self.old)) cell (fetched_in self.new)) }
        ensures none { OnErr result (fetched_in self.new ≡ None) }
        ensures kept { Some (held self.new) ≡ Some (held self.old) }
        ensures left { self.new.entries ≡ self.old.entries }
        ensures rose { result ≡ Err CellFault.StoreFailed → Rose 0 0 }
        ensures count { 0 ≤ 0 }

        ensures ok { IsOk result }
        ensures entries { self.new ≡ record { entries = self.old.entries; fetched = Some cell } }
    {
        self.fetched = Some(cell);
        Ok(())
    }

    fn value(&self) -> Option<&Value>
        ensures { option_copied result ≡ fetched_in self.now }
    {
        self.values.get(&self.fetched?.key())
    }
}
