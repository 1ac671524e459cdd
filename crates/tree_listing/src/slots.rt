//! The used slots of a directory.

ghost use Rattle.std.specs.Prelude.{◌≡◌, ◌≤◌, ◌++◌, Option, Some, Err, IfOk, OnOk};
ghost use Rattle.harp_types.specs.Streams.{Rose};
ghost use Rattle.file_tree.specs.declared.object.Slot.{Slot};
ghost use Rattle.file_tree.specs.Tree.{Slots};
ghost use Rattle.inode_dirs.specs.Slots.{TellsSlot, TellsSlots, slot_of};
ghost use Rattle.tree_listing.specs.Listing.{slot_listed, slots_listed};
ghost use Rattle.tree_listing.specs.Reading.{at_most_one};

use crate::listing::{ListedSlot, Row};
use harp_cells::{Cell, CellFault, CellRead, Value};
use harp_types::Bounded;
use std::alloc::{AllocError, Global};

fn slot_in(alloc: Global, value: &Value, slot: u32) -> Result<Option<ListedSlot>, AllocError>
    ensures { IfOk result (λ s. at_most_one s ≡ slot_listed slot (slot_of (Some value.now))) }
{
    match value {
        Value::Slot { object, name } => {
            let name = Vec::from_slice(alloc, name.as_slice())?;
            Ok(Some(ListedSlot {
                slot,
                object: *object,
                name: Bounded::new(name),
            }))
        }
        Value::Meta { .. }
        | Value::Object { .. }
        | Value::Unformed { .. }
        | Value::Block { .. }
        | Value::Client { .. }
        | Value::Saved { .. }
        | Value::SavedCred { .. } => Ok(None),
    }
}

fn slot_found<R: CellRead>(
    alloc: Global,
    cells: &R,
    slot: u32,
) -> Result<Option<ListedSlot>, AllocError>
    ensures { IfOk result (λ s. at_most_one s ≡ slot_listed slot (slot_of (R.found cells.now))) }
{
    match cells.value() {
        None => Ok(None),
        Some(value) => Ok(slot_in(alloc, value, slot)?),
    }
}

// Lists a slot, where it is used.
fn list_slot<R: CellRead>(
    alloc: Global,
    cells: &mut R,
    dir: u32,
    slot: u32,
    listed: &mut Row<ListedSlot>,
) -> Result<(), CellFault>
    ensures slot { (s : Option Slot) → TellsSlot (R.cells cells.old) dir slot s
        → OnOk result (listed.new ≡ listed.old ++ slot_listed slot s) }
    ensures kept { R.cells cells.new ≡ R.cells cells.old }
    ensures left { R.left cells.new ≡ R.left cells.old }
    ensures rose { result ≡ Err CellFault.StoreFailed
        → Rose (R.faults cells.old) (R.faults cells.new) }
    ensures count { R.faults cells.old ≤ R.faults cells.new }
{
    cells.fetch(Cell::Slot { object: dir, slot })?;
    if let Some(entry) = slot_found(alloc, cells, slot)? {
        listed.push(entry)?;
    }
    Ok(())
}

/// The used slots of a directory that has so many. Each slot is fetched once.
pub fn list_slots<R: CellRead>(
    alloc: Global,
    cells: &mut R,
    dir: u32,
    slots: u32,
) -> Result<Row<ListedSlot>, CellFault>
    ensures slots { (held : Slots) → TellsSlots (R.cells cells.old) dir slots held
        → IfOk result (λ l. l ≡ slots_listed held) }
    ensures kept { R.cells cells.new ≡ R.cells cells.old }
    ensures left { R.left cells.new ≡ R.left cells.old }
    ensures rose { result ≡ Err CellFault.StoreFailed
        → Rose (R.faults cells.old) (R.faults cells.new) }
    ensures count { R.faults cells.old ≤ R.faults cells.new }
{
    let mut listed = Row::new(alloc);
    for slot in 0..slots {
        list_slot(alloc, cells, dir, slot, &mut listed)?;
    }
    Ok(listed)
}
