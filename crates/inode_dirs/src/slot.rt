//! One slot of a directory.

ghost use Rattle.std.specs.Prelude.{◌≡◌, ◌≤◌, ◌<◌, ◌+◌, ◌^◌, Option, Some, IfOk, Err, not, is_some};
ghost use Rattle.harp_types.specs.Streams.{Rose};
ghost use Rattle.file_tree.specs.declared.object.Slot.{Slot};
ghost use Rattle.file_tree.specs.Outcome.{entry_at};
ghost use Rattle.inode_dirs.specs.Slots.{TellsSlot, slot_of, object_named};
ghost use Rattle.inode_dirs.specs.Pages.{entry_list};

use harp_cells::{Cell, CellFault, CellRead, Value};
use harp_types::{Bounded, DirEntry};
use std::alloc::{AllocError, Global};

/// The object that a value names by a name.
fn object_in(value: &Value, name: &[u8]) -> Option<u32>
    ensures { result ≡ object_named name.now (slot_of (Some value.now)) }
{
    match value {
        Value::Slot { object, name: own } => {
            if own.as_slice() == name {
                Some(*object)
            } else {
                None
            }
        }
        Value::Meta { .. }
        | Value::Object { .. }
        | Value::Block { .. }
        | Value::Client { .. }
        | Value::Unformed { .. }
        | Value::Saved { .. }
        | Value::SavedCred { .. } => None,
    }
}

fn object_found<R: CellRead>(cells: &R, name: &[u8]) -> Option<u32>
    ensures { result ≡ object_named name.now (slot_of (R.found cells.now)) }
{
    object_in(cells.value()?, name)
}

/// The object that a slot names by a name.
pub fn object_at<R: CellRead>(
    cells: &mut R,
    dir: u32,
    slot: u32,
    name: &[u8],
) -> Result<Option<u32>, CellFault>
    ensures found { (s : Option Slot) → TellsSlot (R.cells cells.old) dir slot s
        → IfOk result (λ x. x ≡ object_named name.now s) }
    ensures kept { R.cells cells.new ≡ R.cells cells.old }
    ensures left { R.left cells.new ≡ R.left cells.old }
    ensures rose { result ≡ Err CellFault.StoreFailed
        → Rose (R.faults cells.old) (R.faults cells.new) }
    ensures count { R.faults cells.old ≤ R.faults cells.new }
{
    cells.fetch(Cell::Slot { object: dir, slot })?;
    Ok(object_found(cells, name))
}

/// The object that a slot names by a name, and whether the slot is free.
pub fn look_at<R: CellRead>(
    cells: &mut R,
    dir: u32,
    slot: u32,
    name: &[u8],
) -> Result<(Option<u32>, bool), CellFault>
    ensures found { (s : Option Slot) → TellsSlot (R.cells cells.old) dir slot s
        → IfOk result (λ x. x.0 ≡ object_named name.now s) }
    ensures free { (s : Option Slot) → TellsSlot (R.cells cells.old) dir slot s
        → IfOk result (λ x. x.1 ≡ not (is_some s)) }
    ensures kept { R.cells cells.new ≡ R.cells cells.old }
    ensures left { R.left cells.new ≡ R.left cells.old }
    ensures rose { result ≡ Err CellFault.StoreFailed
        → Rose (R.faults cells.old) (R.faults cells.new) }
    ensures count { R.faults cells.old ≤ R.faults cells.new }
{
    cells.fetch(Cell::Slot { object: dir, slot })?;
    Ok((object_found(cells, name), cells.value().is_none()))
}

/// The entry that a value stands for, with a cookie.
fn entry_in(alloc: Global, value: &Value, cookie: u32) -> Result<Option<DirEntry>, AllocError>
    ensures { IfOk result (λ e. entry_list e ≡ entry_at cookie (slot_of (Some value.now))) }
{
    match value {
        Value::Slot { object, name } => {
            let name = Vec::from_slice(alloc, name.as_slice())?;
            Ok(Some(DirEntry {
                fileid: *object,
                name: Bounded::new(name),
                cookie,
            }))
        }
        Value::Meta { .. }
        | Value::Object { .. }
        | Value::Block { .. }
        | Value::Client { .. }
        | Value::Unformed { .. }
        | Value::Saved { .. }
        | Value::SavedCred { .. } => Ok(None),
    }
}

fn entry_found<R: CellRead>(
    alloc: Global,
    cells: &R,
    cookie: u32,
) -> Result<Option<DirEntry>, AllocError>
    ensures { IfOk result (λ e. entry_list e ≡ entry_at cookie (slot_of (R.found cells.now))) }
{
    match cells.value() {
        None => Ok(None),
        Some(value) => Ok(entry_in(alloc, value, cookie)?),
    }
}

/// The entry of a slot. Its cookie is 3 more than the slot's number, from 0 on.
pub fn entry_of_slot<R: CellRead>(
    alloc: Global,
    cells: &mut R,
    dir: u32,
    slot: u32,
) -> Result<Option<DirEntry>, CellFault>
    ensures entry { (s : Option Slot) → TellsSlot (R.cells cells.old) dir slot s → slot + 3 < 2 ^ 32
        → IfOk result (λ e. entry_list e ≡ entry_at (slot + 3) s) }
    ensures kept { R.cells cells.new ≡ R.cells cells.old }
    ensures left { R.left cells.new ≡ R.left cells.old }
    ensures rose { result ≡ Err CellFault.StoreFailed
        → Rose (R.faults cells.old) (R.faults cells.new) }
    ensures count { R.faults cells.old ≤ R.faults cells.new }
{
    cells.fetch(Cell::Slot { object: dir, slot })?;
    Ok(entry_found(alloc, cells, slot.saturating_add(3))?)
}
