//! The picture of the tree that cells hold.

ghost use Rattle.std.specs.Prelude.{◌≡◌, ◌≤◌, ◌+◌, ◌++◌, length, IfOk, IfSome, OnOk, Err, Some, false};
ghost use Rattle.harp_types.specs.Streams.{Rose};
ghost use Rattle.harp_cells.specs.declared.cell.Cell.TheVariants as cell;
ghost use Rattle.harp_cells.specs.Effect.{Cells};
ghost use Rattle.audit.specs.Pictures.{AreInOrder, AreSlots, IsObjectValue, IsPortrait, IsShaped, IsSlot, absent_object, attributes, bytes_read, is_link_kind, object_of_value, object_read, picture_of, portrait_by, portraits_at, slot_of_value, slot_read, slots_by, text_read, totals_of_value, totals_read};

use crate::attributes::{attributes_in, is_link};
use crate::picture::{Picture, Portrait, Rows};
use harp_cells::{Cell, CellFault, CellRead, Inode, Value};
use harp_types::{Kind, Time};
use std::alloc::{AllocError, Global};

/// The number of the next object and the used blocks in a value.
fn totals_in(value: &Value) -> (u32, u32)
    ensures { result ≡ totals_of_value value.now }
{
    match value {
        Value::Meta { next, used, .. } => (*next, *used),
        Value::Object { .. }
        | Value::Unformed { .. }
        | Value::Block { .. }
        | Value::Slot { .. }
        | Value::Client { .. }
        | Value::Saved { .. }
        | Value::SavedCred { .. } => (2, 0),
    }
}

fn totals_found<R: CellRead>(cells: &R) -> (u32, u32)
    ensures { result ≡ totals_read (R.found cells.now) }
{
    match cells.value() {
        Some(value) => totals_in(value),
        None => (2, 0),
    }
}

/// The number of the next object and the used blocks.
fn totals<R: CellRead>(cells: &mut R) -> Result<(u32, u32), CellFault>
    ensures totals { (held : Cells) → R.cells cells.old ≡ Some held
        → IfOk result (λ t. t ≡ totals_read (held cell.Meta)) }
    ensures kept { R.cells cells.new ≡ R.cells cells.old }
    ensures left { R.left cells.new ≡ R.left cells.old }
    ensures rose { result ≡ Err CellFault.StoreFailed
        → Rose (R.faults cells.old) (R.faults cells.new) }
    ensures count { R.faults cells.old ≤ R.faults cells.new }
{
    cells.fetch(Cell::Meta)?;
    Ok(totals_found(cells))
}

/// The value of the root of the first tree.
fn first_root() -> Value
    ensures { Some result ≡ absent_object 1 }
{
    let zero = Time {
        seconds: 0,
        micros: 0,
    };
    Value::Object {
        inode: Inode {
            kind: Kind::Directory,
            mode: 0o755,
            uid: 0,
            gid: 0,
            links: 2,
            parent: 1,
            size: 0,
            slots: 0,
            atime: zero,
            mtime: zero,
            ctime: zero,
        },
    }
}

/// What stands for an object whose cell is absent.
fn absent_object(number: u32) -> Option<Value>
    ensures { result ≡ absent_object number }
{
    if number == 1 {
        Some(first_root())
    } else {
        None
    }
}

fn object_in(number: u32, value: &Value) -> Option<Value>
    ensures { result ≡ object_of_value number value.now }
{
    match value {
        Value::Object { inode } => Some(Value::Object { inode: *inode }),
        Value::Unformed { inode } => Some(Value::Unformed { inode: *inode }),
        Value::Meta { .. }
        | Value::Block { .. }
        | Value::Slot { .. }
        | Value::Client { .. }
        | Value::Saved { .. }
        | Value::SavedCred { .. } => absent_object(number),
    }
}

fn object_found<R: CellRead>(cells: &R, number: u32) -> Option<Value>
    ensures value { result ≡ object_read number (R.found cells.now) }
    ensures form { IfSome result IsObjectValue }
{
    match cells.value() {
        Some(value) => object_in(number, value),
        None => absent_object(number),
    }
}

fn slot_in(alloc: Global, value: &Value) -> Result<Option<Value>, AllocError>
    ensures { IfOk result (λ s. s ≡ slot_of_value value.now) }
{
    match value {
        Value::Slot { object, name } => Ok(Some(Value::Slot {
            object: *object,
            name: name.copy(alloc)?,
        })),
        Value::Meta { .. }
        | Value::Object { .. }
        | Value::Unformed { .. }
        | Value::Block { .. }
        | Value::Client { .. }
        | Value::Saved { .. }
        | Value::SavedCred { .. } => Ok(None),
    }
}

fn slot_found<R: CellRead>(alloc: Global, cells: &R) -> Result<Option<Value>, AllocError>
    ensures value { IfOk result (λ s. s ≡ slot_read (R.found cells.now)) }
    ensures form { IfOk result IsSlot }
{
    match cells.value() {
        Some(value) => slot_in(alloc, value),
        None => Ok(None),
    }
}

/// How many bytes a block has, none where it is absent.
fn length_found<R: CellRead>(cells: &R) -> u32
    ensures { result ≡ length (bytes_read (R.found cells.now)) }
{
    match cells.value() {
        Some(Value::Block { bytes }) => bytes.as_slice().len() as u32,
        Some(
            Value::Meta { .. }
            | Value::Object { .. }
            | Value::Unformed { .. }
            | Value::Slot { .. }
            | Value::Client { .. }
            | Value::Saved { .. }
            | Value::SavedCred { .. },
        )
        | None => 0,
    }
}

/// What the slots of an object hold.
fn slots_of<R: CellRead>(
    alloc: Global,
    cells: &mut R,
    number: u32,
    count: u32,
) -> Result<Rows<Option<Value>>, CellFault>
    ensures slots { (held : Cells) → R.cells cells.old ≡ Some held
        → IfOk result (λ v. v ≡ slots_by held number count) }
    ensures form { IfOk result (AreSlots count) }
    ensures kept { R.cells cells.new ≡ R.cells cells.old }
    ensures left { R.left cells.new ≡ R.left cells.old }
    ensures rose { result ≡ Err CellFault.StoreFailed
        → Rose (R.faults cells.old) (R.faults cells.new) }
    ensures count { R.faults cells.old ≤ R.faults cells.new }
{
    let mut slots = Rows::new(alloc);
    for slot in 0..count {
        cells.fetch(Cell::Slot {
            object: number,
            slot,
        })?;
        let value = slot_found(alloc, cells)?;
        slots.push(value)?;
    }
    Ok(slots)
}

/// How many bytes the text of a link has.
fn text_of<R: CellRead>(cells: &mut R, number: u32, object: &Value) -> Result<u32, CellFault>
    ensures text { (held : Cells) → R.cells cells.old ≡ Some held
        → IfOk result (λ t. t ≡ text_read held number object.now) }
    ensures none { is_link_kind (attributes object.now).kind ≡ false
        → IfOk result (λ t. t ≡ 0) }
    ensures kept { R.cells cells.new ≡ R.cells cells.old }
    ensures left { R.left cells.new ≡ R.left cells.old }
    ensures rose { result ≡ Err CellFault.StoreFailed
        → Rose (R.faults cells.old) (R.faults cells.new) }
    ensures count { R.faults cells.old ≤ R.faults cells.new }
{
    if !is_link(attributes_in(object).kind) {
        return Ok(0);
    }
    cells.fetch(Cell::Block {
        object: number,
        block: 0,
    })?;
    Ok(length_found(cells))
}

/// An object with this value, its slots and the length of its text.
fn portrait_of<R: CellRead>(
    alloc: Global,
    cells: &mut R,
    number: u32,
    object: Value,
) -> Result<Portrait, CellFault>
    ensures portrait { (held : Cells) → R.cells cells.old ≡ Some held
        → IfOk result (λ x. x ≡ portrait_by held number object) }
    ensures form { IsObjectValue object
        → IfOk result (λ x. (x.number ≡ number) × IsPortrait x) }
    ensures kept { R.cells cells.new ≡ R.cells cells.old }
    ensures left { R.left cells.new ≡ R.left cells.old }
    ensures rose { result ≡ Err CellFault.StoreFailed
        → Rose (R.faults cells.old) (R.faults cells.new) }
    ensures count { R.faults cells.old ≤ R.faults cells.new }
{
    let slots = slots_of(alloc, cells, number, attributes_in(&object).slots)?;
    let text = text_of(cells, number, &object)?;
    Ok(Portrait {
        number,
        object,
        slots,
        text,
    })
}

/// Adds the object of a number, where one is there.
fn gather_at<R: CellRead>(
    alloc: Global,
    cells: &mut R,
    number: u32,
    objects: &mut Rows<Portrait>,
) -> Result<(), CellFault>
    ensures object { (held : Cells) → R.cells cells.old ≡ Some held
        → OnOk result (objects.new ≡ objects.old ++ portraits_at held number) }
    ensures order { 1 ≤ number → AreInOrder 1 number objects.old
        → OnOk result (AreInOrder 1 (number + 1) objects.new) }
    ensures kept { R.cells cells.new ≡ R.cells cells.old }
    ensures left { R.left cells.new ≡ R.left cells.old }
    ensures rose { result ≡ Err CellFault.StoreFailed
        → Rose (R.faults cells.old) (R.faults cells.new) }
    ensures count { R.faults cells.old ≤ R.faults cells.new }
{
    cells.fetch(Cell::Object { object: number })?;
    match object_found(cells, number) {
        None => Ok(()),
        Some(object) => {
            let portrait = portrait_of(alloc, cells, number, object)?;
            objects.push(portrait)?;
            Ok(())
        }
    }
}

/// The picture of the tree that cells hold: it fetches the cell of the whole tree, those of the
/// numbers that were given, those of the slots that each object has, and the text of each symbolic
/// link. A value of another kind than its cell's counts as absent.
pub fn gather<R: CellRead>(alloc: Global, cells: &mut R) -> Result<Picture, CellFault>
    ensures picture { (held : Cells) → R.cells cells.old ≡ Some held
        → IfOk result (λ p. p ≡ picture_of held) }
    ensures shaped { IfOk result IsShaped }
    ensures kept { R.cells cells.new ≡ R.cells cells.old }
    ensures left { R.left cells.new ≡ R.left cells.old }
    ensures rose { result ≡ Err CellFault.StoreFailed
        → Rose (R.faults cells.old) (R.faults cells.new) }
    ensures count { R.faults cells.old ≤ R.faults cells.new }
{
    let (next, used) = totals(cells)?;
    let mut objects = Rows::new(alloc);
    for number in 1..next.max(1) {
        gather_at(alloc, cells, number, &mut objects)?;
    }
    Ok(Picture {
        next,
        used,
        objects,
    })
}
