//! Values, cells and changes that are read.

ghost use Rattle.std.specs.Prelude.{◌≡◌, ◌≤◌, ◌+◌, ◌^◌, ◌++◌, ℕ, List, length, IfOk, Ok};
ghost use Rattle.harp_base.specs.Fields.{Gives, Spells, Tells, at_front, below_at};
ghost use Rattle.harp_cells.specs.declared.value.Value.{Value};
ghost use Rattle.harp_cells.specs.declared.codec_forms.ValueForm.TheVariants as form;
ghost use Rattle.harp_cells.specs.declared.codec_forms.CellForm.TheVariants as named;
ghost use Rattle.harp_cells.specs.declared.codec_forms.ChangeForm.TheVariants as made;
ghost use Rattle.harp_cells.specs.ValueBytes.{some_bytes_at, has_other_kind, inode_at, other_kind_at, unformed_at, value_fields_at, value_at, value_bytes, ValueFits};
ghost use Rattle.harp_cells.specs.CellBytes.{cell_fields_at, cell_at, change_fields_at, change_at};

use crate::bounds::{Moment, NonEmpty, OtherKind};
use crate::cell::Cell;
use crate::change::Change;
use crate::codec_forms::{
    CellForm, ChangeForm, ValueForm, cell_form_at, change_form_at, value_form_at,
};
use crate::value::{Inode, UnformedInode, Value};
use harp_base::fields::{
    below_at, byte_at, bytes_at, kind_at, reply_at, time_at, told, u16_at, u32_at, u64_at,
};
use harp_base::{FieldFault, Misread};
use harp_types::Bounded;
use std::alloc::Global;

// A moment is below this.
const MOMENTS: u64 = (1 << 62) + 2000;

/// A moment, and the place after it.
pub fn moment_at(bytes: &[u8], at: usize) -> Result<(Moment, usize), Misread>
    requires { at ≤ length bytes.now }
    ensures step { result ≡ below_at (2 ^ 62 + 2000) bytes.now at }
    ensures within { IfOk result (λ x. x.1 ≤ length bytes.now) }
{
    let (millis, next) = below_at(MOMENTS, bytes, at)?;
    Ok((Moment::new(millis), next))
}

#[tactic(auto, unfolding(crate::specs::ValueBytes::some_bytes_at))]
fn some_bytes_at<const MOST: usize>(
    alloc: Global,
    bytes: &[u8],
    at: usize,
) -> Result<(NonEmpty<MOST>, usize), Misread>
    requires { at ≤ length bytes.now }
    ensures step { Gives result (some_bytes_at MOST bytes.now at) }
    ensures within { IfOk result (λ x. x.1 ≤ length bytes.now) }
{
    let (items, next): (Bounded<MOST>, usize) = bytes_at(alloc, bytes, at)?;
    if items.is_empty() {
        return Err(Misread::BadTag(at));
    }
    Ok((NonEmpty::new(items.into_vec()), next))
}

#[tactic(auto, unfolding(crate::specs::ValueBytes::inode_at))]
fn inode_at(bytes: &[u8], at: usize) -> Result<(Inode, usize), Misread>
    requires { at ≤ length bytes.now }
    ensures step { result ≡ inode_at bytes.now at }
    ensures within { IfOk result (λ x. x.1 ≤ length bytes.now) }
{
    let (kind, at) = kind_at(bytes, at)?;
    let (mode, at) = u16_at(bytes, at)?;
    let (uid, at) = u32_at(bytes, at)?;
    let (gid, at) = u32_at(bytes, at)?;
    let (links, at) = u32_at(bytes, at)?;
    let (parent, at) = u32_at(bytes, at)?;
    let (size, at) = u32_at(bytes, at)?;
    let (slots, at) = u32_at(bytes, at)?;
    let (atime, at) = time_at(bytes, at)?;
    let (mtime, at) = time_at(bytes, at)?;
    let (ctime, at) = time_at(bytes, at)?;
    let inode = Inode {
        kind,
        mode,
        uid,
        gid,
        links,
        parent,
        size,
        slots,
        atime,
        mtime,
        ctime,
    };
    Ok((inode, at))
}

fn other_kind_at(bytes: &[u8], at: usize) -> Result<(OtherKind, usize), Misread>
    requires { at ≤ length bytes.now }
    ensures step { result ≡ other_kind_at bytes.now at }
    ensures within { IfOk result (λ x. x.1 ≤ length bytes.now) }
{
    let (number, next) = byte_at(bytes, at)?;
    match OtherKind::of(number) {
        Some(kind) => Ok((kind, next)),
        None => Err(Misread::BadTag(at)),
    }
}

#[tactic(auto, unfolding(crate::specs::ValueBytes::unformed_at))]
fn unformed_at(bytes: &[u8], at: usize) -> Result<(UnformedInode, usize), Misread>
    requires { at ≤ length bytes.now }
    ensures step { result ≡ unformed_at bytes.now at }
    ensures within { IfOk result (λ x. x.1 ≤ length bytes.now) }
{
    let (kind, at) = other_kind_at(bytes, at)?;
    let (mode, at) = u16_at(bytes, at)?;
    let (uid, at) = u32_at(bytes, at)?;
    let (gid, at) = u32_at(bytes, at)?;
    let (links, at) = u32_at(bytes, at)?;
    let (parent, at) = u32_at(bytes, at)?;
    let (size, at) = u32_at(bytes, at)?;
    let (slots, at) = u32_at(bytes, at)?;
    let (atime, at) = time_at(bytes, at)?;
    let (mtime, at) = time_at(bytes, at)?;
    let (ctime, at) = time_at(bytes, at)?;
    let inode = UnformedInode {
        kind,
        mode,
        uid,
        gid,
        links,
        parent,
        size,
        slots,
        atime,
        mtime,
        ctime,
    };
    Ok((inode, at))
}

// Whether the byte at a place is the number of no kind of object.
#[tactic(auto, unfolding(crate::specs::ValueBytes::has_other_kind))]
fn has_other_kind(bytes: &[u8], at: usize) -> bool
    requires { at ≤ length bytes.now }
    ensures { result ≡ has_other_kind bytes.now at }
{
    match byte_at(bytes, at) {
        Ok((number, _)) => OtherKind::of(number).is_some(),
        Err(_) => false,
    }
}

#[tactic(auto, unfolding(crate::specs::ValueBytes::value_fields_at))]
fn meta_value(bytes: &[u8], at: usize) -> Result<(Value, usize), Misread>
    requires { at ≤ length bytes.now }
    ensures step { result ≡ value_fields_at form.Meta bytes.now at }
    ensures within { IfOk result (λ x. x.1 ≤ length bytes.now) }
{
    let (next, at) = u32_at(bytes, at)?;
    let (used, at) = u32_at(bytes, at)?;
    let (stamp, at) = moment_at(bytes, at)?;
    Ok((Value::Meta { next, used, stamp }, at))
}

#[tactic(auto, unfolding(crate::specs::ValueBytes::value_fields_at))]
fn object_value(bytes: &[u8], at: usize) -> Result<(Value, usize), Misread>
    requires { at ≤ length bytes.now }
    ensures step { result ≡ value_fields_at form.Object bytes.now at }
    ensures within { IfOk result (λ x. x.1 ≤ length bytes.now) }
{
    if has_other_kind(bytes, at) {
        let (inode, at) = unformed_at(bytes, at)?;
        return Ok((Value::Unformed { inode }, at));
    }
    let (inode, at) = inode_at(bytes, at)?;
    Ok((Value::Object { inode }, at))
}

#[tactic(auto, unfolding(crate::specs::ValueBytes::value_fields_at))]
fn block_value(alloc: Global, bytes: &[u8], at: usize) -> Result<(Value, usize), Misread>
    requires { at ≤ length bytes.now }
    ensures step { Gives result (value_fields_at form.Block bytes.now at) }
    ensures within { IfOk result (λ x. x.1 ≤ length bytes.now) }
{
    let (content, at) = some_bytes_at(alloc, bytes, at)?;
    Ok((Value::Block { bytes: content }, at))
}

#[tactic(auto, unfolding(crate::specs::ValueBytes::value_fields_at))]
fn slot_value(alloc: Global, bytes: &[u8], at: usize) -> Result<(Value, usize), Misread>
    requires { at ≤ length bytes.now }
    ensures step { Gives result (value_fields_at form.Slot bytes.now at) }
    ensures within { IfOk result (λ x. x.1 ≤ length bytes.now) }
{
    let (object, at) = u32_at(bytes, at)?;
    let (name, at) = some_bytes_at(alloc, bytes, at)?;
    Ok((Value::Slot { object, name }, at))
}

#[tactic(auto, unfolding(crate::specs::ValueBytes::value_fields_at))]
fn client_value(alloc: Global, bytes: &[u8], at: usize) -> Result<(Value, usize), Misread>
    requires { at ≤ length bytes.now }
    ensures step { Gives result (value_fields_at form.Client bytes.now at) }
    ensures within { IfOk result (λ x. x.1 ≤ length bytes.now) }
{
    let (number, at) = u64_at(bytes, at)?;
    let (index, at) = u64_at(bytes, at)?;
    let (reply, at) = reply_at(alloc, bytes, at)?;
    let client = Value::Client {
        number,
        index,
        reply,
    };
    Ok((client, at))
}

#[tactic(auto, unfolding(crate::specs::ValueBytes::value_fields_at))]
fn old_saved_value(alloc: Global, bytes: &[u8], at: usize) -> Result<(Value, usize), Misread>
    requires { at ≤ length bytes.now }
    ensures step { Gives result (value_fields_at form.Saved bytes.now at) }
    ensures within { IfOk result (λ x. x.1 ≤ length bytes.now) }
{
    let (record, at) = some_bytes_at(alloc, bytes, at)?;
    Ok((Value::Saved { bytes: record }, at))
}

#[tactic(auto, unfolding(crate::specs::ValueBytes::value_fields_at))]
fn saved_value(alloc: Global, bytes: &[u8], at: usize) -> Result<(Value, usize), Misread>
    requires { at ≤ length bytes.now }
    ensures step { Gives result (value_fields_at form.SavedCred bytes.now at) }
    ensures within { IfOk result (λ x. x.1 ≤ length bytes.now) }
{
    let (record, at) = some_bytes_at(alloc, bytes, at)?;
    Ok((Value::SavedCred { bytes: record }, at))
}

#[tactic(auto, unfolding(crate::specs::ValueBytes::value_fields_at))]
fn value_fields_at(
    alloc: Global,
    form: ValueForm,
    bytes: &[u8],
    at: usize,
) -> Result<(Value, usize), Misread>
    requires { at ≤ length bytes.now }
    ensures step { Gives result (value_fields_at form bytes.now at) }
    ensures within { IfOk result (λ x. x.1 ≤ length bytes.now) }
{
    match form {
        ValueForm::Meta => meta_value(bytes, at),
        ValueForm::Object => object_value(bytes, at),
        ValueForm::Block => block_value(alloc, bytes, at),
        ValueForm::Slot => slot_value(alloc, bytes, at),
        ValueForm::Client => client_value(alloc, bytes, at),
        ValueForm::Saved => old_saved_value(alloc, bytes, at),
        ValueForm::SavedCred => saved_value(alloc, bytes, at),
    }
}

/// A value that begins at a place, and the place after it.
#[tactic(auto, unfolding(crate::specs::ValueBytes::value_at))]
pub fn value_at(alloc: Global, bytes: &[u8], at: usize) -> Result<(Value, usize), Misread>
    requires { at ≤ length bytes.now }
    ensures step { Gives result (value_at bytes.now at) }
    ensures within { IfOk result (λ x. x.1 ≤ length bytes.now) }
{
    let (form, at) = value_form_at(bytes, at)?;
    value_fields_at(alloc, form, bytes, at)
}

#[tactic(auto, unfolding(crate::specs::CellBytes::cell_fields_at))]
fn object_cell(bytes: &[u8], at: usize) -> Result<(Cell, usize), Misread>
    requires { at ≤ length bytes.now }
    ensures step { result ≡ cell_fields_at named.Object bytes.now at }
    ensures within { IfOk result (λ x. x.1 ≤ length bytes.now) }
{
    let (object, at) = u32_at(bytes, at)?;
    Ok((Cell::Object { object }, at))
}

#[tactic(auto, unfolding(crate::specs::CellBytes::cell_fields_at))]
fn block_cell(bytes: &[u8], at: usize) -> Result<(Cell, usize), Misread>
    requires { at ≤ length bytes.now }
    ensures step { result ≡ cell_fields_at named.Block bytes.now at }
    ensures within { IfOk result (λ x. x.1 ≤ length bytes.now) }
{
    let (object, at) = u32_at(bytes, at)?;
    let (block, at) = u32_at(bytes, at)?;
    Ok((Cell::Block { object, block }, at))
}

#[tactic(auto, unfolding(crate::specs::CellBytes::cell_fields_at))]
fn slot_cell(bytes: &[u8], at: usize) -> Result<(Cell, usize), Misread>
    requires { at ≤ length bytes.now }
    ensures step { result ≡ cell_fields_at named.Slot bytes.now at }
    ensures within { IfOk result (λ x. x.1 ≤ length bytes.now) }
{
    let (object, at) = u32_at(bytes, at)?;
    let (slot, at) = u32_at(bytes, at)?;
    Ok((Cell::Slot { object, slot }, at))
}

#[tactic(auto, unfolding(crate::specs::CellBytes::cell_fields_at))]
fn client_cell(bytes: &[u8], at: usize) -> Result<(Cell, usize), Misread>
    requires { at ≤ length bytes.now }
    ensures step { result ≡ cell_fields_at named.Client bytes.now at }
    ensures within { IfOk result (λ x. x.1 ≤ length bytes.now) }
{
    let (client, at) = u32_at(bytes, at)?;
    Ok((Cell::Client { client }, at))
}

#[tactic(auto, unfolding(crate::specs::CellBytes::cell_fields_at))]
fn saved_cell(bytes: &[u8], at: usize) -> Result<(Cell, usize), Misread>
    requires { at ≤ length bytes.now }
    ensures step { result ≡ cell_fields_at named.Saved bytes.now at }
    ensures within { IfOk result (λ x. x.1 ≤ length bytes.now) }
{
    let (place, at) = u32_at(bytes, at)?;
    Ok((Cell::Saved { place }, at))
}

#[tactic(auto, unfolding(crate::specs::CellBytes::cell_fields_at))]
fn cell_fields_at(form: CellForm, bytes: &[u8], at: usize) -> Result<(Cell, usize), Misread>
    requires { at ≤ length bytes.now }
    ensures step { result ≡ cell_fields_at form bytes.now at }
    ensures within { IfOk result (λ x. x.1 ≤ length bytes.now) }
{
    match form {
        CellForm::Meta => Ok((Cell::Meta, at)),
        CellForm::Object => object_cell(bytes, at),
        CellForm::Block => block_cell(bytes, at),
        CellForm::Slot => slot_cell(bytes, at),
        CellForm::Client => client_cell(bytes, at),
        CellForm::Saved => saved_cell(bytes, at),
    }
}

/// A cell that begins at a place, and the place after it.
#[tactic(auto, unfolding(crate::specs::CellBytes::cell_at))]
pub fn cell_at(bytes: &[u8], at: usize) -> Result<(Cell, usize), Misread>
    requires { at ≤ length bytes.now }
    ensures step { result ≡ cell_at bytes.now at }
    ensures within { IfOk result (λ x. x.1 ≤ length bytes.now) }
{
    let (form, at) = cell_form_at(bytes, at)?;
    cell_fields_at(form, bytes, at)
}

#[tactic(auto, unfolding(crate::specs::CellBytes::change_fields_at))]
fn put_change(alloc: Global, bytes: &[u8], at: usize) -> Result<(Change, usize), Misread>
    requires { at ≤ length bytes.now }
    ensures step { Gives result (change_fields_at made.Put bytes.now at) }
    ensures within { IfOk result (λ x. x.1 ≤ length bytes.now) }
{
    let (cell, at) = cell_at(bytes, at)?;
    let (value, at) = value_at(alloc, bytes, at)?;
    Ok((Change::put(alloc, cell, value)?, at))
}

#[tactic(auto, unfolding(crate::specs::CellBytes::change_fields_at))]
fn erase_change(bytes: &[u8], at: usize) -> Result<(Change, usize), Misread>
    requires { at ≤ length bytes.now }
    ensures step { result ≡ change_fields_at made.Erase bytes.now at }
    ensures within { IfOk result (λ x. x.1 ≤ length bytes.now) }
{
    let (cell, at) = cell_at(bytes, at)?;
    Ok((Change::Erase { cell }, at))
}

#[tactic(auto, unfolding(crate::specs::CellBytes::change_fields_at))]
fn erase_from_change(bytes: &[u8], at: usize) -> Result<(Change, usize), Misread>
    requires { at ≤ length bytes.now }
    ensures step { result ≡ change_fields_at made.EraseFrom bytes.now at }
    ensures within { IfOk result (λ x. x.1 ≤ length bytes.now) }
{
    let (object, at) = u32_at(bytes, at)?;
    let (first, at) = u32_at(bytes, at)?;
    Ok((Change::EraseFrom { object, first }, at))
}

#[tactic(auto, unfolding(crate::specs::CellBytes::change_fields_at))]
fn change_fields_at(
    alloc: Global,
    form: ChangeForm,
    bytes: &[u8],
    at: usize,
) -> Result<(Change, usize), Misread>
    requires { at ≤ length bytes.now }
    ensures step { Gives result (change_fields_at form bytes.now at) }
    ensures within { IfOk result (λ x. x.1 ≤ length bytes.now) }
{
    match form {
        ChangeForm::Put => put_change(alloc, bytes, at),
        ChangeForm::Erase => erase_change(bytes, at),
        ChangeForm::EraseFrom => erase_from_change(bytes, at),
    }
}

/// A change that begins at a place, and the place after it.
#[tactic(auto, unfolding(crate::specs::CellBytes::change_at))]
pub fn change_at(alloc: Global, bytes: &[u8], at: usize) -> Result<(Change, usize), Misread>
    requires { at ≤ length bytes.now }
    ensures step { Gives result (change_at bytes.now at) }
    ensures within { IfOk result (λ x. x.1 ≤ length bytes.now) }
{
    let (form, at) = change_form_at(bytes, at)?;
    change_fields_at(alloc, form, bytes, at)
}

/// The value at the front of the bytes, and its length. The bytes of a saved record aren't looked
/// into.
pub fn read_value(alloc: Global, bytes: &[u8]) -> Result<(Value, usize), FieldFault>
    // What is read is spelled so.
    ensures found { IfOk result (λ x. Spells bytes.now 0 (value_bytes x.0) x.1 × ValueFits x.0) }
    // What is spelled so is read, whatever follows, unless memory runs out.
    ensures only { (v : Value) (rest : List ℕ) → ValueFits v → bytes.now ≡ value_bytes v ++ rest
        → Tells result (Ok (v, length (value_bytes v))) }
    // Which fault it is, and where.
    ensures exact { Tells result (at_front value_at bytes.now) }
{
    told(value_at(alloc, bytes, 0), bytes.len())
}
