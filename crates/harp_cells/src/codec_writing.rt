//! Values, cells and changes that are written.

ghost use Rattle.std.specs.Prelude.{◌≡◌, ◌++◌, ◌<◌, ◌^◌, ◌≤◌, length, OnOk, OnErr};
ghost use Rattle.harp_base.specs.Fields.{counted_bytes};
ghost use Rattle.harp_cells.specs.ValueBytes.{SomeFit, InodeFits, UnformedFits, inode_bytes, unformed_bytes, value_fields, value_bytes, ValueFits};
ghost use Rattle.harp_cells.specs.CellBytes.{cell_fields, cell_bytes, CellFits, change_fields, change_bytes, ChangeFits};

use crate::bounds::NonEmpty;
use crate::cell::Cell;
use crate::change::Change;
use crate::codec_forms::{cell_form_number, change_form_number, value_form_number};
use crate::value::{Inode, UnformedInode, Value};
use harp_base::fields::{put_reply, put_time, put_u16, put_u32, put_u64};
use harp_types::Bytes;
use std::alloc::{AllocError, Global};

#[tactic(auto, unfolding(harp_base::specs::Fields::counted_bytes))]
fn put_some_bytes<const MOST: usize>(
    out: &mut Vec<u8>,
    bytes: &NonEmpty<MOST>,
) -> Result<(), AllocError>
    requires { MOST < 2 ^ 16 }
    ensures value { OnOk result (out.new.items ≡ out.old.items ++ counted_bytes bytes.now) }
    ensures fits { SomeFit MOST bytes.now }
{
    let items = bytes.as_slice();
    put_u16(out, items.len() as u16)?;
    out.extend_from_slice(items)
}

#[tactic(auto, unfolding(crate::specs::ValueBytes::inode_bytes))]
fn put_inode(out: &mut Vec<u8>, inode: &Inode) -> Result<(), AllocError>
    ensures value { OnOk result (out.new.items ≡ out.old.items ++ inode_bytes inode.now) }
    ensures fits { OnOk result (InodeFits inode.now) }
{
    out.push(inode.kind.number())?;
    put_u16(out, inode.mode)?;
    put_u32(out, inode.uid)?;
    put_u32(out, inode.gid)?;
    put_u32(out, inode.links)?;
    put_u32(out, inode.parent)?;
    put_u32(out, inode.size)?;
    put_u32(out, inode.slots)?;
    put_time(out, &inode.atime)?;
    put_time(out, &inode.mtime)?;
    put_time(out, &inode.ctime)?;
    Ok(())
}

#[tactic(auto, unfolding(crate::specs::ValueBytes::unformed_bytes))]
fn put_unformed(out: &mut Vec<u8>, inode: &UnformedInode) -> Result<(), AllocError>
    ensures value { OnOk result (out.new.items ≡ out.old.items ++ unformed_bytes inode.now) }
    ensures fits { OnOk result (UnformedFits inode.now) }
{
    out.push(inode.kind.number())?;
    put_u16(out, inode.mode)?;
    put_u32(out, inode.uid)?;
    put_u32(out, inode.gid)?;
    put_u32(out, inode.links)?;
    put_u32(out, inode.parent)?;
    put_u32(out, inode.size)?;
    put_u32(out, inode.slots)?;
    put_time(out, &inode.atime)?;
    put_time(out, &inode.mtime)?;
    put_time(out, &inode.ctime)?;
    Ok(())
}

fn put_value_fields(out: &mut Vec<u8>, value: &Value) -> Result<(), AllocError>
    ensures value { OnOk result (out.new.items ≡ out.old.items ++ value_fields value.now) }
    ensures fits { OnOk result (ValueFits value.now) }
{
    match value {
        Value::Meta { next, used, stamp } => {
            put_u32(out, *next)?;
            put_u32(out, *used)?;
            put_u64(out, stamp.get())
        }
        Value::Object { inode } => put_inode(out, inode),
        Value::Unformed { inode } => put_unformed(out, inode),
        Value::Block { bytes } => put_some_bytes(out, bytes),
        Value::Slot { object, name } => {
            put_u32(out, *object)?;
            put_some_bytes(out, name)
        }
        Value::Client {
            number,
            index,
            reply,
        } => {
            put_u64(out, *number)?;
            put_u64(out, *index)?;
            put_reply(out, reply)
        }
        Value::Saved { bytes } => put_some_bytes(out, bytes),
        Value::SavedCred { bytes } => put_some_bytes(out, bytes),
    }
}

/// Appends the one spelling of a value. Where memory runs out, any bytes may have been appended.
pub fn put_value(out: &mut Vec<u8>, value: &Value) -> Result<(), AllocError>
    ensures value { OnOk result (out.new.items ≡ out.old.items ++ value_bytes value.now) }
    ensures fits { OnOk result (ValueFits value.now) }
{
    out.push(value_form_number(value))?;
    put_value_fields(out, value)
}

fn put_cell_fields(out: &mut Vec<u8>, cell: Cell) -> Result<(), AllocError>
    ensures value { OnOk result (out.new.items ≡ out.old.items ++ cell_fields cell) }
    ensures fits { OnOk result (CellFits cell) }
{
    match cell {
        Cell::Meta => Ok(()),
        Cell::Object { object } => put_u32(out, object),
        Cell::Block { object, block } => {
            put_u32(out, object)?;
            put_u32(out, block)
        }
        Cell::Slot { object, slot } => {
            put_u32(out, object)?;
            put_u32(out, slot)
        }
        Cell::Client { client } => put_u32(out, client),
        Cell::Saved { place } => put_u32(out, place),
    }
}

/// Appends the one spelling of a cell. Where memory runs out, any bytes may have been appended.
pub fn put_cell(out: &mut Vec<u8>, cell: Cell) -> Result<(), AllocError>
    ensures value { OnOk result (out.new.items ≡ out.old.items ++ cell_bytes cell) }
    ensures fits { OnOk result (CellFits cell) }
{
    out.push(cell_form_number(cell))?;
    put_cell_fields(out, cell)
}

fn put_change_fields(out: &mut Vec<u8>, change: &Change) -> Result<(), AllocError>
    ensures value { OnOk result (out.new.items ≡ out.old.items ++ change_fields change.now) }
    ensures fits { OnOk result (ChangeFits change.now) }
{
    match change {
        Change::Put { cell, value } => {
            put_cell(out, *cell)?;
            put_value(out, value.get())
        }
        Change::Erase { cell } => put_cell(out, *cell),
        Change::EraseFrom { object, first } => {
            put_u32(out, *object)?;
            put_u32(out, *first)
        }
    }
}

/// Appends the one spelling of a change. Where memory runs out, any bytes may have been appended.
pub fn put_change(out: &mut Vec<u8>, change: &Change) -> Result<(), AllocError>
    ensures value { OnOk result (out.new.items ≡ out.old.items ++ change_bytes change.now) }
    ensures fits { OnOk result (ChangeFits change.now) }
{
    out.push(change_form_number(change))?;
    put_change_fields(out, change)
}

/// Appends the one spelling of a value. Where memory runs out, nothing is appended.
pub fn write_value(alloc: Global, value: &Value, into: &mut Bytes) -> Result<(), AllocError>
    ensures appended { OnOk result (into.new ≡ into.old ++ value_bytes value.now) }
    ensures fits { OnOk result (ValueFits value.now) }
    ensures kept { OnErr result (into.new ≡ into.old) }
{
    let mut spelled = Vec::new(alloc);
    put_value(&mut spelled, value)?;
    into.extend(&spelled)
}
