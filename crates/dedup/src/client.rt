//! An update beside the last one of its client.

ghost use Rattle.std.specs.Prelude.{◌≡◌, ◌≤◌, List, Some, Err, IfOk};
ghost use Rattle.harp_types.specs.Streams.{Rose};
ghost use Rattle.file_tree.specs.Book.{Entry, last_of};
ghost use Rattle.harp_cells.specs.declared.cell.Cell.TheVariants as cell;
ghost use Rattle.harp_cells.specs.declared.value.Value.TheVariants as value;
ghost use Rattle.harp_cells.specs.declared.change.Change.TheVariants as change;
ghost use Rattle.harp_cells.specs.Effect.{Cells};
ghost use Rattle.harp_cells.specs.CellsOfTree.{client_value};
ghost use Rattle.dedup.specs.Repeats.{repeated, seen_beside, seen_in, seen_after};

use crate::repeat::Seen;
use harp_cells::{Cell, CellFault, CellRead, Change, Value};
use harp_types::Reply;
use std::alloc::{AllocError, Global};

/// The last update again, whose index is tried against the commit point.
fn repeated(alloc: Global, index: u64, reply: &Reply, cp: u64) -> Result<Seen, AllocError>
    ensures { IfOk result (λ s. s ≡ repeated index reply.now cp) }
{
    if index <= cp {
        let reply = reply.copy(alloc)?;
        Ok(Seen::Kept { index, reply })
    } else {
        Ok(Seen::Pending)
    }
}

/// A number beside the last one, whose index and reply are given.
fn seen_beside(
    alloc: Global,
    last: u64,
    index: u64,
    reply: &Reply,
    number: u64,
    cp: u64,
) -> Result<Seen, AllocError>
    ensures { IfOk result (λ s. s ≡ seen_beside last index reply.now number cp) }
{
    if number == last {
        repeated(alloc, index, reply, cp)
    } else if number < last {
        Ok(Seen::Old)
    } else {
        Ok(Seen::New)
    }
}

fn seen_in(alloc: Global, value: &Value, number: u64, cp: u64) -> Result<Seen, AllocError>
    ensures { IfOk result (λ s. s ≡ seen_in (Some value.now) number cp) }
{
    match value {
        Value::Client {
            number: last,
            index,
            reply,
        } => seen_beside(alloc, *last, *index, reply, number, cp),
        Value::Meta { .. }
        | Value::Object { .. }
        | Value::Block { .. }
        | Value::Slot { .. }
        | Value::Unformed { .. }
        | Value::Saved { .. }
        | Value::SavedCred { .. } => Ok(Seen::New),
    }
}

fn seen_found<R: CellRead>(
    alloc: Global,
    cells: &R,
    number: u64,
    cp: u64,
) -> Result<Seen, AllocError>
    ensures { IfOk result (λ s. s ≡ seen_in (R.found cells.now) number cp) }
{
    match cells.value() {
        None => Ok(Seen::New),
        Some(value) => seen_in(alloc, value, number, cp),
    }
}

/// What an update with this number is beside the last one of its client, where updates up to the
/// index `cp` are committed. It reads the client's cell alone.
pub fn seen<R: CellRead>(
    alloc: Global,
    cells: &mut R,
    client: u32,
    number: u64,
    cp: u64,
) -> Result<Seen, CellFault>
    ensures cell { (held : Cells) → R.cells cells.old ≡ Some held
        → IfOk result (λ s. s ≡ seen_in (held (cell.Client client)) number cp) }
    ensures last { (held : Cells) (entries : List Entry) → R.cells cells.old ≡ Some held
        → held (cell.Client client) ≡ client_value (last_of client entries)
        → IfOk result (λ s. s ≡ seen_after (last_of client entries) number cp) }
    ensures kept { R.cells cells.new ≡ R.cells cells.old }
    ensures left { R.left cells.new ≡ R.left cells.old }
    ensures rose { result ≡ Err CellFault.StoreFailed
        → Rose (R.faults cells.old) (R.faults cells.new) }
    ensures count { R.faults cells.old ≤ R.faults cells.new }
{
    cells.fetch(Cell::Client { client })?;
    Ok(seen_found(alloc, cells, number, cp)?)
}

/// The change that keeps an update as the last one of its client: the Put of the client's cell.
pub fn keep(
    alloc: Global,
    client: u32,
    number: u64,
    index: u64,
    reply: &Reply,
) -> Result<Change, AllocError>
    ensures { IfOk result (λ c. c ≡ change.Put (cell.Client client)
        (value.Client number index reply.now)) }
{
    let value = Value::Client {
        number,
        index,
        reply: reply.copy(alloc)?,
    };
    Change::put(alloc, Cell::Client { client }, value)
}
