//! Rows that are read and played.

use crate::asking::moment_of;
use crate::fault::Fault;
use crate::tree::spelled::put_shown;
use crate::tree::table::Table;
use crate::tree::watched::Watched;
use dedup::Seen;
use harp_base::{FieldFault, read_call, read_reply, write_call, write_reply};
use harp_cells::{Cell, CellFault, CellRead, Inode, MemCells, Value};
use harp_types::{Bytes, Call, Reply};
use schedule_text::{
    TextFault, all_hex_at, end_at, space_at, spaced_count_at, spaced_u32_at, word_at,
};
use std::alloc::{AllocError, Global};
use text_writer::{put_call, put_name, put_named};

/// A word in which `HH*N` is written out as N times HH.
fn put_word(out: &mut Vec<u8>, word: &str) -> Result<(), AllocError> {
    let (digits, times) = word.split_once('*').unwrap_or((word, "1"));
    for _ in 0..times.parse::<u32>().unwrap_or(0) {
        out.extend_from_slice(digits.as_bytes())?;
    }
    Ok(())
}

/// The words of a row, written out.
fn put_words(out: &mut Vec<u8>, line: &str) -> Result<(), AllocError> {
    let mut words = line.split(' ');
    if let Some(word) = words.next() {
        put_word(out, word)?;
    }
    for word in words {
        out.extend_from_slice(b" ")?;
        put_word(out, word)?;
    }
    Ok(())
}

/// A row in which `HH*N` is written out as N times HH.
fn unrolled(alloc: Global, line: &str) -> Result<Vec<u8>, AllocError> {
    let mut out = Vec::new(alloc);
    put_words(&mut out, line)?;
    Ok(out)
}

fn set_clock(table: &mut Table, line: &[u8]) -> Result<(), Fault> {
    table.now = moment_of(line)?;
    Ok(())
}

/// A client, a number and how many updates are committed.
fn counts_of(line: &[u8]) -> Result<(u32, u64, u64), TextFault> {
    let (client, at) = spaced_u32_at(line, 4)?;
    let (number, at) = spaced_count_at(line, at)?;
    let (cp, at) = spaced_count_at(line, at)?;
    end_at(line, at)?;
    Ok((client, number, cp))
}

/// What an update is.
fn seen_in(alloc: Global, cells: &mut Watched, counts: (u32, u64, u64)) -> Result<Seen, CellFault> {
    let (client, number, cp) = counts;
    dedup::seen(alloc, cells, client, number, cp)
}

fn put_kept(alloc: Global, out: &mut Vec<u8>, index: u64, reply: &Reply) -> Result<(), AllocError> {
    put_named(out, b"kept", index)?;
    put_shown(alloc, out, reply)?;
    out.extend_from_slice(b"\n")
}

fn put_seen(alloc: Global, out: &mut Vec<u8>, seen: &Seen) -> Result<(), AllocError> {
    match seen {
        Seen::New => out.extend_from_slice(b"new\n"),
        Seen::Pending => out.extend_from_slice(b"pending\n"),
        Seen::Old => out.extend_from_slice(b"old\n"),
        Seen::Kept { index, reply } => put_kept(alloc, out, *index, reply),
    }
}

fn seen(alloc: Global, out: &mut Vec<u8>, table: &mut Table, line: &[u8]) -> Result<(), Fault> {
    let counts = counts_of(line)?;
    let seen = seen_in(alloc, &mut table.cells, counts)?;
    Ok(put_seen(alloc, out, &seen)?)
}

/// Two numbers that end a row.
fn pair_of(line: &[u8], at: usize) -> Result<(u32, u32), TextFault> {
    let (first, at) = spaced_u32_at(line, at)?;
    let (second, at) = spaced_u32_at(line, at)?;
    end_at(line, at)?;
    Ok((first, second))
}

/// What a cell holds of an object.
fn inode_in(cells: &mut MemCells, object: u32) -> Result<Option<Inode>, CellFault> {
    cells.fetch(Cell::Object { object })?;
    match cells.value() {
        Some(Value::Object { inode }) => Ok(Some(*inode)),
        _ => Ok(None),
    }
}

/// Makes another directory a directory's parent, in the cells alone.
fn set_parent(table: &mut Table, line: &[u8]) -> Result<(), Fault> {
    let (object, parent) = pair_of(line, 6)?;
    let cells = &mut table.cells.cells;
    if let Some(inode) = inode_in(cells, object)? {
        let inode = Inode { parent, ..inode };
        cells.put(Cell::Object { object }, Value::Object { inode })?;
    }
    Ok(())
}

fn cell_of(kind: &[u8], object: u32, slot: u32) -> Cell {
    if kind == b"slot".as_slice() {
        return Cell::Slot { object, slot };
    }
    let block = slot;
    if kind == b"block".as_slice() {
        return Cell::Block { object, block };
    }
    Cell::Object { object }
}

/// The cell that a row names.
fn broken_of(line: &[u8]) -> Result<Cell, TextFault> {
    let at = space_at(line, 6)?;
    let kind = word_at(line, at);
    let (object, place) = pair_of(line, at + kind.len())?;
    Ok(cell_of(kind, object, place))
}

/// The bytes that end a row.
fn given(alloc: Global, line: &[u8], at: usize) -> Result<Bytes, TextFault> {
    let at = space_at(line, at)?;
    let (bytes, at) = all_hex_at(alloc, line, at)?;
    match end_at(line, at) {
        Ok(()) => Ok(bytes),
        Err(fault) => Err(fault),
    }
}

/// The bytes of a copy.
fn put_copy(alloc: Global, out: &mut Vec<u8>, written: &Bytes) -> Result<(), AllocError> {
    out.extend_from_slice(b"\ncopy")?;
    put_name(alloc, out, written.as_slice())?;
    out.extend_from_slice(b"\n")
}

/// The call that these bytes begin with, and how many they are.
fn call_in(alloc: Global, bytes: &[u8]) -> Result<(Call, usize), FieldFault> {
    read_call(alloc, bytes)
}

fn call_bytes(alloc: Global, call: &Call) -> Result<Bytes, AllocError> {
    let mut written = Bytes::new(alloc);
    write_call(alloc, call, &mut written)?;
    Ok(written)
}

/// The bytes of a copy of a call.
fn copied_call(alloc: Global, call: &Call) -> Result<Bytes, AllocError> {
    let copy = call.copy(alloc)?;
    call_bytes(alloc, &copy)
}

/// From how many bytes a call is read, which one it is, and the bytes of a copy.
fn put_read_call(
    alloc: Global,
    out: &mut Vec<u8>,
    call: &Call,
    length: usize,
) -> Result<(), AllocError> {
    put_named(out, b"read", length as u64)?;
    out.extend_from_slice(b" ")?;
    put_call(alloc, out, call)?;
    let written = copied_call(alloc, call)?;
    put_copy(alloc, out, &written)
}

fn play_call(alloc: Global, out: &mut Vec<u8>, bytes: &[u8]) -> Result<(), Fault> {
    let (call, length) = call_in(alloc, bytes)?;
    Ok(put_read_call(alloc, out, &call, length)?)
}

fn call(alloc: Global, out: &mut Vec<u8>, line: &[u8]) -> Result<(), Fault> {
    let bytes = given(alloc, line, 4)?;
    play_call(alloc, out, bytes.as_slice())
}

/// The reply that these bytes begin with, and how many they are.
fn reply_in(alloc: Global, bytes: &[u8]) -> Result<(Reply, usize), FieldFault> {
    read_reply(alloc, bytes)
}

fn reply_bytes(alloc: Global, reply: &Reply) -> Result<Bytes, AllocError> {
    let mut written = Bytes::new(alloc);
    write_reply(alloc, reply, &mut written)?;
    Ok(written)
}

/// The bytes of a copy of a reply.
fn copied_reply(alloc: Global, reply: &Reply) -> Result<Bytes, AllocError> {
    let copy = reply.copy(alloc)?;
    reply_bytes(alloc, &copy)
}

/// From how many bytes a reply is read, which one it is, and the bytes of a copy.
fn put_read_reply(
    alloc: Global,
    out: &mut Vec<u8>,
    reply: &Reply,
    length: usize,
) -> Result<(), AllocError> {
    put_named(out, b"read", length as u64)?;
    put_shown(alloc, out, reply)?;
    let written = copied_reply(alloc, reply)?;
    put_copy(alloc, out, &written)
}

fn play_reply(alloc: Global, out: &mut Vec<u8>, bytes: &[u8]) -> Result<(), Fault> {
    let (reply, length) = reply_in(alloc, bytes)?;
    Ok(put_read_reply(alloc, out, &reply, length)?)
}

fn reply(alloc: Global, out: &mut Vec<u8>, line: &[u8]) -> Result<(), Fault> {
    let bytes = given(alloc, line, 5)?;
    play_reply(alloc, out, bytes.as_slice())
}

fn break_cell(table: &mut Table, line: &[u8]) -> Result<(), Fault> {
    table.cells.broken = Some(broken_of(line)?);
    Ok(())
}

fn mend(table: &mut Table) -> Result<(), Fault> {
    table.cells.broken = None;
    Ok(())
}

fn begin(alloc: Global, table: &mut Table) -> Result<(), Fault> {
    *table = Table::new(alloc)?;
    Ok(())
}

/// Plays a row with this name, and writes what came of it.
fn play_named(
    alloc: Global,
    out: &mut Vec<u8>,
    table: &mut Table,
    name: &str,
    line: &[u8],
) -> Result<(), Fault> {
    match name {
        "" | "#" => Ok(()),
        "new" => begin(alloc, table),
        "clock" => set_clock(table, line),
        "ask" => table.ask(alloc, out, line),
        "seen" => seen(alloc, out, table, line),
        "parent" => set_parent(table, line),
        "broken" => break_cell(table, line),
        "mended" => mend(table),
        "call" => call(alloc, out, line),
        "reply" => reply(alloc, out, line),
        _ => Err(Fault::Grammar(0)),
    }
}

/// Plays a row, and writes what came of it.
pub(crate) fn play(
    alloc: Global,
    out: &mut Vec<u8>,
    table: &mut Table,
    line: &str,
) -> Result<(), Fault> {
    let name = line.split(' ').next().unwrap_or("");
    let row = unrolled(alloc, line)?;
    play_named(alloc, out, table, name, row.as_slice())
}
