//! Replies and changes as text.

use harp_cells::{Cell, Change, Inode, Value};
use harp_types::{Attr, Reply};
use std::alloc::{AllocError, Global};
use text_writer::{
    put_attr, put_decimal, put_hex, put_name, put_named, put_number, put_reply, put_three,
};

/// A byte, with a star and a number where it stands more than once.
fn put_run(alloc: Global, out: &mut Vec<u8>, byte: u8, times: u64) -> Result<(), AllocError> {
    put_hex(alloc, out, &[byte])?;
    if times == 1 {
        return Ok(());
    }
    out.extend_from_slice(b"*")?;
    put_decimal(out, times)
}

/// Bytes behind a space, those that are equal in a row written once.
fn put_runs(alloc: Global, out: &mut Vec<u8>, bytes: &[u8]) -> Result<(), AllocError> {
    if bytes.is_empty() {
        return out.extend_from_slice(b" -");
    }
    let mut mark: &[u8] = b" ";
    let mut times: u64 = 1;
    for (place, byte) in bytes.iter().enumerate() {
        if bytes.get(place + 1) == Some(byte) {
            times = times.saturating_add(1);
            continue;
        }
        out.extend_from_slice(mark)?;
        put_run(alloc, out, *byte, times)?;
        mark = b"+";
        times = 1;
    }
    Ok(())
}

/// A reply as in a trace, but with a file's bytes as runs.
pub fn put_shown(alloc: Global, out: &mut Vec<u8>, reply: &Reply) -> Result<(), AllocError> {
    match reply {
        Reply::Bytes { attr, bytes } => {
            out.extend_from_slice(b" data")?;
            put_attr(out, attr)?;
            put_runs(alloc, out, bytes.as_slice())
        }
        _ => put_reply(alloc, out, reply),
    }
}

/// As the attributes of a reply, but with the slots in place of the blocks, and the parent in place
/// of the object's own number.
fn put_inode(out: &mut Vec<u8>, inode: &Inode) -> Result<(), AllocError> {
    let attr = Attr {
        kind: inode.kind,
        mode: inode.mode,
        links: inode.links,
        uid: inode.uid,
        gid: inode.gid,
        size: inode.size,
        blocks: inode.slots,
        fileid: inode.parent,
        atime: inode.atime,
        mtime: inode.mtime,
        ctime: inode.ctime,
    };
    put_attr(out, &attr)
}

/// A word, and two numbers behind it.
fn put_pair(out: &mut Vec<u8>, word: &[u8], first: u32, second: u32) -> Result<(), AllocError> {
    put_named(out, word, u64::from(first))?;
    put_number(out, u64::from(second))
}

pub(crate) fn put_cell(out: &mut Vec<u8>, cell: Cell) -> Result<(), AllocError> {
    match cell {
        Cell::Meta => out.extend_from_slice(b" totals"),
        Cell::Object { object } => put_named(out, b" object", u64::from(object)),
        Cell::Client { client } => put_named(out, b" client", u64::from(client)),
        Cell::Saved { place } => put_named(out, b" saved", u64::from(place)),
        Cell::Block { object, block } => put_pair(out, b" block", object, block),
        Cell::Slot { object, slot } => put_pair(out, b" slot", object, slot),
    }
}

/// The object that a slot names, and its name.
fn put_slot(alloc: Global, out: &mut Vec<u8>, object: u32, name: &[u8]) -> Result<(), AllocError> {
    put_number(out, u64::from(object))?;
    put_name(alloc, out, name)
}

/// The last update of a client.
fn put_client(
    alloc: Global,
    out: &mut Vec<u8>,
    number: u64,
    index: u64,
    reply: &Reply,
) -> Result<(), AllocError> {
    put_number(out, number)?;
    put_number(out, index)?;
    put_shown(alloc, out, reply)
}

fn put_value(alloc: Global, out: &mut Vec<u8>, value: &Value) -> Result<(), AllocError> {
    match value {
        Value::Meta { next, used, stamp } => {
            put_three(out, u64::from(*next), u64::from(*used), stamp.get())
        }
        Value::Object { inode } => put_inode(out, inode),
        Value::Block { bytes } => put_runs(alloc, out, bytes.as_slice()),
        Value::Slot { object, name } => put_slot(alloc, out, *object, name.as_slice()),
        Value::Client {
            number,
            index,
            reply,
        } => put_client(alloc, out, *number, *index, reply),
        _ => out.extend_from_slice(b" other"),
    }
}

/// A cell, and the value that it gets.
fn put_put(alloc: Global, out: &mut Vec<u8>, cell: Cell, value: &Value) -> Result<(), AllocError> {
    out.extend_from_slice(b"put")?;
    put_cell(out, cell)?;
    put_value(alloc, out, value)
}

/// A cell that is erased.
fn put_erase(out: &mut Vec<u8>, cell: Cell) -> Result<(), AllocError> {
    out.extend_from_slice(b"erase")?;
    put_cell(out, cell)
}

fn put_change(alloc: Global, out: &mut Vec<u8>, change: &Change) -> Result<(), AllocError> {
    match change {
        Change::Put { cell, value } => put_put(alloc, out, *cell, value.get()),
        Change::Erase { cell } => put_erase(out, *cell),
        Change::EraseFrom { object, first } => put_pair(out, b"erase blocks", *object, *first),
    }
}

/// Changes, each on a line of its own.
pub fn put_changes(alloc: Global, out: &mut Vec<u8>, changes: &[Change]) -> Result<(), AllocError> {
    for change in changes {
        put_change(alloc, out, change)?;
        out.extend_from_slice(b"\n")?;
    }
    Ok(())
}

/// Whose reply it is, and the reply.
pub fn put_answer(
    alloc: Global,
    out: &mut Vec<u8>,
    whose: &[u8],
    reply: Reply,
) -> Result<(), AllocError> {
    put_line(alloc, out, whose, &reply)
}

/// A line with a word and a reply.
fn put_line(
    alloc: Global,
    out: &mut Vec<u8>,
    word: &[u8],
    reply: &Reply,
) -> Result<(), AllocError> {
    out.extend_from_slice(word)?;
    put_shown(alloc, out, reply)?;
    out.extend_from_slice(b"\n")
}
