//! Rows that are read and played.

use crate::asking::{ask_of, asked, moment_of};
use crate::fault::Fault;
use crate::observing::table::Table;
use schedule_text::{TextFault, end_at, spaced_u32_at, word_at};
use std::alloc::Global;

/// The number that ends a row.
fn number_of(line: &[u8], at: usize) -> Result<u32, TextFault> {
    let (number, at) = spaced_u32_at(line, at)?;
    end_at(line, at)?;
    Ok(number)
}

fn ask(alloc: Global, table: &mut Table, line: &[u8]) -> Result<(), Fault> {
    let (asker, call) = ask_of(alloc, line)?;
    table.group.commit(alloc, asker, &call)
}

fn peek(alloc: Global, out: &mut Vec<u8>, table: &mut Table, line: &[u8]) -> Result<(), Fault> {
    if line.len() < 4 {
        return Err(Fault::Grammar(0));
    }
    let (_, call) = asked(alloc, line, 4)?;
    table.peek(alloc, out, &call)
}

/// Plays a row that is about the group.
fn play_group(alloc: Global, table: &mut Table, word: &[u8], line: &[u8]) -> Result<bool, Fault> {
    if word == b"clock".as_slice() {
        table.group.now = moment_of(line)?;
    } else if word == b"ask".as_slice() {
        ask(alloc, table, line)?;
    } else if word == b"drop".as_slice() {
        table.group.base = u64::from(number_of(line, 4)?);
    } else {
        return Ok(false);
    }
    Ok(true)
}

/// Plays a row that is about the observer.
fn play_observer(
    alloc: Global,
    out: &mut Vec<u8>,
    table: &mut Table,
    word: &[u8],
    line: &[u8],
) -> Result<(), Fault> {
    if word == b"copy".as_slice() {
        table.observer.copy(alloc);
        return Ok(());
    }
    if word == b"want".as_slice() {
        table.want(alloc, out)?;
        return Ok(());
    }
    if word == b"take".as_slice() {
        return table.take(alloc, out, number_of(line, 4)? as usize);
    }
    if word == b"drain".as_slice() {
        return table.drain(alloc, out, number_of(line, 5)?);
    }
    if word == b"peek".as_slice() {
        return peek(alloc, out, table, line);
    }
    Err(Fault::Grammar(0))
}

/// Plays a row.
pub(crate) fn play(
    alloc: Global,
    out: &mut Vec<u8>,
    table: &mut Table,
    line: &[u8],
) -> Result<(), Fault> {
    let word = word_at(line, 0);
    if word.is_empty() || word == b"#".as_slice() {
        return Ok(());
    }
    if word == b"new".as_slice() {
        *table = Table::new(alloc);
        return Ok(());
    }
    if play_group(alloc, table, word, line)? {
        return Ok(());
    }
    play_observer(alloc, out, table, word, line)
}
