//! A store over a folder.

use crate::digits::bytes_of;
use crate::folder::words::{Answer, came, halves, number, tell_bytes, told};
use harp_cells::{Cell, NonEmpty, SharedValue, Value};
use harp_store::{Mark, Store};
use std::alloc::Global;
use store_folder::{DiskFiles, FolderStore, read_mark_file, write_cell_file, write_mark_file};

fn u32_of(word: &str) -> Option<u32> {
    u32::try_from(number(word)?).ok()
}

fn pair(numbers: &str) -> Option<(u32, u32)> {
    let (first, second) = numbers.split_once('-')?;
    Some((u32_of(first)?, u32_of(second)?))
}

/// A cell by the name of its file.
fn cell_named(name: &str) -> Option<Cell> {
    if name == "meta" {
        return Some(Cell::Meta);
    }
    let (kind, numbers) = name.split_once('-')?;
    if kind == "block" {
        let (object, block) = pair(numbers)?;
        return Some(Cell::Block { object, block });
    }
    if kind == "slot" {
        let (object, slot) = pair(numbers)?;
        return Some(Cell::Slot { object, slot });
    }
    let number = u32_of(numbers)?;
    match kind {
        "object" => Some(Cell::Object { object: number }),
        "client" => Some(Cell::Client { client: number }),
        "saved" => Some(Cell::Saved { place: number }),
        _ => None,
    }
}

/// A block of bytes that are told as digits.
fn block_of(alloc: Global, digits: &str) -> Option<SharedValue> {
    let bytes = NonEmpty::of(bytes_of(alloc, digits)?)?;
    SharedValue::new(alloc, Value::Block { bytes }).ok()
}

/// A mark by the bytes of its file.
fn mark_of(alloc: Global, digits: &str) -> Option<Mark> {
    read_mark_file(bytes_of(alloc, digits)?.as_slice())
}

/// Tells the bytes of a value's file.
fn tell_value(alloc: Global, value: &Value, text: &mut String) -> Answer {
    match write_cell_file(alloc, value) {
        Ok(bytes) => tell_bytes(alloc, text, bytes.as_slice()),
        Err(_) => Answer::Failed,
    }
}

/// Tells the bytes of a mark's file.
fn tell_mark(alloc: Global, mark: &Mark, text: &mut String) -> Answer {
    match write_mark_file(alloc, mark) {
        Ok(bytes) => tell_bytes(alloc, text, bytes.as_slice()),
        Err(_) => Answer::Failed,
    }
}

fn attach<D: Store>(alloc: Global, store: &mut D, path: &str) -> Answer {
    came(store.attach(alloc, path))
}

fn read<D: Store>(alloc: Global, store: &mut D, cell: Cell, text: &mut String) -> Answer {
    match store.read(alloc, cell) {
        Ok(Some(value)) => tell_value(alloc, value.get(), text),
        Ok(None) => Answer::Absent,
        Err(_) => Answer::Failed,
    }
}

fn put<D: Store>(alloc: Global, store: &mut D, cell: Cell, value: &SharedValue) -> Answer {
    came(store.put(alloc, cell, value))
}

/// Puts a block of bytes that are told as digits.
fn put_block<D: Store>(alloc: Global, store: &mut D, cell: Cell, digits: &str) -> Answer {
    match block_of(alloc, digits) {
        Some(value) => put(alloc, store, cell, &value),
        None => Answer::Nothing,
    }
}

fn erase<D: Store>(alloc: Global, store: &mut D, cell: Cell) -> Answer {
    came(store.erase(alloc, cell))
}

/// Erases the blocks of an object from a cell's on.
fn erase_from<D: Store>(alloc: Global, store: &mut D, cell: Cell) -> Answer {
    match cell {
        Cell::Block { object, block } => came(store.erase_from(alloc, object, block)),
        _ => Answer::Nothing,
    }
}

fn sync<D: Store>(alloc: Global, store: &mut D) -> Answer {
    came(store.sync(alloc))
}

fn read_mark<D: Store>(alloc: Global, store: &mut D, text: &mut String) -> Answer {
    match store.read_mark(alloc) {
        Ok(Some(mark)) => tell_mark(alloc, &mark, text),
        Ok(None) => Answer::Absent,
        Err(_) => Answer::Failed,
    }
}

/// Writes a mark that is told as the digits of its file.
fn write_mark<D: Store>(alloc: Global, store: &mut D, digits: &str) -> Answer {
    match mark_of(alloc, digits) {
        Some(mark) => came(store.write_mark(alloc, &mark)),
        None => Answer::Nothing,
    }
}

/// What came of a line about a cell.
fn cell_answer<D: Store>(
    alloc: Global,
    store: &mut D,
    cell: Cell,
    word: &str,
    digits: &str,
    text: &mut String,
) -> Answer {
    match word {
        "put" => put_block(alloc, store, cell, digits),
        "erase" => erase(alloc, store, cell),
        "erase-from" => erase_from(alloc, store, cell),
        "read" => read(alloc, store, cell, text),
        _ => Answer::Nothing,
    }
}

/// What came of a line about a store.
pub(crate) fn store_answer<F: DiskFiles + Drop>(
    alloc: Global,
    store: &mut FolderStore<F>,
    line: &str,
    text: &mut String,
) -> Answer {
    let (word, rest) = halves(line);
    let (name, digits) = halves(rest);
    if let Some(cell) = cell_named(name) {
        return cell_answer(alloc, store, cell, word, digits, text);
    }
    match word {
        "attach" => attach(alloc, store, rest),
        "sync" => sync(alloc, store),
        "write-mark" => write_mark(alloc, store, rest),
        "read-mark" => read_mark(alloc, store, text),
        "faults" => {
            let faults = store.faults();
            told(write!(text, "{faults}"))
        }
        _ => Answer::Nothing,
    }
}
