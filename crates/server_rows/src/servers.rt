//! Rows with what is said to a server over a disk in memory. Each is written, and what came of it
//! in the lines of a trace. `row NAME S` begins a case with server S, down, over a new disk. `boot
//! T D` boots it where its clock reads T, with promises of D milliseconds. `at T STEP` gives it a
//! step of a schedule, `at T from S BYTES` a message of server S. `disk ..` is about its disk:
//! `mark BYTES` and `saved P BYTES` are written, `stop N` lets N calls that change it pass and
//! fails the rest, `misread N` fails the read behind N others, `crash` keeps what isn't synced,
//! `settle` lifts a stop, and `sync` and `look` are calls of it. Nothing comes of other rows: those
//! that begin with `#` tell what the bytes behind them are.

mod disk;
mod server;

pub(crate) use crate::servers::server::Server;
use crate::servers::server::input_of;
use harp_cells::{Cell, SharedValue};
use harp_store::{Pick, Store, StoreFault};
use harp_types::ServerId;
use node::{Input, NodeFault};
use promise::Delta;
use schedule_text::read_step;
use std::alloc::{AllocError, Global};
use store_folder::{read_cell_file, read_mark_file};
use text_writer::append_line;
use trace_types::Line;
use wire::decode;

/// A line's first word, and what stands behind it.
fn halves(line: &str) -> (&str, &str) {
    match line.split_once(' ') {
        Some(halves) => halves,
        None => (line, ""),
    }
}

fn server_of(word: &str) -> Option<ServerId> {
    ServerId::of(word.parse::<u8>().ok()?)
}

fn bytes_of(alloc: Global, digits: &str) -> Option<Vec<u8>> {
    hex::decode(alloc, digits).ok()
}

/// A message of a server.
fn message_of(alloc: Global, line: &str) -> Option<Input> {
    let (from, digits) = halves(line);
    let from = server_of(from)?;
    let message = decode(alloc, bytes_of(alloc, digits)?.as_slice()).ok()?;
    Some(Input::Message { from, message })
}

/// What a server is given, and where its clock reads what then.
fn given_of(alloc: Global, line: &str) -> Option<(u64, Input)> {
    let (now, rest) = halves(line);
    let now = now.parse::<u64>().ok()?;
    let (word, message) = halves(rest);
    if word == "from" {
        return Some((now, message_of(alloc, message)?));
    }
    let step = read_step(alloc, rest.as_bytes()).ok()??;
    Some((now, input_of(step)?))
}

/// Writes a record of a saved log to a disk.
fn put_saved<D: Store>(alloc: Global, disk: &mut D, line: &str) -> Option<Result<(), StoreFault>> {
    let (place, digits) = halves(line);
    let place = place.parse::<u32>().ok()?;
    let value = read_cell_file(alloc, bytes_of(alloc, digits)?.as_slice()).ok()?;
    let value = SharedValue::new(alloc, value).ok()?;
    Some(disk.put(alloc, Cell::Saved { place }, &value))
}

fn write_mark<D: Store>(
    alloc: Global,
    disk: &mut D,
    digits: &str,
) -> Option<Result<(), StoreFault>> {
    let mark = read_mark_file(bytes_of(alloc, digits)?.as_slice())?;
    Some(disk.write_mark(alloc, &mark))
}

/// Calls a disk as a line says. None where it says no call.
fn called<D: Store>(alloc: Global, disk: &mut D, line: &str) -> Option<Result<(), StoreFault>> {
    let (word, rest) = halves(line);
    match word {
        "mark" => write_mark(alloc, disk, rest),
        "saved" => put_saved(alloc, disk, rest),
        "sync" => Some(disk.sync(alloc)),
        "look" => match disk.read_mark(alloc) {
            Ok(_) => Some(Ok(())),
            Err(fault) => Some(Err(fault)),
        },
        _ => None,
    }
}

/// Tells a disk what is to fail, or calls it. Whether a call failed.
fn disk_fails(alloc: Global, server: &mut Server, line: &str) -> bool {
    let (word, rest) = halves(line);
    let calls = rest.parse::<u32>().unwrap_or(0);
    match word {
        "stop" => server.disk.store.stop_after(calls),
        "misread" => server.disk.store.fail_read(calls),
        "crash" => server.disk.store.crash(&Pick::All),
        "settle" => server.disk.store.settle(),
        _ => {
            let outcome = called(alloc, &mut server.disk, line);
            return !matches!(outcome, Some(Ok(())));
        }
    }
    false
}

fn put_line(alloc: Global, out: &mut Vec<u8>, line: &Line) -> Result<(), AllocError> {
    append_line(alloc, line, out)?;
    out.push(b'\n')?;
    Ok(())
}

fn put_fault(out: &mut Vec<u8>, fault: NodeFault) -> Result<(), AllocError> {
    match fault {
        NodeFault::StoreFailed => out.extend_from_slice(b"the store failed\n"),
        NodeFault::Halted => out.extend_from_slice(b"halted\n"),
        NodeFault::NoMemory => out.extend_from_slice(b"no memory\n"),
    }
}

fn boot(
    alloc: Global,
    server: &mut Server,
    line: &str,
    out: &mut Vec<u8>,
) -> Result<(), AllocError> {
    let (now, delta) = halves(line);
    let (Ok(now), Ok(delta)) = (now.parse::<u64>(), delta.parse::<u32>()) else {
        return Ok(());
    };
    let Some(delta) = Delta::of(delta) else {
        return Ok(());
    };
    match server.boot(alloc, now, delta) {
        Ok(()) => Ok(()),
        Err(fault) => put_fault(out, fault),
    }
}

/// Gives a server what a line says.
fn take(
    alloc: Global,
    server: &mut Server,
    line: &str,
    out: &mut Vec<u8>,
) -> Result<(), AllocError> {
    let Some((now, input)) = given_of(alloc, line) else {
        return out.extend_from_slice(b"no step\n");
    };
    match server.take(alloc, input, now)? {
        Ok(lines) => {
            for line in lines.as_slice() {
                put_line(alloc, out, line)?;
            }
            Ok(())
        }
        Err(fault) => put_fault(out, fault),
    }
}

/// Does what a row says, and writes what comes of it.
fn did(
    alloc: Global,
    server: &mut Server,
    line: &str,
    out: &mut Vec<u8>,
) -> Result<(), AllocError> {
    let (word, rest) = halves(line);
    match word {
        "boot" => boot(alloc, server, rest, out)?,
        "at" => take(alloc, server, rest, out)?,
        "disk" => {
            if disk_fails(alloc, server, rest) {
                out.extend_from_slice(b"failed\n")?;
            }
            return Ok(());
        }
        "row" => {
            let (_, me) = halves(rest);
            *server = Server::new(alloc, server_of(me).unwrap_or(ServerId::Zero));
            return Ok(());
        }
        _ => return Ok(()),
    }
    put_line(alloc, out, &server.shown())
}

/// What comes of a row.
pub(crate) fn outcome(
    alloc: Global,
    server: &mut Server,
    row: &str,
) -> Result<Vec<u8>, AllocError> {
    let mut out = Vec::new(alloc);
    did(alloc, server, row, &mut out)?;
    Ok(out)
}
