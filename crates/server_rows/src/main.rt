//! Plays each line of standard input on a part of a server, or on a whole one, and writes what came
//! of it. A line is a kind and a row. The kinds are
//!
//! - `tree`: calls on a tree in cells and on a plain one, records, and calls and replies as bytes;
//! - `disk`: a store that may crash, and a log over it;
//! - `log`: promises, views and logs;
//! - `server`: one server over a disk in memory;
//! - `observe`: a group, and an observer of it.
//!
//! The modules have the rows.
#![tactic(auto)]

mod asking;
mod disks;
mod fault;
mod logs;
mod observing;
mod servers;
mod tree;

use harp_types::ServerId;
use std::alloc::AllocError;
use std::io::{self, BufRead, BufReader, Write};

/// What rows are played on that go on from those before them.
#[derive(Drop)]
struct Played {
    trees: tree::Table,
    server: servers::Server,
    watched: observing::Table,
}

/// Writes a row behind a mark, and then what came of it.
fn write(
    rt: HostRuntime,
    mark: &str,
    row: &str,
    came: Result<Vec<u8>, AllocError>,
) -> io::Result<()> {
    let out = came?;
    println!(rt; "{mark}{row}")?;
    io::writer(&rt).write_all(out.as_slice())
}

/// Plays a line.
fn play(rt: HostRuntime, played: &mut Played, line: &str) -> io::Result<()> {
    let alloc = rt.alloc();
    let (kind, row) = line.split_once(' ').unwrap_or((line, ""));
    match kind {
        "tree" => write(rt, "> ", row, tree::outcome(alloc, &mut played.trees, row)),
        "disk" => disks::play(rt, row),
        "log" => logs::play(rt, row),
        "server" => write(
            rt,
            "",
            row,
            servers::outcome(alloc, &mut played.server, row),
        ),
        "observe" => write(
            rt,
            "> ",
            row,
            observing::outcome(alloc, &mut played.watched, row),
        ),
        _ => println!(rt; "no kind"),
    }
}

fn main(rt: HostRuntime) -> io::Result<()> {
    let alloc = rt.alloc();
    let mut played = Played {
        trees: tree::Table::new(alloc)?,
        server: servers::Server::new(alloc, ServerId::Zero),
        watched: observing::Table::new(alloc),
    };
    for line in BufReader::new(alloc, rt.reader())?.lines(alloc) {
        play(rt, &mut played, line?.as_str())?;
    }
    Ok(())
}
