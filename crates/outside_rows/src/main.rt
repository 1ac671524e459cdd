//! Tries what a group and its programs get from outside and give there: texts, sweeps, folders,
//! links, clocks and doors. Each row of standard input is tried, and what came of it is written.
//! Bytes are in hexadecimal, a dash for none. A row begins with
//!
//! - `message HEX`, `line HEX`, `step HEX` or `observed HEX`: a message of the group and its
//!   clients, a line of a trace, of a schedule or of an observed one. Of its bytes is written `ok`,
//!   or where they are at fault. What was read of them is spelled again, and `other` is written where
//!   these aren't the same bytes;
//! - `sweep ROW`: a schedule that is made, or a sweep;
//! - `folder ROW`: a store over a folder, files, a link or a clock;
//! - any other word: a door, and sources and sinks.
//!
//! The modules have the rows.
#![tactic(auto)]

mod digits;
mod door;
mod folder;
mod text;

use crate::door::Stream;
use crate::folder::{Player, Seconds};
use harp_types::WriterSink;
use std::alloc::AllocError;
use std::io::{self, BufRead, BufReader};

/// Writes what came of a row, and an end.
fn write(rt: HostRuntime, came: Result<String, AllocError>, end: &str) -> io::Result<()> {
    let text = came?;
    print!(rt; "{text}{end}")
}

/// Tries a row, other than of a sweep.
fn play(
    rt: HostRuntime,
    stream: &mut Stream,
    player: &mut Player<'_>,
    line: &str,
) -> io::Result<()> {
    let alloc = rt.alloc();
    let (word, row) = line.split_once(' ').unwrap_or((line, ""));
    match word {
        "message" => write(rt, text::described_message(alloc, row), "\n"),
        "line" => write(rt, text::described_line(alloc, row), "\n"),
        "step" => write(rt, text::described_step(alloc, row), "\n"),
        "observed" => write(rt, text::described_observed(alloc, row), "\n"),
        "folder" => folder::play(rt, player, row),
        _ => write(rt, door::outcome(rt, stream, word, row), ""),
    }
}

fn main(rt: HostRuntime) -> io::Result<()> {
    let alloc = rt.alloc();
    let seconds = Seconds::new();
    let mut player = Player::new(rt, &seconds)?;
    let mut stream = Stream::new(alloc);
    let mut sink = WriterSink::new(io::writer(&rt));
    for line in BufReader::new(alloc, rt.reader())?.lines(alloc) {
        let line = line?;
        let Some(row) = line.strip_prefix("sweep ") else {
            play(rt, &mut stream, &mut player, line.as_str())?;
            continue;
        };
        if !text::write_row(&rt, alloc, row, &mut sink)? {
            println!(rt; "refused")?;
        }
    }
    Ok(())
}
