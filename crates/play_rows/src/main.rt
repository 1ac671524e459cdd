//! Gives each text of standard input to a command, and writes its name, what the command wrote,
//! the datagrams that it sent, and the status. A line before a text tells its name, its number of
//! lines, `ended` where the last of them has a line feed or `open` where not, and the command's
//! words. Behind ` | ` can stand those of a next command, which is given what the first one wrote:
//! then both statuses are written.
//!
//! Lines before that one tell what else is given, each with one of these behind `given`:
//!
//! - `source N..`, `sink N..`, `link N..`: the calls that fail, by their numbers from 1
//! - `disk S N`: the disk of server S fails for good after so many changes, or `stopped` at once
//! - `waiting S FROM HEX`: a datagram for server S, from a server or, where FROM is `-`, a client
//! - `clock T..`: what the clock reads, one after the other
//! - `lines N LINE`: a line that the text begins with, so many times
#![tactic(auto)]

mod case;
mod given;
mod run;

use crate::case::Case;
use crate::run::outcome_of;
use std::io::{self, BufRead, BufReader, Write};

fn main(rt: HostRuntime) -> io::Result<()> {
    let alloc = rt.alloc();
    let mut output = io::writer(&rt);
    let mut case = Case::new(alloc);
    for line in BufReader::new(alloc, rt.reader())?.split(alloc, b'\n') {
        let line = line?;
        if !case.take(alloc, line.as_slice())? {
            continue;
        }
        let outcome = outcome_of(&rt, alloc, case)?;
        case = Case::new(alloc);
        output.write_all(outcome.as_slice())?;
    }
    Ok(())
}
