//! The program `harpd`: a server that stays up, over a folder and UDP, until a file tells it to
//! stop; what makes a folder for one; and a door to three servers, over TCP and UDP.
//!
//! # What is proved
//!
//! `run` is the top call. It does what the words ask for, or says how the program is called
//! (`ends`): the words are exactly `server` with the decimal spellings of a server's number and a
//! port, a folder that isn't empty and perhaps the length of promises, `serve` with those of two
//! ports, a client and perhaps a user and a group, `init` with such a folder, `help`, and
//! `version`.
//!
//! `server` hands on what `node_loop` says of `serve_steady`: with status 0 it was booted, took its
//! turns until it was told to stop, and saved its log (`IsStay`), and its line was written; with 8
//! it was cut off or never started, and its line wasn't (`IsStayCut`); with 7 and 6 it is either
//! (`ServerEnds`). `init` ends with 0 only where its folder was made. The folder that is made, that
//! is entered with the disk, and that is left behind the end is the one whose name stands among the
//! words, and nothing else is done to folders (`CommandEnds`).
//!
//! `serve` hands on what `door_seats` says of its `serve` (`Serves`), by the rule and the client
//! that the words say, behind an opening that tells nothing: with 0 of all its turns, with 6 of
//! those before it was cut off, and with 8 so too, or it was never opened (`DoorEnds`). It ends in
//! no other way, writes nothing, and does nothing to folders.
//!
//! All but `server` leave link, disk, clock and who gives orders (`apart`), and all but `serve` the
//! door's connections, link and clock (`door_apart`). A failure is told only where its count rose.
//! Not pinned: the text of `help`, which port the door opens, and what a disk makes of the name to
//! which it is attached. `word_fault` tells what is wrong with words exactly where they are no
//! form. `main` and the adapters over the system's files are proved safe, and keep what was done to
//! folders.
#![tactic(auto)]

mod deeds;
mod door;
mod exit;
mod folders;
mod number;
mod reason;
mod serve;
mod state_lines;
mod system_folders;
mod texts;
mod top;
mod word_faults;
mod words;

use crate::exit::Exit;
use crate::folders::Folders;
use crate::reason::Ended;
use crate::state_lines::StateLines;
use crate::system_folders::{Refusal, StopFile, SystemFolders};
use crate::top::{run, word_at};
use door_seats::{Connections, TcpConnections};
use harp_store::Store;
use harp_types::{Sink, WriterSink};
use node_link::{Clock, Link, UdpLink, WallClock};
use node_loop::{Orders, Outside, Watcher};
use std::alloc::{AllocError, Global};
use std::process::ExitCode;
use std::rt::Env;
use std::{env, io};
use store_folder::{FolderStore, Trouble, trouble_of};

/// The words behind the program's name.
fn every_word<R: Env + AllocGlobal>(rt: &R) -> io::Result<Vec<String>> {
    let mut words = Vec::new(rt.alloc());
    for word in env::args(rt)?.skip(1) {
        words.push(word)?;
    }
    Ok(words)
}

/// The words behind the program's name; none where one of them is no text, since such a word is
/// no command's, and neither are no words.
fn words_or_none<R: Env + AllocGlobal>(rt: &R) -> Result<Vec<String>, AllocError> {
    match every_word(rt) {
        Ok(words) => Ok(words),
        Err(fault) if fault.kind() == io::ErrorKind::OutOfMemory => Err(AllocError),
        Err(_) => Ok(Vec::new(rt.alloc())),
    }
}

/// Does what the words say. Nothing else stands here, since what `run` promises is long.
fn exit_of<K: Sink, F: Folders, L, D, C, O, W, N, M, B>(
    alloc: Global,
    words: &[String],
    sink: &mut K,
    folders: &mut F,
    outside: &mut Outside<L, D, C, O, W>,
    door: &mut door_seats::Outside<N, M, B>,
) -> Exit
where
    L: Link,
    D: Store,
    C: Clock,
    O: Orders,
    W: Watcher,
    N: Connections,
    M: Link,
    B: Clock,
{
    run(alloc, words, sink, folders, outside, door)
}

/// How a run ended: its exit, why a folder was refused, if one was, and how many lines of a
/// server's state couldn't be written.
#[derive(Clone, Copy)]
struct Outcome {
    exit: Exit,
    refusal: Option<Refusal>,
    lost: u64,
}

/// Does what the words say, over the system's files, sockets and clock. What it does so by is let
/// go by calls, each proved apart.
fn outcome_of(rt: &HostRuntime, words: &[String]) -> Result<Outcome, AllocError> {
    let alloc = rt.alloc();
    let stop = format!(in alloc; "{}/stop", word_at(words, 3))?;
    let mut folders = SystemFolders::new(rt);
    let mut outside = Outside {
        link: UdpLink::new(rt),
        disk: FolderStore::new(rt),
        clock: WallClock::new(rt),
        orders: StopFile::new(rt, stop),
        watcher: StateLines::new(alloc, WriterSink::new(io::writer(rt))),
    };
    let mut door = door_seats::Outside {
        connections: TcpConnections::new(rt),
        link: UdpLink::new(rt),
        clock: WallClock::new(rt),
    };
    let mut sink = WriterSink::new(io::writer(rt));
    let exit = exit_of(
        alloc,
        words,
        &mut sink,
        &mut folders,
        &mut outside,
        &mut door,
    );
    let refusal = folders.refusal();
    let lost = outside.watcher.lost();
    drop(door);
    drop(outside);
    drop(folders);
    Ok(Outcome {
        exit,
        refusal,
        lost,
    })
}

/// What shows of the folder that the words name, where its disk failed. The store has let it go.
fn trouble(rt: &HostRuntime, words: &[String], exit: Exit) -> Option<Trouble> {
    match exit {
        Exit::DiskFailed => Some(trouble_of(rt, word_at(words, 3))),
        _ => None,
    }
}

/// Does what the words say, and looks at how that ended.
fn ended<'w>(rt: &HostRuntime, words: &'w [String]) -> Result<Ended<'w>, AllocError> {
    let outcome = outcome_of(rt, words)?;
    Ok(Ended {
        words,
        exit: outcome.exit,
        refusal: outcome.refusal,
        trouble: trouble(rt, words, outcome.exit),
        lost: outcome.lost,
    })
}

fn main(rt: HostRuntime) -> ExitCode {
    let Ok(words) = words_or_none(&rt) else {
        return ExitCode::from(Exit::NoMemory.status());
    };
    let Ok(ended) = ended(&rt, words.as_slice()) else {
        return ExitCode::from(Exit::NoMemory.status());
    };
    if ended.exit != Exit::Done {
        // Whether anybody reads it changes nothing.
        let _ = eprintln!(&rt; "harpd: {ended}");
    }
    if ended.lost > 0 {
        let _ = eprintln!(&rt; "harpd: {} lines of its state can't be written", ended.lost);
    }
    ExitCode::from(ended.exit.status())
}
