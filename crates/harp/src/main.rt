//! The program `harp`: its words, standard input and output, sockets, folders and the day's clock,
//! and the exit status.
//!
//! # What is proved
//!
//! `main`, proved safe.
#![tactic(auto)]

mod reason;
mod refused_line;

use crate::reason::Ended;
use crate::refused_line::Latest;
use harp_cli::{Exit, harp};
use harp_store::Store;
use harp_types::{ReaderSource, ServerId, Sink, Source, Trio, WriterSink};
use node_link::{Clock, Link, UdpLink, WallClock};
use std::alloc::{AllocError, Global};
use std::cell::RefCell;
use std::fs::File;
use std::io::{BufWriter, ErrorKind, Input, Read, Write};
use std::net::Net;
use std::process::ExitCode;
use std::rt::{Env, Files};
use std::thread::Threads;
use std::time::Clock as DayClock;
use std::{env, io, mem};
use store_folder::FolderStore;
use world::World;

/// The most bytes of output that stand in memory before they are written. A longer piece, as the
/// answer to a full read, is written from where it stands.
const PIECE: usize = 1 << 13;

/// The words behind the program's name.
fn words<R: Env + AllocGlobal>(rt: &R) -> io::Result<Vec<String>> {
    let mut words = Vec::new(rt.alloc());
    for word in env::args(rt)?.skip(1) {
        words.push(word)?;
    }
    Ok(words)
}

/// The output, which the input hands on too.
#[derive(Drop)]
struct SharedOutput<'a, W> {
    output: &'a RefCell<W>,
    latest: &'a RefCell<Latest>,
}

impl<'a, W: Write> Write for SharedOutput<'a, W> {
    fn write(&mut self, piece: &[u8]) -> io::Result<usize> {
        if let Ok(mut latest) = self.latest.try_borrow_mut() {
            latest.give(piece);
        }
        match self.output.try_borrow_mut() {
            Ok(mut output) => output.write(piece),
            Err(_) => Err(io::Error::from(ErrorKind::Other)),
        }
    }

    fn flush(&mut self) -> io::Result<()> {
        match self.output.try_borrow_mut() {
            Ok(mut output) => output.flush(),
            Err(_) => Err(io::Error::from(ErrorKind::Other)),
        }
    }
}

/// The input. What was written is handed on before more is read, so that a program that waits for
/// an answer before it writes on gets it.
#[derive(Drop)]
struct AnsweredInput<'a, R, W> {
    input: R,
    output: &'a RefCell<W>,
    latest: &'a RefCell<Latest>,
    alloc: Global,
}

impl<'a, R: Read, W: Write> Read for AnsweredInput<'a, R, W> {
    fn read(&mut self, piece: &mut [u8]) -> io::Result<usize> {
        // What can't be handed on stays in memory, so the next write or the last flush fails.
        if let Ok(mut output) = self.output.try_borrow_mut() {
            let _ = output.flush();
        }
        let count = self.input.read(piece)?;
        if let Ok(mut latest) = self.latest.try_borrow_mut()
            && let Some(read) = piece.get(..count)
        {
            latest.take(self.alloc, read);
        }
        Ok(count)
    }
}

/// What a command reads and writes beside its words.
#[derive(Drop)]
struct Outside<S, K, L, D, C> {
    source: S,
    sink: K,
    link: L,
    disks: Trio<D>,
    clock: C,
}

impl<S: Source, K: Sink, L: Link, D: Store, C: Clock> Outside<S, K, L, D, C> {
    /// Does what the words say, in a new world, and returns the exit status. Nothing else stands
    /// here, since what `harp` promises is long.
    fn status_of<R: Threads + Sync>(&mut self, rt: &R, alloc: Global, words: &[String]) -> u8 {
        let Ok(mut world) = World::new(alloc) else {
            return Exit::NoMemory.status();
        };
        let status = harp(
            rt,
            alloc,
            words,
            &mut world,
            &mut self.source,
            &mut self.sink,
            &mut self.link,
            &mut self.disks,
            &mut self.clock,
        );
        // The program ends now, and the system takes its memory back whole.
        mem::forget(world);
        status
    }
}

/// The disk that failed, if one did.
fn failed<F>(disks: &Trio<FolderStore<F>>) -> Option<ServerId> {
    if disks.zero.faults() > 0 {
        Some(ServerId::Zero)
    } else if disks.one.faults() > 0 {
        Some(ServerId::One)
    } else if disks.two.faults() > 0 {
        Some(ServerId::Two)
    } else {
        None
    }
}

/// Whether a line of the input that is refused is told of, as `place` does.
fn tells_place(words: &[String]) -> bool {
    match words.first() {
        Some(name) => name.as_str() == "play" || name.as_str() == "observe",
        None => false,
    }
}

/// The byte, from 0, at which the line that a play refused is no step's any more.
fn place(latest: &RefCell<Latest>, alloc: Global, words: &[String]) -> Option<usize> {
    let name = words.first()?.as_str();
    match latest.try_borrow() {
        Ok(latest) if name == "play" => latest.place(alloc, false),
        Ok(latest) if name == "observe" => latest.place(alloc, true),
        _ => None,
    }
}

/// Does what the words say, writes to the output, and returns how that ended.
fn run<'w, R, W: Write>(rt: &R, output: &RefCell<W>, words: &'w [String]) -> Ended<'w>
where
    R: Input + Files<File = File> + Net + Threads + DayClock + AllocGlobal + Sync,
    R::Reader: Drop,
{
    let alloc = rt.alloc();
    let latest = RefCell::new(Latest::new(alloc, tells_place(words)));
    let (status, failed) = {
        let mut outside = Outside {
            source: ReaderSource::new(AnsweredInput {
                input: rt.reader(),
                output,
                latest: &latest,
                alloc,
            }),
            sink: WriterSink::new(SharedOutput {
                output,
                latest: &latest,
            }),
            link: UdpLink::new(rt),
            disks: Trio {
                zero: FolderStore::new(rt),
                one: FolderStore::new(rt),
                two: FolderStore::new(rt),
            },
            clock: WallClock::new(rt),
        };
        let status = outside.status_of(rt, alloc, words);
        (status, failed(&outside.disks))
    };
    let mut ended = Ended {
        words,
        status,
        failed,
        place: place(&latest, alloc, words),
        trouble: None,
    };
    ended.look(rt, alloc);
    ended
}

/// The words behind the program's name; none where one of them is no text, since such a word is
/// no command's, and neither are no words.
fn words_or_none<R: Env + AllocGlobal>(rt: &R) -> Result<Vec<String>, AllocError> {
    match words(rt) {
        Ok(words) => Ok(words),
        Err(fault) if fault.kind() == io::ErrorKind::OutOfMemory => Err(AllocError),
        Err(_) => Ok(Vec::new(rt.alloc())),
    }
}

fn main(rt: HostRuntime) -> ExitCode {
    let Ok(output) = BufWriter::with_capacity(rt.alloc(), PIECE, io::writer(&rt)) else {
        return ExitCode::from(Exit::NoMemory.status());
    };
    let output = RefCell::new(output);
    let Ok(words) = words_or_none(&rt) else {
        return ExitCode::from(Exit::NoMemory.status());
    };
    let mut ended = run(&rt, &output, words.as_slice());
    // What still stands in memory is written however the words ended.
    if output.into_inner().flush().is_err() {
        ended.status = Exit::SinkFailed.status();
    }
    if ended.is_told() {
        // Whether anybody reads it changes nothing.
        let _ = eprintln!(&rt; "harp: {ended}");
    }
    ExitCode::from(ended.status)
}
