//! Running a case.

use crate::case::Case;
use crate::given::Given;
use harp_cli::harp;
use harp_store::MemStore;
use harp_types::{Bytes, MemSink, MemSource, Peer, Trio};
use node_link::{ListClock, MemLink, SentDatagram, readings_rise};
use std::alloc::{AllocError, Global};
use std::thread::Threads;
use world::World;

/// A clock with these readings, where they never fall; else one that stays at 0.
fn clock_of(alloc: Global, readings: Vec<u64>) -> Result<ListClock, AllocError> {
    if !readings_rise(&readings) {
        return ListClock::new(alloc, Vec::new(alloc));
    }
    ListClock::new(alloc, readings)
}

/// A datagram that was sent, as a line: its place, whom it goes to, and its bytes.
fn line_of(alloc: Global, sent: &SentDatagram) -> Result<String, AllocError> {
    let place = sent.place.number();
    let digits = hex::encode(alloc, sent.bytes.as_slice())?;
    match sent.to {
        Peer::Server(to) => format!(in alloc; "sent {place} {} {digits}\n", to.number()),
        Peer::Local | Peer::Other { .. } => format!(in alloc; "sent {place} - {digits}\n"),
    }
}

/// What was written, and behind it a line for each datagram that was sent.
fn output_of(alloc: Global, sink: &MemSink, link: &MemLink) -> Result<Bytes, AllocError> {
    let mut output = Bytes::new(alloc);
    output.extend(sink.written())?;
    for sent in link.sent() {
        output.extend(line_of(alloc, sent)?.as_bytes())?;
    }
    Ok(output)
}

/// What surrounds a command.
#[derive(Drop)]
struct Scene {
    source: MemSource,
    sink: MemSink,
    link: MemLink,
    disks: Trio<MemStore>,
    clock: ListClock,
}

impl Scene {
    /// A text to read, and what else is given.
    fn of(alloc: Global, text: Bytes, given: Given) -> Result<Scene, AllocError> {
        let Given {
            source_fails,
            sink_fails,
            link_fails,
            waiting,
            disks,
            readings,
            ..
        } = given;
        Ok(Scene {
            source: MemSource::new(text, source_fails),
            sink: MemSink::new(alloc, sink_fails)?,
            link: MemLink::new(alloc, waiting, link_fails)?,
            disks,
            clock: clock_of(alloc, readings)?,
        })
    }

    /// Does what the words say, in a new world. Nothing else stands here, since what `harp` promises
    /// is long.
    fn status_of<R: Threads + Sync>(
        &mut self,
        rt: &R,
        alloc: Global,
        words: &[String],
    ) -> Result<u8, AllocError> {
        let mut world = World::new(alloc)?;
        Ok(harp(
            rt,
            alloc,
            words,
            &mut world,
            &mut self.source,
            &mut self.sink,
            &mut self.link,
            &mut self.disks,
            &mut self.clock,
        ))
    }
}

/// Gives a text to a command over what is given. The exit status, and what it wrote and sent.
fn ended<R: Threads + Sync>(
    rt: &R,
    alloc: Global,
    words: &[String],
    text: Bytes,
    given: Given,
) -> Result<(u8, Bytes), AllocError> {
    let mut scene = Scene::of(alloc, text, given)?;
    let status = scene.status_of(rt, alloc, words)?;
    Ok((status, output_of(alloc, &scene.sink, &scene.link)?))
}

/// The name of a case, what its command wrote and sent, and the exit status.
fn told(alloc: Global, name: &str, output: &[u8], status: &str) -> Result<Bytes, AllocError> {
    let mut text = Bytes::new(alloc);
    text.extend(name.as_bytes())?;
    text.extend(b"\n")?;
    text.extend(output)?;
    text.extend(status.as_bytes())?;
    text.extend(b"\n")?;
    Ok(text)
}

/// What a case comes to. What the first of two commands writes is given to the next one, and both
/// statuses are told.
pub(crate) fn outcome_of<R: Threads + Sync>(
    rt: &R,
    alloc: Global,
    case: Case,
) -> Result<Bytes, AllocError> {
    let Case {
        name,
        words,
        next,
        text,
        given,
        ..
    } = case;
    let (first, output) = ended(rt, alloc, words.as_slice(), text, given)?;
    if next.is_empty() {
        let status = format!(in alloc; "{first}")?;
        return told(alloc, name.as_str(), output.as_slice(), status.as_str());
    }
    let (second, output) = ended(rt, alloc, next.as_slice(), output, Given::new(alloc))?;
    let status = format!(in alloc; "{first} {second}")?;
    told(alloc, name.as_str(), output.as_slice(), status.as_str())
}
