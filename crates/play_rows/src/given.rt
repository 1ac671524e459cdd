//! What a command is run over besides its text: which calls fail, which datagrams wait, and what
//! the clock reads.

use harp_store::{MemStore, Store};
use harp_types::{Bytes, Peer, ServerId, Trio};
use node_link::{Datagram, Waiting};
use std::alloc::{AllocError, Global};

/// Where nothing is told no call fails, no datagram waits, and the clock stays at 0.
#[derive(Drop)]
pub struct Given {
    /// The calls that fail, by their numbers from 1.
    pub source_fails: Vec<u64>,
    pub sink_fails: Vec<u64>,
    pub link_fails: Vec<u64>,
    pub waiting: Vec<Waiting>,
    pub disks: Trio<MemStore>,
    pub readings: Vec<u64>,
    /// The first lines of the text.
    pub front: Bytes,
}

/// The numbers among these words.
fn numbers_of(alloc: Global, words: &str) -> Result<Vec<u64>, AllocError> {
    let mut all = Vec::new(alloc);
    for word in words.split(' ') {
        if let Ok(number) = word.parse::<u64>() {
            all.push(number)?;
        }
    }
    Ok(all)
}

fn place_of(word: &str) -> Option<ServerId> {
    let number = word.parse::<u8>().ok()?;
    ServerId::of(number)
}

/// A server by its number, and a client by any other word.
fn peer_of(word: &str) -> Peer {
    match place_of(word) {
        Some(place) => Peer::Server(place),
        None => Peer::Other {
            address: 1,
            port: 2,
        },
    }
}

/// A datagram, by the place that it waits for, its sender and its bytes in hexadecimal.
fn waiting_of(alloc: Global, words: &str) -> Option<Waiting> {
    let (place, words) = words.split_once(' ')?;
    let (from, digits) = words.split_once(' ')?;
    let place = place_of(place)?;
    let bytes = Bytes::from_vec(hex::decode(alloc, digits).ok()?);
    Some(Waiting {
        place,
        datagram: Datagram {
            from: peer_of(from),
            bytes,
        },
    })
}

impl Given {
    pub(crate) fn new(alloc: Global) -> Given {
        Given {
            source_fails: Vec::new(alloc),
            sink_fails: Vec::new(alloc),
            link_fails: Vec::new(alloc),
            waiting: Vec::new(alloc),
            disks: Trio {
                zero: MemStore::new(alloc),
                one: MemStore::new(alloc),
                two: MemStore::new(alloc),
            },
            readings: Vec::new(alloc),
            front: Bytes::new(alloc),
        }
    }

    /// Takes what a line tells behind its first word.
    pub(crate) fn take(&mut self, alloc: Global, line: &str) -> Result<(), AllocError> {
        let Some((word, rest)) = line.split_once(' ') else {
            return Ok(());
        };
        match word {
            "source" => self.source_fails = numbers_of(alloc, rest)?,
            "sink" => self.sink_fails = numbers_of(alloc, rest)?,
            "link" => self.link_fails = numbers_of(alloc, rest)?,
            "clock" => self.readings = numbers_of(alloc, rest)?,
            "waiting" => self.add_waiting(alloc, rest)?,
            "lines" => self.add_lines(rest)?,
            "disk" => self.stop_disk(alloc, rest),
            _ => {}
        }
        Ok(())
    }

    fn add_waiting(&mut self, alloc: Global, words: &str) -> Result<(), AllocError> {
        if let Some(waiting) = waiting_of(alloc, words) {
            self.waiting.push(waiting)?;
        }
        Ok(())
    }

    /// Adds a line, so many times, to the front of the text.
    fn add_lines(&mut self, words: &str) -> Result<(), AllocError> {
        let Some((times, line)) = words.split_once(' ') else {
            return Ok(());
        };
        for _ in 0..times.parse::<u32>().unwrap_or(0) {
            self.front.extend(line.as_bytes())?;
            self.front.extend(b"\n")?;
        }
        Ok(())
    }

    /// The disk of a place stops after so many calls that change it, or has stopped already.
    fn stop_disk(&mut self, alloc: Global, words: &str) {
        let Some((place, calls)) = words.split_once(' ') else {
            return;
        };
        let Some(place) = place_of(place) else {
            return;
        };
        let disk = self.disks.get_mut(place);
        disk.stop_after(calls.parse::<u32>().unwrap_or(0));
        if calls == "stopped" {
            let _ = disk.sync(alloc);
        }
    }
}
