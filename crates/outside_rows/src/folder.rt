//! Rows with a store over a folder, with files, with a link or with a clock. Each is written, and
//! what came of it. A row that says nothing is written alone. A row `row NAME` begins a case, with
//! new stores and new links; a row `store` is for a new store, and one that begins with `other` is
//! about another store.

mod clocks;
mod disk;
mod journals;
mod links;
mod words;

use crate::digits::bytes_of;
pub(crate) use crate::folder::clocks::Seconds;
use crate::folder::clocks::{Clocks, clock_answer};
use crate::folder::disk::store_answer;
use crate::folder::journals::journal_answer;
use crate::folder::links::{Links, links_answer};
use crate::folder::words::{Answer, came, halves};
use std::alloc::{AllocError, Global};
use std::rt::Files;
use std::{fs, io};
use store_folder::{FolderStore, SystemFiles};

/// What the lines are about.
#[derive(Drop)]
pub(crate) struct Player<'a> {
    store: FolderStore<SystemFiles<HostRuntime>>,
    other: FolderStore<SystemFiles<HostRuntime>>,
    links: Links<HostRuntime>,
    clocks: Clocks<'a, HostRuntime>,
}

fn write_file<F: Files>(rt: &F, alloc: Global, path: &str, digits: &str) -> Answer {
    match bytes_of(alloc, digits) {
        Some(bytes) => came(fs::write(rt, path, bytes.as_slice())),
        None => Answer::Nothing,
    }
}

/// What came of a line about files.
fn file_answer<F: Files>(rt: &F, alloc: Global, line: &str) -> Answer {
    let (word, rest) = halves(line);
    let (path, digits) = halves(rest);
    match word {
        "write" => write_file(rt, alloc, path, digits),
        "folder" => came(fs::create_dir(rt, path)),
        "remove" => came(fs::remove_dir(rt, path)),
        _ => Answer::Nothing,
    }
}

impl<'a> Player<'a> {
    /// New stores and links, and clocks that weren't read.
    pub(crate) fn new(rt: HostRuntime, seconds: &'a Seconds) -> Result<Player<'a>, AllocError> {
        let alloc = rt.alloc();
        let links = Links::new(rt, alloc)?;
        let clocks = Clocks::new(rt, alloc, seconds)?;
        Ok(Player {
            store: FolderStore::new(rt),
            other: FolderStore::new(rt),
            links,
            clocks,
        })
    }
}

impl Player<'_> {
    /// Has new links and a new store, where a line is for them.
    fn renew(&mut self, rt: HostRuntime, line: &str) -> Result<(), AllocError> {
        let is_row = line.starts_with("row ");
        if is_row {
            self.links = Links::new(rt, rt.alloc())?;
            self.other = FolderStore::new(rt);
        }
        if is_row || line == "store" {
            self.store = FolderStore::new(rt);
        }
        Ok(())
    }

    /// What came of a line about a disk.
    fn disk_answer(&mut self, rt: HostRuntime, line: &str, text: &mut String) -> Answer {
        let alloc = rt.alloc();
        let (word, rest) = halves(line);
        if word == "other" {
            return store_answer(alloc, &mut self.other, rest, text);
        }
        let (folder, digits) = halves(rest);
        match journal_answer(rt, word, folder, digits, text) {
            Answer::Nothing => store_answer(alloc, &mut self.store, line, text),
            answer => answer,
        }
    }

    /// What came of a line.
    fn answer(&mut self, rt: HostRuntime, line: &str, text: &mut String) -> Answer {
        let alloc = rt.alloc();
        match file_answer(&rt, alloc, line) {
            Answer::Nothing => {}
            answer => return answer,
        }
        match self.disk_answer(rt, line, text) {
            Answer::Nothing => {}
            answer => return answer,
        }
        match links_answer(&rt, alloc, &mut self.links, line, text) {
            Answer::Nothing => clock_answer(alloc, &mut self.clocks, line, text),
            answer => answer,
        }
    }
}

/// Writes a line and what came of it.
fn write(rt: HostRuntime, line: &str, answer: Answer, text: &str) -> io::Result<()> {
    let word = match answer {
        Answer::Nothing => return println!(rt; "{line}"),
        Answer::Done => "done",
        Answer::Failed => "failed",
        Answer::Absent => "absent",
        Answer::NoMemory => "no memory",
        Answer::Told => text,
    };
    println!(rt; "{line} = {word}")
}

/// Does what a row says.
pub(crate) fn play(rt: HostRuntime, player: &mut Player<'_>, line: &str) -> io::Result<()> {
    player.renew(rt, line)?;
    let mut text = String::new(rt.alloc());
    let answer = player.answer(rt, line, &mut text);
    write(rt, line, answer, text.as_str())
}
