//! Why a run ended, for whoever started it.

use harp_cli::{Exit, word_fault};
use harp_types::ServerId;
use std::alloc::{AllocError, Global};
use std::fmt;
use std::fs::File;
use std::rt::Files;
use store_folder::{Trouble, trouble_of};

/// How a run of these words ended: its status, the disk that failed, if one did, and the byte, from
/// 0, at which a line was out of the grammar, if one was.
#[derive(Clone, Copy)]
pub(crate) struct Ended<'a> {
    pub(crate) words: &'a [String],
    pub(crate) status: u8,
    pub(crate) failed: Option<ServerId>,
    pub(crate) place: Option<usize>,
    /// What shows of that disk.
    pub(crate) trouble: Option<Trouble>,
}

impl<'a> Ended<'a> {
    /// Looks what shows of the disk that failed, which was let go since.
    pub(crate) fn look<R>(&mut self, rt: R, alloc: Global)
    where
        R: Files<File = File> + AllocGlobal + Clone + Drop,
    {
        if !self.is(Exit::DiskFailed) {
            return;
        }
        if let Ok(folder) = self.failed_folder(alloc) {
            self.trouble = Some(trouble_of(rt, folder.as_str()));
        }
    }

    // The folder of the disk that failed.
    fn failed_folder(&self, alloc: Global) -> Result<String, AllocError> {
        match self.failed {
            Some(server) if self.runs_all() => {
                format!(in alloc; "{}/{}", self.folder(), server.number())
            }
            _ => String::from_str(alloc, self.folder()),
        }
    }

    /// Whether there is something to tell: what was wanted wasn't done.
    pub(crate) fn is_told(&self) -> bool {
        self.status > Exit::SaysNo.status()
    }

    fn is(&self, exit: Exit) -> bool {
        self.status == exit.status()
    }

    // The word at this place, from 0.
    fn word(&self, place: usize) -> &str {
        match self.words.get(place) {
            Some(word) => word.as_str(),
            None => "",
        }
    }

    // The folder that the words name.
    fn folder(&self) -> &str {
        let name = self.word(0);
        if name == "node" {
            self.word(3)
        } else if name == "group" {
            self.word(2)
        } else if name == "door" {
            self.word(5)
        } else {
            self.word(1)
        }
    }

    // The first port that the words name.
    fn port(&self) -> Option<u16> {
        let name = self.word(0);
        let word = if name == "node" {
            self.word(2)
        } else if name == "group" {
            self.word(1)
        } else {
            self.word(4)
        };
        word.parse::<u16>().ok()
    }

    // Whether all three servers run in this process.
    fn runs_all(&self) -> bool {
        self.word(0) == "group" || self.word(0) == "door"
    }

    fn refused_words<W: fmt::Write>(&self, f: &mut fmt::Formatter<W>) -> fmt::Result {
        match word_fault(self.words) {
            Some(fault) => write!(f, "{fault}"),
            None => write!(f, "the words are refused"),
        }
    }

    fn refused_input<W: fmt::Write>(&self, f: &mut fmt::Formatter<W>) -> fmt::Result {
        if self.word(0) == "door" {
            write!(f, "a record is too large, cut off, or one too many")
        } else if self.word(0) == "check" {
            write!(
                f,
                "the input is no trace from the line on that the output names"
            )
        } else {
            write!(
                f,
                "a line is refused, which the last line of the output names"
            )?;
            match self.place {
                Some(place) => write!(
                    f,
                    "; it is no step from byte {} on",
                    place.saturating_add(1)
                ),
                None => Ok(()),
            }
        }
    }

    fn failed_disk<W: fmt::Write>(&self, f: &mut fmt::Formatter<W>) -> fmt::Result {
        write!(f, "{}", self.folder())?;
        match self.failed {
            Some(server) if self.runs_all() => write!(f, "/{}", server.number())?,
            _ => {}
        }
        write!(f, "{}", self.trouble.unwrap_or(Trouble::Other).text())
    }

    fn failed_link<W: fmt::Write>(&self, f: &mut fmt::Formatter<W>) -> fmt::Result {
        let Some(first) = self.port() else {
            return write!(f, "a port can't be used");
        };
        if self.runs_all() {
            let last = first.saturating_add(2);
            return write!(f, "one of the ports {first} to {last} can't be used");
        }
        match self.word(1).parse::<u16>() {
            Ok(server) => write!(f, "port {} can't be used", first.saturating_add(server)),
            Err(_) => write!(f, "port {first} can't be used"),
        }
    }
}

impl<'a> fmt::Display for Ended<'a> {
    fn fmt<W: fmt::Write>(&self, f: &mut fmt::Formatter<W>) -> fmt::Result {
        if self.is(Exit::RefusedWords) {
            self.refused_words(f)
        } else if self.is(Exit::SourceFailed) {
            write!(f, "standard input can't be read")
        } else if self.is(Exit::SinkFailed) {
            write!(f, "standard output can't be written")
        } else if self.is(Exit::RefusedLine) {
            self.refused_input(f)
        } else if self.is(Exit::NoMemory) {
            write!(f, "there is no memory")
        } else if self.is(Exit::DiskFailed) {
            self.failed_disk(f)
        } else if self.is(Exit::LinkFailed) {
            self.failed_link(f)
        } else if self.is(Exit::CallSpent) {
            write!(f, "a call had all its turns, and no server answered it")
        } else {
            write!(f, "the network of the servers in memory is full")
        }
    }
}
