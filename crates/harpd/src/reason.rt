//! Why a run ended, for whoever started it.

use crate::exit::Exit;
use crate::system_folders::Refusal;
use crate::top::word_at;
use crate::word_faults::word_fault;
use std::fmt::{self, Display};
use store_folder::Trouble;

/// How a run of these words ended: its exit, why a folder was refused, if one was, what shows of it
/// where its disk failed, and how many lines of a server's state couldn't be written.
#[derive(Clone, Copy)]
pub struct Ended<'a> {
    pub words: &'a [String],
    pub exit: Exit,
    pub refusal: Option<Refusal>,
    pub trouble: Option<Trouble>,
    pub lost: u64,
}

impl<'a> Ended<'a> {
    // Whether the first word is this one.
    fn is_for(&self, name: &str) -> bool {
        word_at(self.words, 0) == name
    }

    // The folder that the words name.
    fn folder(&self) -> &str {
        if self.is_for("server") {
            word_at(self.words, 3)
        } else {
            word_at(self.words, 1)
        }
    }

    // The number that stands at a place, where it can be one of a port.
    fn number_at(&self, place: usize) -> Option<u16> {
        word_at(self.words, place).parse::<u16>().ok()
    }

    // The port of the server or of the door that the words name.
    fn port(&self) -> Option<u16> {
        let first = self.number_at(2)?;
        if self.is_for("serve") {
            return Some(first);
        }
        let server = self.number_at(1)?;
        Some(first.saturating_add(server))
    }

    fn refused_words<W: fmt::Write>(&self, f: &mut fmt::Formatter<W>) -> fmt::Result {
        match word_fault(self.words) {
            Some(fault) => fault.fmt(f),
            None => f.write_str("the words are refused"),
        }
    }

    // What shows behind the folder's name, and where it is named again, behind that.
    fn trouble_texts(&self) -> (&'static str, Option<&'static str>) {
        match self.refusal {
            Some(Refusal::NotMade) => (" is not made: harpd init ", Some(" makes it")),
            Some(Refusal::Unmarked) => ("/mark is lost: ", Some(" isn't that of a new server")),
            Some(Refusal::Used) => (" has the files of a server that ran there", None),
            Some(Refusal::Unmade) => (" can't be made", None),
            Some(Refusal::Left) => ("/stop can't be taken away", None),
            None => (self.trouble.unwrap_or(Trouble::Other).text(), None),
        }
    }

    fn failed_disk<W: fmt::Write>(&self, f: &mut fmt::Formatter<W>) -> fmt::Result {
        let folder = self.folder();
        let (text, again) = self.trouble_texts();
        f.write_str(folder)?;
        f.write_str(text)?;
        match again {
            Some(rest) => {
                f.write_str(folder)?;
                f.write_str(rest)
            }
            None => Ok(()),
        }
    }

    fn failed_link<W: fmt::Write>(&self, f: &mut fmt::Formatter<W>) -> fmt::Result {
        match self.port() {
            Some(port) => write!(f, "port {port} can't be used"),
            None => f.write_str("a port can't be used"),
        }
    }
}

impl<'a> Display for Ended<'a> {
    fn fmt<W: fmt::Write>(&self, f: &mut fmt::Formatter<W>) -> fmt::Result {
        match self.exit {
            Exit::Done => f.write_str("all was done"),
            Exit::RefusedWords => self.refused_words(f),
            Exit::SinkFailed => f.write_str("standard output can't be written"),
            Exit::NoMemory => f.write_str("there is no memory"),
            Exit::DiskFailed => self.failed_disk(f),
            Exit::LinkFailed => self.failed_link(f),
        }
    }
}
