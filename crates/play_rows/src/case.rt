//! Cases, as lines tell them.

use crate::given::Given;
use harp_types::Bytes;
use std::alloc::{AllocError, Global};
use std::str;

/// A case, of which lines may still be to come: the words of its command, and those of the next
/// one, which are none where no other is to follow.
#[derive(Drop)]
pub struct Case {
    pub name: String,
    pub words: Vec<String>,
    pub next: Vec<String>,
    pub text: Bytes,
    pub given: Given,
    /// The line that tells of the text has come.
    is_told: bool,
    lines: u64,
    is_ended: bool,
}

/// Each of these words as a text of its own.
fn owned(alloc: Global, words: &str) -> Result<Vec<String>, AllocError> {
    let mut all = Vec::new(alloc);
    for word in words.split(' ') {
        all.push(String::from_str(alloc, word)?)?;
    }
    Ok(all)
}

impl Case {
    /// A case of which nothing has come.
    pub(crate) fn new(alloc: Global) -> Case {
        Case {
            name: String::new(alloc),
            words: Vec::new(alloc),
            next: Vec::new(alloc),
            text: Bytes::new(alloc),
            given: Given::new(alloc),
            is_told: false,
            lines: 0,
            is_ended: true,
        }
    }

    /// Takes a line, and says whether the case is whole.
    pub(crate) fn take(&mut self, alloc: Global, line: &[u8]) -> Result<bool, AllocError> {
        if self.is_told {
            self.add(line)?;
        } else if let Ok(line) = str::from_utf8(line) {
            self.tell(alloc, line)?;
        }
        Ok(self.is_told && self.lines == 0)
    }

    /// Adds a line to the text.
    fn add(&mut self, line: &[u8]) -> Result<(), AllocError> {
        self.lines = self.lines.saturating_sub(1);
        self.text.extend(line)?;
        if self.lines > 0 || self.is_ended {
            self.text.extend(b"\n")?;
        }
        Ok(())
    }

    /// Takes a line before those of the text.
    fn tell(&mut self, alloc: Global, line: &str) -> Result<(), AllocError> {
        match line.strip_prefix("given ") {
            Some(given) => self.given.take(alloc, given),
            None => self.begin(alloc, line),
        }
    }

    /// Takes the line that tells of the text.
    fn begin(&mut self, alloc: Global, line: &str) -> Result<(), AllocError> {
        let mut fields = line.splitn(4, ' ');
        let (Some(name), Some(lines), Some(ending), Some(words)) = (
            fields.next(),
            fields.next(),
            fields.next(),
            fields.next(),
        ) else {
            return Ok(());
        };
        let Ok(lines) = lines.parse::<u64>() else {
            return Ok(());
        };
        self.set_words(alloc, words)?;
        self.name = String::from_str(alloc, name)?;
        self.lines = lines;
        self.is_ended = ending == "ended";
        self.is_told = true;
        self.text.extend(self.given.front.as_slice())
    }

    fn set_words(&mut self, alloc: Global, words: &str) -> Result<(), AllocError> {
        let Some((words, next)) = words.split_once(" | ") else {
            self.words = owned(alloc, words)?;
            return Ok(());
        };
        self.words = owned(alloc, words)?;
        self.next = owned(alloc, next)?;
        Ok(())
    }
}
