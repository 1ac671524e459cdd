//! The line of a schedule that was refused, and where its reader stopped.

use harp_types::LONGEST_LINE;
use memchr::memchr;
use observed_text::read_observed;
use schedule_text::{TextFault, read_step};
use std::alloc::{AllocError, Global};

/// What the output ends with where a line is out of the grammar.
const GRAMMAR: &[u8] = b" grammar\n";

/// The end of what was read, from before the line at hand on; and whether what was written last
/// says that a line is out of the grammar.
#[derive(Drop)]
pub(crate) struct Latest {
    is_told: bool,
    read: Vec<u8>,
    is_cut: bool,
    says_grammar: bool,
}

// A line, and what stands behind its line feed.
fn first_line(text: &[u8]) -> (&[u8], &[u8]) {
    match memchr(b'\n', text) {
        Some(end) => (&text[..end], &text[end + 1..]),
        None => (text, &[]),
    }
}

// The byte, from 0, at which a line is no step's any more, where it is none.
fn place_in(alloc: Global, is_observed: bool, line: &[u8]) -> Option<usize> {
    let fault = if is_observed {
        read_observed(alloc, line).err()
    } else {
        read_step(alloc, line).err()
    };
    match fault {
        Some(TextFault::Grammar(at)) => Some(at),
        Some(TextFault::NoMemory) => None,
        None => None,
    }
}

impl Latest {
    /// Nothing was read or written; `is_told` where a refused line is asked for in the end.
    pub(crate) fn new(alloc: Global, is_told: bool) -> Latest {
        Latest {
            is_told,
            read: Vec::new(alloc),
            is_cut: false,
            says_grammar: false,
        }
    }

    // All but the end that the line at hand may reach back to is let go.
    fn cut(&mut self, alloc: Global) -> Result<(), AllocError> {
        let surplus = self.read.len().saturating_sub(LONGEST_LINE + 1);
        if surplus > 0 {
            let mut kept = Vec::new(alloc);
            kept.extend_from_slice(&self.read[surplus..])?;
            self.read = kept;
            self.is_cut = true;
        }
        Ok(())
    }

    /// A piece was read, since all before it was taken but a part of a line.
    pub(crate) fn take(&mut self, alloc: Global, piece: &[u8]) {
        if !self.is_told {
            return;
        }
        let kept = self.cut(alloc).is_ok() && self.read.extend_from_slice(piece).is_ok();
        if !kept {
            // Without memory nothing is told of a line.
            self.read = Vec::new(alloc);
            self.is_cut = true;
        }
    }

    /// A piece was written.
    pub(crate) fn give(&mut self, piece: &[u8]) {
        self.says_grammar = piece.ends_with(GRAMMAR);
    }

    /// The byte, from 0, at which the refused line is no step's any more, where it is out of the
    /// grammar: no line before it was.
    pub(crate) fn place(&self, alloc: Global, is_observed: bool) -> Option<usize> {
        if !self.says_grammar {
            return None;
        }
        let mut rest = self.read.as_slice();
        if self.is_cut {
            (_, rest) = first_line(rest);
        }
        for _ in 0..rest.len() {
            if rest.is_empty() {
                return None;
            }
            let (line, behind) = first_line(rest);
            if let Some(place) = place_in(alloc, is_observed, line) {
                return Some(place);
            }
            rest = behind;
        }
        None
    }
}
