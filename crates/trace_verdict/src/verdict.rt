//! What is found of a text.

use trace_check::Breach;

/// What is found of the text of a trace. Lines are numbered from 1.
#[derive(Clone, Copy, PartialEq, Eq)]
pub enum Verdict {
    /// It is the text of a closed trace that breaks nothing.
    Yes,
    /// The line with this number breaks this, and no line before breaks anything.
    No(u64, Breach),
    /// No trace is read at the line with this number.
    Bad(u64, Unread),
}

/// Why no trace is read at a line.
#[derive(Clone, Copy, PartialEq, Eq)]
pub enum Unread {
    /// It is no line of a trace, or none that may stand there: a line behind the last one, a first
    /// one that begins no step, an `end` with another number of entered lines.
    Grammar,
    /// It has more than 20,000 bytes.
    TooLong,
    /// It is a line past the 2^40th.
    TooMany,
    /// The text ends before its last line, which would have this number.
    Unfinished,
}
