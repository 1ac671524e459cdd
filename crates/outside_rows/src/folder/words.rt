//! The words of lines, and what comes of a line.

use std::alloc::{AllocError, Global};

/// What came of a line.
#[derive(Clone, Copy)]
pub enum Answer {
    /// The line says nothing.
    Nothing,
    Done,
    Failed,
    /// There is no such thing.
    Absent,
    NoMemory,
    /// It stands in the line's text.
    Told,
}

/// A line's first word, and what stands behind it.
pub(crate) fn halves(line: &str) -> (&str, &str) {
    match line.split_once(' ') {
        Some(halves) => halves,
        None => (line, ""),
    }
}

/// The number of decimal digits.
pub(crate) fn number(word: &str) -> Option<u64> {
    word.parse::<u64>().ok()
}

/// What came of a call that gives nothing.
pub(crate) fn came<T: Drop, E: Drop>(outcome: Result<T, E>) -> Answer {
    match outcome {
        Ok(_) => Answer::Done,
        Err(_) => Answer::Failed,
    }
}

/// What came of writing to a line's text.
pub(crate) fn told(outcome: Result<(), AllocError>) -> Answer {
    match outcome {
        Ok(()) => Answer::Told,
        Err(_) => Answer::NoMemory,
    }
}

/// Writes words to a line's text.
pub(crate) fn tell(text: &mut String, words: &str) -> Answer {
    told(text.push_str(words))
}

/// Writes bytes to a line's text as hexadecimal digits, a dash for none.
pub(crate) fn tell_bytes(alloc: Global, text: &mut String, bytes: &[u8]) -> Answer {
    if bytes.is_empty() {
        return tell(text, "-");
    }
    match hex::encode(alloc, bytes) {
        Ok(digits) => tell(text, digits.as_str()),
        Err(_) => Answer::NoMemory,
    }
}
