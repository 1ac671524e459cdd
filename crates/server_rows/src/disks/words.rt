//! Words of lines, and what comes of a word.

use harp_store::StoreFault;
use std::alloc::AllocError;

/// What came of a word.
#[derive(Clone, Copy)]
pub(crate) enum Answer {
    Says(&'static str),
    /// It stands in the word's text.
    Told,
}

/// A word's name and the numbers behind it, 0 where there are fewer than seven.
pub(crate) fn parsed(word: &str) -> (&str, [u32; 7]) {
    let mut numbers = [0; 7];
    let Some((name, rest)) = word.split_once(':') else {
        return (word, numbers);
    };
    for (place, digits) in numbers.iter_mut().zip(rest.split(':')) {
        *place = digits.parse().unwrap_or(0);
    }
    (name, numbers)
}

/// What came of a change.
pub(crate) fn passed(outcome: Result<(), StoreFault>) -> Answer {
    match outcome {
        Ok(()) => Answer::Says(""),
        Err(StoreFault::Failed) => Answer::Says("failed"),
        Err(StoreFault::NoMemory) => Answer::Says("no memory"),
    }
}

/// What came of writing to a word's text.
pub(crate) fn told(outcome: Result<(), AllocError>) -> Option<Answer> {
    match outcome {
        Ok(()) => Some(Answer::Told),
        Err(_) => None,
    }
}

/// Writes a number to a word's text, a dash for none.
pub(crate) fn tell(text: &mut String, number: Option<u32>) -> Option<Answer> {
    match number {
        Some(number) => told(write!(text, "{number}")),
        None => told(text.push_str("-")),
    }
}

/// Writes what was read to a word's text.
pub(crate) fn tell_read(
    text: &mut String,
    found: Result<Option<u32>, StoreFault>,
) -> Option<Answer> {
    match found {
        Ok(number) => tell(text, number),
        Err(StoreFault::Failed) => Some(Answer::Says("failed")),
        Err(StoreFault::NoMemory) => None,
    }
}
