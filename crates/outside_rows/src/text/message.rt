//! Messages: what came of the bytes of one is `ok`, or the fault with its place. Of a Beat its
//! view's count and coordinator, CP and base are written too. Where a name stands before the bytes,
//! the name is written first, and then, of each front of the bytes that isn't all of them, that it
//! is short where it ends, or what else came of the first one that isn't.

use crate::digits::bytes_of;
use std::alloc::{AllocError, Global};
use wire::{DecodeFault, Message, decode, encode};

/// What decoding came to.
enum Outcome {
    Same,
    Beat {
        count: u64,
        coordinator: u8,
        cp: u64,
        base: u64,
    },
    Other,
    Fault(DecodeFault),
}

/// A message that is encoded as it was.
fn right(message: &Message) -> Outcome {
    match message {
        Message::Beat { view, cp, base } => Outcome::Beat {
            count: view.count(),
            coordinator: view.coordinator().number(),
            cp: *cp,
            base: *base,
        },
        _ => Outcome::Same,
    }
}

fn tried(alloc: Global, bytes: &[u8]) -> Result<Outcome, AllocError> {
    match decode(alloc, bytes) {
        Ok(message) => {
            let spelled = encode(alloc, &message)?;
            if spelled.as_slice() == bytes {
                Ok(right(&message))
            } else {
                Ok(Outcome::Other)
            }
        }
        Err(fault) => Ok(Outcome::Fault(fault)),
    }
}

fn text_of(alloc: Global, outcome: Outcome) -> Result<String, AllocError> {
    match outcome {
        Outcome::Same => format!(in alloc; "ok"),
        Outcome::Beat {
            count,
            coordinator,
            cp,
            base,
        } => format!(in alloc; "ok {count}.{coordinator} {cp} {base}"),
        Outcome::Other => format!(in alloc; "other"),
        Outcome::Fault(DecodeFault::Short(at)) => format!(in alloc; "Short {at}"),
        Outcome::Fault(DecodeFault::BadTag(at)) => format!(in alloc; "BadTag {at}"),
        Outcome::Fault(DecodeFault::Trailing(at)) => format!(in alloc; "Trailing {at}"),
        Outcome::Fault(DecodeFault::TooLong(at)) => format!(in alloc; "TooLong {at}"),
        Outcome::Fault(DecodeFault::NoMemory) => format!(in alloc; "NoMemory"),
    }
}

/// What comes of the fronts of these bytes, up to the first that isn't short where it ends.
fn cut(alloc: Global, bytes: &[u8]) -> Result<String, AllocError> {
    for end in 0..bytes.len() {
        match tried(alloc, &bytes[..end])? {
            Outcome::Fault(DecodeFault::Short(at)) if at == end => {}
            outcome => return format!(in alloc; "{end} {}", text_of(alloc, outcome)?),
        }
    }
    format!(in alloc; "{} short", bytes.len())
}

/// What comes of a row.
pub(crate) fn described_message(alloc: Global, row: &str) -> Result<String, AllocError> {
    let (name, digits) = row.split_once(' ').unwrap_or(("", row));
    let Some(bytes) = bytes_of(alloc, digits) else {
        return format!(in alloc; "not hexadecimal");
    };
    let text = text_of(alloc, tried(alloc, bytes.as_slice())?)?;
    if name.is_empty() {
        return Ok(text);
    }
    let fronts = cut(alloc, bytes.as_slice())?;
    format!(in alloc; "{name} {fronts} {text}")
}
