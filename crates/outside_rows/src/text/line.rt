//! Lines of a trace or of a schedule: what came of one is `ok`, `none` for no step, or the place of
//! the fault.

use crate::digits::bytes_of;
use harp_types::Bytes;
use schedule_text::read_step;
use std::alloc::{AllocError, Global};
use text_writer::{write_line, write_step};
use trace_text::{TextFault, read_line};

/// What reading came to.
enum Outcome {
    Same,
    Other,
    Nothing,
    Fault(TextFault),
}

/// What was read, spelled again, beside the bytes that it was read from.
fn compared(spelled: &Bytes, bytes: &[u8]) -> Outcome {
    if spelled.as_slice() == bytes {
        Outcome::Same
    } else {
        Outcome::Other
    }
}

fn tried_line(alloc: Global, bytes: &[u8]) -> Result<Outcome, AllocError> {
    match read_line(alloc, bytes) {
        Ok(line) => {
            let mut spelled = Bytes::new(alloc);
            write_line(alloc, &line, &mut spelled)?;
            Ok(compared(&spelled, bytes))
        }
        Err(fault) => Ok(Outcome::Fault(fault)),
    }
}

fn tried_step(alloc: Global, bytes: &[u8]) -> Result<Outcome, AllocError> {
    match read_step(alloc, bytes) {
        Ok(Some(step)) => {
            let mut spelled = Bytes::new(alloc);
            write_step(alloc, &step, &mut spelled)?;
            Ok(compared(&spelled, bytes))
        }
        Ok(None) => Ok(Outcome::Nothing),
        Err(fault) => Ok(Outcome::Fault(fault)),
    }
}

fn text_of(alloc: Global, outcome: Outcome) -> Result<String, AllocError> {
    match outcome {
        Outcome::Same => format!(in alloc; "ok"),
        Outcome::Other => format!(in alloc; "other"),
        Outcome::Nothing => format!(in alloc; "none"),
        Outcome::Fault(TextFault::Grammar(at)) => format!(in alloc; "{at}"),
        Outcome::Fault(_) => format!(in alloc; "fault"),
    }
}

/// What comes of a row with a line of a trace.
pub(crate) fn described_line(alloc: Global, digits: &str) -> Result<String, AllocError> {
    let Some(bytes) = bytes_of(alloc, digits) else {
        return format!(in alloc; "not hexadecimal");
    };
    text_of(alloc, tried_line(alloc, bytes.as_slice())?)
}

/// What comes of a row with a line of a schedule.
pub(crate) fn described_step(alloc: Global, digits: &str) -> Result<String, AllocError> {
    let Some(bytes) = bytes_of(alloc, digits) else {
        return format!(in alloc; "not hexadecimal");
    };
    text_of(alloc, tried_step(alloc, bytes.as_slice())?)
}
