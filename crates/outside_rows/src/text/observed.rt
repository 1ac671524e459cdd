//! Lines of an observed schedule: what came of one is `ok`, `none` for no step, or the place of the
//! fault.

use crate::digits::bytes_of;
use harp_types::Bytes;
use observed_text::{ObservedStep, TextFault, read_observed, write_observed_step};
use std::alloc::{AllocError, Global};

/// Whether the step is spelled by these bytes.
fn is_spelled_so(alloc: Global, step: &ObservedStep, bytes: &[u8]) -> Result<bool, AllocError> {
    let mut spelled = Bytes::new(alloc);
    write_observed_step(alloc, step, &mut spelled)?;
    Ok(spelled.as_slice() == bytes)
}

/// What comes of the bytes of a line.
fn outcome(alloc: Global, bytes: &[u8]) -> Result<String, AllocError> {
    match read_observed(alloc, bytes) {
        Ok(Some(step)) => {
            if is_spelled_so(alloc, &step, bytes)? {
                format!(in alloc; "ok")
            } else {
                format!(in alloc; "other")
            }
        }
        Ok(None) => format!(in alloc; "none"),
        Err(TextFault::Grammar(at)) => format!(in alloc; "{at}"),
        Err(TextFault::NoMemory) => format!(in alloc; "no memory"),
    }
}

/// What comes of a row.
pub(crate) fn described_observed(alloc: Global, digits: &str) -> Result<String, AllocError> {
    let Some(bytes) = bytes_of(alloc, digits) else {
        return format!(in alloc; "not hexadecimal");
    };
    outcome(alloc, bytes.as_slice())
}
