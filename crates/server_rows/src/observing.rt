//! Rows that are played on a group and an observer of it. A row is empty, or begins with
//!
//! - `#`: it says what follows;
//! - `new`: from here on no update is committed, the clock reads 0, and the observer has no copy;
//! - `clock 0 T` or `ask 0 CLIENT NUMBER CALL`, as in a schedule: the group commits the update;
//! - `drop N`: the group drops its first N records;
//! - `copy`: the observer begins a new copy;
//! - `want`: the group shows what the observer wants, as `shown M` with what it is, M from 0 on, or
//!   `unshown`;
//! - `take M`: what was shown as M reaches the observer. Where its top changes comes
//!   `observer TOP`;
//! - `drain K`: up to K times `want`, and `take` of what came;
//! - `peek CALL`: what the observer answers, as `peeked TOP REPLY`, or `blind`.

mod group;
mod rows;
mod spelled;
mod table;

use crate::fault::put_fault;
use crate::observing::rows::play;
pub(crate) use crate::observing::table::Table;
use std::alloc::{AllocError, Global};

/// What comes of a row.
pub(crate) fn outcome(alloc: Global, table: &mut Table, row: &str) -> Result<Vec<u8>, AllocError> {
    let mut out = Vec::new(alloc);
    match play(alloc, &mut out, table, row.as_bytes()) {
        Ok(()) => Ok(out),
        Err(fault) => {
            put_fault(&mut out, fault)?;
            Ok(out)
        }
    }
}
