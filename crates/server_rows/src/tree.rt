//! Rows that are played on a tree in cells and on a plain one. A row is empty, or begins with
//!
//! - `#`: it says what follows;
//! - `new`: from here on both trees have the root alone, the clock reads 0, and no cell is broken;
//! - `clock 0 T` or `ask 0 CLIENT NUMBER CALL`, as in a schedule, but that a word `HH*N` stands
//!   for N times HH;
//! - `seen CLIENT NUMBER CP`: what an update is where so many are committed;
//! - `parent DIR PARENT`: in the cells a directory gets another parent, which no call does;
//! - `broken KIND OBJECT PLACE`: from here on each fetch of this object, or of its slot or block of
//!   this number, fails; behind `mended` none does;
//! - `call HEX` or `reply HEX`: bytes from which a call or a reply is read.

mod rows;
mod spelled;
mod table;
mod watched;

use crate::fault::put_fault;
use crate::tree::rows::play;
pub(crate) use crate::tree::spelled::put_cell;
pub(crate) use crate::tree::table::Table;
use std::alloc::{AllocError, Global};

/// What comes of a row.
pub(crate) fn outcome(alloc: Global, table: &mut Table, row: &str) -> Result<Vec<u8>, AllocError> {
    let mut out = Vec::new(alloc);
    match play(alloc, &mut out, table, row) {
        Ok(()) => Ok(out),
        Err(fault) => {
            put_fault(&mut out, fault)?;
            Ok(out)
        }
    }
}
