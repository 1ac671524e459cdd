//! What is shown, as text.

use crate::tree::put_cell;
use harp_cells::Cell;
use shown::Shown;
use std::alloc::AllocError;
use text_writer::{put_named, put_number};

/// A cell, whether it is there, and CP.
fn put_at(out: &mut Vec<u8>, cell: Cell, absent: bool, cp: u64) -> Result<(), AllocError> {
    put_cell(out, cell)?;
    if absent {
        out.extend_from_slice(b" absent")?;
    }
    put_named(out, b" at", cp)
}

fn put_told(out: &mut Vec<u8>, shown: &Shown) -> Result<(), AllocError> {
    match shown {
        Shown::Cell { cell, value, cp } => put_at(out, *cell, value.is_none(), *cp),
        Shown::Records { first, records } => {
            put_named(out, b" records", *first)?;
            put_number(out, records.as_slice().len() as u64)
        }
        Shown::Gone { base } => put_named(out, b" gone", *base),
    }
}

/// A line with what is shown, and its number.
pub(crate) fn put_shown(out: &mut Vec<u8>, number: usize, shown: &Shown) -> Result<(), AllocError> {
    put_named(out, b"shown", number as u64)?;
    put_told(out, shown)?;
    out.extend_from_slice(b"\n")
}
