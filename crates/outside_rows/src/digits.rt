//! Bytes of rows.

use std::alloc::Global;

/// The bytes of a row. None where it isn't hexadecimal, or memory runs out.
pub(crate) fn bytes_of(alloc: Global, digits: &str) -> Option<Vec<u8>> {
    if digits == "-" {
        return Some(Vec::new(alloc));
    }
    hex::decode(alloc, digits).ok()
}
