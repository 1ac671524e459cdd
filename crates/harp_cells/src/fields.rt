//! The readers and writers of cells and changes, for the codecs of the crates above. A reader takes
//! a place in the bytes, and gives the field and the place after it.

pub use crate::codec_reading::{cell_at, change_at, moment_at, value_at};
pub use crate::codec_writing::{put_cell, put_change, put_value};
