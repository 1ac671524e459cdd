//! The event records of the log, with the numbers, times and changes that they hold, and their
//! bytes.
//!
//! # What is proved
//!
//! Records, with indices from 1 to 2^62 - 1, times below 2^62 + 2000, at most 16 changes of cells,
//! and at most 60,008 bytes as they are spelled.
//!
//! - `Record::of` gives a record exactly where its fields have at most so many bytes (`found`),
//!   with these fields (`value`). `copy` gives an equal record, and so does `with_bytes`, which
//!   keeps its spelling; where `bytes` gives any, they are the record's. `of`, `new` and `get` of
//!   the two kinds of numbers give exactly the number, and `of` gives one exactly within its
//!   bounds.
//! - `read_item` gives a record exactly where its one spelling stands at the front of the bytes,
//!   with its length (`found`, `only`), and else tells the first fault and its place (`exact`). A
//!   field that would pass the 60,008 bytes is too long at its first byte, also where the input
//!   ends before. `write_item` appends the spelling (`appended`), or leaves the bytes (`kept`).
//! - `read_old_item` does the same of the old form, which has no credential and at most 60,000
//!   bytes, and is read as the superuser's.
#![tactic(auto)]

mod changes;
pub mod fields;
mod numbers;
mod reading;
mod record;
mod size;
mod writing;

pub use changes::Changes;
pub use harp_cells::Moment;
pub use numbers::Index;
pub use reading::{read_item, read_old_item};
pub use record::{Record, RecordFields};
pub use writing::write_item;
