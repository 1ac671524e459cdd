//! What a server shows to who keeps a copy of its tree: what is wanted of it, what that shows, by
//! which rule, and what its log shows of its records.
//!
//! # What is proved
//!
//! - `copy` gives what is equal. What is shown truly of a history of records is a definition,
//!   `IsShownOf`: a cell with its value after so many of them, or records of it from an index on.
//! - The rule of showing is one too, as far as the group's numbers tell it (`shown_by`): CP of a
//!   cell, the entries of records from an index on, or the base.
//! - `records_kept` and `records_active` give the committed records of a log from an index on, as
//!   many as take at most 48,000 bytes as they are spelled, and at least one; that they are gone,
//!   exactly where the index is from 1 up to the base; and nothing, exactly where there is no log,
//!   or where the index is 0 or above CP (`shown`). They fail only for want of memory. What is
//!   given is shown truly of each history that has the log's committed records behind its base
//!   (`truly`), and each shown index is below 2^62 (`low`).
#![tactic(auto)]

mod records;
mod shown;

pub use records::{records_active, records_kept};
pub use shown::{Shown, Want};
