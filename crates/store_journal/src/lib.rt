//! The bytes of a store's journal, and the changes in it that wait.
//!
//! # What is proved
//!
//! - **The bytes**: `write_entry` spells an entry of changes. `take_up` takes the whole entries of
//!   a journal's bytes, in order, up to the first place where none begins, and what waits behind
//!   them is what their changes make of each cell (`taken`, `TakesUp`).
//! - **What waits**: `Waiting` has the last change of each cell that was added and not settled
//!   since (`added`, `part`; `settle`), and gives it by the cell, or all of them.
#![tactic(auto)]

mod journal_file;
mod waiting;

pub use journal_file::{LONGEST_JOURNAL, take_up, write_entry};
pub use waiting::{Waiting, add_copies};
