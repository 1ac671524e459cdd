//! The cells after some of the records of a log, over cells that lie under them.
//!
//! # What is proved
//!
//! The cells after some records of a log, over cells of any kind.
//!
//! - `CellIndex` says which records put or erase a cell, and which erase an object's blocks from
//!   some one on. After `add` of the next record, and after `drop_to`, which reads of the log what
//!   goes, it holds just the changes of the log's records again (`follows`). Where `add` finds no
//!   memory, it holds just those that it held (`kept`). It has a place only as long as a record
//!   changes it, which is a condition of its type, and the indices of a place ascend by theirs
//!   (`Ascend`).
//! - `At` meets `CellRead`: its cells are what the first so many records make of those under them,
//!   and so is what a read finds. It needs that the index holds just the log's changes.
//! - `overlay_laws`: over cells that are each of some moment between two points of a history, a log
//!   that begins at or before the one gives, up to a record at or after the other, each cell but
//!   those of a saved log exactly (`exact`).
#![tactic(auto)]

mod at;
mod index;
mod indices;
mod laws;
mod set;

pub use at::At;
pub use index::CellIndex;
pub use laws::overlay_laws;
