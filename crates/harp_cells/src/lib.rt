//! Cells: the values in which a file tree and its updates lie on a disk, the changes of them, where
//! they are read from, and a map of cells in memory.
//!
//! # What is proved
//!
//! Cells, their values with bounds in the types, and changes of cells.
//!
//! - `MemCells::put`, `erase`, `erase_from` and `apply` leave exactly the cells that the changes
//!   make of those before, and after want of memory a first part of the changes. `fetch` and
//!   `value` give what a cell reads as.
//! - `cell_laws`: without any value the cells stand for the first tree; the cells of a book's
//!   entries stand for it; blocks past a file's end, slots past a directory's, and all cells of
//!   objects that don't live are absent; changes one after another are changes of their list.
//! - `read_value` gives a value exactly where the bytes begin with its one spelling, with its
//!   length (`found`, `only`), and else tells the first fault and its place (`exact`);
//!   `write_value` appends that spelling (`appended`), or leaves the bytes as they were (`kept`).
//!   The bytes of a saved record aren't looked into. `fields` reads and writes cells and changes
//!   too.
//! - `Change::sets` says whether a change sets a cell, to a value or to none.
//! - `SharedValue` is a value that its copies share; contracts see it as the value. `share` gives
//!   an equal one.
//! - The trait `CellRead` says of a reader what its cells are, what was found, and what reads leave
//!   as it is, such as which value it was lent (`left`). `MemCells`, `overlay::At` and
//!   `cell_cache::Cached` meet it; the two logs of `volatile_log` that have records meet
//!   `ChangeLog`.
#![tactic(auto)]

mod bounds;
mod cell;
mod change;
mod codec_forms;
mod codec_reading;
mod codec_writing;
pub mod fields;
mod laws;
mod memory;
mod reads;
mod shared;
mod value;

pub use bounds::{Moment, NonEmpty, OtherKind};
pub use cell::{Cell, Key};
pub use change::Change;
pub use codec_reading::read_value;
pub use codec_writing::write_value;
pub use laws::cell_laws;
pub use memory::MemCells;
pub use reads::{CellFault, CellRead, ChangeLog};
pub use shared::SharedValue;
pub use value::{Inode, LONGEST_OLD_RECORD, LONGEST_RECORD, UnformedInode, Value};
