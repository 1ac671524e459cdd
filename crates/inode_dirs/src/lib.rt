//! Directories in cells: their slots, their pages, and the way up from one.
//!
//! # What is proved
//!
//! Directories over any `CellRead`.
//!
//! - Where the cells are told and hold a directory's slots: `find` gives the entry with a name
//!   (`found`), `find_or_slot` that entry, or where there is none the first free slot, else the
//!   one behind the last (`sought`), and `list_from` the page above a cookie, where there are
//!   fewer than 2^32 - 2 slots (`page`).
//! - Over any cells the slot found is below the number of slots, the one for a new entry not above
//!   it (`within`), and a page has at most 512 entries (`few`).
//! - `is_below` says, where the cells hold the parents of a sound tree, whether a directory is
//!   another one or below it (`below`).
//! - `slot_laws`: cells of a tree hold the slots of its directories, cells that hold them stand for
//!   them, and what entering, replacing and freeing an entry by one change makes of them.
//!   `parent_laws`: cells of a sound tree tell its parents, and the way up from a directory meets
//!   each one that it is below. `entry_laws`: what the tree's definitions say of searches, new
//!   entries, freed slots, cookies and pages.
#![tactic(auto)]

mod entries;
mod laws;
mod page;
mod parents;
mod slot;

pub use entries::{Sought, find, find_or_slot};
pub use laws::{entry_laws, parent_laws, slot_laws};
pub use page::{DirPage, list_from};
pub use parents::is_below;
