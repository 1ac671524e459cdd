//! The listing of a tree: its live objects with their attributes and parts, read in its cells.
//!
//! # What is proved
//!
//! `list_tree` gives the listing of the tree that cells stand for: its live objects by number, each
//! with its attributes, used slots, blocks with another byte than 0, and a link's text (`list`). It
//! reads each cell once, and StoreFailed comes only where the count of faults rose.
#![tactic(auto)]

mod blocks;
mod inode;
mod listing;
mod slots;
mod tree;

pub use listing::{Listed, ListedBlock, ListedSlot, Listing, Row};
pub use tree::list_tree;
