//! Repeats: what an update's number says of it beside the last update of its client, and the cell
//! that keeps that one.
//!
//! # What is proved
//!
//! `seen` says by a client's cell whether an update's number is above the client's last one, below
//! it, or the same, and then whether that update is committed, with its index and reply (`cell`);
//! where the cell holds the client's last update of a book, this is said of that update (`last`).
//! `keep` gives the Put of the client's cell.
#![tactic(auto)]

mod client;
mod repeat;

pub use client::{keep, seen};
pub use repeat::Seen;
