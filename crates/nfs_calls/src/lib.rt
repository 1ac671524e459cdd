//! The calls of NFS version 2 over the cells of a file tree: the answers to reads, and the plans of
//! updates. It shares no code with plain_tree, a second opinion on the outcomes, but the tests of
//! permissions of file_tree.
//!
//! # What is proved
//!
//! The calls of NFS version 2 over cells, by a credential.
//!
//! - Wherever the cells are told and stand for a sound tree: `answer` gives the reply of a read's
//!   outcome, an NFS status included (`reply`); `prepare` gives the reply of an update's outcome
//!   (`reply`) and exactly the changes of the table (`changes`), which lead to cells that stand for
//!   the outcome's tree and hold its stamp (`leads`).
//! - Over any cells, such that stand for no tree too, each reply is a refusal or of the form that
//!   the call gives (`form`); `prepare` makes at most 15 changes, of cells of the tree alone, of
//!   which at most three put a block (`short`); and the last of them puts the totals with the stamp
//!   (`totals`).
//! - A `CallError` is a status or a fault of the cells. A refusal is a reply that changes nothing
//!   but the stamp; a fault ends the call.
//!
//! Of each function of these crates that reads cells: it leaves them (`kept`) and what their reader
//! says that reads leave (`left`), it fails with `StoreFailed` only where the count of faults rose
//! (`rose`), and that count never falls (`count`).
#![tactic(auto)]

mod error;
mod parts;
mod reads;
mod updates;

pub use file_tree::may;
pub use reads::answer::answer;
pub use updates::prepare::{Prepared, prepare};
