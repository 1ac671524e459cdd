//! The verdict of an audit on a store, and its text.
//!
//! # What is proved
//!
//! - `audit_store` gives the verdict on a store that tells its disk (`verdict`). It audits the cells
//!   as they are, with CP 0, where there is no mark; else those after the committed records of the
//!   saved log. `Unsaved` comes only where the mark's server is outside of its view, or no whole log
//!   was saved. `Unsound` has the findings of the picture of these cells, and there are some;
//!   `Sound` comes only where there are none, with the objects of the tree that the cells stand for.
//! - Where a whole power failure left the disk of a data server (`IsLeftByPower`), the verdict is
//!   `Sound`, with the tree after the updates that its saved log has as committed (`tree`).
//! - It leaves what the disk tells (`kept`), and fails only where the store's count of faults rose
//!   (`rose`).
//! - `write_verdict` writes the text of a verdict whole (`all`), or a first part of it (`part`).
//!   That of a sound one is the text of its tree (`verdict_laws`).
#![tactic(auto)]

mod judging;
mod laws;
mod store;
mod text;
mod verdict;
mod writing;

pub use laws::verdict_laws;
pub use store::audit_store;
pub use verdict::Verdict;
pub use writing::write_verdict;
