//! A copy of a group's tree outside of the group. It is taken cell by cell while the group goes on,
//! so its cells are those of several moments, and the committed records in between make it exact.
//! From then on it follows the records, and answers reads with their place in the book.
//!
//! # What is proved
//!
//! - `want` is the cell or the records that the copy lacks next, and None exactly before the first
//!   `copy`. `take` goes on where just that is shown, and ignores all else (`progress`).
//! - An observer is sound where its finished copy is the tree after `top` updates, cell by cell,
//!   and each cell of the new one is of some moment between its top and the greatest CP shown;
//!   those that the shown ones rule out are absent. Whatever is shown truly of the group's records
//!   leaves it sound (`sound` of each call), and so does the group as it goes on. What was shown
//!   truly stays true, so it may be taken late (`observer_laws`).
//! - `read` gives the number of updates of the finished copy (`top`), and the reply of the call's
//!   outcome on the tree after just so many updates (`reply`). That number never falls
//!   (`observer_laws`).
//!
//! It doesn't say that a new copy is ever finished. After want of memory nothing is said of it.
#![tactic(auto)]

mod laws;
mod observed;
mod phase;
mod progress;

pub use laws::observer_laws;
pub use observed::Observer;
pub use phase::{Part, Phase};
pub use progress::{Copied, Progress};
