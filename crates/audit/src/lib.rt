//! An audit of a stored tree: a picture of its cells, what is wrong in it, and when it is sound.
//!
//! # What is proved
//!
//! A **picture** is what is read of a stored tree: the number of the next object, the used blocks,
//! and each object with its attributes, its slots, and how long the text of a link is. It is
//! **sound** where it is the picture of cells that stand for some tree as calls make them
//! (`IsSoundPicture`). Cells that nothing of that tree names are left aside, and those of clients.
//!
//! - `gather` gives the picture of the cells that it reads (`picture`), which has a picture's shape
//!   (`shaped`). A value of another kind than its cell's counts as absent, and an absent cell as
//!   what it stands for. StoreFailed comes only where the count of faults rose (`rose`).
//! - `audit_one` gives the findings of a picture: the flaws of the whole under number 0, and then
//!   the first flaw of each object, by number (`found`). There are none exactly where the picture
//!   is sound (`sound`). What names each object is counted in one pass over the entries, ways up
//!   are found by doubled steps, so nothing takes a square of the objects' number.
//! - `audit_many` gives the same by several threads, for every number of them: each takes a stretch
//!   of the objects, which are cut by how many slots these have. That any two ran at once isn't
//!   claimed.
//! - `Named` meets `CellRead`: of other cells those that a picture's objects name.
//! - `audit_laws`: the findings are empty exactly where the picture is sound (`sound`), as in the
//!   picture of cells that stand for a tree (`nothing`). Cells that are each absent or of their own
//!   kind, without bytes past a file's end, stand for one where nothing is found (`one`); and of
//!   cells that stand for what is named in a tree, those that their picture names stand for the
//!   whole tree (`named`).
#![tactic(auto)]

mod attributes;
mod auditing;
mod entries;
mod flaw;
mod flaws;
mod gathering;
mod laws;
mod named;
mod objects;
mod picture;
mod stretches;

pub use auditing::{audit_many, audit_one};
pub use flaw::{Finding, Flaw};
pub use gathering::gather;
pub use laws::audit_laws;
pub use named::Named;
pub use picture::{Picture, Portrait, Rows};
