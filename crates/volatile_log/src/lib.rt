//! The volatile log: the event records that a server holds in memory (Harp paper). A log that is
//! added to, one that is frozen, one that is lost and one that never was are types of their own, so
//! that nothing is acknowledged from a log that a server has left.
//!
//! # What is proved
//!
//! `ActiveLog` and `FrozenLog` have base <= LB <= AP <= CP <= top below 2^62 and at most 32,768
//! records with consecutive indices from the base on (`order`). `item` gives exactly the record of
//! an index, None exactly outside base + 1 to top.
//!
//! - Each clause on a call is one equation of whole logs. `append` adds exactly the next record
//!   (`ok`), answers LogFull exactly where 32,768 stand (`full`), with the record back and the log
//!   as before (`back`), and has no other refusal, since the room was taken when the log was made.
//!   `commit_to`, `applied_to`, `lower_to` and `drop_to` change CP, AP, LB, and the base with the
//!   records up to it; `freeze` changes nothing.
//! - `FrozenLog::resume` makes exactly the log of a view's source, and `adopt` of a frozen, a lost
//!   and an empty log exactly that of a held data server which isn't the source, of a lost data
//!   server, and of the witness (`ok`). Where they fail, they give back all that was handed in
//!   (`err`).
//! - `at_base` is the same log with LB and AP at the base, as a witness has it.
//! - `Staged` takes the records from a first index up to a start in order; `take` gives the record
//!   back for want of memory, with the list as before (`err`).
//! - `LostLog` and `EmptyLog` have no records and a frozen log has no call that adds one: that
//!   nothing is served from the first two and nothing appended to the third is so by their types.
#![tactic(auto)]

mod active;
mod bare;
mod changes;
mod frozen;
mod records;
mod staged;

pub use active::{ActiveLog, LogFull};
pub use bare::{EmptyLog, LostLog};
pub use frozen::FrozenLog;
pub use staged::Staged;
