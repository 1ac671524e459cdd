//! The disk that a store tells, beside the disk of a run of the group: what calls, syncs, marks and
//! crashes make of both.
//!
//! # What is proved
//!
//! The disk that a store tells, beside the disk of a run (`IsDiskOf`): the synced cells are alike,
//! and the changes since are one for one those that a pick counts. Of the cells of saved logs it
//! asks which cell each change sets, and no value. Definitions and proofs alone.
//!
//! - `told_laws`: new disks are so (`first`). Changes of cells (`changed`), a sync (`synced`), a
//!   mark (`marked`) and a crash by one pick (`crashed`) keep them so. Where the run's disk has no
//!   block of number 524,288 or above, reads of both give the same of each cell but those of saved
//!   logs (`reads`), and the store's disk has no block of number 2^32 or above (`numbered`).
//! - `call_laws`: so it is after the first calls of a store that are a run's one for one (`first`),
//!   and after a step of a run, be it whole, cut by a stop or a crash (`step`). Each call makes one
//!   moment (`moments`). The records of a log that are numbered from its base on are put in the
//!   cells of the run's save (`puts`, `saves`).
//! - `part_laws`: what an error leaves of a store is what it tells after some first calls: of the
//!   changes of an apply (`applies`), of a flush (`flushes`), of a save (`saves`), and of the
//!   writing of a mark (`marks`).
//! - `run_laws`: which calls each step makes (`calls`), and what a store tells after a whole one
//!   (`leave`). In every run each disk, the witness's too, has no block of number 524,288 or above,
//!   and none after any first calls of a step (`few`).
#![tactic(auto)]

mod laws;

pub use laws::{call_laws, part_laws, run_laws, told_laws};
