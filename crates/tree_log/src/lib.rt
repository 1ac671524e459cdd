//! The log of a server together with what it takes to read the tree after some of its records: an
//! index over the log, and a cache of the store's cells. The record of a new update is planned here,
//! on the cells after the updates before it.
//!
//! # What is proved
//!
//! An active log over a store, together with an index over its records and a cache of the store's
//! cells. Its type keeps that the index holds just the changes of the log's first records; the
//! others come into it before a cell is read. The record of a new update is planned here.
//!
//! - `of`, `append`, `commit_to`, `lower_to`, `drop_to`, `freeze` and the numbers are those of the
//!   log. Where `append` fails, all is as before (`err`).
//!   With the record of the next entry of a list the log is of the list with it (`tree`).
//! - The premise of what speaks of the tree (`HoldsTree list upto`): the records are those of the
//!   entries of a list after the base, with the changes that the list gives them; and the store,
//!   which is told, reads fuzzy between AP and some number that is at most `upto`.
//! - Under it `seen` gives what an update is beside its client's last one of the whole list;
//!   `answer` gives a read the reply of its outcome on the tree after the first CP entries;
//!   `next_record` is the record of the new entry: its index the next one, its stamp the larger of
//!   the clock and the last one, its reply and changes those of the outcome on the tree after the
//!   list.
//! - `apply` brings just the changes of at most so many records to the store, in their order, and
//!   where the store fails, a first part of them (`changes`); then the log is as before (`still`).
//!   A disk that is fuzzy stays so at each moment (`fuzzy`), and the premise is kept either way
//!   (`tree`). `flush` syncs and then writes the mark, or makes a first part of these two calls
//!   (`writes`); at each moment the mark is the old one, or all cells are synced (`at_once`), and
//!   the disk is fuzzy from its own mark's LB on (`fuzzy`).
//! - `cell` gives what a cell holds after the committed records, over the store as it reads
//!   (`value`).
//! - `list` gives the listing of the tree after the first CP entries. `commit_to`, `lower_to` and
//!   `drop_to` keep the premise.
//! - Each call that is lent a store needs that each entry of the cache is the store's cell, and
//!   keeps it (`cached`), also where the store fails. StoreFailed comes only where the store's
//!   count of faults rose (`rose`, `faults`).
//! - `new_record` plans a caller's update over the cells at top. Where these are alike those after
//!   a list of updates, the record *is* `record_of` of that list and the update's entry (`record`):
//!   index, client, number, credential, call, stamp and view as given, the outcome's reply, and
//!   exactly the changes of that entry in the history, the client's Put last. Over any cells, what
//!   was given stands in it (`given`), and it has at most 24,000 bytes (`bytes`), so no record is
//!   refused for its length. StoreFailed comes only where the count of faults rose (`rose`).
//! - `record_laws`: a record stands for its entry (`entry`); records of one entry after the same
//!   ones differ at most in their view (`alike`); the history grows by a record's changes (`grow`);
//!   a planned record has at most 24,000 bytes, where its call has at most 8,233 and the blocks and
//!   names that it puts are within their bounds, as their types keep (`short`).
#![tactic(auto)]

mod applying;
mod cell_at_cp;
mod listing;
mod parts;
mod planning;
mod reading;
mod record;
mod record_lengths;
mod tree_log;

pub use record::new_record;
pub use record_lengths::record_laws;
pub use tree_log::TreeLog;
