//! The two storers of a view: its leader and its partner (Harp paper's primary and backup).
//!
//! # What is proved
//!
//! The leader and the partner of a view, from any base, over a store. Contracts see each as a
//! server of the group's rules, whatever the rest of the server is (`Outer`).
//!
//! - `Leader::try_open` makes the machine's test of opening, and `tick` that, or of an open leader
//!   its Beat and Events; `formed` keeps the partner's Formed; `ack` makes the acknowledgement,
//!   with the answers to the peers that wait, in order (`makes`). One peer waits for each record
//!   above CP of an open leader (`waiting`). `rebase` moves the base where the machine does;
//!   `lower` is the machine's flush of the log's number (`flushes`).
//! - `Partner::event` and `beat` make the machine's Event and Beat: drop, take, commit, promise;
//!   `tick` sends Formed again until the partner is settled.
//! - `Leader::ask` makes the machine's moves of an ask wherever the store and the log hold the tree
//!   of the list, and needs that only where it reads the tree (`asked`). What is appended goes to
//!   the log and to the partner as one record, that of its entry after the list. After an error the
//!   leader is as before but for its cells in memory (`still`); whatever the tree is, nothing
//!   changes of a leader but its records, those cells and who waits (`grown`).
//! - `list` gives the listing of the tree after CP updates of the list to the outputs (`listing`),
//!   and is the machine's Saying of it (`makes`). After an error nothing is listed (`none`).
//! - `cell` gives what a cell holds at CP, by the log over the store (`value`), and changes nothing
//!   but which cells are kept in memory (`same`).
//! - `apply` and `flush` leave what the log says of the disk (`changes`, `writes`), and are the
//!   machine's Applying and Flushing (`applies`, `flushes`); whether they are due is the caller's
//!   to test. Each call that changes the log says that the tree can still be read (`tree`).
//! - `freeze` and `log` give the very log; where `Leader::of` or `Partner::of` fails, it gives the
//!   log back (`err`). What a partner's log is after an Event is said where it succeeds.
//! - An open leader's `tick` sends exactly the records of its log above what its partner told, at
//!   most 64, as they stand there, with their views and changes (`records`). The partner's log is
//!   the old one, dropped to the base, with the very record that came where that is the next one
//!   (`log`, `records`). Opening and commits leave a leader's records, and its base drops the first
//!   (`log`).
#![tactic(auto)]

mod leader;
mod partner;
mod records;

pub use leader::Leader;
pub use partner::Partner;
