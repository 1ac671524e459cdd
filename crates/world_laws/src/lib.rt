//! What holds of the hosts of a played group in every run; and the records that servers of a group
//! keep and send are those of their views' lists.
//!
//! # What is proved
//!
//! What stands for the servers of a group that is played with disks (`IsHost` of `world_rules`),
//! and what holds of the records that servers have beside the machine's entries, in each group that
//! meets the facts; definitions and proofs alone. Records are those of a list where their entries
//! are the list's, from a place on, with the changes that the list's history has there; each may be
//! stamped with any view.
//!
//! - `hosts_can`: in each scene to which steps lead the group meets the facts (`whole`). There a
//!   step of a server that is the machine's, over its disk of the run, has what it rests on
//!   (`take`): its log is of its list and holds the tree at CP, an apply makes the changes of the
//!   history, an active server has no saved log, and no disk has blocks of numbers that no file
//!   has. So has a power failure: the witness's LB is its log's base where it holds one (`fail`).
//! - `steps_wait`: where each update above CP at an open leader has somebody who waits for it, a
//!   step that begins with a deed or with a message that was sent answers and refuses no more calls
//!   than there are to answer, and leaves it so (`wait`); nobody has to wait at a server that fell
//!   or just booted (`rest`).
//! - `messages_are_sized`: a message that such a step sends, and that carries the records of its
//!   view's list, has as many bytes as the run counts for it (`sized`): the view that a record was
//!   stamped with changes none of its number of bytes.
//! - `starts_are_right`: at first no server has a record, in memory or saved (`start`).
//! - `steps_keep_stocks`: a deed of a server, but a power failure or a crash, and the delivery of a
//!   message that carries the records of its view's list, lead from a stock (`stock_after` of
//!   `node`) whose log is of the accepted view's list, and whose pulled records are of the promised
//!   view's, to such a stock; and they leave the records of the saved log right (`deeds`,
//!   `deliveries`). The other servers stay as they are (`others`).
//! - `marks_keep_logs`: a server that falls has no record in memory, and its saved log stays right;
//!   a power failure saves the records of the log, where there is one and none is saved (`falls`).
//!   A boot has the records of the saved log, where it holds a log then (`boots`).
//! - `stocks_stay`: whatever happens, the stock and the saved log of a server that stays as it is
//!   stay right, and so do the records of each message that was sent (`stay`).
//! - `sends_are_right`: a message that is heard as one that a step sends carries the records of its
//!   view's list, where each stands in its server's log or is what the step appends (`deeds`,
//!   `deliveries`).
//! - `logs_are_right`: a server's log with a right stock is of its list up to its top, as the
//!   reader of a tree and a fetch want it (`IsOfList` of `tree_log`), and it serves no more than it
//!   has (`right`).
//! - `trees_are_held`: where a data server holds a log, and its disk is between its mark and how
//!   far it may be, the tree can be read in its records over the disk (`HoldsTree` of `tree_log`):
//!   after each number of updates from there up to top, and after CP where it is settled (`held`).
//!   The store may tell anything of the cells of saved logs.
//! - `nodes_show_rightly`: in each scene to which steps lead, what a server's node shows over its
//!   disk is what the group's numbers say (`shown_by`): CP of a cell, the entries of records, or the
//!   base; and it is true of the records of the book's updates (`IsShownOf` of `shown`): a cell at
//!   CP, but of a saved log, and the committed records from an index on (`right`).
#![tactic(auto)]

mod book_laws;
mod host_laws;
mod show_laws;
mod stock_laws;

pub use book_laws::books_grow;
pub use host_laws::{hosts_can, messages_are_sized, steps_wait};
pub use show_laws::nodes_show_rightly;
pub use stock_laws::{
    logs_are_right, marks_keep_logs, sends_are_right, starts_are_right, steps_keep_stocks,
    stocks_stay,
};
