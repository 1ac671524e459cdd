//! What a server holds of the list of updates where it is active in no view, and what it does with
//! it: what it tells when it joins a view, which part it can take in one, the records that it
//! pulls, the log that it goes on with, and the records that it gives to others (Harp paper). And
//! the laws by which typed logs are those of the group's machine.
//!
//! # What is proved
//!
//! What a server holds where it is active in no view. Each clause is of every server of the machine
//! that holds this, whatever the rest of it is.
//!
//! - `report` tells what the machine's join reports. `fits` equals all of the machine's tests of a
//!   plan (`test`), and what passes them can be taken (`can`).
//! - `stage` begins the list at the machine's first wanted index, and the list is full at once
//!   exactly where the machine accepts at once. `take_up` gives the machine's adopted log, with
//!   just the records that the view starts with, each of them its own or one that it pulled (`ok`,
//!   `records` of `TakesUp`), or for want of memory gives both back (`err`).
//! - `serve` and `serve_active` give what the machine gives up to an index, wherever the sizes of
//!   the records are those of their entries (`given`), and the records are the log's (`own`).
//!   `follow` and `is_within` are the machine's tests of a Give, and `give` takes its records
//!   exactly in its turn. Not said: that `give` leaves the list as it was for want of memory.
//! - `unloaded` and `loaded` are what the machine's boot makes of a mark (`boots`), `forget` is the
//!   machine's empty server, without records, and `into_log` gives a log exactly where a power
//!   failure saves one.
//! - `logs_are_the_groups`: what the logs make of records and numbers is what the machine's moves
//!   make of entries, under the conditions of their calls. It says so of what a source resumes, and
//!   a data server and the witness adopt; of what an active log takes, commits, applies, flushes
//!   and drops, what it commits where its leader opens, and what it does where its partner heeds an
//!   Event or a Beat; of what a server reports of its log; and of what a fetch is given, where
//!   records are as long as their entries' are told to be.
#![tactic(auto)]

mod boots;
mod fitting;
mod form;
mod group_logs;
mod kept;
mod pulling;
mod serving;
mod taking;

pub use boots::can_have;
pub use form::Form;
pub use group_logs::logs_are_the_groups;
pub use kept::Kept;
pub use pulling::{follow, give, is_within};
pub use serving::serve_active;
