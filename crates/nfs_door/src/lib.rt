//! What a record of a client of NFS version 2 means in practice, and what answers it: the door's
//! rule (`rpc_door`), and beside it what real clients need. Their credentials count, with all of
//! their groups, they mount (RFC 1094, appendix A), and their times, modes and blocks are those that
//! they mean. A file's owner reads and writes it whatever its mode is (section 3.3).
//!
//! A record is answered step by step: `begin` gives the first step, and `go_on` the one after the
//! call of a step was replied to. So whoever makes the calls may wait as long as he likes.
//!
//! # What is proved
//!
//! - `begin` gives the first step for a record (`begun`): nothing, an answer, or a call by the
//!   caller that the record's credential names. `go_on` gives the step after it (`after`). Which
//!   calls and which answer steps lead to, `LeadsTo` of `Steps` says, and as whom a call that was
//!   refused is made again, `Allowances`.
//! - The body of a Unix credential is read just where it is one in the words of RFC 1057
//!   (`read_credentials`). The names of a path are those that it was made of (`path_names`), and
//!   the directory that they lead to is mounted (`mounted_paths`).
#![tactic(auto)]

mod allowances;
mod answers;
mod changes;
mod claim;
mod credential;
mod front;
mod groups;
mod laws;
mod mount;
mod path;
mod step;
mod steps;

pub use claim::{Claim, Denied};
pub use groups::Groups;
pub use laws::{mounted_paths, path_names, read_credentials};
pub use path::Names;
pub use step::{Errand, Step, Then};
pub use steps::{begin, go_on};
