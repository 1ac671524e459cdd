//! A door to three servers that run in this process: who asks them, the servers, and the door.
//!
//! # What is proved
//!
//! - An `Asker` over any `Servers` is a `Group` of which it is told that its asks and turns since
//!   its start are, call by call, just those of the rule (`AreMade`); and where it gave up a call,
//!   that those of this one were so too (`IsMade`), up to the ask or the turn that was cut off
//!   where it failed. Whose calls they are, how many turns each has and what the servers run on is
//!   the same all along, after a fault too (`on`), and where it failed they show that (`failed`).
//! - `LocalServers` are `Servers`: a turn of theirs is a turn of each of the three, an ask is one
//!   of the server of its place, by the definitions of the loop, and what they say is what the
//!   loop hears, in order; where one fails it is cut off, and a front of it was sent
//!   (`TurnBreaks`, `AskBreaks`). They count each failed call of the link and of the disks, and
//!   show which of the two failed only where its count rose since they began (`IsLater`). They run
//!   on the link, the disks and the clock that were lent to them at first.
//! - `serve_door` starts three servers on a link, on their disks and on a clock, and answers the
//!   records of a source one after the other by what they reply. Its result says where it ended
//!   (`ends`): the servers were booted from their disks, one more reading of the clock numbers the
//!   first call, and the asks and turns of each call are just those that the rule of an `Asker`
//!   makes of what was heard; where a disk or the link failed, up to there. Each fault comes only
//!   where it was counted.
#![tactic(auto)]

mod asker;
mod brought;
mod fault;
mod local;
mod served;
mod servers;

pub use asker::Asker;
pub use brought::Brought;
pub use fault::ServedFault;
pub use local::LocalServers;
pub use served::{Caller, serve_door};
pub use servers::{Servers, ServersFault};
