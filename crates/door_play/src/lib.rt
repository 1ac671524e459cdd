//! A group that is played in a world in memory, as the group of a door: what its calls lead to.
//!
//! # What is proved
//!
//! The steps of a door's calls and the replies of one tree are definitions (`Steps`, `Replies`,
//! `Played`). The laws are of the steps of any calls of one user and group, whatever bytes records
//! have, where each message has a byte.
//!
//! - `played_calls`: where no step is refused, the answers in the lines of the run are the replies
//!   of one tree, in order and each once, with the calls' numbers (`answers`). A step is refused
//!   only since the network is full (`refused`), and what is read of the steps is taken (`taken`).
//! - `one_call_more`: the steps of one call more are read where those of the calls before lead
//!   (`further`), and its answers stand behind theirs (`behind`), unless one of these is refused
//!   (`stays`); where none of its own is refused either, it is answered once (`answered`).
//! - `replies_fit`: the reply to a call is of a form that the call can get.
//!
//! `PlayedGroup` answers calls, one after the other, by these steps: each is asked of server 0, and
//! all that it leads to is delivered. What it tells (`HasAnswered`): none of the steps was refused,
//! each reply is that of the one tree that the calls before left and stands in the lines of the
//! run, and the world stands where the steps lead. A call is left unanswered only where the network
//! is full (`HasGivenUp`), or without memory.
#![tactic(auto)]

mod asking;
mod cutting;
mod laws;
mod played;
mod stepping;

pub use laws::{one_call_more, played_calls, replies_fit};
pub use played::PlayedGroup;
pub use stepping::Stop;
