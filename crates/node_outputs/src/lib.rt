//! What the calls of a server give to others, and how it follows from the rules of the group.
//!
//! # What is proved
//!
//! What a server's calls give, which contracts see as one value (`said`). Each call of `Outputs`
//! adds exactly one thing to one list, or sets one field, and leaves the others, and says which
//! records the messages carry, whole (`records`). `Makes` says that a call made moves of the
//! group's machine: the server is the one after them, and the outputs grew by just what they say,
//! answers and refusals going to the peers in turn. `calls_join`: two calls make the moves of both,
//! where the second one answers and refuses nobody.
#![tactic(auto)]

mod laws;
mod outputs;

pub use laws::calls_join;
pub use outputs::{Answered, AskedRead, Asker, Chosen, Outputs, Refused, Sent};
