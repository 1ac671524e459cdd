//! How a client of three servers that run elsewhere asks a call: under which number, of which
//! servers, and when and where again.
//!
//! # What is proved
//!
//! - `first_number`, `peer_of`, `server_of` and the waits of a call (`Wait`) are those that `First`,
//!   `Servers` and `Waits` say: a call that isn't answered is asked again after 200 ms, and then
//!   after a pause that is twice as long each time, up to 2 s, at the other server that a refusal
//!   hints at, and else at the next one round.
//! - `Ticket::is_of` tells the answers to a call from those to another one.
#![tactic(auto)]

mod first;
mod servers;
mod ticket;
mod wait;

pub use first::first_number;
pub use servers::{peer_of, server_of};
pub use ticket::Ticket;
pub use wait::{LONGEST_PAUSE, Wait};
