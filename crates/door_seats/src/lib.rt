//! A door for NFS clients that connect over TCP: sixteen seats, each for one connection at a time.
//! The records of a connection are answered one after the other, by calls that are asked of three
//! servers elsewhere, over a link. No connection waits for another one's calls.
//!
//! # What is proved
//!
//! - `serve` reads the clock, numbers the calls of its sixteen clients from there, and then takes
//!   turns. All that happens is a list of events (`Events`), each just what the seats make of what
//!   came (`Seats`); where a call of the link fails or memory runs out, one more is cut off behind
//!   them (`Serves`).
//! - Events are right (`events_are_right`): what a connection got is a front of the answers to the
//!   records at the front of what came over it, in their order (`IsServed`). An answer is what its
//!   record leads to by exchanges, each of a call that was asked under one number, and then of a
//!   datagram that came from a server's address with a reply for that client and number
//!   (`IsExchange`). What a client asked under one number is one call (`AreNumbered`).
//! - A record that was answered lately gets the same answer again, and nothing is asked; one whose
//!   call is on its way waits (`begins`). Of the last 1,024 answers none is lost (`with_answer`).
//! - A call that isn't answered is asked again as `group_client` does it, under its number.
//! - `TcpConnections` tells nothing and counts each fault. That bytes come and go at all no clause
//!   says, and nothing is said of time.
#![tactic(auto)]

mod byte_queue;
mod connections;
mod door;
mod framing;
mod hall;
mod kept;
mod laws;
mod request;
mod rule;
mod seat;
mod serving;
mod tcp;

pub use connections::{Connections, Given, Taken};
pub use door::Outside;
pub use hall::SEATS;
pub use laws::events_are_right;
pub use rule::Rule;
pub use serving::serve;
pub use tcp::TcpConnections;
