//! A client of three servers that run elsewhere, which it asks over a link.
//!
//! # What is proved
//!
//! - A `GroupClient` is a `Group`: each call is asked under one number, at one server after the
//!   other, until one of them answers it; of what it took and sent since it opened, it is told
//!   that it is just what the rule makes of the clock's readings and of what came (`AreMade`). So
//!   a reply is that of a datagram that came from the address of a server, for this client and
//!   this number, and of a form that the call can get.
//! - A call that isn't answered is asked again after 200 ms, and then after a pause that is twice
//!   as long each time, up to 2 s: at the other server that the last refusal hints at, and where it
//!   hints at none, or none came, at the next one round (`Wait` of `client_calls`).
//! - Where a call was given up, what was taken and sent for it is a front of what the rule makes
//!   (`GivesUp`).
#![tactic(auto)]

mod asking;
mod client;
mod making;
mod news;

pub use asking::ask_bytes;
pub use client::GroupClient;
pub use making::Next;
pub use news::{News, Replied, said};
