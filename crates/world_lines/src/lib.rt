//! What a step of a server gives to the world: entries of the book, packets, and the lines of a
//! trace, those of a listing too.
//!
//! # What is proved
//!
//! What the outputs of a server's step come to in the world. `give` puts them into the book and
//! among the packets, and appends their lines in the order of a trace.
//!
//! - Of the updates that came within CP those enter whose index is above the number of all that
//!   were entered before, so that each is entered once; each read that was answered enters with
//!   its answer.
//! - Each message between servers is a packet, with the next number, and its line shows it as the
//!   group's run shows the message that is heard. Answers and refusals have their lines.
//! - `show_state` appends a state line just where the state shown is another than before, and
//!   `show_listing` the lines of a listing, or the one that says that there is none.
//! - `listing_laws`: the lines of a tree's listing are the lines of the tree, and it has as many
//!   objects as live. `lines_of_listing` gives them.
//!
//! The `Packets` of three servers stand in the order in which they were sent.
//!
//! - `send` puts a packet behind all others (`ok`), or leaves them after want of memory (`err`).
//!   `open`, `sender` and `target` tell what was sent as packet n, and none exactly where there is
//!   none. `deliver` marks packet n and no other (`value`).
//! - `next` is the lowest number of a packet that was never delivered, among two servers where
//!   they are given (`first`). It reads at most nine numbers; `send` and `deliver` keep them. That
//!   a whole pump passes each packet at most nine times is no theorem.
//! - `bytes` is the sum of the messages' lengths, up to the greatest number of a u64.
//! - Where all messages are among servers, each call keeps that the packets are those of the
//!   group's machine, with the numbers that were delivered (`machine`); `open` gives the machine's
//!   packet of a number, and `next` what a pump of `group_trace` delivers next.
#![tactic(auto)]

mod book;
mod due;
mod given;
mod kept;
mod listing;
mod listings;
mod packet;
mod packets;
mod room;
mod shown;
mod size;
mod states;

pub use book::Book;
pub use given::give;
pub use listing::lines_of_listing;
pub use listings::listing_laws;
pub use packet::Packet;
pub use packets::Packets;
pub use states::{show_listing, show_state};
