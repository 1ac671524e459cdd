//! What a running server has around it: a link that takes and sends datagrams, and a clock. Each is
//! a trait with a form in memory and an adapter over the real thing.
//!
//! # What is proved
//!
//! `Link` and `Clock`. A link tells, where it can, the datagrams taken and sent, and those left for
//! each place: `receive` takes the first one left, and none exactly where none is left; after an
//! error nothing is taken or sent. A clock's readings never fall and are below 2^62. `MemLink` and
//! `ListClock` are exact, with faults exactly where their lists say so. A `ListClock` tells each
//! reading of its list (`ticks`), and shows those that it told. `UdpLink` and `WallClock` tell
//! nothing and count each fault, and `UdpLink` what it couldn't send; that they send, receive and
//! read at all no clause says. What is kept back of the witness' Invites is exact (`Late`).
#![tactic(auto)]

mod clock;
mod late;
mod link;
mod list_clock;
mod memory;
mod peers;
mod queues;
mod udp;
mod wall_clock;

pub use clock::{Clock, Reading};
pub use link::{Datagram, LAST_PORT, Link, LinkFault, SentDatagram, TakenDatagram, Waiting};
pub use list_clock::{ListClock, readings_rise};
pub use memory::MemLink;
pub use udp::UdpLink;
pub use wall_clock::WallClock;
