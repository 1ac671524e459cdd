//! Who is at the other end of a datagram.

use crate::server::ServerId;

/// Who sends a datagram or gets one.
#[derive(Clone, Copy, PartialEq, Eq)]
pub enum Peer {
    /// The program that the server runs in: what goes to it is handed over, and no datagram.
    Local,
    Server(ServerId),
    /// Another host: its IPv4 address as a number, and its UDP port.
    Other { address: u32, port: u16 },
}
