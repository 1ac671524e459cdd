//! Connections, as a door has them.

ghost use Rattle.std.specs.Prelude.{◌≡◌, ℕ, IfOk, OnErr};
ghost use Rattle.harp_types.specs.Streams.{Rose};
ghost use Rattle.door_seats.specs.Connections.{Left, Signs as Told, accepted, given_at, taken_at, with_sign};

use harp_types::{Bytes, Failed};
use std::alloc::{AllocError, Global};

/// What came of taking bytes from a connection.
#[derive(Drop)]
pub enum Taken {
    /// These came.
    Bytes(Bytes),
    /// None came yet.
    Nothing,
    /// None comes any more.
    Over,
}

/// What came of handing bytes to a connection.
#[derive(Clone, Copy)]
pub enum Given {
    /// So many were taken, the first ones.
    Some(usize),
    /// It takes none any more.
    Over,
}

/// Connections, each at a seat. No call waits, but for `rest`.
pub trait Connections {
    // What happened at the seats so far, where the connections tell it.
    ghost told: { Self → Told };

    // How many calls failed, which never falls.
    ghost faults: { Self → ℕ };

    /// Opens the port at which connections come.
    fn open(&mut self, alloc: Global, port: u16) -> Result<(), Failed>
        ensures kept { told self.new ≡ told self.old }
        ensures rose { OnErr result (Rose (faults self.old) (faults self.new)) };

    /// Seats the connection that waits longest, where one does, at a free seat.
    fn accept(&mut self, seat: usize) -> bool
        ensures { told self.new ≡ accepted seat result (told self.old) };

    /// Takes bytes that came over a seat's connection.
    fn take(&mut self, alloc: Global, seat: usize) -> Result<Taken, AllocError>
        ensures told { IfOk result (λ t. told self.new ≡ taken_at seat t (told self.old)) }
        ensures kept { OnErr result (told self.new ≡ told self.old) };

    /// Hands bytes to a seat's connection, as many of the first ones as it takes now.
    fn give(&mut self, seat: usize, bytes: &[u8]) -> Given
        ensures { told self.new ≡ given_at seat bytes.now result (told self.old) };

    /// Ends a seat's connection. The seat is free.
    fn close(&mut self, seat: usize)
        ensures { told self.new ≡ with_sign (Left seat) (told self.old) };

    /// Waits about a millisecond. A door rests where nothing comes for some time.
    fn rest(&mut self)
        ensures { told self.new ≡ told self.old };
}
