//! Where datagrams come from and go to.

ghost use Rattle.std.specs.Prelude.{◌≡◌, ◌≤◌, ℕ, Option, IfOk, OnOk, OnErr, Err};
ghost use Rattle.harp_types.specs.Streams.{Rose};
ghost use Rattle.node_link.specs.Traffic.{Traffic, TakesNext, last_port, with_sent_told};

use harp_types::{Bytes, Failed, Peer, ServerId};
use std::alloc::{AllocError, Global};

/// The greatest port of a link, which leaves a port for each of the three places.
pub const LAST_PORT: u16 = 65_533;

/// A datagram that came from a peer.
#[derive(Drop)]
pub struct Datagram {
    pub from: Peer,
    pub bytes: Bytes,
}

impl Datagram {
    /// An equal datagram.
    pub fn copy(&self, alloc: Global) -> Result<Datagram, AllocError>
        ensures { IfOk result (λ copy. copy ≡ self.now) }
    {
        Ok(Datagram {
            from: self.from,
            bytes: self.bytes.copy(alloc)?,
        })
    }
}

/// A datagram that was taken at a place.
#[derive(Drop)]
pub struct TakenDatagram {
    pub place: ServerId,
    pub datagram: Datagram,
}

/// A datagram that was sent from a place to a peer.
#[derive(Drop)]
pub struct SentDatagram {
    pub place: ServerId,
    pub to: Peer,
    pub bytes: Bytes,
}

/// A datagram, and the place that it waits for.
#[derive(Drop)]
pub struct Waiting {
    pub place: ServerId,
    pub datagram: Datagram,
}

/// Why a link did nothing.
#[derive(Clone, Copy, PartialEq, Eq)]
pub enum LinkFault {
    Failed,
    NoMemory,
}

impl From<AllocError> for LinkFault {
    ghost use Rattle.node_link.specs.declared.link.LinkFault.TheVariants.{NoMemory};

    ghost from_gives = { λ _ fault. fault ≡ NoMemory };

    fn from(_: AllocError) -> LinkFault {
        LinkFault::NoMemory
    }
}

/// Datagrams between the places of a group, one for each server, and other peers. A datagram that
/// is sent may be lost, repeated or overtaken.
pub trait Link {
    // The datagrams taken, sent and left so far, where the link tells them.
    ghost told: { Self → Option Traffic };

    // How many calls failed, which never falls.
    ghost faults: { Self → ℕ };

    // How many datagrams couldn't be sent, as far as the link knows.
    ghost unsent: { Self → ℕ };

    /// How many datagrams couldn't be sent so far.
    fn unsent(&self) -> u64
        ensures { result ≡ unsent self.now };

    /// Opens a place, whose port is this one plus the place's number.
    fn bind(&mut self, place: ServerId, port: u16) -> Result<(), Failed>
        requires { port ≤ last_port }
        ensures kept { told self.new ≡ told self.old }
        ensures rose { OnErr result (Rose (faults self.old) (faults self.new)) }
        ensures count { faults self.old ≤ faults self.new };

    /// Takes the next datagram of a place. It waits for one about so many milliseconds, and not at
    /// all where they are 0; None where none came.
    fn receive(
        &mut self,
        alloc: Global,
        place: ServerId,
        wait_ms: u32,
    ) -> Result<Option<Datagram>, LinkFault>
        ensures taken { IfOk result (λ d. TakesNext place d (told self.old) (told self.new)) }
        ensures kept { OnErr result (told self.new ≡ told self.old) }
        ensures rose { result ≡ Err LinkFault.Failed → Rose (faults self.old) (faults self.new) }
        ensures count { faults self.old ≤ faults self.new };

    /// Sends a datagram from a place. A fault sends nothing.
    fn send(
        &mut self,
        alloc: Global,
        place: ServerId,
        to: Peer,
        bytes: &[u8],
    ) -> Result<(), LinkFault>
        ensures sent { OnOk result (told self.new
            ≡ with_sent_told (record { place = place; to = to; bytes = bytes.now })
            (told self.old)) }
        ensures kept { OnErr result (told self.new ≡ told self.old) }
        ensures rose { result ≡ Err LinkFault.Failed → Rose (faults self.old) (faults self.new) }
        ensures count { faults self.old ≤ faults self.new };
}
