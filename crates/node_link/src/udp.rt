//! Datagrams over UDP.

ghost use Rattle.std.specs.Prelude.{◌≡◌, ◌≤◌, ◌<◌, ◌+◌, ℕ, None, OnErr, IfSome, Err};
ghost use Rattle.harp_types.specs.Streams.{Rose};
ghost use Rattle.node_link.specs.Traffic.{last_port};

use crate::late::{Late, is_invite};
use crate::link::{Datagram, Link, LinkFault};
use crate::peers::{address_of, peer_at, place_address};
use crate::wall_clock::steady_now;
use harp_types::{Bytes, Failed, Peer, ServerId, Trio};
use std::alloc::{AllocError, Global};
use std::io::{self, ErrorKind};
use std::net::{Ipv4Addr, Net, SocketAddr, SocketAddrV4, UdpSocket};
use std::time::{Clock, Duration};

/// No datagram is longer than this.
const LONGEST: usize = 65_535;

// An open place: its socket, whether that waits for a datagram, and how long it does then, once it
// was told.
#[derive(Drop)]
struct OpenPlace {
    socket: UdpSocket,
    waits: bool,
    wait_ms: Option<u32>,
}

/// Datagrams over UDP: place s of a group has the port that was given plus s, at 127.0.0.1. It
/// tells no datagrams. A datagram that can't be sent to its peer is lost, as one to port 0, and
/// counted up to 2^64 - 1; each other error of a socket is a fault, and so is a call at a place that
/// isn't open. Where it is to wait 0 milliseconds, it takes what is there and doesn't wait at all. An
/// Invite is given to the witness a tenth of a second late, so that the Join of a data server comes
/// before its own.
#[derive(Drop)]
pub struct UdpLink<R> {
    rt: R,
    port: u16,
    places: Trio<Option<OpenPlace>>,
    late: Late,
    // Room for any datagram, from the first call on.
    room: Option<Vec<u8>>,
    faults: u64,
    unsent: u64,
    ghost ports: { port ≤ 65533 },
}

impl<R> UdpLink<R> {
    ghost use Rattle.node_link.specs.Adapters.{link_faults};

    /// A link without an open place.
    pub fn new(rt: R) -> UdpLink<R>
        ensures { link_faults result ≡ 0 }
    {
        UdpLink {
            rt,
            port: 0,
            places: Trio {
                zero: None,
                one: None,
                two: None,
            },
            late: Late::new(),
            room: None,
            faults: 0,
            unsent: 0,
        }
    }

    // Counts a fault.
    fn fault(&mut self) -> Failed
        ensures rose { Rose (link_faults self.old) (link_faults self.new) }
        ensures count { link_faults self.old ≤ link_faults self.new }
    {
        self.faults = self.faults.saturating_add(1);
        Failed
    }
}

// An address and a port as sockets take them.
fn socket_address(address: u32, port: u16) -> SocketAddr {
    SocketAddr::V4(SocketAddrV4::new(Ipv4Addr::from_bits(address), port))
}

// Whether an error says that no datagram came in time.
fn is_wait_over(kind: ErrorKind) -> bool {
    matches!(
        kind,
        ErrorKind::WouldBlock | ErrorKind::TimedOut | ErrorKind::Interrupted
    )
}

impl OpenPlace {
    // Has the socket wait so long for a datagram, and not at all where that is 0. It is told only
    // what is new to it.
    fn wait(&mut self, wait_ms: u32) -> io::Result<()> {
        let waits = 0 < wait_ms;
        if self.waits != waits {
            self.socket.set_nonblocking(!waits)?;
            self.waits = waits;
        }
        if waits && self.wait_ms != Some(wait_ms) {
            let wait = Duration::from_millis(u64::from(wait_ms));
            self.socket.set_read_timeout(Some(wait))?;
            self.wait_ms = Some(wait_ms);
        }
        Ok(())
    }
}

// Room for any datagram, which is made once.
fn room_for(alloc: Global, room: &mut Option<Vec<u8>>) -> Result<&mut Vec<u8>, AllocError> {
    if room.is_none() {
        *room = Some(vec![in alloc; 0; LONGEST]?);
    }
    match room {
        Some(room) => Ok(room),
        None => Err(AllocError),
    }
}

// The next datagram of a place, where one comes in time.
fn received(
    alloc: Global,
    open: &mut OpenPlace,
    room: &mut Option<Vec<u8>>,
    base: u16,
    wait_ms: u32,
) -> Result<Option<Datagram>, LinkFault>
    requires { base ≤ last_port }
{
    let room = room_for(alloc, room)?;
    if open.wait(wait_ms).is_err() {
        return Err(LinkFault::Failed);
    }
    match open.socket.recv_from(room.as_mut_slice()) {
        Ok((count, SocketAddr::V4(from))) => {
            let bytes = Vec::from_slice(alloc, &room[..count])?;
            Ok(Some(Datagram {
                from: peer_at(base, from.ip().to_bits(), from.port()),
                bytes: Bytes::from_vec(bytes),
            }))
        }
        Err(e) if is_wait_over(e.kind()) => Ok(None),
        _ => Err(LinkFault::Failed),
    }
}

impl<R: Clock> UdpLink<R> {
    ghost use Rattle.node_link.specs.Adapters.{link_faults};

    // The Invite that is kept back, once its time has come. Where nobody knows the time, it has.
    fn late_invite(&mut self) -> Option<Datagram>
        ensures { link_faults self.new ≡ link_faults self.old }
    {
        let now = steady_now(&self.rt).unwrap_or(u64::MAX);
        self.late.take(now)
    }

    // What the witness is given of what came: an Invite is kept back, where the time is known.
    fn for_witness(&mut self, datagram: Datagram) -> Option<Datagram>
        ensures { link_faults self.new ≡ link_faults self.old }
    {
        if !is_invite(&datagram) {
            return Some(datagram);
        }
        match steady_now(&self.rt) {
            Some(now) => {
                self.late.keep(now, datagram);
                None
            }
            None => Some(datagram),
        }
    }
}

impl<R: Net + Clock> Link for UdpLink<R> {
    ghost use Rattle.node_link.specs.Adapters.{link_faults, link_unsent};

    ghost told = { λ _. None };

    ghost faults = { link_faults };

    ghost unsent = { link_unsent };

    fn unsent(&self) -> u64
        ensures { result ≡ link_unsent self.now }
    {
        self.unsent
    }

    fn bind(&mut self, place: ServerId, port: u16) -> Result<(), Failed>
        requires { port ≤ last_port }
        ensures rose { OnErr result (Rose (link_faults self.old) (link_faults self.new)) }
        ensures count { link_faults self.old ≤ link_faults self.new }
    {
        let (address, at) = place_address(port, place);
        let Ok(socket) = UdpSocket::bind(&self.rt, socket_address(address, at)) else {
            return Err(self.fault());
        };
        self.port = port;
        *self.places.get_mut(place) = Some(OpenPlace {
            socket,
            waits: true,
            wait_ms: None,
        });
        Ok(())
    }

    fn receive(
        &mut self,
        alloc: Global,
        place: ServerId,
        wait_ms: u32,
    ) -> Result<Option<Datagram>, LinkFault>
        ensures rose { result ≡ Err LinkFault.Failed
            → Rose (link_faults self.old) (link_faults self.new) }
        ensures count { link_faults self.old ≤ link_faults self.new }
    {
        if place.is(ServerId::Two)
            && let Some(invite) = self.late_invite()
        {
            return Ok(Some(invite));
        }
        let received = match self.places.get_mut(place) {
            Some(open) => received(alloc, open, &mut self.room, self.port, wait_ms),
            None => Err(LinkFault::Failed),
        };
        match received {
            Ok(Some(datagram)) if place.is(ServerId::Two) => Ok(self.for_witness(datagram)),
            Ok(datagram) => Ok(datagram),
            Err(LinkFault::Failed) => {
                self.fault();
                Err(LinkFault::Failed)
            }
            Err(LinkFault::NoMemory) => Err(LinkFault::NoMemory),
        }
    }

    fn send(
        &mut self,
        alloc: Global,
        place: ServerId,
        to: Peer,
        bytes: &[u8],
    ) -> Result<(), LinkFault>
        ensures rose { result ≡ Err LinkFault.Failed
            → Rose (link_faults self.old) (link_faults self.new) }
        ensures count { link_faults self.old ≤ link_faults self.new }
    {
        // The own program has no address, so what is sent to it is lost.
        let Some((address, port)) = address_of(self.port, to) else {
            return Ok(());
        };
        let Some(open) = self.places.get(place) else {
            self.fault();
            return Err(LinkFault::Failed);
        };
        // Whoever sends datagrams doesn't learn whether they come.
        if open
            .socket
            .send_to(bytes, socket_address(address, port))
            .is_err()
        {
            self.unsent = self.unsent.saturating_add(1);
        }
        Ok(())
    }
}
