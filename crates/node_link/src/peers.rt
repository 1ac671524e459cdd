//! Peers as addresses.

ghost use Rattle.std.specs.Prelude.{◌≡◌, ◌≤◌};
ghost use Rattle.node_link.specs.Peers.{IsPeerAt, address_of, place_address};
ghost use Rattle.node_link.specs.Traffic.{last_port};

use harp_types::{Peer, ServerId};

/// 127.0.0.1, where the places of a group are.
const LOCALHOST: u32 = 0x7f00_0001;

/// The address and the port of a place, where place 0 has this port.
pub fn place_address(base: u16, place: ServerId) -> (u32, u16)
    requires { base ≤ last_port }
    ensures { result ≡ place_address base place }
{
    (LOCALHOST, base + u16::from(place.number()))
}

/// The address and the port of a peer, where place 0 has this port; None for the own program.
pub fn address_of(base: u16, peer: Peer) -> Option<(u32, u16)>
    requires { base ≤ last_port }
    ensures { result ≡ address_of base peer }
{
    match peer {
        Peer::Local => None,
        Peer::Server(place) => Some(place_address(base, place)),
        Peer::Other { address, port } => Some((address, port)),
    }
}

/// The peer that has an address and a port, where place 0 has this port: a server only where it
/// is the address of its place.
pub fn peer_at(base: u16, address: u32, port: u16) -> Peer
    requires { base ≤ last_port }
    ensures { IsPeerAt base (address, port) result }
{
    if address != LOCALHOST {
        return Peer::Other { address, port };
    }
    if port == base {
        Peer::Server(ServerId::Zero)
    } else if port == base + 1 {
        Peer::Server(ServerId::One)
    } else if port == base + 2 {
        Peer::Server(ServerId::Two)
    } else {
        Peer::Other { address, port }
    }
}
