//! The servers that a client asks.

ghost use Rattle.std.specs.Prelude.{◌≡◌, ◌≤◌};
ghost use Rattle.node_link.specs.Traffic.{last_port};
ghost use Rattle.client_calls.specs.Servers.{peer_of, server_of};

use harp_types::{Peer, ServerId};

/// 127.0.0.1, where the servers of a group are.
const LOCALHOST: u32 = 0x7f00_0001;

/// A server as a peer, where server 0 has this port.
pub fn peer_of(port: u16, server: ServerId) -> Peer
    requires { port ≤ last_port }
    ensures { result ≡ peer_of port server }
{
    Peer::Other {
        address: LOCALHOST,
        port: port + u16::from(server.number()),
    }
}

/// The server that a peer is, where server 0 has this port.
pub fn server_of(port: u16, peer: Peer) -> Option<ServerId>
    requires { port ≤ last_port }
    ensures { result ≡ server_of port peer }
{
    let Peer::Other {
        address,
        port: from,
    } = peer
    else {
        return None;
    };
    if address != LOCALHOST {
        return None;
    }
    if from == port {
        Some(ServerId::Zero)
    } else if from == port + 1 {
        Some(ServerId::One)
    } else if from == port + 2 {
        Some(ServerId::Two)
    } else {
        None
    }
}
