//! Serving connections.

ghost use Rattle.std.specs.Prelude.{◌≡◌, ◌≤◌, ◌<◌, ◌^◌, ◌⊎◌, Result, ⊤};
ghost use Rattle.harp_types.specs.Streams.{Rose};
ghost use Rattle.node_link.specs.Traffic.{last_port};
ghost use Rattle.door_seats.specs.Doors.{tells_of};
ghost use Rattle.harpd.specs.Door.{DoorEnds, doorway, exit_of_served};

use crate::exit::Exit;
use crate::serve::MOST_TURNS;
use crate::words::Serving;
use door_seats::{Connections, Outside, Rule, serve};
use harp_types::{Failed, ServerId};
use node_link::{Clock, Link, LinkFault};
use std::alloc::Global;

/// How the program ends where a door ended so.
fn exit_of(served: Result<(), LinkFault>) -> Exit
    ensures { result ≡ exit_of_served served }
{
    match served {
        Ok(()) => Exit::Done,
        Err(LinkFault::Failed) => Exit::LinkFailed,
        Err(LinkFault::NoMemory) => Exit::NoMemory,
    }
}

/// Serves the connections that come at a port, by asking three servers that run elsewhere. Its own
/// link has whichever port the system gives.
pub fn serve_door<N: Connections, L: Link, C: Clock>(
    alloc: Global,
    serves: Serving,
    door: &mut Outside<N, L, C>,
) -> Exit
    requires port { serves.port ≤ last_port }
    requires client { serves.client < 2 ^ 31 }
    ensures ends { DoorEnds (doorway (tells_of N.told L.told C.told L.faults) door.old door.new)
        serves result }
    ensures rose { result ≡ Exit.LinkFailed
        → Rose (N.faults door.old.connections) (N.faults door.new.connections)
        ⊎ Rose (L.faults door.old.link) (L.faults door.new.link) }
{
    let Serving {
        port,
        door: at,
        client,
        everyone,
    } = serves;
    if door.connections.open(alloc, at).is_err() {
        return Exit::LinkFailed;
    }
    if door.link.bind(ServerId::Zero, 0).is_err() {
        return Exit::LinkFailed;
    }
    exit_of(serve(alloc, Rule { everyone, port }, client, MOST_TURNS, door))
}
