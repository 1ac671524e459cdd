//! A door to three servers.

ghost use Rattle.std.specs.Prelude.{◌≡◌, ◌≤◌, ℕ, List, Some};
ghost use Rattle.harp_types.specs.Streams.{Rose};
ghost use Rattle.node_link.specs.Traffic.{last_port};
ghost use Rattle.node_loop.specs.Scene.{OneRose, each, start};
ghost use Rattle.harp_cli.specs.DoorServers.{DoorServes, EndsDoor, exit_of_served};

use crate::door_words::Doorway;
use crate::serve::{attach_all, exit_of_store};
use door_group::{ServedFault, serve_door};
use harp_store::Store;
use harp_types::{Sink, Source, Trio};
use node_link::{Clock, Link};
use play_commands::Exit;
use std::alloc::Global;

/// How a command ends whose door to three servers ended so.
fn exit_of_served(ended: Result<u64, ServedFault>) -> Exit
    ensures { result ≡ exit_of_served ended }
{
    match ended {
        Ok(_) => Exit::Done,
        Err(ServedFault::SourceFailed) => Exit::SourceFailed,
        Err(ServedFault::SinkFailed) => Exit::SinkFailed,
        Err(ServedFault::BadRecord(_)) => Exit::RefusedRecord,
        Err(ServedFault::DiskFailed) => Exit::DiskFailed,
        Err(ServedFault::LinkFailed) => Exit::LinkFailed,
        Err(ServedFault::CallSpent) => Exit::CallSpent,
        Err(ServedFault::NoMemory) => Exit::NoMemory,
    }
}

/// Answers the records of a source as a door to three servers over their disks, which are attached
/// to folders in one folder.
pub fn door_to_servers<S: Source, K: Sink, L: Link, D: Store, C: Clock>(
    alloc: Global,
    door: Doorway,
    folder: &str,
    source: &mut S,
    sink: &mut K,
    link: &mut L,
    disks: &mut Trio<D>,
    clock: &mut C,
) -> Exit
    requires { door.port ≤ last_port }
    ensures ends { (input : List ℕ) → S.left source.old ≡ Some input
        → DoorServes door.caller input (S.left source.new)
        (K.written sink.old) (K.written sink.new)
        (start (each D.told disks.old) (L.told link.old) (C.told clock.old))
        (start (each D.told disks.new) (L.told link.new) (C.told clock.new)) result }
    ensures kind { EndsDoor result }
    ensures source_rose { result ≡ Exit.SourceFailed
        → Rose (S.faults source.old) (S.faults source.new) }
    ensures sink_rose { result ≡ Exit.SinkFailed → Rose (K.faults sink.old) (K.faults sink.new) }
    ensures disk_rose { result ≡ Exit.DiskFailed
        → OneRose (each D.faults disks.old) (each D.faults disks.new) }
    ensures link_rose { result ≡ Exit.LinkFailed
        → Rose (L.faults link.old) (L.faults link.new) }
{
    if let Err(fault) = attach_all(alloc, folder, disks) {
        return exit_of_store(fault);
    }
    let Doorway { caller, port } = door;
    exit_of_served(serve_door(alloc, caller, port, source, sink, link, disks, clock))
}
