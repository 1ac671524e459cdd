//! A door to the servers of a world in memory.

ghost use Rattle.std.specs.Prelude.{◌≡◌, ℕ, List, Some};
ghost use Rattle.harp_types.specs.Streams.{Rose};
ghost use Rattle.group_trace.specs.DiskRun.{first_disk_scene};
ghost use Rattle.world.specs.World.{IsWorld};
ghost use Rattle.play_commands.specs.Door.{DoorPlayed, EndsDoorPlay, exit_of_door};

use crate::exit::Exit;
use door_play::PlayedGroup;
use harp_types::{Cred, Sink, Source};
use rpc_door::{DoorFault, GroupFault, serve_rpc};
use std::alloc::Global;
use std::mem;
use world::World;

/// How a command ends whose door ended so. A group in memory gives up a call only by a failure.
fn exit_of_door(ended: Result<u64, DoorFault>) -> Exit
    ensures { result ≡ exit_of_door ended }
{
    match ended {
        Ok(_) => Exit::Done,
        Err(DoorFault::ReadFault) => Exit::SourceFailed,
        Err(DoorFault::WriteFault) => Exit::SinkFailed,
        Err(DoorFault::BadRecord(_)) => Exit::RefusedRecord,
        Err(DoorFault::GroupFailed) => Exit::NetFull,
        Err(DoorFault::GroupSpent) => Exit::NetFull,
        Err(DoorFault::NoMemory) => Exit::NoMemory,
    }
}

/// Opens the view of a group, and answers the records of a source by its replies.
fn serve_played<S: Source, K: Sink>(
    alloc: Global,
    cred: Cred,
    source: &mut S,
    sink: &mut K,
    group: &mut PlayedGroup<World>,
) -> Exit
    requires { IsWorld first_disk_scene group.old.world }
    ensures ends { (input : List ℕ) → S.left source.old ≡ Some input
        → DoorPlayed cred input (S.left source.new) (K.written sink.old) (K.written sink.new)
        group.new.world result }
    ensures kind { EndsDoorPlay result }
    ensures source_rose { result ≡ Exit.SourceFailed
        → Rose (S.faults source.old) (S.faults source.new) }
    ensures sink_rose { result ≡ Exit.SinkFailed → Rose (K.faults sink.old) (K.faults sink.new) }
{
    match group.open(alloc) {
        Ok(()) => exit_of_door(serve_rpc(alloc, cred, source, sink, group)),
        Err(GroupFault::Failed) => Exit::NetFull,
        Err(GroupFault::Spent) => Exit::NetFull,
        Err(GroupFault::NoMemory) => Exit::NoMemory,
    }
}

/// Answers the records of a source as a door to the servers of a new world, for one user and group,
/// and leaves the world where their calls led it.
pub fn door_play<S: Source, K: Sink>(
    alloc: Global,
    cred: Cred,
    world: &mut World,
    source: &mut S,
    sink: &mut K,
) -> Exit
    requires { IsWorld first_disk_scene world.old }
    ensures ends { (input : List ℕ) → S.left source.old ≡ Some input
        → DoorPlayed cred input (S.left source.new) (K.written sink.old) (K.written sink.new)
        world.new result }
    ensures kind { EndsDoorPlay result }
    ensures source_rose { result ≡ Exit.SourceFailed
        → Rose (S.faults source.old) (S.faults source.new) }
    ensures sink_rose { result ≡ Exit.SinkFailed → Rose (K.faults sink.old) (K.faults sink.new) }
{
    let Ok(other) = World::new(alloc) else {
        return Exit::NoMemory;
    };
    let mut group = PlayedGroup::new(mem::replace(world, other));
    let exit = serve_played(alloc, cred, source, sink, &mut group);
    *world = group.into_world();
    exit
}
