//! Running a server that stays up, and making a folder for one.

ghost use Rattle.std.specs.Prelude.{◌≡◌, ◌≤◌, ◌⊎◌};
ghost use Rattle.harp_types.specs.Streams.{Rose};
ghost use Rattle.node_link.specs.Traffic.{last_port};
ghost use Rattle.node_loop.specs.Stay.{outer_of};
ghost use Rattle.harpd.specs.Run.{InitEnds};
ghost use Rattle.harpd.specs.Serve.{Leaves, ServerEnds, Tells, outer};

use crate::exit::{Exit, exit_of_loop, exit_of_store};
use crate::folders::Folders;
use crate::texts::line_of;
use crate::words::Loop;
use harp_store::Store;
use harp_types::{ServerId, Sink, SinkFault, write_all};
use node_link::{Clock, Link};
use node_loop::{Orders, Outside, Stayed, Watcher, serve_steady};
use std::alloc::Global;

/// So many turns a server or a door takes at most: more than it ever will.
pub const MOST_TURNS: u64 = 1 << 62;

/// Writes what a server did that stayed up.
fn write_stopped<K: Sink>(alloc: Global, served: Stayed, sink: &mut K) -> Exit
    ensures ends { Tells served (K.written sink.old) (K.written sink.new) result }
    ensures sink_rose { result ≡ Exit.SinkFailed → Rose (K.faults sink.old) (K.faults sink.new) }
    ensures disk { result ≡ Exit.DiskFailed → ⊥ }
{
    let Ok(line) = line_of(alloc, served) else {
        return Exit::NoMemory;
    };
    match write_all(sink, line.as_slice()) {
        Ok(()) => Exit::Done,
        Err(SinkFault::Failed) => Exit::SinkFailed,
        Err(SinkFault::NoMemory) => Exit::NoMemory,
    }
}

/// Ends a server that stayed up: what told it to stop is taken away, and what it did is written.
fn end<K: Sink, F: Folders>(
    alloc: Global,
    folder: &str,
    served: Stayed,
    sink: &mut K,
    folders: &mut F,
) -> Exit
    ensures ends { Tells served (K.written sink.old) (K.written sink.new) result }
    ensures leaves { Leaves folder.now (F.done folders.old) (F.done folders.new) result }
    ensures sink_rose { result ≡ Exit.SinkFailed → Rose (K.faults sink.old) (K.faults sink.new) }
    ensures disk_rose { result ≡ Exit.DiskFailed
        → Rose (F.faults folders.old) (F.faults folders.new) }
    ensures count { F.faults folders.old ≤ F.faults folders.new }
{
    match folders.leave(alloc, folder) {
        Ok(()) => write_stopped(alloc, served, sink),
        Err(fault) => exit_of_store(fault),
    }
}

/// Runs a server that stays up over its disk, in a folder that was made for it, until it is told to
/// stop, and writes what it did.
pub fn serve<K: Sink, F: Folders, L: Link, D: Store, C: Clock, O: Orders, W: Watcher>(
    alloc: Global,
    place: ServerId,
    runs: Loop,
    folder: &str,
    sink: &mut K,
    folders: &mut F,
    outside: &mut Outside<L, D, C, O, W>,
) -> Exit
    requires { runs.port ≤ last_port }
    ensures ends { ServerEnds place runs folder.now
        (outer (outer_of L.told L.unsent D.told C.told O.told W.told outside.old) (F.done folders.old)
        (K.written sink.old))
        (outer (outer_of L.told L.unsent D.told C.told O.told W.told outside.new) (F.done folders.new)
        (K.written sink.new)) result }
    ensures sink_rose { result ≡ Exit.SinkFailed → Rose (K.faults sink.old) (K.faults sink.new) }
    ensures disk_rose { result ≡ Exit.DiskFailed
        → Rose (F.faults folders.old) (F.faults folders.new)
        ⊎ Rose (D.faults outside.old.disk) (D.faults outside.new.disk) }
    ensures link_rose { result ≡ Exit.LinkFailed
        → Rose (L.faults outside.old.link) (L.faults outside.new.link) }
{
    match folders.enter(alloc, folder, &mut outside.disk) {
        Ok(()) => {}
        Err(fault) => return exit_of_store(fault),
    }
    let Loop { port, .. } = runs;
    match serve_steady(alloc, place, runs.promises(), port, MOST_TURNS, outside) {
        Ok(served) => end(alloc, folder, served, sink, folders),
        Err(fault) => exit_of_loop(fault),
    }
}

/// Makes a folder for a server that never ran.
pub fn init<F: Folders>(alloc: Global, folder: &str, folders: &mut F) -> Exit
    ensures ends { InitEnds folder.now (F.done folders.old) (F.done folders.new) result }
    ensures rose { result ≡ Exit.DiskFailed → Rose (F.faults folders.old) (F.faults folders.new) }
{
    match folders.make(alloc, folder) {
        Ok(()) => Exit::Done,
        Err(fault) => exit_of_store(fault),
    }
}
