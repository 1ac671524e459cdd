//! Running servers, and writing what they did.

ghost use Rattle.std.specs.Prelude.{◌≡◌, ◌≤◌, ◌∷◌, [], ◌++◌, Err, IfOk};
ghost use Rattle.harp_types.specs.Streams.{Rose};
ghost use Rattle.node_link.specs.Traffic.{last_port};
ghost use Rattle.node_loop.specs.Scene.{NoneFell, OneRose, all_places, around, each, only};
ghost use Rattle.harp_cli.specs.Exit.{exit_of_loop, exit_of_store};
ghost use Rattle.harp_cli.specs.Serve.{ServeEnds, WriteEnds, served_line};

use crate::loop_words::Loop;
use harp_store::{Store, StoreFault};
use harp_types::{ServerId, Sink, SinkFault, Trio, write_all};
use node_link::{Clock, Link};
use node_loop::{LoopFault, Served, serve_one, serve_three};
use play_commands::Exit;
use std::alloc::{AllocError, Global};
use text_writer::put_named;

/// The line that tells what servers did.
#[tactic(auto, unfolding(crate::specs::Serve::served_line))]
fn line_of(alloc: Global, served: Served) -> Result<Vec<u8>, AllocError>
    ensures { IfOk result (λ line. line.items ≡ served_line served) }
{
    let mut line = Vec::new(alloc);
    put_named(&mut line, b"turns", served.turns)?;
    put_named(&mut line, b" taken", served.taken)?;
    put_named(&mut line, b" sent", served.sent)?;
    line.push(b'\n')?;
    Ok(line)
}

/// Writes what servers did.
fn write_served<K: Sink>(alloc: Global, served: Served, sink: &mut K) -> Exit
    ensures ends { WriteEnds served (K.written sink.old) (K.written sink.new) result }
    ensures rose { result ≡ Exit.SinkFailed → Rose (K.faults sink.old) (K.faults sink.new) }
{
    let Ok(line) = line_of(alloc, served) else {
        return Exit::NoMemory;
    };
    match write_all(sink, line.as_slice()) {
        Ok(()) => Exit::Done,
        Err(SinkFault::Failed) => Exit::SinkFailed,
        Err(SinkFault::NoMemory) => Exit::NoMemory,
    }
}

/// How a command ends whose servers were cut off.
fn exit_of_loop(fault: LoopFault) -> Exit
    ensures { result ≡ exit_of_loop fault }
{
    match fault {
        LoopFault::StoreFailed => Exit::DiskFailed,
        LoopFault::LinkFailed => Exit::LinkFailed,
        LoopFault::NoMemory => Exit::NoMemory,
    }
}

/// How a command ends whose disk failed.
pub fn exit_of_store(fault: StoreFault) -> Exit
    ensures { result ≡ exit_of_store fault }
{
    match fault {
        StoreFault::Failed => Exit::DiskFailed,
        StoreFault::NoMemory => Exit::NoMemory,
    }
}

/// Runs one server over its disk, which is attached to a folder, and writes what it did.
pub fn serve_node<K: Sink, L: Link, D: Store, C: Clock>(
    alloc: Global,
    place: ServerId,
    runs: Loop,
    folder: &str,
    sink: &mut K,
    link: &mut L,
    disk: &mut D,
    clock: &mut C,
) -> Exit
    requires { runs.port ≤ last_port }
    ensures ends { ServeEnds (place ∷ []) runs
        (around (only place (D.told disk.old)) (L.told link.old) (C.told clock.old))
        (around (only place (D.told disk.new)) (L.told link.new) (C.told clock.new))
        (K.written sink.old) (K.written sink.new) result }
    ensures disk_rose { result ≡ Exit.DiskFailed
        → Rose (D.faults disk.old) (D.faults disk.new) }
    ensures link_rose { result ≡ Exit.LinkFailed
        → Rose (L.faults link.old) (L.faults link.new) }
    ensures sink_rose { result ≡ Exit.SinkFailed
        → Rose (K.faults sink.old) (K.faults sink.new) }
{
    if let Err(fault) = disk.attach(alloc, folder) {
        return exit_of_store(fault);
    }
    let Loop { port, turns, .. } = runs;
    match serve_one(
        alloc,
        place,
        runs.promises(),
        port,
        turns,
        link,
        disk,
        clock,
    ) {
        Ok(served) => write_served(alloc, served, sink),
        Err(fault) => exit_of_loop(fault),
    }
}

/// Attaches the disk of a place to the folder in the group's that the place's number names.
fn attach_in<D: Store>(
    alloc: Global,
    place: ServerId,
    folder: &str,
    disk: &mut D,
) -> Result<(), StoreFault>
    ensures kept { D.told disk.new ≡ D.told disk.old }
    ensures rose { result ≡ Err StoreFault.Failed → Rose (D.faults disk.old) (D.faults disk.new) }
    ensures count { D.faults disk.old ≤ D.faults disk.new }
{
    let path = format!(in alloc; "{folder}/{}", place.number())?;
    disk.attach(alloc, path.as_str())
}

/// Attaches the disk of each place to its folder in the group's.
pub fn attach_all<D: Store>(
    alloc: Global,
    folder: &str,
    disks: &mut Trio<D>,
) -> Result<(), StoreFault>
    ensures kept { each D.told disks.new ≡ each D.told disks.old }
    ensures rose { result ≡ Err StoreFault.Failed
        → OneRose (each D.faults disks.old) (each D.faults disks.new) }
    ensures count { NoneFell (each D.faults disks.old) (each D.faults disks.new) }
{
    attach_in(alloc, ServerId::Zero, folder, &mut disks.zero)?;
    attach_in(alloc, ServerId::One, folder, &mut disks.one)?;
    attach_in(alloc, ServerId::Two, folder, &mut disks.two)
}

/// Runs the three servers over their disks, which are attached to folders in one folder, and writes
/// what they did.
pub fn serve_group<K: Sink, L: Link, D: Store, C: Clock>(
    alloc: Global,
    runs: Loop,
    folder: &str,
    sink: &mut K,
    link: &mut L,
    disks: &mut Trio<D>,
    clock: &mut C,
) -> Exit
    requires { runs.port ≤ last_port }
    ensures ends { ServeEnds all_places runs
        (around (each D.told disks.old) (L.told link.old) (C.told clock.old))
        (around (each D.told disks.new) (L.told link.new) (C.told clock.new))
        (K.written sink.old) (K.written sink.new) result }
    ensures disk_rose { result ≡ Exit.DiskFailed
        → OneRose (each D.faults disks.old) (each D.faults disks.new) }
    ensures link_rose { result ≡ Exit.LinkFailed
        → Rose (L.faults link.old) (L.faults link.new) }
    ensures sink_rose { result ≡ Exit.SinkFailed
        → Rose (K.faults sink.old) (K.faults sink.new) }
{
    if let Err(fault) = attach_all(alloc, folder, disks) {
        return exit_of_store(fault);
    }
    let Loop { port, turns, .. } = runs;
    match serve_three(alloc, runs.promises(), port, turns, link, disks, clock) {
        Ok(served) => write_served(alloc, served, sink),
        Err(fault) => exit_of_loop(fault),
    }
}
