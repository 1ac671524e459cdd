//! Serving the records of a source by three servers.

ghost use Rattle.std.specs.Prelude.{◌≡◌, ◌≤◌, ℕ, List, [], None, Some, Err, false};
ghost use Rattle.harp_types.specs.Streams.{Rose};
ghost use Rattle.door_group.specs.Local.{HasFailed};
ghost use Rattle.node_link.specs.Traffic.{last_port};
ghost use Rattle.node_loop.specs.Scene.{AreUp, OneRose, each, scene_of, start};
ghost use Rattle.door_group.specs.Served.{DoorServed, EndsAfter, IsServed};

use crate::asker::Asker;
use crate::fault::{ServedFault, by_door, by_loop};
use crate::local::LocalServers;
use client_calls::first_number;
use harp_store::Store;
use harp_types::{Cred, ServerId, Sink, Source, Trio};
use node_link::{Clock, Link};
use node_loop::{LoopFault, Three};
use promise::Delta;
use rpc_door::{DoorFault, serve_rpc};
use std::alloc::Global;

/// Who makes the calls of a door, and how.
#[derive(Clone, Copy, PartialEq, Eq)]
pub struct Caller {
    pub cred: Cred,
    /// The number of the client.
    pub client: u32,
    /// The most turns of a call.
    pub turns: u64,
}

/// Answers the records of a source by the replies of servers that are lent to an asker.
fn serve_lent<S: Source, K: Sink, L: Link, D: Store, C: Clock>(
    alloc: Global,
    cred: Cred,
    source: &mut S,
    sink: &mut K,
    asker: &mut Asker<LocalServers<'_, L, D, C>>,
) -> Result<u64, DoorFault>
    requires { (asker.old.stopped ≡ false) × (asker.old.servers.ended ≡ None)
        × (asker.old.servers.three.now.ledger.heard.items ≡ [])
        × AreUp asker.old.servers.three.now.servers (each D.told asker.old.servers.disks.now) }
    ensures ends { (input : List ℕ) → S.left source.old ≡ Some input
        → EndsAfter
        (record { cred = cred; client = asker.old.client; turns = asker.old.turns })
        input (S.left source.new) (K.written sink.old) (K.written sink.new)
        (record {
          number = asker.old.next;
          place = asker.old.place;
          scene = scene_of asker.old.servers.three.now (each D.told asker.old.servers.disks.now)
              (L.told asker.old.servers.link.now) (C.told asker.old.servers.clock.now);
        })
        (start (each D.told asker.new.servers.disks.now) (L.told asker.new.servers.link.now)
        (C.told asker.new.servers.clock.now)) result }
    ensures failed { (input : List ℕ) → S.left source.old ≡ Some input
        → result ≡ Err DoorFault.GroupFailed → HasFailed asker.new.servers.ended }
    ensures source_rose { result ≡ Err DoorFault.ReadFault
        → Rose (S.faults source.old) (S.faults source.new) }
    ensures sink_rose { result ≡ Err DoorFault.WriteFault
        → Rose (K.faults sink.old) (K.faults sink.new) }
    ensures lent { (asker.new.servers.three.ghost_name ≡ asker.old.servers.three.ghost_name)
        × (asker.new.servers.link.ghost_name ≡ asker.old.servers.link.ghost_name)
        × (asker.new.servers.disks.ghost_name ≡ asker.old.servers.disks.ghost_name)
        × (asker.new.servers.clock.ghost_name ≡ asker.old.servers.clock.ghost_name) }
    ensures link_rose { asker.new.servers.ended ≡ Some LoopFault.LinkFailed
        → Rose (L.faults asker.old.servers.link.now) (L.faults asker.new.servers.link.now) }
    ensures disk_rose { asker.new.servers.ended ≡ Some LoopFault.StoreFailed
        → OneRose (each D.faults asker.old.servers.disks.now)
        (each D.faults asker.new.servers.disks.now) }
{
    serve_rpc(alloc, cred, source, sink, asker)
}

/// Answers the records of a source by the replies of servers that were just started.
fn serve_started<S: Source, K: Sink, L: Link, D: Store, C: Clock>(
    alloc: Global,
    caller: Caller,
    three: &mut Three,
    source: &mut S,
    sink: &mut K,
    link: &mut L,
    disks: &mut Trio<D>,
    clock: &mut C,
) -> Result<u64, ServedFault>
    requires { (three.old.ledger.heard.items ≡ [])
        × AreUp three.old.servers (each D.told disks.old) }
    ensures ends { (input : List ℕ) → S.left source.old ≡ Some input
        → IsServed caller input (S.left source.new) (K.written sink.old) (K.written sink.new)
        (scene_of three.old (each D.told disks.old) (L.told link.old) (C.told clock.old))
        (start (each D.told disks.new) (L.told link.new) (C.told clock.new)) result }
    ensures source_rose { result ≡ Err ServedFault.SourceFailed
        → Rose (S.faults source.old) (S.faults source.new) }
    ensures sink_rose { result ≡ Err ServedFault.SinkFailed
        → Rose (K.faults sink.old) (K.faults sink.new) }
    ensures disk_rose { result ≡ Err ServedFault.DiskFailed
        → OneRose (each D.faults disks.old) (each D.faults disks.new) }
    ensures link_rose { result ≡ Err ServedFault.LinkFailed
        → Rose (L.faults link.old) (L.faults link.new) }
{
    let first = first_number(clock.now(ServerId::Zero));
    let servers = LocalServers::new(three, link, disks, clock);
    let mut asker = Asker::new(servers, caller.client, first, caller.turns);
    match serve_lent(alloc, caller.cred, source, sink, &mut asker) {
        Ok(number) => Ok(number),
        Err(fault) => Err(by_door(fault, asker.servers().ended())),
    }
}

/// Ends servers.
fn end(_three: Three) {}

/// Starts three servers over their disks, and answers the records of a source by their replies, one
/// after the other; gives the number of records at the end of the source. Place s of the link has
/// the given port plus s.
///
/// It is shut early at a record that is none, at the first fault of the source, the sink, the link
/// or a disk, at the first call whose turns are over, and without memory.
pub fn serve_door<S: Source, K: Sink, L: Link, D: Store, C: Clock>(
    alloc: Global,
    caller: Caller,
    port: u16,
    source: &mut S,
    sink: &mut K,
    link: &mut L,
    disks: &mut Trio<D>,
    clock: &mut C,
) -> Result<u64, ServedFault>
    requires { port ≤ last_port }
    ensures ends { (input : List ℕ) → S.left source.old ≡ Some input
        → DoorServed caller input (S.left source.new) (K.written sink.old) (K.written sink.new)
        (start (each D.told disks.old) (L.told link.old) (C.told clock.old))
        (start (each D.told disks.new) (L.told link.new) (C.told clock.new)) result }
    ensures source_rose { result ≡ Err ServedFault.SourceFailed
        → Rose (S.faults source.old) (S.faults source.new) }
    ensures sink_rose { result ≡ Err ServedFault.SinkFailed
        → Rose (K.faults sink.old) (K.faults sink.new) }
    ensures disk_rose { result ≡ Err ServedFault.DiskFailed
        → OneRose (each D.faults disks.old) (each D.faults disks.new) }
    ensures link_rose { result ≡ Err ServedFault.LinkFailed
        → Rose (L.faults link.old) (L.faults link.new) }
{
    let mut three = match Three::start(alloc, port, Delta::first(), link, disks, clock) {
        Ok(three) => three,
        Err(fault) => return Err(by_loop(fault)),
    };
    let ended = serve_started(alloc, caller, &mut three, source, sink, link, disks, clock);
    end(three);
    ended
}
