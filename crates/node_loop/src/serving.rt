//! Running servers over a link, disks and a clock.

ghost use Rattle.std.specs.Prelude.{◌≡◌, ◌≤◌, ◌∷◌, [], IfOk, OnErr, Err};
ghost use Rattle.harp_types.specs.Streams.{Rose};
ghost use Rattle.node_link.specs.Traffic.{last_port};
ghost use Rattle.node_loop.specs.Cut.{IsCutOff};
ghost use Rattle.node_loop.specs.Run.{IsRun};
ghost use Rattle.node_loop.specs.Scene.{NoneFell, OneRose, all_places, around, each, only, start};

use crate::binding::open;
use crate::booting::boot;
use crate::counts::Served;
use crate::fault::LoopFault;
use crate::habit::Habit;
use crate::ledger::Ledger;
use crate::rounds::turns_alone;
use crate::three::Three;
use harp_store::Store;
use harp_types::{ServerId, Trio};
use node_link::{Clock, Link};
use promise::Delta;
use std::alloc::Global;

/// Runs one server for so many turns. Its place is opened, it is booted from its disk, and then it
/// takes its turns.
pub fn serve_one<L: Link, D: Store, C: Clock>(
    alloc: Global,
    me: ServerId,
    delta: Delta,
    port: u16,
    turns: u64,
    link: &mut L,
    store: &mut D,
    clock: &mut C,
) -> Result<Served, LoopFault>
    requires { port ≤ last_port }
    ensures run { IfOk result (λ served. IsRun delta (me ∷ []) turns
        (start (only me (D.told store.old)) (L.told link.old) (C.told clock.old)) served
        (only me (D.told store.new)) (L.told link.new) (C.told clock.new)) }
    ensures cut { OnErr result (IsCutOff delta (me ∷ []) turns
        (start (only me (D.told store.old)) (L.told link.old) (C.told clock.old))
        (around (only me (D.told store.new)) (L.told link.new) (C.told clock.new))) }
    ensures link_rose { result ≡ Err LoopFault.LinkFailed
        → Rose (L.faults link.old) (L.faults link.new) }
    ensures link_count { L.faults link.old ≤ L.faults link.new }
    ensures disk_rose { result ≡ Err LoopFault.StoreFailed
        → Rose (D.faults store.old) (D.faults store.new) }
    ensures disk_count { D.faults store.old ≤ D.faults store.new }
{
    open(me, port, link)?;
    let mut running = boot(alloc, Habit::Plain, me, delta, store, clock)?;
    let mut ledger = Ledger::new(alloc);
    turns_alone(
        alloc,
        me,
        turns,
        &mut running,
        link,
        store,
        clock,
        &mut ledger,
    )?;
    Ok(Served {
        turns,
        taken: ledger.counts.taken,
        sent: ledger.counts.sent,
    })
}

/// Runs three servers for so many turns, each of which is a turn of server 0, of 1 and of 2. Their
/// places are opened, then they are booted from their disks, and then they take their turns.
pub fn serve_three<L: Link, D: Store, C: Clock>(
    alloc: Global,
    delta: Delta,
    port: u16,
    turns: u64,
    link: &mut L,
    stores: &mut Trio<D>,
    clock: &mut C,
) -> Result<Served, LoopFault>
    requires { port ≤ last_port }
    ensures run { IfOk result (λ served. IsRun delta all_places turns
        (start (each D.told stores.old) (L.told link.old) (C.told clock.old)) served
        (each D.told stores.new) (L.told link.new) (C.told clock.new)) }
    ensures cut { OnErr result (IsCutOff delta all_places turns
        (start (each D.told stores.old) (L.told link.old) (C.told clock.old))
        (around (each D.told stores.new) (L.told link.new) (C.told clock.new))) }
    ensures link_rose { result ≡ Err LoopFault.LinkFailed
        → Rose (L.faults link.old) (L.faults link.new) }
    ensures link_count { L.faults link.old ≤ L.faults link.new }
    ensures disk_rose { result ≡ Err LoopFault.StoreFailed
        → OneRose (each D.faults stores.old) (each D.faults stores.new) }
    ensures disk_count { NoneFell (each D.faults stores.old) (each D.faults stores.new) }
{
    let mut three = Three::start(alloc, port, delta, link, stores, clock)?;
    three.take_turns(alloc, turns, link, stores, clock)?;
    let served = three.served(turns);
    end(three);
    Ok(served)
}

/// Ends the servers. That they may be dropped is proved here, and not amid what they came to.
fn end(_three: Three) {}
