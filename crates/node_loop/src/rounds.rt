//! The turns of a server at its place, and what it is given between them.

ghost use Rattle.std.specs.Prelude.{◌≡◌, ◌≤◌, ◌∷◌, [], IfOk, OnErr, OnOk, Err};
ghost use Rattle.harp_types.specs.Streams.{Rose};
ghost use Rattle.node_loop.specs.Chain.{Chain, Stops};
ghost use Rattle.node_loop.specs.Cut.{GivesInPart, IsTurnInPart, TurnsAtInPart, spot_left};
ghost use Rattle.node_loop.specs.Run.{Gives, Turns, TurnsAt, TurnsTo, rounds};
ghost use Rattle.node_loop.specs.Scene.{IsUp, alone, around, only, spot};

use crate::fault::LoopFault;
use crate::giving::{give, give_all};
use crate::ledger::Ledger;
use crate::look::Look;
use crate::running::Running;
use crate::turn::take_turn;
use crate::turned::{TurnEnd, Turned, is_dropped};
use harp_store::Store;
use harp_types::ServerId;
use node::Input;
use node_link::{Clock, Link};
use std::alloc::Global;

/// How many milliseconds a server alone waits for a datagram, about.
const WAIT_ALONE: u32 = 20;

/// A turn of the server at a place. It gives how the turn ended.
pub fn turn_to<L: Link, D: Store, C: Clock>(
    alloc: Global,
    me: ServerId,
    wait_ms: u32,
    running: &mut Running,
    link: &mut L,
    store: &mut D,
    clock: &mut C,
    ledger: &mut Ledger,
) -> Result<TurnEnd, LoopFault>
    requires { IsUp running.old.node (D.told store.old) }
    ensures turns { IfOk result (λ end. TurnsTo me end
        (spot running.old (D.told store.old) (L.told link.old) (C.told clock.old) ledger.old)
        (spot running.new (D.told store.new) (L.told link.new) (C.told clock.new) ledger.new)) }
    ensures part { OnErr result (IsTurnInPart me
        (spot running.old (D.told store.old) (L.told link.old) (C.told clock.old) ledger.old)
        (spot_left (D.told store.new) (L.told link.new) (C.told clock.new))) }
    ensures up { OnOk result (IsUp running.new.node (D.told store.new)) }
    ensures link_rose { result ≡ Err LoopFault.LinkFailed
        → Rose (L.faults link.old) (L.faults link.new) }
    ensures link_count { L.faults link.old ≤ L.faults link.new }
    ensures disk_rose { result ≡ Err LoopFault.StoreFailed
        → Rose (D.faults store.old) (D.faults store.new) }
    ensures disk_count { D.faults store.old ≤ D.faults store.new }
{
    let look = Look::of(&running.node);
    let turned = take_turn(alloc, me, &look, wait_ms, &mut running.pace, link, clock)?;
    ledger.counts.take(&turned.taken);
    let dropped = is_dropped(&turned.taken, turned.inputs.as_slice());
    let Turned { now, inputs, .. } = turned;
    match give_all(
        alloc,
        me,
        now,
        inputs,
        &mut running.node,
        link,
        store,
        ledger,
    ) {
        Ok(()) => Ok(TurnEnd { now, dropped }),
        Err(fault) => Err(fault),
    }
}

/// A turn of the server at a place.
pub fn turn<L: Link, D: Store, C: Clock>(
    alloc: Global,
    me: ServerId,
    wait_ms: u32,
    running: &mut Running,
    link: &mut L,
    store: &mut D,
    clock: &mut C,
    ledger: &mut Ledger,
) -> Result<(), LoopFault>
    requires { IsUp running.old.node (D.told store.old) }
    ensures turns { OnOk result (Turns me
        (spot running.old (D.told store.old) (L.told link.old) (C.told clock.old) ledger.old)
        (spot running.new (D.told store.new) (L.told link.new) (C.told clock.new) ledger.new)) }
    ensures part { OnErr result (IsTurnInPart me
        (spot running.old (D.told store.old) (L.told link.old) (C.told clock.old) ledger.old)
        (spot_left (D.told store.new) (L.told link.new) (C.told clock.new))) }
    ensures up { OnOk result (IsUp running.new.node (D.told store.new)) }
    ensures link_rose { result ≡ Err LoopFault.LinkFailed
        → Rose (L.faults link.old) (L.faults link.new) }
    ensures link_count { L.faults link.old ≤ L.faults link.new }
    ensures disk_rose { result ≡ Err LoopFault.StoreFailed
        → Rose (D.faults store.old) (D.faults store.new) }
    ensures disk_count { D.faults store.old ≤ D.faults store.new }
{
    match turn_to(alloc, me, wait_ms, running, link, store, clock, ledger) {
        Ok(_end) => Ok(()),
        Err(fault) => Err(fault),
    }
}

/// Gives an input to a server between its turns, at a reading of its clock.
pub fn give_now<L: Link, D: Store, C: Clock>(
    alloc: Global,
    me: ServerId,
    input: Input,
    running: &mut Running,
    link: &mut L,
    store: &mut D,
    clock: &mut C,
    ledger: &mut Ledger,
) -> Result<(), LoopFault>
    requires { IsUp running.old.node (D.told store.old) }
    ensures given { OnOk result (Gives me input
        (spot running.old (D.told store.old) (L.told link.old) (C.told clock.old) ledger.old)
        (spot running.new (D.told store.new) (L.told link.new) (C.told clock.new) ledger.new)) }
    ensures part { OnErr result (GivesInPart me input
        (spot running.old (D.told store.old) (L.told link.old) (C.told clock.old) ledger.old)
        (spot_left (D.told store.new) (L.told link.new) (C.told clock.new))) }
    ensures up { OnOk result (IsUp running.new.node (D.told store.new)) }
    ensures link_rose { result ≡ Err LoopFault.LinkFailed
        → Rose (L.faults link.old) (L.faults link.new) }
    ensures link_count { L.faults link.old ≤ L.faults link.new }
    ensures disk_rose { result ≡ Err LoopFault.StoreFailed
        → Rose (D.faults store.old) (D.faults store.new) }
    ensures disk_count { D.faults store.old ≤ D.faults store.new }
{
    let now = clock.now(me);
    give(
        alloc,
        me,
        now,
        input,
        &mut running.node,
        link,
        store,
        ledger,
    )
}

/// So many turns of the server at a place.
pub fn turns_alone<L: Link, D: Store, C: Clock>(
    alloc: Global,
    me: ServerId,
    turns: u64,
    running: &mut Running,
    link: &mut L,
    store: &mut D,
    clock: &mut C,
    ledger: &mut Ledger,
) -> Result<(), LoopFault>
    requires { IsUp running.old.node (D.told store.old) }
    ensures turns { OnOk result (Chain TurnsAt (rounds turns (me ∷ []))
        (alone me (spot running.old (D.told store.old) (L.told link.old) (C.told clock.old)
        ledger.old))
        (alone me (spot running.new (D.told store.new) (L.told link.new) (C.told clock.new)
        ledger.new))) }
    ensures part { OnErr result (Stops TurnsAt TurnsAtInPart (rounds turns (me ∷ []))
        (alone me (spot running.old (D.told store.old) (L.told link.old) (C.told clock.old)
        ledger.old))
        (around (only me (D.told store.new)) (L.told link.new) (C.told clock.new))) }
    ensures link_rose { result ≡ Err LoopFault.LinkFailed
        → Rose (L.faults link.old) (L.faults link.new) }
    ensures link_count { L.faults link.old ≤ L.faults link.new }
    ensures disk_rose { result ≡ Err LoopFault.StoreFailed
        → Rose (D.faults store.old) (D.faults store.new) }
    ensures disk_count { D.faults store.old ≤ D.faults store.new }
{
    for _ in 0..turns {
        match turn(alloc, me, WAIT_ALONE, running, link, store, clock, ledger) {
            Ok(()) => {}
            Err(fault) => return Err(fault),
        }
    }
    Ok(())
}
