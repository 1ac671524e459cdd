//! A running server that stays up until it is told to stop.

ghost use Rattle.std.specs.Prelude.{◌≡◌, ◌≢◌, ◌≤◌, ◌∷◌, [], false, IfOk, OnErr, OnOk, Err};
ghost use Rattle.harp_types.specs.Streams.{Rose};
ghost use Rattle.node_link.specs.Traffic.{last_port};
ghost use Rattle.node_loop.specs.Orders.{Answered, IsTold};
ghost use Rattle.node_loop.specs.Scene.{IsUp};
ghost use Rattle.node_loop.specs.Stay.{IsStay, IsStayCut, ShowsRuns, ShowsStops, around_on, outer_of, scene_on};
ghost use Rattle.node_loop.specs.Watch.{dropped_after};

use crate::binding::open;
use crate::booting::boot;
use crate::counts::Stayed;
use crate::fault::LoopFault;
use crate::habit::Habit;
use crate::ledger::Ledger;
use crate::orders::Orders;
use crate::outside::Outside;
use crate::rounds::turn_to;
use crate::running::Running;
use crate::saving::save_log;
use crate::showing::{show_first, show_new, state_shown};
use crate::turned::TurnEnd;
use crate::watcher::Watcher;
use harp_store::Store;
use harp_types::ServerId;
use node_link::{Clock, Link};
use promise::Delta;
use std::alloc::Global;

/// How many milliseconds a server that stays up waits for a datagram, about: fewer than from one
/// nudge to the next.
const WAIT_STEADILY: u32 = 5;

/// Whether a server that had ticked so often before its turn is told to stop behind it: it asks
/// where it ticked.
fn is_over<O: Orders>(ticks: u64, running: &Running, orders: &mut O) -> bool
    ensures quiet { running.now.pace.ticks ≡ ticks
        → (result ≡ false) × (O.told orders.new ≡ O.told orders.old) }
    ensures asked { running.now.pace.ticks ≢ ticks
        → Answered (result ∷ []) (O.told orders.old) (O.told orders.new) }
{
    if running.pace.ticks() == ticks {
        return false;
    }
    orders.is_told()
}

/// So many datagrams were dropped behind a turn that ended so.
fn with_end(dropped: u64, end: TurnEnd) -> u64
    ensures { result ≡ dropped_after end.dropped dropped }
{
    if end.dropped {
        dropped.saturating_add(1)
    } else {
        dropped
    }
}

/// How many turns were taken, and how many datagrams were dropped in them.
#[derive(Clone, Copy, PartialEq, Eq)]
struct Took {
    turns: u64,
    dropped: u64,
}

/// Turns of the server at a place, until it is told to stop, but no more than so many. It shows what
/// is new behind each, and counts the datagrams that gave nothing.
fn turns_until<L: Link, D: Store, C: Clock, O: Orders, W: Watcher>(
    alloc: Global,
    me: ServerId,
    most: u64,
    running: &mut Running,
    ledger: &mut Ledger,
    outside: &mut Outside<L, D, C, O, W>,
) -> Result<Took, LoopFault>
    requires up { IsUp running.old.node (D.told outside.old.disk) }
    requires new { running.old.pace.ticks ≡ 0 }
    ensures turns { IfOk result (λ t. (t.turns ≤ most)
        × IsTold running.new.pace.ticks t.turns most (O.told outside.old.orders)
        (O.told outside.new.orders)
        × ShowsRuns me t.turns
        (scene_on me running.old ledger.old
        (outer_of L.told L.unsent D.told C.told O.told W.told outside.old))
        (scene_on me running.new ledger.new
        (outer_of L.told L.unsent D.told C.told O.told W.told outside.new)) t.dropped
        (W.told outside.old.watcher) (W.told outside.new.watcher)) }
    ensures part { OnErr result (ShowsStops me most
        (scene_on me running.old ledger.old
        (outer_of L.told L.unsent D.told C.told O.told W.told outside.old))
        (around_on me (outer_of L.told L.unsent D.told C.told O.told W.told outside.new))
        (W.told outside.old.watcher) (W.told outside.new.watcher)) }
    ensures up { OnOk result (IsUp running.new.node (D.told outside.new.disk)) }
    ensures link_rose { result ≡ Err LoopFault.LinkFailed
        → Rose (L.faults outside.old.link) (L.faults outside.new.link) }
    ensures link_count { L.faults outside.old.link ≤ L.faults outside.new.link }
    ensures disk_rose { result ≡ Err LoopFault.StoreFailed
        → Rose (D.faults outside.old.disk) (D.faults outside.new.disk) }
    ensures disk_count { D.faults outside.old.disk ≤ D.faults outside.new.disk }
{
    let mut shown = state_shown(&running.node);
    let mut dropped = 0;
    for taken in 0..most {
        let ticks = running.pace.ticks();
        match turn_to(
            alloc,
            me,
            WAIT_STEADILY,
            running,
            &mut outside.link,
            &mut outside.disk,
            &mut outside.clock,
            ledger,
        ) {
            Ok(end) => {
                dropped = with_end(dropped, end);
                shown = show_new(me, end.now, &shown, &running.node, &mut outside.watcher);
                if is_over(ticks, running, &mut outside.orders) {
                    let turns = taken + 1;
                    return Ok(Took { turns, dropped });
                }
            }
            Err(fault) => return Err(fault),
        }
    }
    Ok(Took {
        turns: most,
        dropped,
    })
}

/// Runs one server that stays up. Its place is opened, it is booted from its disk, and it takes its
/// turns until it is told to stop, but no more than so many. Then its log is saved, as where its
/// power fails. It shows itself behind its boot, and behind each turn that made its state another
/// one but for its numbers.
pub fn serve_steady<L: Link, D: Store, C: Clock, O: Orders, W: Watcher>(
    alloc: Global,
    me: ServerId,
    delta: Delta,
    port: u16,
    most: u64,
    outside: &mut Outside<L, D, C, O, W>,
) -> Result<Stayed, LoopFault>
    requires { port ≤ last_port }
    ensures run { IfOk result (λ stayed. IsStay delta me most
        (outer_of L.told L.unsent D.told C.told O.told W.told outside.old) stayed
        (outer_of L.told L.unsent D.told C.told O.told W.told outside.new)) }
    ensures cut { OnErr result (IsStayCut delta me most
        (outer_of L.told L.unsent D.told C.told O.told W.told outside.old)
        (outer_of L.told L.unsent D.told C.told O.told W.told outside.new)) }
    ensures link_rose { result ≡ Err LoopFault.LinkFailed
        → Rose (L.faults outside.old.link) (L.faults outside.new.link) }
    ensures link_count { L.faults outside.old.link ≤ L.faults outside.new.link }
    ensures disk_rose { result ≡ Err LoopFault.StoreFailed
        → Rose (D.faults outside.old.disk) (D.faults outside.new.disk) }
    ensures disk_count { D.faults outside.old.disk ≤ D.faults outside.new.disk }
{
    open(me, port, &mut outside.link)?;
    let mut running = boot(
        alloc,
        Habit::Steady,
        me,
        delta,
        &mut outside.disk,
        &mut outside.clock,
    )?;
    show_first(me, &running, &mut outside.watcher);
    let mut ledger = Ledger::new(alloc);
    let took = turns_until(alloc, me, most, &mut running, &mut ledger, outside)?;
    let counts = ledger.counts;
    let Running { node, .. } = running;
    save_log(alloc, node, &mut outside.disk)?;
    Ok(Stayed {
        turns: took.turns,
        taken: counts.taken,
        sent: counts.sent,
        dropped: took.dropped,
        unsent: outside.link.unsent(),
    })
}
