//! Booting a server at its place.

ghost use Rattle.std.specs.Prelude.{◌≡◌, ◌≤◌, IfOk, OnErr, Err};
ghost use Rattle.harp_types.specs.Streams.{Rose};
ghost use Rattle.node_loop.specs.Cut.{BootsInPart};
ghost use Rattle.node_loop.specs.Run.{IsBooted};
ghost use Rattle.node_loop.specs.Scene.{IsUp};

use crate::fault::LoopFault;
use crate::habit::Habit;
use crate::pace::Pace;
use crate::running::Running;
use harp_store::Store;
use harp_types::ServerId;
use node::{Node, NodeFault};
use node_link::Clock;
use power_save::SeenRecords;
use promise::Delta;
use std::alloc::Global;

/// Boots the server of a place from its disk, with this habit, at a reading of the clock. It ticks
/// at once.
pub fn boot<D: Store, C: Clock>(
    alloc: Global,
    habit: Habit,
    me: ServerId,
    delta: Delta,
    store: &mut D,
    clock: &mut C,
) -> Result<Running, LoopFault>
    ensures boots { IfOk result (λ r. IsBooted habit me delta r (D.told store.old) (D.told store.new)
        (C.told clock.old) (C.told clock.new)) }
    ensures part { OnErr result (BootsInPart me delta (D.told store.old) (D.told store.new)
        (C.told clock.old) (C.told clock.new)) }
    ensures up { IfOk result (λ r. IsUp r.node (D.told store.new)) }
    ensures rose { result ≡ Err LoopFault.StoreFailed
        → Rose (D.faults store.old) (D.faults store.new) }
    ensures count { D.faults store.old ≤ D.faults store.new }
    ensures link { result ≡ Err LoopFault.LinkFailed → ⊥ }
{
    let now = clock.now(me);
    let mut seen = SeenRecords::new(alloc);
    match Node::boot(alloc, me, now, delta, store, &mut seen) {
        Ok(node) => Ok(Running {
            node,
            pace: Pace::start(habit, now),
        }),
        Err(NodeFault::StoreFailed) => Err(LoopFault::StoreFailed),
        Err(NodeFault::Halted) => unreachable!(),
        Err(NodeFault::NoMemory) => Err(LoopFault::NoMemory),
    }
}
