//! The end of a server that is told to stop.

ghost use Rattle.std.specs.Prelude.{◌≡◌, ◌≤◌, false, OnErr, OnOk, Err};
ghost use Rattle.harp_types.specs.Streams.{Rose};
ghost use Rattle.node_loop.specs.Stay.{FailsSave, Saves};

use crate::fault::LoopFault;
use harp_store::Store;
use node::{Node, NodeFault};
use std::alloc::Global;

/// Saves the log of a server, as where its power fails. Then the server is gone.
pub fn save_log<D: Store>(alloc: Global, node: Node, store: &mut D) -> Result<(), LoopFault>
    requires { node.halted ≡ false }
    ensures saves { OnOk result (Saves node (D.told store.old) (D.told store.new)) }
    ensures part { OnErr result (FailsSave node (D.told store.old) (D.told store.new)) }
    ensures rose { result ≡ Err LoopFault.StoreFailed
        → Rose (D.faults store.old) (D.faults store.new) }
    ensures count { D.faults store.old ≤ D.faults store.new }
    ensures link { result ≡ Err LoopFault.LinkFailed → ⊥ }
{
    match node.power(alloc, store) {
        Ok(()) => Ok(()),
        Err(NodeFault::StoreFailed) => Err(LoopFault::StoreFailed),
        Err(NodeFault::Halted) => unreachable!(),
        Err(NodeFault::NoMemory) => Err(LoopFault::NoMemory),
    }
}
