//! Giving inputs to a server, and sending what goes out.

ghost use Rattle.std.specs.Prelude.{◌≡◌, ◌≤◌, ◌<◌, ◌^◌, OnErr, OnOk, Err};
ghost use Rattle.harp_types.specs.Streams.{Rose};
ghost use Rattle.node_loop.specs.Chain.{Chain, Stops};
ghost use Rattle.node_loop.specs.Cut.{IsGivenInPart, SendsInPart, work_left};
ghost use Rattle.node_loop.specs.Run.{IsGiven};
ghost use Rattle.node_loop.specs.Scene.{IsUp, sent_after, with_all_sent, work};
ghost use Rattle.tree_log.specs.Storing.{CountsFaults};

use crate::counts::Counts;
use crate::fault::{LoopFault, of_link};
use crate::ledger::Ledger;
use crate::outgoing::datagrams_of;
use harp_store::Store;
use harp_types::ServerId;
use node::{Input, Node, NodeFault};
use node_link::{Link, SentDatagram};
use node_outputs::Outputs;
use std::alloc::Global;

/// Sends datagrams, one after the other.
fn send_all<L: Link>(
    alloc: Global,
    datagrams: Vec<SentDatagram>,
    link: &mut L,
    counts: &mut Counts,
) -> Result<(), LoopFault>
    ensures all { OnOk result (L.told link.new
        ≡ with_all_sent datagrams.items (L.told link.old)) }
    ensures counts { OnOk result (counts.new
        ≡ record counts.old { sent = sent_after datagrams.items counts.old.sent }) }
    ensures taken { counts.new.taken ≡ counts.old.taken }
    ensures part { OnErr result (SendsInPart datagrams.items (L.told link.old)
        (L.told link.new)) }
    ensures rose { result ≡ Err LoopFault.LinkFailed
        → Rose (L.faults link.old) (L.faults link.new) }
    ensures count { L.faults link.old ≤ L.faults link.new }
    ensures disk { result ≡ Err LoopFault.StoreFailed → ⊥ }
{
    // Read for its bound.
    let _so_far = counts.sent;
    for d in datagrams {
        match link.send(alloc, d.place, d.to, d.bytes.as_slice()) {
            Ok(()) => counts.send(),
            Err(fault) => return Err(of_link(fault)),
        }
    }
    Ok(())
}

/// Gives an input to a server at a reading of its clock, and sends what goes out; what goes to the
/// own program is heard.
pub fn give<L: Link, D: Store>(
    alloc: Global,
    me: ServerId,
    now: u64,
    input: Input,
    node: &mut Node,
    link: &mut L,
    store: &mut D,
    ledger: &mut Ledger,
) -> Result<(), LoopFault>
    requires up { IsUp node.old (D.told store.old) }
    requires now { now < 2 ^ 62 }
    ensures given { OnOk result (IsGiven me now input
        (work node.old (D.told store.old) (L.told link.old) ledger.old)
        (work node.new (D.told store.new) (L.told link.new) ledger.new)) }
    ensures part { OnErr result (IsGivenInPart me now input
        (work node.old (D.told store.old) (L.told link.old) ledger.old)
        (work_left (D.told store.new) (L.told link.new))) }
    ensures up { OnOk result (IsUp node.new (D.told store.new)) }
    ensures taken { ledger.new.counts.taken ≡ ledger.old.counts.taken }
    ensures link { CountsFaults (result ≡ Err LoopFault.LinkFailed) (L.faults link.old)
        (L.faults link.new) }
    ensures disk { CountsFaults (result ≡ Err LoopFault.StoreFailed) (D.faults store.old)
        (D.faults store.new) }
{
    let mut outs = Outputs::new(alloc);
    match node.step_into(alloc, input, now, store, &mut outs) {
        Ok(()) => {
            let datagrams = datagrams_of(alloc, me, outs, &mut ledger.heard)?;
            send_all(alloc, datagrams, link, &mut ledger.counts)
        }
        Err(NodeFault::StoreFailed) => Err(LoopFault::StoreFailed),
        Err(NodeFault::Halted) => unreachable!(),
        Err(NodeFault::NoMemory) => Err(LoopFault::NoMemory),
    }
}

/// Gives inputs to a server in their order, each at the same reading of its clock; what goes out of
/// one is sent before the next.
pub fn give_all<L: Link, D: Store>(
    alloc: Global,
    me: ServerId,
    now: u64,
    inputs: Vec<Input>,
    node: &mut Node,
    link: &mut L,
    store: &mut D,
    ledger: &mut Ledger,
) -> Result<(), LoopFault>
    requires up { IsUp node.old (D.told store.old) }
    requires now { now < 2 ^ 62 }
    ensures given { OnOk result (Chain (IsGiven me now) inputs.items
        (work node.old (D.told store.old) (L.told link.old) ledger.old)
        (work node.new (D.told store.new) (L.told link.new) ledger.new)) }
    ensures part { OnErr result (Stops (IsGiven me now) (IsGivenInPart me now) inputs.items
        (work node.old (D.told store.old) (L.told link.old) ledger.old)
        (work_left (D.told store.new) (L.told link.new))) }
    ensures up { OnOk result (IsUp node.new (D.told store.new)) }
    ensures taken { ledger.new.counts.taken ≡ ledger.old.counts.taken }
    ensures link { CountsFaults (result ≡ Err LoopFault.LinkFailed) (L.faults link.old)
        (L.faults link.new) }
    ensures disk { CountsFaults (result ≡ Err LoopFault.StoreFailed) (D.faults store.old)
        (D.faults store.new) }
{
    for input in inputs {
        match give(alloc, me, now, input, node, link, store, ledger) {
            Ok(()) => {}
            Err(fault) => return Err(fault),
        }
    }
    Ok(())
}
