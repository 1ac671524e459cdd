//! A server's power failure.

ghost use Rattle.std.specs.Prelude.{◌≡◌, ◌↔◌, List, ℕ, Err, None, OnOk, Some, false, true};
ghost use Rattle.file_tree.specs.Book.{Entry};
ghost use Rattle.group_rules.specs.Moves.{Saving, act};
ghost use Rattle.group_rules.specs.State.{mark_of};
ghost use Rattle.harp_store.specs.Disk.{AtEachMoment, Moments, Now, after_changes, after_step, synced_whole, with_mark};
ghost use Rattle.node.specs.Node.{server};
ghost use Rattle.node.specs.Outcomes.{FailsOnce};
ghost use Rattle.node.specs.Power.{IsSavedBy, SavesAtOnce, mark_left, saves_log};
ghost use Rattle.power_save.specs.Entries.{HasSaved, saved_entries};
ghost use Rattle.power_save.specs.Saved.{IsUnsaved, IsUnsavedOrSaved, SavesInPart, puts_of, saved_mark};
ghost use Rattle.tree_log.specs.Storing.{CountsFaults};
ghost use Rattle.volatile_log.specs.Log.{AreNumberedAfter, room};

use crate::fault::NodeFault;
use crate::node::Node;
use harp_store::{Mark, Store};
use power_save::{SaveFault, save};
use std::alloc::Global;
use volatile_log::FrozenLog;

impl Node {
    /// A power failure, after which the server is down. Where it holds a log that its mark hasn't
    /// saved, it saves it: it puts the records in their cells, syncs, and then writes the mark with
    /// LB = AP and the log's numbers. Else the disk stays as it is. After an error a first part of
    /// these calls is made, and the log stands there whole or not at all. Halted comes just where
    /// an earlier step failed.
    pub fn power<D: Store>(self, alloc: Global, store: &mut D) -> Result<(), NodeFault>
        ensures machine { (items : List Entry) (clock : ℕ) → mark_left self items
            ≡ mark_of (act self.me clock (server self items) Saving) }
        ensures saved { saves_log self ≡ true
            → OnOk result (IsSavedBy self (D.told store.old) (D.told store.new)) }
        ensures moments { self.halted ≡ false → saves_log self ≡ true
            → SavesAtOnce self (D.told store.old) (D.told store.new) }
        ensures kept { saves_log self ≡ false → D.told store.new ≡ D.told store.old }
        ensures halted { (result ≡ Err NodeFault.Halted) ↔ (self.halted ≡ true) }
        ensures still { self.halted ≡ true → D.told store.new ≡ D.told store.old }
        ensures faults { CountsFaults (result ≡ Err NodeFault.StoreFailed) (D.faults store.old)
            (D.faults store.new) }
    {
        if self.is_halted() {
            return Err(NodeFault::Halted);
        }
        let mark = self.mark;
        let kept = self.state.into_kept();
        if mark.saved().is_some() {
            return Ok(());
        }
        match kept.into_log() {
            Some(log) => save_log::<D>(alloc, &log, mark, store),
            None => Ok(()),
        }
    }
}

/// Saves a log beside this mark, which has none.
fn save_log<D: Store>(
    alloc: Global,
    log: &FrozenLog,
    mark: Mark,
    store: &mut D,
) -> Result<(), NodeFault>
    requires { mark.saved ≡ None }
    ensures done { OnOk result (D.told store.new
        ≡ after_step (with_mark (saved_mark room log.now mark))
        (after_step synced_whole (after_changes (puts_of log.now.records) (D.told store.old)))) }
    ensures entries { OnOk result (Now (HasSaved (saved_entries log.now)) (D.told store.new)) }
    ensures part { SavesInPart log.now (saved_mark room log.now mark) (D.told store.old)
        (D.told store.new) }
    ensures moments { (h : Moments) → D.told store.old ≡ Some h → IsUnsaved h.now.mark
        → AtEachMoment (IsUnsavedOrSaved log.now) (D.told store.old) (D.told store.new) }
    ensures numbered { AreNumberedAfter log.now.base log.now.records }
    ensures faults { FailsOnce result (D.faults store.old) (D.faults store.new) }
{
    let _ = log.base();
    let mut marked = mark;
    match save::<D>(alloc, log, &mut marked, store) {
        Ok(()) => Ok(()),
        Err(SaveFault::StoreFailed) => Err(NodeFault::StoreFailed),
        Err(SaveFault::NotSaved) => unreachable!(),
        Err(SaveFault::NoMemory) => Err(NodeFault::NoMemory),
    }
}
