//! How a leader opens its view.

ghost use Rattle.node_outputs.specs.Records.{records_sent};
ghost use Rattle.std.specs.Prelude.{◌≡◌, ℕ, ◌+◌, ◌<◌, ◌≤◌, ◌^◌, ◌++◌, ◌∷◌, [], OnOk, Some, false};
ghost use Rattle.group_rules.specs.Open.{open_moves, try_open};
ghost use Rattle.node_outputs.specs.Makes.{Makes};
ghost use Rattle.node_outputs.specs.Said.{said};
ghost use Rattle.replica.specs.Commits.{above, announced, opened};
ghost use Rattle.replica.specs.Leading.{Outer, led, place_led};
ghost use Rattle.replica.specs.Trees.{KeepsTree};
ghost use Rattle.volatile_log.specs.Log.{committed_to, top};

use crate::leader::{Beside, Leader};
use crate::records::{entry_copy, record_after};
use harp_types::ServerId;
use node_outputs::Outputs;
use promise::{Grant, may_open};
use std::alloc::{AllocError, Global};
use wire::Message;

impl Leader {
    /// Opens the view where its partner's Formed has come and its horizon is over by every clock:
    /// all that the log has is committed. Beside a data server the witness is told that it isn't
    /// needed any more.
    pub fn try_open(
        &mut self,
        alloc: Global,
        now: u64,
        outs: &mut Outputs,
    ) -> Result<(), AllocError>
        ensures makes { OnOk result ((o : Outer)
            → let s = led self.old o in let q = place_led self.old o in
            Makes q now (try_open q now s) [] s (led self.new o) outs.old outs.new) }
        ensures peers { OnOk result (self.new.peers ≡ self.old.peers) }
        ensures records { OnOk result (records_sent outs.new ≡ records_sent outs.old) }
        ensures cached { OnOk result (self.new.cached ≡ self.old.cached) }
        ensures log { OnOk result (self.new.log
            ≡ committed_to self.old.log self.new.log.cp) }
        ensures tree { OnOk result (KeepsTree self.old.log self.new.log) }
    {
        if self.opened {
            return Ok(());
        }
        match self.formed {
            None => Ok(()),
            Some(lb) => {
                if may_open(now, self.horizon) {
                    self.open(alloc, lb, outs)
                } else {
                    Ok(())
                }
            }
        }
    }

    /// Opens the view.
    fn open(&mut self, alloc: Global, lb: u64, outs: &mut Outputs) -> Result<(), AllocError>
        requires { self.old.opened ≡ false }
        ensures makes { OnOk result ((o : Outer) (clock : ℕ) → let s = led self.old o in
            Makes (place_led self.old o) clock (open_moves s lb) [] s
            (led self.new o) outs.old outs.new) }
        ensures peers { OnOk result (self.new.peers ≡ self.old.peers) }
        ensures records { OnOk result (records_sent outs.new ≡ records_sent outs.old) }
        ensures cached { OnOk result (self.new.cached ≡ self.old.cached) }
        ensures log { OnOk result (self.new.log
            ≡ committed_to self.old.log self.new.log.cp) }
        ensures tree { OnOk result (KeepsTree self.old.log self.new.log) }
    {
        self.enter_all(alloc, outs)?;
        outs.open(self.view);
        self.become_open(lb);
        self.announce(outs)
    }

    /// All records above CP are entered.
    fn enter_all(&self, alloc: Global, outs: &mut Outputs) -> Result<(), AllocError>
        ensures said { OnOk result (said outs.new ≡ record (said outs.old) {
          committed = (said outs.old).committed ++ above self.now.log.cp self.now;
        }) }
        ensures records { records_sent outs.new ≡ records_sent outs.old }
    {
        for n in self.log.cp()..self.log.top() {
            let entry = entry_copy(alloc, record_after(self.log.log(), n))?;
            outs.commit(entry)?;
        }
        Ok(())
    }

    /// All that the log has is committed, and the view is open.
    fn become_open(&mut self, lb: u64)
        requires { self.old.opened ≡ false }
        ensures { self.new ≡ opened self.old lb }
    {
        let top = self.log.top();
        self.log.commit_to(top);
        self.formed = None;
        self.opened = true;
        self.told_top = self.start;
        self.told_lb = lb;
        self.grant = Grant::none();
    }

    /// The witness that isn't needed and the partner hear that the view is open.
    fn announce(&self, outs: &mut Outputs) -> Result<(), AllocError>
        ensures said { OnOk result (said outs.new ≡ record (said outs.old) {
          sends = (said outs.old).sends ++ announced self.now;
        }) }
        ensures records { OnOk result (records_sent outs.new ≡ records_sent outs.old) }
    {
        let view = self.view;
        match self.beside {
            Beside::DataServer => outs.send(ServerId::Two, Message::Demote { view })?,
            Beside::Witness => {}
        }
        outs.send(self.beside.partner(), self.beat())
    }
}
