//! What a leader does from time to time.

ghost use Rattle.std.specs.Prelude.{◌≡◌, ℕ, ◌+◌, ◌-◌, ◌<◌, ◌≤◌, ◌++◌, [], take, drop, map, max, OnOk, Some, true, if◌then◌else◌};
ghost use Rattle.group_rules.specs.Limits.{is_open};
ghost use Rattle.group_rules.specs.Open.{try_open};
ghost use Rattle.group_rules.specs.Said.{sends_said};
ghost use Rattle.group_rules.specs.State.{Beat};
ghost use Rattle.group_rules.specs.Tick.{beats, events};
ghost use Rattle.node_outputs.specs.Makes.{Makes};
ghost use Rattle.node_outputs.specs.Messages.{as_heard, heard};
ghost use Rattle.node_outputs.specs.Records.{carried, records_sent};
ghost use Rattle.node_outputs.specs.Said.{said};
ghost use Rattle.replica.specs.Commits.{above};
ghost use Rattle.replica.specs.Leading.{Outer, led, partner_of, place_led};
ghost use Rattle.replica.specs.Resending.{records_after, sent_again};
ghost use Rattle.replica.specs.Trees.{KeepsTree};
ghost use Rattle.volatile_log.specs.Log.{committed_to, top};

use crate::leader::Leader;
use crate::records::{event_of, record_after};
use node_outputs::Outputs;
use std::alloc::{AllocError, Global};
use wire::Message;

/// How many records a tick sends again at most.
const SENT_AGAIN: u64 = 64;

impl Leader {
    /// A leader that waits tries to open its view. An open one sends a Beat to its partner, and
    /// then the records above the partner's told top, at most 64, each as an Event.
    pub fn tick(&mut self, alloc: Global, now: u64, outs: &mut Outputs) -> Result<(), AllocError>
        ensures makes { OnOk result ((o : Outer)
            → let s = led self.old o in let q = place_led self.old o in
            Makes q now (if is_open s.mode then beats s else try_open q now s) [] s
            (led self.new o) outs.old outs.new) }
        ensures records { OnOk result (records_sent outs.new ≡ records_sent outs.old
            ++ (if self.old.opened then sent_again self.old else [])) }
        ensures peers { OnOk result (self.new.peers ≡ self.old.peers) }
        ensures cached { OnOk result (self.new.cached ≡ self.old.cached) }
        ensures log { OnOk result (self.new.log
            ≡ committed_to self.old.log self.new.log.cp) }
        ensures tree { OnOk result (KeepsTree self.old.log self.new.log) }
    {
        if !self.opened {
            return self.try_open(alloc, now, outs);
        }
        self.beat_and_events(alloc, outs)
    }

    /// A Beat, and the Events of what the partner hasn't acknowledged.
    fn beat_and_events(&self, alloc: Global, outs: &mut Outputs) -> Result<(), AllocError>
        ensures makes { OnOk result ((o : Outer) (clock : ℕ) → let s = led self.now o in
            Makes (place_led self.now o) clock (beats s) [] s s outs.old outs.new) }
        ensures records { OnOk result (records_sent outs.new
            ≡ records_sent outs.old ++ sent_again self.now) }
    {
        outs.send(self.beside.partner(), self.beat())?;
        self.send_again(alloc, outs)
    }

    /// The Beat of this moment.
    pub(crate) fn beat(&self) -> Message
        ensures heard { heard result
            ≡ Some (Beat self.now.view self.now.log.cp self.now.log.base) }
        ensures record { carried result ≡ [] }
    {
        Message::Beat {
            view: self.view,
            cp: self.log.cp(),
            base: self.log.base(),
        }
    }

    /// Sends the records that the partner hasn't acknowledged, at most 64.
    fn send_again(&self, alloc: Global, outs: &mut Outputs) -> Result<(), AllocError>
        ensures said { OnOk result (let l = self.now in let n = max l.log.base l.told_top in
            said outs.new ≡ record (said outs.old) {
              sends = (said outs.old).sends ++ map as_heard (sends_said
                  (events (partner_of l.beside) l.view l.log.cp l.log.base n (take 64
                  (above n l))));
            }) }
        ensures records { OnOk result (records_sent outs.new
            ≡ records_sent outs.old ++ sent_again self.now) }
    {
        let first = self.log.base().max(self.told_top);
        let end = self.log.top().min(first + SENT_AGAIN);
        for n in first..end {
            self.send_record(alloc, n, outs)?;
        }
        Ok(())
    }

    /// Sends the record before which n stand, as an Event.
    fn send_record(&self, alloc: Global, n: u64, outs: &mut Outputs) -> Result<(), AllocError>
        requires from { self.now.log.base ≤ n }
        requires within { n < top self.now.log }
        ensures said { OnOk result (let l = self.now in said outs.new ≡ record (said outs.old) {
          sends = (said outs.old).sends ++ map as_heard (sends_said
              (events (partner_of l.beside) l.view l.log.cp l.log.base n (take 1 (above n l))));
        }) }
        ensures records { OnOk result (records_sent outs.new
            ≡ records_sent outs.old ++ take 1 (records_after n self.now)) }
    {
        let item = record_after(self.log.log(), n).copy(alloc)?;
        let cp = self.log.cp();
        let base = self.log.base();
        outs.send(self.beside.partner(), event_of(self.view, cp, base, item))
    }
}
