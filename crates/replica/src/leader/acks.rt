//! The leader's commits.

ghost use Rattle.std.specs.Prelude.{◌≡◌, ℕ, ◌+◌, ◌-◌, ◌<◌, ◌≤◌, ◌∷◌, length, drop, max, OnOk, false, true};
ghost use Rattle.group_rules.specs.Replicate.{on_ack};
ghost use Rattle.node_outputs.specs.Makes.{Makes};
ghost use Rattle.node_outputs.specs.Said.{said};
ghost use Rattle.replica.specs.Commits.{CommitsNext, IsUnderWay, noted};
ghost use Rattle.replica.specs.Leading.{Outer, led, place_led};
ghost use Rattle.replica.specs.Trees.{KeepsTree};
ghost use Rattle.volatile_log.specs.Log.{committed_to, top as top_of};

use crate::leader::Leader;
use crate::records::{entry_copy, record_after};
use harp_types::Peer;
use node_outputs::{Answered, Outputs};
use promise::Deadline;
use std::alloc::{AllocError, Global};
use std::collections::VecDeque;

impl Leader {
    /// Deals with an Ack of the view, whose top is at most the log's: an open leader keeps its
    /// numbers where they are greater, and commits each record up to its top and answers the peer
    /// that waits for it.
    pub fn ack(
        &mut self,
        alloc: Global,
        top: u64,
        lb: u64,
        until: Deadline,
        outs: &mut Outputs,
    ) -> Result<(), AllocError>
        requires { top ≤ top_of self.old.log }
        ensures makes { OnOk result ((o : Outer) (clock : ℕ) → let s = led self.old o in
            Makes (place_led self.old o) clock
            (on_ack s s.accepted top lb until) self.old.peers s (led self.new o)
            outs.old outs.new) }
        ensures peers { OnOk result (self.old.opened ≡ true → self.new.peers
            ≡ drop (top - self.old.log.cp) self.old.peers) }
        ensures still { OnOk result (self.old.opened ≡ false → self.new ≡ self.old) }
        // One peer waits for each record above CP, so each record that is committed is answered.
        ensures waiting { self.old.opened ≡ true → self.old.log.cp + length self.old.peers
            ≡ top_of self.old.log }
        ensures cached { OnOk result (self.new.cached ≡ self.old.cached) }
        ensures log { OnOk result (self.new.log
            ≡ committed_to self.old.log self.new.log.cp) }
        ensures tree { OnOk result (KeepsTree self.old.log self.new.log) }
    {
        // The contract speaks of the whole leader, so its model is opened here.
        let _ = &self.log;
        if !self.opened {
            return Ok(());
        }
        self.note(top, lb, until);
        self.commit_to(alloc, top, outs)?;
        Ok(())
    }

    /// Keeps what an Ack told.
    fn note(&mut self, top: u64, lb: u64, until: Deadline)
        requires { top ≤ top_of self.old.log }
        ensures { self.new ≡ noted top lb until self.old }
    {
        let _ = self.log.top();
        self.told_top = self.told_top.max(top);
        self.told_lb = self.told_lb.max(lb);
        self.grant.take(until);
    }

    /// Commits the records up to top, one after the other.
    fn commit_to(&mut self, alloc: Global, top: u64, outs: &mut Outputs) -> Result<(), AllocError>
        requires top { top ≤ top_of self.old.log }
        requires opened { self.old.opened ≡ true }
        ensures all { OnOk result (IsUnderWay top self.old self.new (said outs.old)
            (said outs.new)) }
        ensures cp { OnOk result (self.new.log.cp ≡ max self.old.log.cp top) }
    {
        for _ in self.log.cp()..top {
            self.commit_next(alloc, outs)?;
        }
        Ok(())
    }

    /// The next record is committed, and answered to the peer that waits for it.
    fn commit_next(&mut self, alloc: Global, outs: &mut Outputs) -> Result<(), AllocError>
        requires more { self.old.log.cp < top_of self.old.log }
        requires opened { self.old.opened ≡ true }
        ensures { OnOk result (CommitsNext self.old self.new (said outs.old) (said outs.new)) }
    {
        let cp = self.log.cp();
        let item = record_after(self.log.log(), cp);
        let fields = item.fields();
        let answer = Answered {
            peer: first_of(&self.waiting),
            client: fields.client,
            number: fields.number,
            index: cp + 1,
            reply: fields.reply.copy(alloc)?,
            asked: None,
        };
        outs.commit(entry_copy(alloc, item)?)?;
        outs.answer(answer)?;
        self.waiting.pop_front();
        self.log.commit_to(cp + 1);
        Ok(())
    }
}

/// The first of those who wait.
fn first_of(waiting: &VecDeque<Peer>) -> Peer
    requires { 0 < length waiting.now.items }
    ensures { waiting.now.items ≡ result ∷ drop 1 waiting.now.items }
{
    match waiting.front() {
        Some(peer) => *peer,
        None => unreachable!(),
    }
}
