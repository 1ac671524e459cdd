//! Suspicion, invitations and joins.

ghost use Rattle.node.specs.Stock.{Stocks, stock};
ghost use Rattle.std.specs.Prelude.{◌≡◌, [], List, None, Some, false, nat_lt, true, ℕ, OnErr, OnOk};
ghost use Rattle.file_tree.specs.Book.{Entry};
ghost use Rattle.group_rules.specs.Effects.{joined_server, report_of};
ghost use Rattle.group_rules.specs.Joining.{suspect};
ghost use Rattle.group_rules.specs.Names.{number_of_view};
ghost use Rattle.harp_store.specs.Disk.{MayHaveMade, after_step, with_mark};
ghost use Rattle.node.specs.Disk.{MayLeave, disk_after, marked_by, promising};
ghost use Rattle.node.specs.Node.{server};
ghost use Rattle.node.specs.Outcomes.{FailsOnce, StaysUp, StaysUpBare};
ghost use Rattle.node.specs.State.{CollectsStill, duty_of};
ghost use Rattle.node_outputs.specs.Makes.{Makes};
ghost use Rattle.group_rules.specs.State.{Log};
ghost use Rattle.view_form.specs.Choice.{report};
ghost use Rattle.volatile_log.specs.Log.{top};

use crate::fault::NodeFault;
use crate::node::Node;
use crate::places::{next_view, others};
use crate::state::{Joining, State, Task};
use harp_store::{Mark, Store};
use harp_types::{Held, ServerId, Trio, ViewNo};
use node_outputs::Outputs;
use promise::Deadline;
use std::alloc::Global;
use std::mem;
use view_form::{Collector, JoinInfo};
use volatile_log::ActiveLog;
use wire::Message;

impl Node {
    /// What the server tells of itself when it joins a view.
    pub(crate) fn report(&self) -> JoinInfo
        requires { self.now.halted ≡ false }
        ensures { report result ≡ report_of self.now.plain }
    {
        let accepted = self.mark.accepted();
        let horizon = self.horizon.until();
        match &self.state {
            State::Gone => unreachable!(),
            State::Rests(kept) => kept.report(accepted, horizon),
            State::Joined(kept, _) => kept.report(accepted, horizon),
            State::Pulls(kept, _, _, _) => kept.report(accepted, horizon),
            State::Leads(leader, _) => held_report(leader.log(), accepted, horizon),
            State::Follows(partner, _) => held_report(partner.log(), accepted, horizon),
        }
    }

    /// The server joins a view above its promised one, with this part as its coordinator. An error
    /// leaves the mark on the disk as it was, or with the view promised.
    pub(crate) fn join<D: Store>(
        &mut self,
        alloc: Global,
        view: ViewNo,
        duty: Task,
        store: &mut D,
    ) -> Result<(), NodeFault>
        requires up { self.old.halted ≡ false }
        requires above { nat_lt self.old.plain.promised (number_of_view view) ≡ true }
        requires duty { CollectsStill duty }
        ensures state { OnOk result ((items : List Entry) → server self.new items
            ≡ joined_server (server self.old items) (number_of_view view) (duty_of duty)) }
        ensures stock { OnOk result (stock self.new
            ≡ record (stock self.old) { pulled = []; waits = [] }) }
        ensures stays { StaysUpBare result self.old self.new }
        ensures mark { OnOk result (self.new.mark ≡ promising self.old.mark view) }
        ensures written { OnOk result (D.told store.new
            ≡ after_step (with_mark (promising self.old.mark view)) (D.told store.old)) }
        ensures part { OnErr result (MayHaveMade (with_mark (promising self.old.mark view))
            (D.told store.old) (D.told store.new)) }
        ensures faults { FailsOnce result (D.faults store.old) (D.faults store.new) }
    {
        let joins = first_joining(self.report());
        let mark = promised_mark(self.mark, view);
        store.write_mark(alloc, &mark)?;
        self.mark = mark;
        self.duty = duty;
        // What a server keeps that has joined before stays where it is.
        if let State::Joined(_, joining) = &mut self.state {
            *joining = joins;
            return Ok(());
        }
        let kept = mem::replace(&mut self.state, State::Gone).into_kept();
        self.state = State::Joined(kept, joins);
        Ok(())
    }

    /// Suspicion: the server promises the next view of its own, has its own join, and invites the
    /// other two. At the last count nothing happens.
    pub(crate) fn suspicion<D: Store>(
        &mut self,
        alloc: Global,
        store: &mut D,
        outs: &mut Outputs,
    ) -> Result<(), NodeFault>
        requires { self.old.halted ≡ false }
        ensures makes { OnOk result ((items : List Entry) (clock : ℕ)
            → let s = server self.old items in
            Makes self.old.me clock (suspect self.old.me s) [] s (server self.new items)
            outs.old outs.new) }
        ensures stock { OnOk result ((items : List Entry) → let s = server self.old items in
            Stocks [] self.old.me s
            (suspect self.old.me s)
            (stock self.old) (stock self.new)) }
        ensures mark { OnOk result (self.new.mark ≡ marked_by self.old.mark
            (suspect self.old.me self.old.plain)) }
        ensures stays { StaysUp result self.old self.new }
        ensures written { OnOk result (D.told store.new
            ≡ disk_after (suspect self.old.me self.old.plain) self.new.mark (D.told store.old)) }
        ensures part { OnErr result (let ms = suspect self.old.me self.old.plain in
            MayLeave ms (marked_by self.old.mark ms) (D.told store.old) (D.told store.new)) }
        ensures faults { FailsOnce result (D.faults store.old) (D.faults store.new) }
    {
        let Some(view) = next_view(self.mark.promised(), self.me) else {
            return Ok(());
        };
        let own = Collector::new(view, self.report());
        self.join(alloc, view, Task::Collects(own), store)?;
        let (first, second) = others(self.me);
        outs.send(first, Message::Invite { view })?;
        outs.send(second, Message::Invite { view })?;
        Ok(())
    }
}

/// The mark with this view promised, which is above the promised one.
fn promised_mark(mark: Mark, view: ViewNo) -> Mark
    requires { nat_lt (number_of_view mark.promised) (number_of_view view) ≡ true }
    ensures { result ≡ promising mark view }
{
    let _ = mark.promised();
    mark.with_promised(view)
}

/// What a server that has just joined told; it heard no Formed.
fn first_joining(told: JoinInfo) -> Joining
    ensures { result ≡ record {
      told = told;
      formed = record { zero = None; one = None; two = None };
    } }
{
    let formed = Trio {
        zero: None,
        one: None,
        two: None,
    };
    Joining { told, formed }
}

/// What a server with an active log tells.
fn held_report(log: &ActiveLog, accepted: ViewNo, horizon: Deadline) -> JoinInfo
    ensures { report result ≡ record {
      held = Log;
      accepted = number_of_view accepted;
      base = log.now.base;
      lb = log.now.lb;
      cp = log.now.cp;
      top = top log.now;
      horizon = horizon;
    } }
{
    JoinInfo {
        held: Held::Held,
        accepted,
        base: log.base(),
        lb: log.lb(),
        cp: log.cp(),
        top: log.top(),
        horizon,
    }
}
