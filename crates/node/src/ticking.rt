//! What a server does from time to time. After an error it is halted.

ghost use Rattle.idle_log.specs.Gives.{StandIn};
ghost use Rattle.node_outputs.specs.Records.{records_sent};
ghost use Rattle.node.specs.Stock.{stock};
ghost use Rattle.std.specs.Prelude.{◌≡◌, ◌++◌, ◌∷◌, [], List, ℕ, OnOk, Some, false, map, option_map, if◌then◌else◌};
ghost use Rattle.file_tree.specs.Book.{Entry};
ghost use Rattle.group_rules.specs.Joining.{to_each};
ghost use Rattle.group_rules.specs.Limits.{is_open, is_settled};
ghost use Rattle.group_rules.specs.Names.{number_of_view, place_of};
ghost use Rattle.group_rules.specs.Open.{try_open};
ghost use Rattle.group_rules.specs.Places.{all_of, get, other_storers, same};
ghost use Rattle.group_rules.specs.Said.{sends_said};
ghost use Rattle.group_rules.specs.State.{Form as SendsForm};
ghost use Rattle.group_rules.specs.Tick.{again, beats, duties, duty_tests, heard_some, invite_again, tick};
ghost use Rattle.idle_log.specs.Kept.{plan_of};
ghost use Rattle.node.specs.Node.{server};
ghost use Rattle.node_outputs.specs.Makes.{Makes};
ghost use Rattle.node_outputs.specs.Messages.{as_heard};
ghost use Rattle.node_outputs.specs.Said.{said};
ghost use Rattle.view_form.specs.Choice.{report};

use crate::node::Node;
use crate::state::{State, Task};
use harp_types::{ServerId, ViewNo};
use idle_log::Form;
use node_outputs::Outputs;
use std::alloc::{AllocError, Global};
use view_form::{JoinInfo, is_one, is_view};
use wire::Message;

impl Node {
    /// A tick. A leader that waits tries to open its view, and an open one sends its partner a Beat
    /// and the records that it didn't acknowledge. Then a coordinator sends again what isn't
    /// answered yet, and so do a server that pulls and a partner that isn't settled.
    pub(crate) fn tick(
        &mut self,
        alloc: Global,
        now: u64,
        outs: &mut Outputs,
    ) -> Result<(), AllocError>
        requires { self.old.halted ≡ false }
        ensures makes { OnOk result ((items : List Entry) → let s = server self.old items in
            Makes self.old.me now (tick self.old.me now s) [] s (server self.new items)
            outs.old outs.new) }
        ensures me { self.new.me ≡ self.old.me }
        ensures stock { OnOk result (stock self.new ≡ stock self.old) }
        ensures sent { OnOk result (StandIn (records_sent outs.old ++ self.old.records)
            (records_sent outs.new)) }
        ensures cached { OnOk result (self.new.cached ≡ self.old.cached) }
        ensures mark { self.new.mark ≡ self.old.mark }
        ensures up { OnOk result (self.new.halted ≡ false) }
    {
        self.lead(alloc, now, outs)?;
        self.do_duty(outs)?;
        self.send_again(outs)
    }

    /// A leader's part of a tick.
    fn lead(&mut self, alloc: Global, now: u64, outs: &mut Outputs) -> Result<(), AllocError>
        requires { self.old.halted ≡ false }
        ensures makes { OnOk result ((items : List Entry) → let s = server self.old items in
            Makes self.old.me now (if is_open s.mode then beats s else try_open self.old.me now s)
            [] s (server self.new items) outs.old outs.new) }
        ensures me { self.new.me ≡ self.old.me }
        ensures stock { OnOk result (stock self.new ≡ stock self.old) }
        ensures sent { OnOk result (StandIn (records_sent outs.old ++ self.old.records)
            (records_sent outs.new)) }
        ensures cached { OnOk result (self.new.cached ≡ self.old.cached) }
        ensures mark { self.new.mark ≡ self.old.mark }
        ensures up { OnOk result (self.new.halted ≡ false) }
    {
        let State::Leads(leader, _) = &mut self.state else {
            return Ok(());
        };
        match leader.tick(alloc, now, outs) {
            Ok(()) => Ok(()),
            Err(fault) => {
                self.state.halt();
                Err(fault)
            }
        }
    }

    /// A coordinator without a choice invites those again that haven't joined; one with a choice
    /// sends its Forms again until the view is settled.
    fn do_duty(&self, outs: &mut Outputs) -> Result<(), AllocError>
        requires { self.now.halted ≡ false }
        ensures makes { OnOk result ((items : List Entry) (clock : ℕ)
            → let s = server self.now items in
            Makes self.now.me clock (duties self.now.me s s.duty) [] s s outs.old outs.new) }
        ensures records { OnOk result (records_sent outs.new ≡ records_sent outs.old) }
    {
        match &self.duty {
            Task::Free => Ok(()),
            Task::Collects(collector) => {
                let view = self.mark.promised();
                let joins = collector.joins();
                invite_again(view, ServerId::Zero, &joins.zero, outs)?;
                invite_again(view, ServerId::One, &joins.one, outs)?;
                invite_again(view, ServerId::Two, &joins.two, outs)
            }
            Task::Chose(view, plan) => {
                if !self.is_unsettled(*view, plan) {
                    return Ok(());
                }
                send_forms(self.me, *view, plan, outs)
            }
        }
    }

    /// Whether the view of a choice isn't settled as far as its coordinator knows.
    #[tactic(auto, unfolding(group_rules::specs::Places::all_of))]
    fn is_unsettled(&self, view: ViewNo, plan: &Form) -> bool
        requires { self.now.halted ≡ false }
        ensures { result ≡ all_of (duty_tests self.now.me self.now.plain (number_of_view view)
            (plan_of plan.now)) }
    {
        if !is_view(view, self.mark.promised()) || self.is_settled() {
            return false;
        }
        !(is_one(self.me, plan.storers.leader()) && self.has_heard(plan.storers.partner()))
    }

    /// Whether the server leads an open view, or follows the leader of one.
    pub(crate) fn is_settled(&self) -> bool
        requires { self.now.halted ≡ false }
        ensures { result ≡ is_settled self.now.plain.mode }
    {
        match &self.state {
            State::Gone => unreachable!(),
            State::Rests(_) => false,
            State::Joined(_, _) => false,
            State::Pulls(_, _, _, _) => false,
            State::Leads(leader, _) => leader.is_open(),
            State::Follows(partner, _) => partner.is_settled(),
        }
    }

    /// Whether the last Formed of a server is kept.
    fn has_heard(&self, from: ServerId) -> bool
        requires { self.now.halted ≡ false }
        ensures { result ≡ heard_some (get self.now.plain.heard (place_of from)) }
    {
        match &self.state {
            State::Gone => unreachable!(),
            State::Rests(_) => false,
            State::Joined(_, joining) => joining.formed.get(from).is_some(),
            State::Pulls(_, joining, _, _) => joining.formed.get(from).is_some(),
            State::Leads(leader, plan) => {
                leader.has_formed() && is_one(from, plan.storers.partner())
            }
            State::Follows(_, _) => false,
        }
    }

    /// A server that pulls sends its Fetch again, and a partner that isn't settled its Formed.
    fn send_again(&self, outs: &mut Outputs) -> Result<(), AllocError>
        requires { self.now.halted ≡ false }
        ensures makes { OnOk result ((items : List Entry) (clock : ℕ)
            → let s = server self.now items in
            Makes self.now.me clock (again self.now.me s) [] s s outs.old outs.new) }
        ensures records { OnOk result (records_sent outs.new ≡ records_sent outs.old) }
    {
        match &self.state {
            State::Gone => unreachable!(),
            State::Rests(_) => Ok(()),
            State::Joined(_, _) => Ok(()),
            State::Pulls(_, _, plan, staged) => outs.send(
                plan.source,
                Message::Fetch {
                    view: self.mark.promised(),
                    first: staged.next(),
                },
            ),
            State::Leads(_, _) => Ok(()),
            State::Follows(partner, _) => partner.tick(outs),
        }
    }
}

/// Invites a server again that hasn't joined.
fn invite_again(
    view: ViewNo,
    to: ServerId,
    joined: &Option<JoinInfo>,
    outs: &mut Outputs,
) -> Result<(), AllocError>
    ensures said { OnOk result (said outs.new ≡ record (said outs.old) {
      sends = (said outs.old).sends ++ map as_heard (sends_said
          (invite_again (number_of_view view) (place_of to) (option_map report joined.now)));
    }) }
    ensures records { OnOk result (records_sent outs.new ≡ records_sent outs.old) }
{
    match joined {
        Some(_) => Ok(()),
        None => outs.send(to, Message::Invite { view }),
    }
}

/// Sends the Form of a choice to the storers of its view other than this server, the leader first.
fn send_forms(me: ServerId, view: ViewNo, plan: &Form, outs: &mut Outputs) -> Result<(), AllocError>
    ensures said { OnOk result (said outs.new ≡ record (said outs.old) {
      sends = (said outs.old).sends ++ map as_heard (sends_said (to_each
          (SendsForm (number_of_view view) (plan_of plan.now))
          (other_storers (place_of me) (plan_of plan.now).storers)));
    }) }
    ensures records { OnOk result (records_sent outs.new ≡ records_sent outs.old) }
{
    send_form(me, plan.storers.leader(), view, plan, outs)?;
    send_form(me, plan.storers.partner(), view, plan, outs)
}

/// Sends the Form of a choice to a server other than this one.
fn send_form(
    me: ServerId,
    to: ServerId,
    view: ViewNo,
    plan: &Form,
    outs: &mut Outputs,
) -> Result<(), AllocError>
    ensures said { OnOk result (said outs.new ≡ record (said outs.old) {
      sends = (said outs.old).sends ++ (if same (place_of me) (place_of to) then []
          else (place_of to, Some (SendsForm (number_of_view view) (plan_of plan.now))) ∷ []);
    }) }
    ensures records { OnOk result (records_sent outs.new ≡ records_sent outs.old) }
{
    if is_one(me, to) {
        return Ok(());
    }
    outs.send(
        to,
        Message::Form {
            view,
            storers: plan.storers,
            source: plan.source,
            base: plan.base,
            cp: plan.cp,
            start: plan.start,
            horizon: plan.horizon,
        },
    )
}
