//! Messages that no server sends which keeps the rules, of views that are being formed.

ghost use Rattle.std.specs.Prelude.{◌≡◌, ◌+◌, ◌==◌, ◌∷◌, [], false, if◌then◌else◌, length, map, nat_le, true};
ghost use Rattle.event_record.specs.Record.{entry_of};
ghost use Rattle.group_rules.specs.Form.{fits};
ghost use Rattle.group_rules.specs.Limits.{is_joins, is_pulls};
ghost use Rattle.group_rules.specs.Misfits.{follow, given_tests, misfits};
ghost use Rattle.group_rules.specs.Names.{number_of_view, place_of};
ghost use Rattle.group_rules.specs.Places.{all_of};
ghost use Rattle.group_rules.specs.State.{Demote, Fetch, Form as SendsForm, Give, Invite, Join};
ghost use Rattle.idle_log.specs.Kept.{plan_of};
ghost use Rattle.node.specs.Misfits.{pulls_view};
ghost use Rattle.view_form.specs.Choice.{report};

use crate::node::Node;
use crate::state::State;
use harp_types::{ServerId, ViewNo};
use idle_log::{Form, follow, is_within};
use view_form::{JoinInfo, is_one, is_view};
use wire::Records;

impl Node {
    /// Whether this server sent the message, or another than the view's coordinator.
    #[tactic(auto, unfolding(group_rules::specs::Places::all_of))]
    pub(crate) fn misfits_invite(&self, from: ServerId, view: ViewNo) -> bool
        ensures { result ≡ misfits self.now.me self.now.plain (place_of from)
            (Invite (number_of_view view)) }
    {
        is_one(from, self.me) || !is_one(from, view.coordinator())
    }

    /// Whether this server sent the Join, or its numbers don't stand in their order.
    #[tactic(auto, unfolding(group_rules::specs::Places::all_of))]
    pub(crate) fn misfits_join(&self, from: ServerId, view: ViewNo, info: &JoinInfo) -> bool
        ensures { result ≡ misfits self.now.me self.now.plain (place_of from)
            (Join (number_of_view view) (report info.now)) }
    {
        is_one(from, self.me) || info.base > info.lb || info.lb > info.cp || info.cp > info.top
    }

    /// Whether this server sent the Form, or another than the view's coordinator, or the server
    /// can't take the part that it is given, where it is about to.
    #[tactic(auto, unfolding(group_rules::specs::Places::all_of))]
    pub(crate) fn misfits_form(&self, from: ServerId, view: ViewNo, plan: &Form) -> bool
        requires { self.now.halted ≡ false }
        ensures { result ≡ misfits self.now.me self.now.plain (place_of from)
            (SendsForm (number_of_view view) (plan_of plan.now)) }
    {
        if is_one(from, self.me) {
            return true;
        }
        if !is_one(from, view.coordinator()) {
            return true;
        }
        !self.takes(view, plan)
    }

    /// Whether the server can take the part that a Form gives it, where it is about to.
    #[tactic(auto, unfolding(group_rules::specs::Places::all_of))]
    fn takes(&self, view: ViewNo, plan: &Form) -> bool
        requires { self.now.halted ≡ false }
        ensures { result ≡ (if all_of ((number_of_view view == self.now.plain.promised)
            ∷ is_joins self.now.plain.mode ∷ []) then fits self.now.me self.now.plain
            (plan_of plan.now) else true) }
    {
        if !is_view(view, self.mark.promised()) {
            return true;
        }
        match &self.state {
            State::Gone => unreachable!(),
            State::Rests(_) => true,
            State::Joined(kept, _) => kept.fits(self.me, self.mark.lb(), plan),
            State::Pulls(_, _, _, _) => true,
            State::Leads(_, _) => true,
            State::Follows(_, _) => true,
        }
    }

    /// Whether this server sent the Fetch.
    #[tactic(auto, unfolding(group_rules::specs::Places::all_of))]
    pub(crate) fn misfits_fetch(&self, from: ServerId, view: ViewNo, first: u64) -> bool
        ensures { result ≡ misfits self.now.me self.now.plain (place_of from)
            (Fetch (number_of_view view) first) }
    {
        is_one(from, self.me)
    }

    /// Whether this server sent the Give, or its records don't follow each other, or they aren't
    /// those that the server pulls.
    #[tactic(auto, unfolding(group_rules::specs::Places::all_of))]
    pub(crate) fn misfits_give(
        &self,
        from: ServerId,
        view: ViewNo,
        first: u64,
        records: &Records,
    ) -> bool
        requires { self.now.halted ≡ false }
        ensures test { result ≡ misfits self.now.me self.now.plain (place_of from)
            (Give (number_of_view view) first (map entry_of records.now)) }
        ensures follow { result ≡ false → follow first (map entry_of records.now) ≡ true }
        ensures within { result ≡ false → pulls_view self.now.plain (number_of_view view) ≡ true
            → nat_le (first + length (map entry_of records.now)) (self.now.plain.plan.start + 1)
            ≡ true }
    {
        is_one(from, self.me)
            || !follow(first, records.as_slice())
            || !self.pulls(from, view, first, records)
    }

    /// Whether records are of the source, and within the view's start, where the server pulls them.
    #[tactic(auto, unfolding(group_rules::specs::Places::all_of))]
    fn pulls(&self, from: ServerId, view: ViewNo, first: u64, records: &Records) -> bool
        requires { self.now.halted ≡ false }
        ensures { result ≡ (if pulls_view self.now.plain (number_of_view view)
            then all_of (given_tests self.now.plain (place_of from) first
            (map entry_of records.now)) else true) }
    {
        if !is_view(view, self.mark.promised()) {
            return true;
        }
        match &self.state {
            State::Gone => unreachable!(),
            State::Rests(_) => true,
            State::Joined(_, _) => true,
            State::Pulls(_, _, plan, _) => {
                is_one(from, plan.source) && is_within(plan, first, records)
            }
            State::Leads(_, _) => true,
            State::Follows(_, _) => true,
        }
    }

    /// Whether this server sent the Demote.
    #[tactic(auto, unfolding(group_rules::specs::Places::all_of))]
    pub(crate) fn misfits_demote(&self, from: ServerId, view: ViewNo) -> bool
        ensures { result ≡ misfits self.now.me self.now.plain (place_of from)
            (Demote (number_of_view view)) }
    {
        is_one(from, self.me)
    }
}
