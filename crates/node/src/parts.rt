//! What the tests of messages read of a server.

ghost use Rattle.std.specs.Prelude.{◌≡◌, IfSome, false, is_some};
ghost use Rattle.group_rules.specs.Joining.{joined_tests};
ghost use Rattle.group_rules.specs.Limits.{is_joins, is_log};
ghost use Rattle.group_rules.specs.Names.{number_of_view};
ghost use Rattle.group_rules.specs.Places.{all_of};
ghost use Rattle.group_rules.specs.Replicate.{is_in_view};
ghost use Rattle.group_rules.specs.State.{top};
ghost use Rattle.idle_log.specs.Kept.{held_in, plan_of};
ghost use Rattle.node.specs.Misfits.{pulls_view};

use crate::node::Node;
use crate::state::State;
use harp_types::ViewNo;
use idle_log::{Form, Kept};
use view_form::is_view;

impl Node {
    /// Whether the server holds a log.
    pub(crate) fn has_log(&self) -> bool
        requires { self.now.halted ≡ false }
        ensures { result ≡ is_log self.now.plain.held }
    {
        match &self.state {
            State::Gone => unreachable!(),
            State::Rests(kept) => is_held(kept),
            State::Joined(kept, _) => is_held(kept),
            State::Pulls(kept, _, _, _) => is_held(kept),
            State::Leads(_, _) => true,
            State::Follows(_, _) => true,
        }
    }

    /// The index of the last record: LB of a lost log, and 0 of none at all.
    pub(crate) fn top(&self) -> u64
        requires { self.now.halted ≡ false }
        ensures { result ≡ top self.now.plain }
    {
        match &self.state {
            State::Gone => unreachable!(),
            State::Rests(kept) => kept.top(),
            State::Joined(kept, _) => kept.top(),
            State::Pulls(kept, _, _, _) => kept.top(),
            State::Leads(leader, _) => leader.log().top(),
            State::Follows(partner, _) => partner.log().top(),
        }
    }

    /// Whether the server joined its promised view, and neither pulls for it nor accepted it.
    pub(crate) fn is_joined(&self) -> bool
        ensures { result ≡ is_joins self.now.plain.mode }
    {
        match &self.state {
            State::Joined(_, _) => true,
            State::Gone => false,
            State::Rests(_) => false,
            State::Pulls(_, _, _, _) => false,
            State::Leads(_, _) => false,
            State::Follows(_, _) => false,
        }
    }

    /// Whether the server pulls the records of this view.
    #[tactic(auto, unfolding(group_rules::specs::Places::all_of))]
    pub(crate) fn pulls_for(&self, view: ViewNo) -> bool
        ensures { result ≡ pulls_view self.now.plain (number_of_view view) }
    {
        if !is_view(view, self.mark.promised()) {
            return false;
        }
        match &self.state {
            State::Pulls(_, _, _, _) => true,
            State::Gone => false,
            State::Rests(_) => false,
            State::Joined(_, _) => false,
            State::Leads(_, _) => false,
            State::Follows(_, _) => false,
        }
    }

    /// Whether the server joined this view in this boot, and hasn't accepted it.
    #[tactic(auto, unfolding(group_rules::specs::Places::all_of))]
    pub(crate) fn joins(&self, view: ViewNo) -> bool
        requires { self.now.halted ≡ false }
        ensures { result ≡ all_of (joined_tests self.now.plain (number_of_view view)) }
    {
        if !is_view(view, self.mark.promised()) {
            return false;
        }
        match &self.state {
            State::Gone => unreachable!(),
            State::Rests(_) => false,
            State::Joined(_, _) => true,
            State::Pulls(_, _, _, _) => true,
            State::Leads(_, _) => false,
            State::Follows(_, _) => false,
        }
    }

    /// The plan of this view, where the server is active in it.
    #[tactic(auto, unfolding(group_rules::specs::Places::all_of))]
    pub(crate) fn plan_in(&self, view: ViewNo) -> Option<&Form>
        requires { self.now.halted ≡ false }
        ensures found { is_some result ≡ is_in_view self.now.plain (number_of_view view) }
        ensures plan { IfSome result (λ plan. plan_of plan.now ≡ self.now.plain.plan) }
    {
        if !is_view(view, self.mark.accepted()) {
            return None;
        }
        match &self.state {
            State::Gone => unreachable!(),
            State::Rests(_) => None,
            State::Joined(_, _) => None,
            State::Pulls(_, _, _, _) => None,
            State::Leads(_, plan) => Some(plan),
            State::Follows(_, plan) => Some(plan),
        }
    }
}

/// Whether a log is kept.
fn is_held(kept: &Kept) -> bool
    ensures { result ≡ is_log (held_in kept.now) }
{
    match kept {
        Kept::Held(_) => true,
        Kept::Lost(_) => false,
        Kept::Empty(_) => false,
    }
}
