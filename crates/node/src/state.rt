//! What a server is doing, and its part as a coordinator.

ghost use Rattle.std.specs.Prelude.{◌≡◌, [], false, true};
ghost use Rattle.group_rules.specs.Limits.{is_joins, is_pulls};
ghost use Rattle.group_rules.specs.Places.{Place, is_p2};
ghost use Rattle.harp_store.specs.Mark.{MarkFields};
ghost use Rattle.idle_log.specs.Kept.{ap_in as kept_ap, base_in as kept_base, cp_in as kept_cp, held_in as kept_held, items_in as kept_items, log_in};
ghost use Rattle.node.specs.Active.{is_followed, is_led};
ghost use Rattle.node.specs.Demoting.{GoesOn};
ghost use Rattle.node.specs.State.{Fits, IsKept, ap_in, base_in, cached_in, cp_in, held_in, is_gone, items_in, mode_in, pulled_in, records_in};
ghost use Rattle.node.specs.Stock.{stock_in};
ghost use Rattle.node.specs.declared.state.State.TheVariants.{Gone, Joined, Pulls};

use crate::pull::Pull;
use harp_types::{Trio, ViewNo};
use idle_log::{Form, Kept};
use replica::{Leader, Partner};
use view_form::{Collector, JoinInfo};
use volatile_log::Staged;

/// A coordinator's part.
#[derive(Drop)]
pub(crate) enum Task {
    /// None.
    Free,
    /// It collects the joins of its promised view.
    Collects(Collector),
    /// It chose this plan of a view, and sends it until the view is settled.
    Chose(ViewNo, Form),
}

/// What a server that joined its promised view in this boot told, and the LB of the last Formed of
/// each server.
#[derive(Clone, Copy)]
pub(crate) struct Joining {
    pub(crate) told: JoinInfo,
    pub(crate) formed: Trio<Option<u64>>,
}

/// What a server is doing. Its drop is written out, so that each assignment to a server's state is
/// a call, and isn't proved of all that each variant holds.
pub(crate) enum State {
    /// Nothing any more: a call failed, or one is under way.
    Gone,
    /// It takes part in no view since its boot or its demotion.
    Rests(Kept),
    /// It joined its promised view.
    Joined(Kept, Joining),
    /// It fetches the records that its promised view starts with.
    Pulls(Kept, Joining, Form, Staged),
    /// It accepted its promised view, and leads it.
    Leads(Leader, Form),
    /// It accepted its promised view, and follows its leader.
    Follows(Partner, Form),
}

impl Drop for State {
    fn drop(self) {
        match self {
            State::Gone => {}
            State::Rests(_) => {}
            State::Joined(_, _) => {}
            State::Pulls(_, _, _, _) => {}
            State::Leads(_, _) => {}
            State::Follows(_, _) => {}
        }
    }
}

impl State {
    /// A call failed: nothing is done any more. It stands alone, so that a step doesn't make room
    /// for this state.
    pub(crate) fn halt(&mut self)
        ensures { self.new ≡ Gone }
    {
        *self = State::Gone;
    }

    /// What the state keeps of the list of updates.
    pub(crate) fn into_kept(self) -> Kept
        requires { is_gone self ≡ false }
        ensures held { kept_held result ≡ held_in self }
        ensures base { kept_base result ≡ base_in self }
        ensures ap { kept_ap result ≡ ap_in self }
        ensures cp { kept_cp result ≡ cp_in self }
        ensures items { kept_items result ≡ items_in self }
        ensures records { (log_in result).records ≡ records_in self }
        ensures kept { (me : Place) (mark : MarkFields) → Fits me mark self
            → IsKept me mark result }
    {
        match self {
            State::Gone => unreachable!(),
            State::Rests(kept) => kept,
            State::Joined(kept, _) => kept,
            State::Pulls(kept, _, _, _) => kept,
            State::Leads(leader, _) => Kept::Held(leader.freeze()),
            State::Follows(partner, _) => Kept::Held(partner.freeze()),
        }
    }

    /// The same part in a view that isn't accepted, without a log.
    pub(crate) fn without_log(self) -> State
        requires up { is_gone self ≡ false }
        requires closed { (is_led self ≡ false) × (is_followed self ≡ false) }
        ensures up { is_gone result ≡ false }
        ensures drops { GoesOn self result }
        ensures cached { cached_in result ≡ [] }
        ensures stock { stock_in result
            ≡ record { log = []; pulled = pulled_in self; waits = [] } }
        ensures fits { (q : Place) (old new : MarkFields) → is_p2 q ≡ true → Fits q old self
            → Fits q new result }
    {
        match self {
            State::Gone => unreachable!(),
            State::Rests(kept) => State::Rests(kept.forget()),
            State::Joined(kept, joining) => State::Joined(kept.forget(), joining),
            State::Pulls(kept, joining, plan, staged) => {
                State::Pulls(kept.forget(), joining, plan, staged)
            }
            State::Leads(_, _) => unreachable!(),
            State::Follows(_, _) => unreachable!(),
        }
    }

    /// Whether the server follows its leader, since it accepted its view in this boot.
    pub(crate) fn is_following(&self) -> bool
        ensures { result ≡ is_followed self.now }
    {
        match self {
            State::Follows(_, _) => true,
            State::Gone => false,
            State::Rests(_) => false,
            State::Joined(_, _) => false,
            State::Pulls(_, _, _, _) => false,
            State::Leads(_, _) => false,
        }
    }

    /// What a server that joined its promised view keeps, and what it told.
    pub(crate) fn into_joined(self) -> (Kept, Joining)
        requires { is_joins (mode_in self) ≡ true }
        ensures { self ≡ Joined result.0 result.1 }
    {
        match self {
            State::Joined(kept, joining) => (kept, joining),
            State::Gone => unreachable!(),
            State::Rests(_) => unreachable!(),
            State::Pulls(_, _, _, _) => unreachable!(),
            State::Leads(_, _) => unreachable!(),
            State::Follows(_, _) => unreachable!(),
        }
    }

    /// The part of a server that pulls.
    pub(crate) fn into_pull(self) -> Pull
        requires { is_pulls (mode_in self) ≡ true }
        ensures { self ≡ Pulls result.kept result.joining result.form result.staged }
    {
        match self {
            State::Pulls(kept, joining, form, staged) => Pull {
                kept,
                joining,
                form,
                staged,
            },
            State::Gone => unreachable!(),
            State::Rests(_) => unreachable!(),
            State::Joined(_, _) => unreachable!(),
            State::Leads(_, _) => unreachable!(),
            State::Follows(_, _) => unreachable!(),
        }
    }
}
