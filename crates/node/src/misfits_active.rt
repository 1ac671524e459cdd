//! Messages of a view that no server sends which keeps the rules.

ghost use Rattle.std.specs.Prelude.{◌≡◌, ◌+◌, ◌-◌, ◌<◌, ◌≤◌, ◌==◌, ◌++◌, ◌∷◌, ◌^◌, [], List, false, if◌then◌else◌, length, nat_le, true};
ghost use Rattle.event_record.specs.Record.{entry_of};
ghost use Rattle.file_tree.specs.Book.{Entry};
ghost use Rattle.group_rules.specs.Effects.{taken};
ghost use Rattle.group_rules.specs.Limits.{room};
ghost use Rattle.group_rules.specs.Misfits.{heard_tests, led_tests, misfits, room_tests, told_tests};
ghost use Rattle.group_rules.specs.Names.{number_of_view, place_of};
ghost use Rattle.group_rules.specs.Places.{all_of, leader, same};
ghost use Rattle.group_rules.specs.Replicate.{is_in_view};
ghost use Rattle.group_rules.specs.State.{Ack, Beat, Event, Formed, top as top_of};

use crate::node::Node;
use crate::state::State;
use event_record::Record;
use harp_types::{LOG_ROOM, ServerId, ViewNo};
use promise::Deadline;
use view_form::{is_one, is_view};

impl Node {
    /// Whether this server sent the Formed, or, where it is active in the view, another than its
    /// partner did, or the LB is above the view's start.
    #[tactic(auto, unfolding(group_rules::specs::Places::all_of))]
    pub(crate) fn misfits_formed(&self, from: ServerId, view: ViewNo, lb: u64) -> bool
        requires { self.now.halted ≡ false }
        ensures test { result ≡ misfits self.now.me self.now.plain (place_of from)
            (Formed (number_of_view view) lb) }
        ensures other { result ≡ false → same (place_of from) self.now.me ≡ false }
        ensures proper { result ≡ false → is_in_view self.now.plain (number_of_view view) ≡ true
            → all_of (heard_tests self.now.plain (place_of from) lb) ≡ true }
    {
        is_one(from, self.me) || !self.hears(from, view, lb)
    }

    /// Whether a Formed of a view is of the partner, with an LB within the view's start, where the
    /// server is active in the view.
    fn hears(&self, from: ServerId, view: ViewNo, lb: u64) -> bool
        requires { self.now.halted ≡ false }
        ensures { result ≡ (if is_in_view self.now.plain (number_of_view view)
            then all_of (heard_tests self.now.plain (place_of from) lb) else true) }
    {
        match self.plan_in(view) {
            None => true,
            Some(plan) => is_one(from, plan.storers.partner()) && lb <= plan.start,
        }
    }

    /// Whether this server sent the Event, or, where it is active in the view, another than its
    /// leader did, or the base isn't on its disk, or its log has no room for the record.
    #[tactic(auto, unfolding(group_rules::specs::Places::all_of))]
    pub(crate) fn misfits_event(
        &self,
        from: ServerId,
        view: ViewNo,
        cp: u64,
        base: u64,
        item: &Record,
    ) -> bool
        requires { self.now.halted ≡ false }
        ensures test { result ≡ misfits self.now.me self.now.plain (place_of from)
            (Event (number_of_view view) item.now.index cp base (entry_of item.now)) }
        ensures from { result ≡ false → is_in_view self.now.plain (number_of_view view) ≡ true
            → place_of from ≡ leader self.now.plain.plan.storers }
        ensures base { result ≡ false → is_in_view self.now.plain (number_of_view view) ≡ true
            → base ≤ self.now.plain.lb }
        ensures room { result ≡ false → is_in_view self.now.plain (number_of_view view) ≡ true
            → item.now.index ≡ top_of self.now.plain + 1
            → length self.now.plain.items < room + (base - self.now.plain.base) }
    {
        is_one(from, self.me)
            || !self.follows(from, view, base)
            || !self.has_room(view, base, item.index().get())
    }

    /// Whether this server sent the Beat, or, where it is active in the view, another than its
    /// leader did, or the base isn't on its disk.
    #[tactic(auto, unfolding(group_rules::specs::Places::all_of))]
    pub(crate) fn misfits_beat(&self, from: ServerId, view: ViewNo, cp: u64, base: u64) -> bool
        requires { self.now.halted ≡ false }
        ensures test { result ≡ misfits self.now.me self.now.plain (place_of from)
            (Beat (number_of_view view) cp base) }
        ensures from { result ≡ false → is_in_view self.now.plain (number_of_view view) ≡ true
            → place_of from ≡ leader self.now.plain.plan.storers }
        ensures base { result ≡ false → is_in_view self.now.plain (number_of_view view) ≡ true
            → base ≤ self.now.plain.lb }
    {
        is_one(from, self.me) || !self.follows(from, view, base)
    }

    /// Whether an Event or a Beat of a view is of the leader, with a base that is on the disk,
    /// where the server is active in the view.
    fn follows(&self, from: ServerId, view: ViewNo, base: u64) -> bool
        requires { self.now.halted ≡ false }
        ensures { result ≡ (if is_in_view self.now.plain (number_of_view view)
            then all_of (led_tests self.now.plain (place_of from) base) else true) }
    {
        match self.plan_in(view) {
            None => true,
            Some(plan) => is_one(from, plan.storers.leader()) && base <= self.mark.lb(),
        }
    }

    /// Whether there is room for a record of this index once the records up to the base are
    /// dropped, where the server is active in the view.
    fn has_room(&self, view: ViewNo, base: u64, index: u64) -> bool
        requires { self.now.halted ≡ false }
        ensures { (e : Entry) → result ≡ (if is_in_view self.now.plain (number_of_view view)
            then all_of (room_tests self.now.plain base (taken self.now.plain index e))
            else true) }
    {
        if !is_view(view, self.mark.accepted()) {
            return true;
        }
        match &self.state {
            State::Gone => unreachable!(),
            State::Rests(_) => true,
            State::Joined(_, _) => true,
            State::Pulls(_, _, _, _) => true,
            State::Leads(leader, _) => {
                let log = leader.log();
                has_room(log.base(), log.top(), base, index)
            }
            State::Follows(partner, _) => {
                let log = partner.log();
                has_room(log.base(), log.top(), base, index)
            }
        }
    }

    /// Whether this server sent the Ack, or, where it is active in the view, another than its
    /// partner did, or with numbers that the partner can't have.
    #[tactic(auto, unfolding(group_rules::specs::Places::all_of))]
    pub(crate) fn misfits_ack(
        &self,
        from: ServerId,
        view: ViewNo,
        top: u64,
        lb: u64,
        until: Deadline,
    ) -> bool
        requires { self.now.halted ≡ false }
        ensures test { result ≡ misfits self.now.me self.now.plain (place_of from)
            (Ack (number_of_view view) top lb until) }
        ensures top { result ≡ false → is_in_view self.now.plain (number_of_view view) ≡ true
            → top ≤ top_of self.now.plain }
    {
        is_one(from, self.me) || !self.acknowledges(from, view, top, lb)
    }

    /// Whether an Ack of a view is of the partner, with numbers that it can have, where the server
    /// is active in the view.
    fn acknowledges(&self, from: ServerId, view: ViewNo, top: u64, lb: u64) -> bool
        requires { self.now.halted ≡ false }
        ensures { result ≡ (if is_in_view self.now.plain (number_of_view view)
            then all_of (told_tests self.now.plain (place_of from) top lb) else true) }
    {
        let Some(plan) = self.plan_in(view) else {
            return true;
        };
        if !is_one(from, plan.storers.partner()) {
            return false;
        }
        if top > self.top() {
            return false;
        }
        lb <= top
    }
}

/// Whether a log with this base and top has room for a record of this index once the records up to
/// another base are dropped.
fn has_room(own: u64, top: u64, base: u64, index: u64) -> bool
    requires order { own ≤ top }
    requires limit { top < 2 ^ 62 }
    ensures { (items : List Entry) (e : Entry) → own + length items ≡ top
        → result ≡ nat_le (length (if index == top + 1 then items ++ e ∷ [] else items)
        - (base - own)) room }
{
    let dropped = base.saturating_sub(own);
    if index == top + 1 {
        (top - own + 1).saturating_sub(dropped) <= LOG_ROOM as u64
    } else {
        (top - own).saturating_sub(dropped) <= LOG_ROOM as u64
    }
}
