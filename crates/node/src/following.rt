//! What a partner heeds of its view. After an error the server is halted.

ghost use Rattle.node.specs.Stock.{Stocks, stock};
ghost use Rattle.std.specs.Prelude.{◌≡◌, ◌+◌, ◌-◌, ◌<◌, ◌≤◌, ◌^◌, [], List, OnOk, false, length, true, ◌∷◌};
ghost use Rattle.event_record.specs.Record.{entry_of};
ghost use Rattle.file_tree.specs.Book.{Entry};
ghost use Rattle.group_rules.specs.Effects.{taken};
ghost use Rattle.group_rules.specs.Limits.{room};
ghost use Rattle.group_rules.specs.Names.{number_of_view};
ghost use Rattle.group_rules.specs.Places.{Place, leader};
ghost use Rattle.group_rules.specs.Replicate.{is_in_view, on_event};
ghost use Rattle.group_rules.specs.State.{top as top_of};
ghost use Rattle.node.specs.Node.{server};
ghost use Rattle.node_outputs.specs.Makes.{Makes};

use crate::node::Node;
use crate::state::State;
use event_record::Record;
use harp_types::ViewNo;
use node_outputs::Outputs;
use std::alloc::AllocError;
use view_form::heeds_leader;

impl Node {
    /// Deals with an Event of a view. Where the server is active there, the base is at most its LB,
    /// and its log has room for the record where that is the next one. The view's partner takes the
    /// record where it is the next one, drops to the base, raises its CP, and acknowledges to its
    /// leader with a promise from this reading of the clock on.
    pub(crate) fn heed_event(
        &mut self,
        view: ViewNo,
        cp: u64,
        base: u64,
        item: Record,
        now: u64,
        outs: &mut Outputs,
    ) -> Result<(), AllocError>
        requires up { self.old.halted ≡ false }
        requires base { is_in_view self.old.plain (number_of_view view) ≡ true
            → base ≤ self.old.plain.lb }
        requires room { is_in_view self.old.plain (number_of_view view) ≡ true
            → item.index ≡ top_of self.old.plain + 1
            → length self.old.plain.items < room + (base - self.old.plain.base) }
        requires now { now < 2 ^ 62 }
        ensures makes { OnOk result ((items : List Entry) (from : Place)
            → let s = server self.old items in
            (is_in_view s (number_of_view view) ≡ true → from ≡ leader s.plan.storers)
            → Makes self.old.me now (on_event self.old.me now s from (number_of_view view) cp base
            (taken s item.index (entry_of item))) [] s (server self.new items)
            outs.old outs.new) }
        ensures me { self.new.me ≡ self.old.me }
        ensures stock { OnOk result ((items : List Entry) (from : Place)
            → let s = server self.old items in Stocks (item ∷ []) self.old.me s
            (on_event self.old.me now s from (number_of_view view) cp base
            (taken s item.index (entry_of item))) (stock self.old) (stock self.new)) }
        ensures cached { OnOk result (self.new.cached ≡ self.old.cached) }
        ensures mark { self.new.mark ≡ self.old.mark }
        ensures up { OnOk result (self.new.halted ≡ false) }
    {
        if !heeds_leader(view, self.mark.accepted(), self.state.is_following()) {
            return Ok(());
        }
        let State::Follows(partner, _) = &mut self.state else {
            unreachable!();
        };
        match partner.event(cp, base, item, now, &mut self.horizon, outs) {
            Ok(()) => Ok(()),
            Err(fault) => {
                self.state.halt();
                Err(fault)
            }
        }
    }

    /// Deals with a Beat of a view. Where the server is active there, the base is at most its LB.
    /// The view's partner does what it does with an Event, but for a record.
    pub(crate) fn heed_beat(
        &mut self,
        view: ViewNo,
        cp: u64,
        base: u64,
        now: u64,
        outs: &mut Outputs,
    ) -> Result<(), AllocError>
        requires up { self.old.halted ≡ false }
        requires base { is_in_view self.old.plain (number_of_view view) ≡ true
            → base ≤ self.old.plain.lb }
        requires now { now < 2 ^ 62 }
        ensures makes { OnOk result ((items : List Entry) (from : Place)
            → let s = server self.old items in
            (is_in_view s (number_of_view view) ≡ true → from ≡ leader s.plan.storers)
            → Makes self.old.me now (on_event self.old.me now s from (number_of_view view) cp base
            s.items) [] s (server self.new items) outs.old outs.new) }
        ensures me { self.new.me ≡ self.old.me }
        ensures stock { OnOk result ((items : List Entry) (from : Place)
            → let s = server self.old items in Stocks [] self.old.me s
            (on_event self.old.me now s from (number_of_view view) cp base s.items)
            (stock self.old) (stock self.new)) }
        ensures cached { OnOk result (self.new.cached ≡ self.old.cached) }
        ensures mark { self.new.mark ≡ self.old.mark }
        ensures up { OnOk result (self.new.halted ≡ false) }
    {
        if !heeds_leader(view, self.mark.accepted(), self.state.is_following()) {
            return Ok(());
        }
        let State::Follows(partner, _) = &mut self.state else {
            unreachable!();
        };
        partner.beat(cp, base, now, &mut self.horizon, outs)?;
        Ok(())
    }
}
