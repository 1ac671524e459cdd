//! What a leader heeds of its view, and how it opens it. After an error the server is halted.

ghost use Rattle.node_outputs.specs.Records.{records_sent};
ghost use Rattle.node.specs.Stock.{stock, Stocks};
ghost use Rattle.std.specs.Prelude.{◌≡◌, ◌≤◌, [], List, ℕ, OnOk, false, true};
ghost use Rattle.file_tree.specs.Book.{Entry};
ghost use Rattle.group_rules.specs.Names.{number_of_view};
ghost use Rattle.group_rules.specs.Open.{try_open};
ghost use Rattle.group_rules.specs.Replicate.{is_in_view, on_ack};
ghost use Rattle.group_rules.specs.State.{top as top_of};
ghost use Rattle.node.specs.Node.{server};
ghost use Rattle.node_outputs.specs.Makes.{Makes};

use crate::node::Node;
use crate::state::State;
use harp_types::ViewNo;
use node_outputs::Outputs;
use promise::Deadline;
use std::alloc::{AllocError, Global};
use view_form::is_view;

impl Node {
    /// Deals with an Ack of a view, whose top is at most that of a server that is active there. The
    /// view's open leader keeps its numbers, and commits and answers each record up to its top.
    pub(crate) fn heed_ack(
        &mut self,
        alloc: Global,
        view: ViewNo,
        top: u64,
        lb: u64,
        until: Deadline,
        outs: &mut Outputs,
    ) -> Result<(), AllocError>
        requires up { self.old.halted ≡ false }
        requires top { is_in_view self.old.plain (number_of_view view) ≡ true
            → top ≤ top_of self.old.plain }
        ensures makes { OnOk result ((items : List Entry) (clock : ℕ)
            → let s = server self.old items in
            Makes self.old.me clock (on_ack s (number_of_view view) top lb until) self.old.peers s
            (server self.new items) outs.old outs.new) }
        ensures me { self.new.me ≡ self.old.me }
        ensures stock { OnOk result ((items : List Entry) → let s = server self.old items in
            Stocks [] self.old.me s
            (on_ack s (number_of_view view) top lb until)
            (stock self.old) (stock self.new)) }
        ensures cached { OnOk result (self.new.cached ≡ self.old.cached) }
        ensures mark { self.new.mark ≡ self.old.mark }
        ensures up { OnOk result (self.new.halted ≡ false) }
    {
        if !is_view(view, self.mark.accepted()) {
            return Ok(());
        }
        let State::Leads(leader, _) = &mut self.state else {
            return Ok(());
        };
        match leader.ack(alloc, top, lb, until, outs) {
            Ok(()) => Ok(()),
            Err(fault) => {
                self.state.halt();
                Err(fault)
            }
        }
    }

    /// The test of opening. A leader that waits opens its view where its partner's Formed has come
    /// and the view's horizon is over by every clock.
    pub(crate) fn try_open(
        &mut self,
        alloc: Global,
        now: u64,
        outs: &mut Outputs,
    ) -> Result<(), AllocError>
        requires { self.old.halted ≡ false }
        ensures makes { OnOk result ((items : List Entry) → let s = server self.old items in
            Makes self.old.me now (try_open self.old.me now s) [] s (server self.new items)
            outs.old outs.new) }
        ensures me { self.new.me ≡ self.old.me }
        ensures stock { OnOk result (stock self.new ≡ stock self.old) }
        ensures records { OnOk result (records_sent outs.new ≡ records_sent outs.old) }
        ensures cached { OnOk result (self.new.cached ≡ self.old.cached) }
        ensures mark { self.new.mark ≡ self.old.mark }
        ensures up { OnOk result (self.new.halted ≡ false) }
    {
        let State::Leads(leader, _) = &mut self.state else {
            return Ok(());
        };
        match leader.try_open(alloc, now, outs) {
            Ok(()) => Ok(()),
            Err(fault) => {
                self.state.halt();
                Err(fault)
            }
        }
    }
}
