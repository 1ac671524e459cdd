//! The records that a server gives to another that fetches them.

ghost use Rattle.node_outputs.specs.Records.{records_sent};
ghost use Rattle.std.specs.Prelude.{◌≡◌, ◌-◌, ◌≤◌, [], List, ℕ, IfOk, OnOk, Option, false, take, ◌++◌, IfSome};
ghost use Rattle.file_tree.specs.Book.{Entry};
ghost use Rattle.group_rules.specs.Limits.{is_joining, is_log};
ghost use Rattle.group_rules.specs.Names.{number_of_view, place_of};
ghost use Rattle.group_rules.specs.Places.{Place};
ghost use Rattle.group_rules.specs.Serving.{on_fetch};
ghost use Rattle.group_rules.specs.State.{top};
ghost use Rattle.idle_log.specs.Gives.{given_moves, StandIn};
ghost use Rattle.node.specs.Node.{server};
ghost use Rattle.node.specs.Serving.{FindsGiven, IsSized, last_served};
ghost use Rattle.node_outputs.specs.Makes.{Makes};

use crate::node::Node;
use crate::state::State;
use harp_types::{ServerId, ViewNo};
use idle_log::serve_active;
use node_outputs::Outputs;
use std::alloc::{AllocError, Global};
use view_form::is_view;
use wire::{Message, Records};

impl Node {
    /// Deals with a Fetch of a view, from this index on: a server that joined the view in this boot
    /// gives records up to its top, and one that accepted it in this boot up to the view's start,
    /// also after it joined a higher one. They are as many as a Give has space for.
    pub(crate) fn heed_fetch(
        &self,
        alloc: Global,
        from: ServerId,
        view: ViewNo,
        first: u64,
        outs: &mut Outputs,
    ) -> Result<(), AllocError>
        requires { self.now.halted ≡ false }
        ensures makes { OnOk result ((items : List Entry) (clock : ℕ)
            (size : List Entry → Entry → ℕ) (list : List Entry)
            → self.now.plain.served ≤ top self.now.plain
            → IsSized size list self.now (number_of_view view) first
            → let s = server self.now items in Makes self.now.me clock
            (on_fetch size list s (place_of from) (number_of_view view) first) [] s s
            outs.old outs.new) }
        ensures sent { OnOk result (StandIn (records_sent outs.old ++ self.now.records)
            (records_sent outs.new)) }
    {
        let Some(last) = self.last_served(view) else {
            return Ok(());
        };
        match self.found(alloc, first, last)? {
            None => Ok(()),
            Some(records) => outs.send(
                from,
                Message::Give {
                    view,
                    first,
                    records,
                },
            ),
        }
    }

    /// The index up to which the server gives records of a view, where it gives any.
    #[tactic(auto, unfolding(group_rules::specs::Places::all_of))]
    fn last_served(&self, view: ViewNo) -> Option<u64>
        requires { self.now.halted ≡ false }
        ensures { result ≡ last_served self.now.plain (number_of_view view) }
    {
        if !self.has_log() {
            return None;
        }
        if self.joins(view) {
            return Some(self.top());
        }
        if is_view(view, self.mark.accepted()) {
            return Some(self.served);
        }
        None
    }

    /// The records of the server's log from this index on that a Give has space for, up to `last`.
    fn found(&self, alloc: Global, first: u64, last: u64) -> Result<Option<Records>, AllocError>
        requires { self.now.halted ≡ false }
        ensures given { IfOk result (λ found. (items : List Entry)
            → FindsGiven self.now items first last found) }
        ensures own { IfOk result (λ found. IfSome found (StandIn self.now.records)) }
    {
        match &self.state {
            State::Gone => unreachable!(),
            State::Rests(kept) => kept.serve(alloc, first, last),
            State::Joined(kept, _) => kept.serve(alloc, first, last),
            State::Pulls(kept, _, _, _) => kept.serve(alloc, first, last),
            State::Leads(leader, _) => serve_active(alloc, leader.log(), first, last),
            State::Follows(partner, _) => serve_active(alloc, partner.log(), first, last),
        }
    }
}
