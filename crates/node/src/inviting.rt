//! Invitations to a view.

ghost use Rattle.node.specs.Stock.{Stocks, stock};
ghost use Rattle.std.specs.Prelude.{◌≡◌, [], ◌==◌, ◌≤◌, List, None, Some, false, nat_lt, option_map, ℕ, Err, OnErr, OnOk, if◌then◌else◌, ⊤, ◌∷◌};
ghost use Rattle.file_tree.specs.Book.{Entry};
ghost use Rattle.group_rules.specs.Joining.{joined_tests, on_invite};
ghost use Rattle.group_rules.specs.Names.{number_of_view, place_of};
ghost use Rattle.group_rules.specs.Places.{all_of};
ghost use Rattle.group_rules.specs.State.{Join};
ghost use Rattle.harp_types.specs.Streams.{Rose};
ghost use Rattle.node.specs.Cached.{IsCachedAs};
ghost use Rattle.node.specs.Disk.{MayLeave, disk_after, marked_by};
ghost use Rattle.node.specs.Node.{server};
ghost use Rattle.node_outputs.specs.Makes.{Makes};
ghost use Rattle.node_outputs.specs.Messages.{heard};
ghost use Rattle.view_form.specs.Choice.{report};
ghost use Rattle.node.specs.Handles.{Handles};

use crate::fault::NodeFault;
use crate::node::Node;
use crate::state::{State, Task};
use harp_store::Store;
use harp_types::{ServerId, ViewNo};
use node_outputs::Outputs;
use std::alloc::Global;
use view_form::JoinInfo;
use wire::Message;

impl Node {
    /// An Invite: the server joins a view above its promised one, and tells what it has. Of the
    /// promised one it tells the same again, while it hasn't accepted it. An error leaves the mark
    /// on the disk as it was, or with the view promised.
    pub(crate) fn invite<D: Store>(
        &mut self,
        alloc: Global,
        from: ServerId,
        view: ViewNo,
        store: &mut D,
        outs: &mut Outputs,
    ) -> Result<(), NodeFault>
        requires up { self.old.halted ≡ false }
        ensures handles { (clock : ℕ) → Handles result ⊤ clock
            (λ q s. on_invite s (place_of from) (number_of_view view)) [] [] self.old self.new
            outs.old outs.new (D.told store.old) (D.told store.new) (D.faults store.old)
            (D.faults store.new) }
        ensures count { D.faults store.old ≤ D.faults store.new }
    {
        if self.is_new(view) {
            let info = self.report();
            self.join(alloc, view, Task::Free, store)?;
            outs.send(from, join_message(view, &info))?;
            return Ok(());
        }
        match self.told(view) {
            Some(info) => {
                outs.send(from, join_message(view, &info))?;
                Ok(())
            }
            None => Ok(()),
        }
    }

    /// Whether a view is above the promised one.
    #[tactic(auto, using(crate::proofs::Views::above_is))]
    fn is_new(&self, view: ViewNo) -> bool
        ensures { result ≡ nat_lt self.now.plain.promised (number_of_view view) }
    {
        view.is_above(self.mark.promised())
    }

    /// Whether a view is the promised one.
    pub(crate) fn has_promised(&self, view: ViewNo) -> bool
        ensures test { result ≡ (number_of_view view == self.now.plain.promised) }
    {
        view.is_same(self.mark.promised())
    }

    /// What the server told when it joined this view in this boot, where it hasn't accepted it.
    #[tactic(auto, unfolding(group_rules::specs::Places::all_of))]
    fn told(&self, view: ViewNo) -> Option<JoinInfo>
        ensures { option_map report result
            ≡ (if all_of (joined_tests self.now.plain (number_of_view view))
            then Some self.now.plain.report else None) }
    {
        if !self.has_promised(view) {
            return None;
        }
        match &self.state {
            State::Joined(_, joining) => Some(joining.told),
            State::Pulls(_, joining, _, _) => Some(joining.told),
            State::Gone => None,
            State::Rests(_) => None,
            State::Leads(_, _) => None,
            State::Follows(_, _) => None,
        }
    }
}

/// The Join of a server that tells this.
fn join_message(view: ViewNo, info: &JoinInfo) -> Message
    ensures { heard result ≡ Some (Join (number_of_view view) (report info.now)) }
{
    Message::Join {
        view,
        held: info.held,
        accepted: info.accepted,
        base: info.base,
        lb: info.lb,
        cp: info.cp,
        top: info.top,
        horizon: info.horizon,
    }
}
