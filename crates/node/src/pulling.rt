//! The records of a Give, at a storer that pulls.

ghost use Rattle.node.specs.Stock.{Stocks, stock, stock_kept};
ghost use Rattle.std.specs.Prelude.{◌≡◌, ◌+◌, ◌==◌, ◌∷◌, [], ◌≤◌, List, false, length, map, nat_le, true, ℕ, Err, OnErr, OnOk, ⊤};
ghost use Rattle.event_record.specs.Record.{entry_of};
ghost use Rattle.file_tree.specs.Book.{Entry};
ghost use Rattle.group_rules.specs.Form.{on_give};
ghost use Rattle.group_rules.specs.Limits.{is_pulls};
ghost use Rattle.group_rules.specs.Misfits.{follow};
ghost use Rattle.group_rules.specs.Names.{number_of_view};
ghost use Rattle.group_rules.specs.Places.{all_of};
ghost use Rattle.harp_types.specs.Streams.{Rose};
ghost use Rattle.idle_log.specs.Kept.{plan_of};
ghost use Rattle.node.specs.Cached.{IsCachedAs};
ghost use Rattle.node.specs.Disk.{MayLeave, disk_after, marked_by};
ghost use Rattle.node.specs.Forming.{pulling_with, pulling_node};
ghost use Rattle.node.specs.Node.{server};
ghost use Rattle.node.specs.State.{HearsOthers, IsKept, IsPulling};
ghost use Rattle.node_outputs.specs.Makes.{Makes};
ghost use Rattle.node.specs.Handles.{Handles};
ghost use Rattle.node.specs.Misfits.{pulls_view};

use crate::fault::NodeFault;
use crate::node::Node;
use crate::pull::Pull;
use crate::state::State;
use harp_store::Store;
use harp_types::ViewNo;
use idle_log::give;
use node_outputs::Outputs;
use std::alloc::Global;
use std::mem;
use wire::Records;

impl Node {
    /// A Give of records that follow each other, and are within the view's start where the server
    /// pulls for this view: it stages them where they begin with the wanted one. Then it fetches
    /// the next, or accepts the view. An error leaves the mark on the disk as it was, or with the
    /// view accepted.
    #[tactic(auto, unfolding(group_rules::specs::Places::all_of))]
    pub(crate) fn give<D: Store>(
        &mut self,
        alloc: Global,
        view: ViewNo,
        first: u64,
        records: Records,
        store: &mut D,
        outs: &mut Outputs,
    ) -> Result<(), NodeFault>
        requires up { self.old.halted ≡ false }
        requires follow { follow first (map entry_of records) ≡ true }
        requires within { pulls_view self.old.plain (number_of_view view) ≡ true
            → nat_le (first + length (map entry_of records)) (self.old.plain.plan.start + 1)
            ≡ true }
        ensures handles { (clock : ℕ) → Handles result ⊤ clock
            (λ q s. on_give q s (number_of_view view) first (map entry_of records)) records []
            self.old self.new
            outs.old outs.new (D.told store.old) (D.told store.new) (D.faults store.old)
            (D.faults store.new) }
        ensures count { D.faults store.old ≤ D.faults store.new }
    {
        if !self.pulls_for(view) {
            return Ok(());
        }
        let pull = mem::replace(&mut self.state, State::Gone).into_pull();
        self.take_given(alloc, pull, first, records, store, outs)
    }

    /// The records of a Give of the promised view, at a server that pulls.
    fn take_given<D: Store>(
        &mut self,
        alloc: Global,
        mut pull: Pull,
        first: u64,
        records: Records,
        store: &mut D,
        outs: &mut Outputs,
    ) -> Result<(), NodeFault>
        requires kept { IsKept self.old.me self.old.mark pull.kept }
        requires others { HearsOthers self.old.me pull.joining }
        requires pulls { IsPulling self.old.me pull.kept (plan_of pull.form) pull.staged }
        requires follow { follow first (map entry_of records) ≡ true }
        requires within { first + length records ≤ pull.form.start + 1 }
        ensures handles { (clock : ℕ) → Handles result ⊤ clock
            (λ q s. on_give q s s.promised first (map entry_of records)) records [] (pulling_node
            self.old pull) self.new
            outs.old outs.new (D.told store.old) (D.told store.new) (D.faults store.old)
            (D.faults store.new) }
        ensures count { D.faults store.old ≤ D.faults store.new }
    {
        if !give(&mut pull.staged, first, records)? {
            self.state = State::Pulls(pull.kept, pull.joining, pull.form, pull.staged);
            return Ok(());
        }
        if pull.staged.is_full() {
            return self.accept(alloc, pull, store, outs);
        }
        self.fetch(pull, outs)?;
        Ok(())
    }
}
