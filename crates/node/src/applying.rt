//! What a server brings to its store. After an error the server is halted.

ghost use Rattle.node.specs.Stock.{stock};
ghost use Rattle.std.specs.Prelude.{◌≡◌, ◌≤◌, [], List, ℕ, Err, OnErr, OnOk, false, true};
ghost use Rattle.cell_cache.specs.Entries.{AreOf};
ghost use Rattle.file_tree.specs.Book.{Entry};
ghost use Rattle.group_rules.specs.Disk.{apply};
ghost use Rattle.harp_store.specs.Disk.{cells_told};
ghost use Rattle.harp_store.specs.declared.store.StoreFault.TheVariants.{Failed};
ghost use Rattle.node.specs.Active.{is_active};
ghost use Rattle.node.specs.Node.{server};
ghost use Rattle.node.specs.Outcomes.{Applies, FailsOnce, Runs};
ghost use Rattle.node.specs.State.{cached_in};
ghost use Rattle.node.specs.Stored.{log_in, log_of, stores, with_log};
ghost use Rattle.node_outputs.specs.Makes.{Makes};
ghost use Rattle.node_outputs.specs.declared.outputs.Outputs.{Outputs};
ghost use Rattle.tree_log.specs.Applying.{applied_by, changes_by};
ghost use Rattle.tree_log.specs.Reading.{HoldsTree};
ghost use Rattle.tree_log.specs.Storing.{AppliesFuzzy, CountsFaults, MakesChanges};
ghost use Rattle.volatile_log.specs.Log.{applied_to};

use crate::fault::NodeFault;
use crate::node::Node;
use crate::state::State;
use harp_store::{Store, StoreFault};
use std::alloc::Global;
use view_form::is_witness;

impl Node {
    /// A settled data server brings the changes of at most so many records after AP, up to CP, to
    /// its store, in their order. Each other server does nothing. After an error a first part of
    /// the changes is made.
    pub(crate) fn apply<D: Store>(
        &mut self,
        alloc: Global,
        most: u32,
        store: &mut D,
    ) -> Result<(), NodeFault>
        requires up { self.old.halted ≡ false }
        requires cached { AreOf (cells_told (D.told store.old)) self.old.cached }
        ensures makes { OnOk result ((items : List Entry) (clock : ℕ) (outs : Outputs)
            → let s = server self.old items in
            Makes self.old.me clock (apply self.old.me s most) [] s (server self.new items)
            outs outs) }
        ensures stock { OnOk result (stock self.new ≡ stock self.old) }
        ensures applies { Applies result most self.old self.new (D.told store.old)
            (D.told store.new) }
        ensures fuzzy { stores self.old ≡ true → AppliesFuzzy result most (log_of self.old)
            (D.told store.old) (D.told store.new) }
        ensures tree { OnOk result ((list : List Entry) (upto : ℕ) → self.old.plain.cp ≤ upto
            → HoldsTree list upto (log_of self.old) (D.told store.old)
            → HoldsTree list upto (log_of self.new) (D.told store.new)) }
        ensures runs { OnOk result (Runs self.new (D.told store.new)) }
        ensures faults { FailsOnce result (D.faults store.old) (D.faults store.new) }
    {
        if !self.stores() {
            return Ok(());
        }
        apply_log::<D>(alloc, most, &mut self.state, store)?;
        Ok(())
    }

    /// Whether this is a data server that leads an open view, or follows the leader of one.
    #[tactic(auto, unfolding(group_rules::specs::Places::all_of))]
    pub(crate) fn stores(&self) -> bool
        requires { self.now.halted ≡ false }
        ensures { result ≡ stores self.now }
    {
        self.is_settled() && !is_witness(self.me)
    }
}

/// A leader or a partner brings changes of its log to the store.
fn apply_log<D: Store>(
    alloc: Global,
    most: u32,
    state: &mut State,
    store: &mut D,
) -> Result<(), StoreFault>
    requires active { is_active state.old ≡ true }
    requires cached { AreOf (cells_told (D.told store.old)) (cached_in state.old) }
    ensures log { OnOk result (let log = log_in state.old in
        state.new ≡ with_log state.old (applied_to log (applied_by most log))
        (cached_in state.new)) }
    ensures still { OnErr result (state.new
        ≡ with_log state.old (log_in state.old) (cached_in state.new)) }
    ensures changes { MakesChanges result (changes_by most (log_in state.old))
        (D.told store.old) (D.told store.new) }
    ensures fuzzy { AppliesFuzzy result most (log_in state.old) (D.told store.old)
        (D.told store.new) }
    ensures tree { (list : List Entry) (upto : ℕ) → (log_in state.old).cp ≤ upto
        → HoldsTree list upto (log_in state.old) (D.told store.old)
        → HoldsTree list upto (log_in state.new) (D.told store.new) }
    ensures cached { AreOf (cells_told (D.told store.new)) (cached_in state.new) }
    ensures faults { CountsFaults (result ≡ Err Failed) (D.faults store.old)
        (D.faults store.new) }
{
    match state {
        State::Leads(leader, _) => leader.apply(alloc, most, store),
        State::Follows(partner, _) => partner.apply(alloc, most, store),
        State::Gone => unreachable!(),
        State::Rests(_) => unreachable!(),
        State::Joined(_, _) => unreachable!(),
        State::Pulls(_, _, _, _) => unreachable!(),
    }
}
