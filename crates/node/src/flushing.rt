//! How a server makes its store durable. After an error the server is halted.

ghost use Rattle.node.specs.Stock.{stock};
ghost use Rattle.std.specs.Prelude.{◌≡◌, [], List, ℕ, Err, OnOk, Some, false, true};
ghost use Rattle.applier.specs.Applied.{FlushesAtOnce};
ghost use Rattle.cell_cache.specs.Entries.{AreOf};
ghost use Rattle.file_tree.specs.Book.{Entry};
ghost use Rattle.fuzzy_cells.specs.History.{History};
ghost use Rattle.applier.specs.FuzzyDisk.{IsFuzzyByMark, IsFuzzyDisk};
ghost use Rattle.group_rules.specs.Disk.{flush};
ghost use Rattle.harp_store.specs.Disk.{AtEachMoment, Moments, cells_told};
ghost use Rattle.harp_store.specs.declared.store.StoreFault.TheVariants.{Failed};
ghost use Rattle.node.specs.Active.{is_active};
ghost use Rattle.node.specs.Node.{server};
ghost use Rattle.node.specs.Outcomes.{FailsOnce, Flushes, Lowers, Runs};
ghost use Rattle.node.specs.State.{cached_in};
ghost use Rattle.node.specs.Stored.{flushes, log_in, log_of};
ghost use Rattle.node_outputs.specs.Makes.{Makes};
ghost use Rattle.node_outputs.specs.declared.outputs.Outputs.{Outputs};
ghost use Rattle.tree_log.specs.Reading.{HoldsTree};
ghost use Rattle.tree_log.specs.Storing.{CountsFaults, FlushesUpTo};

use crate::fault::NodeFault;
use crate::node::Node;
use crate::state::State;
use harp_store::{Mark, Store, StoreFault};
use std::alloc::Global;

impl Node {
    /// A settled data server whose AP is above its LB syncs its store, and then writes the mark
    /// with LB = AP, in memory too. Each other server does nothing. At each moment the mark on the
    /// disk is the old one, or all cells are synced. An error leaves a first part of the two calls.
    pub(crate) fn flush<D: Store>(&mut self, alloc: Global, store: &mut D) -> Result<(), NodeFault>
        requires up { self.old.halted ≡ false }
        requires cached { AreOf (cells_told (D.told store.old)) self.old.cached }
        ensures makes { OnOk result ((items : List Entry) (clock : ℕ) (outs : Outputs)
            → let s = server self.old items in
            Makes self.old.me clock (flush self.old.me s) [] s (server self.new items)
            outs outs) }
        ensures stock { OnOk result (stock self.new ≡ stock self.old) }
        ensures writes { Flushes result self.old self.new (D.told store.old) (D.told store.new) }
        ensures fuzzy { (history : History) (m : ℕ) (h : Moments) → flushes self.old ≡ true
            → D.told store.old ≡ Some h → h.now.mark ≡ Some self.old.mark
            → IsFuzzyDisk history self.old.mark.lb self.old.plain.ap m h.now
            → AtEachMoment (IsFuzzyByMark history self.old.plain.ap m) (D.told store.old)
            (D.told store.new) }
        ensures tree { OnOk result ((list : List Entry) (upto : ℕ)
            → HoldsTree list upto (log_of self.old) (D.told store.old)
            → HoldsTree list upto (log_of self.new) (D.told store.new)) }
        ensures runs { OnOk result (Runs self.new (D.told store.new)) }
        ensures faults { FailsOnce result (D.faults store.old) (D.faults store.new) }
    {
        if !self.flushes() {
            return Ok(());
        }
        flush_log::<D>(alloc, &mut self.state, &mut self.mark, store)?;
        Ok(())
    }

    /// Whether this is a settled data server that applied what isn't on its disk.
    #[tactic(auto, unfolding(group_rules::specs::Places::all_of))]
    fn flushes(&self) -> bool
        requires { self.now.halted ≡ false }
        ensures { result ≡ flushes self.now }
    {
        if !self.stores() {
            return false;
        }
        match &self.state {
            State::Leads(leader, _) => self.mark.lb() < leader.log().ap(),
            State::Follows(partner, _) => self.mark.lb() < partner.log().ap(),
            State::Gone => unreachable!(),
            State::Rests(_) => unreachable!(),
            State::Joined(_, _) => unreachable!(),
            State::Pulls(_, _, _, _) => unreachable!(),
        }
    }
}

/// A leader or a partner makes the store durable, and then writes the mark.
fn flush_log<D: Store>(
    alloc: Global,
    state: &mut State,
    mark: &mut Mark,
    store: &mut D,
) -> Result<(), StoreFault>
    requires active { is_active state.old ≡ true }
    requires cached { AreOf (cells_told (D.told store.old)) (cached_in state.old) }
    ensures lowers { Lowers result state.old state.new }
    ensures writes { FlushesUpTo result (log_in state.old).ap mark.old mark.new
        (D.told store.old) (D.told store.new) }
    ensures at_once { FlushesAtOnce (D.told store.old) (D.told store.new) }
    ensures fuzzy { (history : History) (m : ℕ) (h : Moments) → D.told store.old ≡ Some h
        → h.now.mark ≡ Some mark.old
        → IsFuzzyDisk history mark.old.lb (log_in state.old).ap m h.now
        → AtEachMoment (IsFuzzyByMark history (log_in state.old).ap m) (D.told store.old)
        (D.told store.new) }
    ensures tree { (list : List Entry) (upto : ℕ)
        → HoldsTree list upto (log_in state.old) (D.told store.old)
        → HoldsTree list upto (log_in state.new) (D.told store.new) }
    ensures cached { AreOf (cells_told (D.told store.new)) (cached_in state.new) }
    ensures faults { CountsFaults (result ≡ Err Failed) (D.faults store.old)
        (D.faults store.new) }
{
    match state {
        State::Leads(leader, _) => leader.flush(alloc, mark, store),
        State::Follows(partner, _) => partner.flush(alloc, mark, store),
        State::Gone => unreachable!(),
        State::Rests(_) => unreachable!(),
        State::Joined(_, _) => unreachable!(),
        State::Pulls(_, _, _, _) => unreachable!(),
    }
}
