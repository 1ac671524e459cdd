//! The listing of a server's tree. After an error the server is halted.

ghost use Rattle.node.specs.Stock.{stock};
ghost use Rattle.std.specs.Prelude.{◌≡◌, [], List, ℕ, Err, OnOk, Some, false, true};
ghost use Rattle.cell_cache.specs.Entries.{AreOf};
ghost use Rattle.file_tree.specs.Book.{Entry};
ghost use Rattle.group_rules.specs.Disk.{list_tree};
ghost use Rattle.harp_store.specs.Disk.{cells_told};
ghost use Rattle.node.specs.Active.{is_active};
ghost use Rattle.node.specs.Node.{server};
ghost use Rattle.node.specs.Outcomes.{FailsOnce, Keeps, Runs, TellsTree};
ghost use Rattle.node.specs.State.{cached_in};
ghost use Rattle.node.specs.Stored.{log_in, with_log};
ghost use Rattle.node_outputs.specs.Makes.{Makes};
ghost use Rattle.node_outputs.specs.Records.{records_sent};
ghost use Rattle.node_outputs.specs.Said.{said};
ghost use Rattle.tree_log.specs.Reading.{HoldsTree};
ghost use Rattle.tree_log.specs.Storing.{CountsFaults, OnlyReads};
ghost use Rattle.replica.specs.Listing.{listing_at};

use crate::fault::NodeFault;
use crate::node::Node;
use crate::state::State;
use harp_cells::CellFault;
use harp_store::Store;
use node_outputs::Outputs;
use std::alloc::Global;

impl Node {
    /// A settled data server lists its tree after the committed updates. Each other server does
    /// nothing.
    pub(crate) fn list<D: Store>(
        &mut self,
        alloc: Global,
        store: &mut D,
        outs: &mut Outputs,
    ) -> Result<(), NodeFault>
        requires up { self.old.halted ≡ false }
        requires cached { AreOf (cells_told (D.told store.old)) self.old.cached }
        ensures makes { OnOk result ((items : List Entry) (clock : ℕ)
            → let s = server self.old items in
            Makes self.old.me clock (list_tree self.old.me s) [] s (server self.new items)
            outs.old outs.new) }
        ensures tells { TellsTree result self.old (D.told store.old) outs.old outs.new }
        ensures stock { OnOk result (stock self.new ≡ stock self.old) }
        ensures keeps { Keeps self.old self.new (D.told store.old) (D.told store.new) }
        ensures runs { OnOk result (Runs self.new (D.told store.new)) }
        ensures faults { FailsOnce result (D.faults store.old) (D.faults store.new) }
    {
        if !self.stores() {
            return Ok(());
        }
        list_log::<D>(alloc, &mut self.state, store, outs)?;
        Ok(())
    }
}

/// A leader or a partner lists the tree after the committed updates.
fn list_log<D: Store>(
    alloc: Global,
    state: &mut State,
    store: &mut D,
    outs: &mut Outputs,
) -> Result<(), CellFault>
    requires active { is_active state.old ≡ true }
    requires cached { AreOf (cells_told (D.told store.old)) (cached_in state.old) }
    ensures listing { OnOk result ((list : List Entry)
        → HoldsTree list (log_in state.old).cp (log_in state.old) (D.told store.old)
        → outs.new.listing ≡ Some (listing_at (log_in state.old).cp list)) }
    ensures said { OnOk result (said outs.new ≡ record (said outs.old) {
      listed = Some (log_in state.old).cp;
    }) }
    ensures records { records_sent outs.new ≡ records_sent outs.old }
    ensures same { state.new ≡ with_log state.old (log_in state.old) (cached_in state.new) }
    ensures reads { OnlyReads (D.told store.old) (D.told store.new) (cached_in state.new) }
    ensures faults { CountsFaults (result ≡ Err CellFault.StoreFailed) (D.faults store.old)
        (D.faults store.new) }
{
    match state {
        State::Leads(leader, _) => leader.list(alloc, store, outs),
        State::Follows(partner, _) => partner.list(alloc, store, outs),
        State::Gone => unreachable!(),
        State::Rests(_) => unreachable!(),
        State::Joined(_, _) => unreachable!(),
        State::Pulls(_, _, _, _) => unreachable!(),
    }
}
