//! The listing of a leader's tree.

ghost use Rattle.std.specs.Prelude.{◌≡◌, ℕ, ◌∷◌, [], List, Some, Err, OnOk, OnErr};
ghost use Rattle.cell_cache.specs.Entries.{AreOf};
ghost use Rattle.file_tree.specs.Book.{Entry};
ghost use Rattle.group_rules.specs.Moves.{Saying};
ghost use Rattle.group_rules.specs.State.{Lists};
ghost use Rattle.harp_store.specs.Disk.{cells_told};
ghost use Rattle.node_outputs.specs.Makes.{Makes};
ghost use Rattle.node_outputs.specs.Records.{records_sent};
ghost use Rattle.tree_log.specs.Reading.{HoldsTree};
ghost use Rattle.tree_log.specs.Storing.{CountsFaults, OnlyReads};
ghost use Rattle.replica.specs.Leading.{Outer, led, place_led};
ghost use Rattle.replica.specs.Listing.{listing_at};

use crate::leader::Leader;
use harp_cells::CellFault;
use harp_store::Store;
use node_outputs::Outputs;
use std::alloc::Global;

impl Leader {
    /// Lists the tree after the committed updates: its live objects, by number, each with its
    /// parts. After an error nothing is listed.
    pub fn list<D: Store>(
        &mut self,
        alloc: Global,
        store: &mut D,
        outs: &mut Outputs,
    ) -> Result<(), CellFault>
        requires { AreOf (cells_told (D.told store.old)) self.old.cached }
        ensures listing { OnOk result ((list : List Entry)
            → HoldsTree list self.old.log.cp self.old.log (D.told store.old)
            → outs.new.listing ≡ Some (listing_at self.old.log.cp list)) }
        ensures makes { OnOk result ((o : Outer) (clock : ℕ) → let s = led self.old o in
            Makes (place_led self.old o) clock (Saying (Lists s.cp) ∷ []) [] s
            (led self.new o) outs.old outs.new) }
        ensures records { records_sent outs.new ≡ records_sent outs.old }
        ensures none { OnErr result (outs.new ≡ outs.old) }
        ensures same { self.new ≡ record self.old { cached = self.new.cached } }
        ensures reads { OnlyReads (D.told store.old) (D.told store.new) self.new.cached }
        ensures faults { CountsFaults (result ≡ Err CellFault.StoreFailed) (D.faults store.old)
            (D.faults store.new) }
    {
        let _ = self.log.top();
        let listing = self.log.list(alloc, store)?;
        outs.list(listing);
        Ok(())
    }
}
