//! The listing of the tree after the committed records of a log.

ghost use Rattle.std.specs.Prelude.{◌≡◌, ◌≤◌, List, take, IfOk, Err, Some};
ghost use Rattle.cell_cache.specs.Entries.{AreOf};
ghost use Rattle.file_tree.specs.Book.{Entry, tree_after};
ghost use Rattle.harp_types.specs.Streams.{Rose};
ghost use Rattle.harp_cells.specs.CellsOfTree.{StandForBook};
ghost use Rattle.harp_cells.specs.Effect.{Cells};
ghost use Rattle.harp_store.specs.Disk.{cells_told};
ghost use Rattle.overlay.specs.Index.{IsIndexOf};
ghost use Rattle.overlay.specs.Overlay.{told_over};
ghost use Rattle.tree_listing.specs.Listing.{tree_listed};
ghost use Rattle.tree_log.specs.Reading.{HoldsTree};
ghost use Rattle.tree_log.specs.TreeLog.{changes_in};

use crate::tree_log::{TreeLog, follow};
use cell_cache::Cached;
use harp_cells::{CellFault, CellRead};
use harp_store::Store;
use overlay::{At, CellIndex};
use std::alloc::Global;
use tree_listing::{Listed, Listing, Row, list_tree};
use volatile_log::ActiveLog;

// The objects of the tree after the committed records of a log, over other cells.
fn objects_over<U: CellRead>(
    alloc: Global,
    under: &mut U,
    index: &CellIndex,
    log: &ActiveLog,
) -> Result<Row<Listed>, CellFault>
    requires { IsIndexOf index.now log.now.base (changes_in log.now.records) }
    ensures objects { (held : Cells) (list : List Entry)
        → told_over log.now.base (changes_in log.now.records) log.now.cp (U.cells under.old)
        ≡ Some held → StandForBook held list
        → IfOk result (λ objects. objects ≡ tree_listed (tree_after list)) }
    ensures left { U.left under.new ≡ U.left under.old }
    ensures rose { result ≡ Err CellFault.StoreFailed
        → Rose (U.faults under.old) (U.faults under.new) }
    ensures count { U.faults under.old ≤ U.faults under.new }
{
    let mut at = At::new(under, index, log, log.cp());
    list_tree(alloc, &mut at)
}

impl TreeLog {
    /// The listing of the tree after the committed updates: its live objects, by number, each with
    /// its parts.
    pub fn list<D: Store>(&mut self, alloc: Global, store: &mut D) -> Result<Listing, CellFault>
        requires { AreOf (cells_told (D.told store.old)) self.old.cached }
        ensures list { (list : List Entry)
            → HoldsTree list self.old.log.cp self.old.log (D.told store.old)
            → IfOk result (λ listing. listing.objects
            ≡ tree_listed (tree_after (take self.old.log.cp list))) }
        ensures cp { IfOk result (λ listing. listing.cp ≡ self.old.log.cp) }
        ensures log { self.new.log ≡ self.old.log }
        ensures cached { AreOf (cells_told (D.told store.new)) self.new.cached }
        ensures kept { D.told store.new ≡ D.told store.old }
        ensures rose { result ≡ Err CellFault.StoreFailed
            → Rose (D.faults store.old) (D.faults store.new) }
        ensures count { D.faults store.old ≤ D.faults store.new }
    {
        let cp = self.log.cp();
        follow(&mut self.index, &mut self.indexed, &self.log)?;
        let mut cached = Cached::new(alloc, store, &mut self.cache);
        let objects = objects_over(alloc, &mut cached, &self.index, &self.log)?;
        Ok(Listing { cp, objects })
    }
}
