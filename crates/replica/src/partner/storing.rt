//! What a partner brings to its store.

ghost use Rattle.std.specs.Prelude.{◌≡◌, ℕ, ◌≤◌, List, Some, Err};
ghost use Rattle.applier.specs.Applied.{FlushesAtOnce};
ghost use Rattle.cell_cache.specs.Entries.{AreOf};
ghost use Rattle.file_tree.specs.Book.{Entry};
ghost use Rattle.fuzzy_cells.specs.History.{History};
ghost use Rattle.applier.specs.FuzzyDisk.{IsFuzzyByMark, IsFuzzyDisk};
ghost use Rattle.group_rules.specs.Moves.{Applying, Flushing};
ghost use Rattle.harp_store.specs.declared.store.StoreFault.TheVariants.{Failed};
ghost use Rattle.harp_store.specs.Disk.{AtEachMoment, Moments, cells_told};
ghost use Rattle.tree_log.specs.Applying.{applied_by, changes_by};
ghost use Rattle.tree_log.specs.Reading.{HoldsTree};
ghost use Rattle.tree_log.specs.Storing.{AppliesFuzzy, CountsFaults, FlushesUpTo, MakesChanges};
ghost use Rattle.replica.specs.Following.{MovesFollowed};
ghost use Rattle.volatile_log.specs.Log.{applied_to, lowered_to};

use crate::partner::Partner;
use harp_store::{Mark, Store, StoreFault};
use std::alloc::Global;

impl Partner {
    /// Brings the changes of at most so many records after AP, up to CP, to the store, in the order
    /// of the records and whatever the cells hold. Where the store fails, a first part of the
    /// changes is made, and the partner is as before.
    pub fn apply<D: Store>(
        &mut self,
        alloc: Global,
        most: u32,
        store: &mut D,
    ) -> Result<(), StoreFault>
        requires { AreOf (cells_told (D.told store.old)) self.old.cached }
        ensures applies { MovesFollowed result
            (applied_to self.old.log (applied_by most self.old.log))
            (Applying (applied_by most self.old.log)) self.old self.new }
        ensures changes { MakesChanges result (changes_by most self.old.log) (D.told store.old)
            (D.told store.new) }
        ensures fuzzy { AppliesFuzzy result most self.old.log (D.told store.old)
            (D.told store.new) }
        ensures cached { AreOf (cells_told (D.told store.new)) self.new.cached }
        ensures tree { (list : List Entry) (upto : ℕ) → self.old.log.cp ≤ upto
            → HoldsTree list upto self.old.log (D.told store.old)
            → HoldsTree list upto self.new.log (D.told store.new) }
        ensures faults { CountsFaults (result ≡ Err Failed) (D.faults store.old)
            (D.faults store.new) }
    {
        let _ = self.log.top();
        self.log.apply(alloc, most, store)
    }

    /// Syncs the store, and then writes the mark with LB = AP. At each moment the mark on the disk
    /// is the old one, or all cells are synced. Where it fails, a first part of the two calls is
    /// made, and the partner and the mark in memory are as before.
    pub fn flush<D: Store>(
        &mut self,
        alloc: Global,
        mark: &mut Mark,
        store: &mut D,
    ) -> Result<(), StoreFault>
        requires { AreOf (cells_told (D.told store.old)) self.old.cached }
        ensures flushes { MovesFollowed result (lowered_to self.old.log self.old.log.ap) Flushing
            self.old self.new }
        ensures writes { FlushesUpTo result self.old.log.ap mark.old mark.new (D.told store.old)
            (D.told store.new) }
        ensures at_once { FlushesAtOnce (D.told store.old) (D.told store.new) }
        ensures fuzzy { (history : History) (m : ℕ) (h : Moments) → D.told store.old ≡ Some h
            → h.now.mark ≡ Some mark.old
            → IsFuzzyDisk history mark.old.lb self.old.log.ap m h.now
            → AtEachMoment (IsFuzzyByMark history self.old.log.ap m) (D.told store.old)
            (D.told store.new) }
        ensures cached { AreOf (cells_told (D.told store.new)) self.new.cached }
        ensures tree { (list : List Entry) (upto : ℕ)
            → HoldsTree list upto self.old.log (D.told store.old)
            → HoldsTree list upto self.new.log (D.told store.new) }
        ensures faults { CountsFaults (result ≡ Err Failed) (D.faults store.old)
            (D.faults store.new) }
    {
        let _ = self.log.top();
        self.log.flush(alloc, store, mark)
    }
}
