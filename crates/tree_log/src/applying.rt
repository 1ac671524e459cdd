//! What a log brings to a store.

ghost use Rattle.std.specs.Prelude.{◌≡◌, ◌+◌, ◌≤◌, ℕ, List, length, min, Option, Some, OnOk, OnErr, Err};
ghost use Rattle.applier.specs.Applied.{FlushesAtOnce, changes_between};
ghost use Rattle.applier.specs.FuzzyDisk.{IsFuzzyByMark, IsFuzzyDisk};
ghost use Rattle.cell_cache.specs.Entries.{AreOf};
ghost use Rattle.file_tree.specs.Book.{Entry};
ghost use Rattle.fuzzy_cells.specs.History.{History};
ghost use Rattle.harp_store.specs.declared.store.StoreFault.TheVariants.{Failed};
ghost use Rattle.harp_store.specs.Disk.{AtEachMoment, Moments, cells_told};
ghost use Rattle.tree_log.specs.Applying.{AreLeftBy, applied_by, changes_by};
ghost use Rattle.tree_log.specs.Reading.{HoldsTree};
ghost use Rattle.tree_log.specs.Storing.{AppliesFuzzy, CountsFaults, FlushesUpTo, Lowers, MakesChanges};
ghost use Rattle.tree_log.specs.TreeLog.{changes_in};
ghost use Rattle.volatile_log.specs.Log.{applied_to, top};

use crate::tree_log::TreeLog;
use applier::{apply_some, flush};
use cell_cache::CellCache;
use harp_cells::{Change, ChangeLog};
use harp_store::{Mark, Store, StoreFault};
use std::alloc::Global;
use volatile_log::ActiveLog;

// Drops the entries of the cells that these changes set.
fn forget_changes(cache: &mut CellCache, changes: &[Change])
    ensures { AreLeftBy changes.now cache.old.entries cache.new.entries }
{
    for change in changes {
        cache.forget(change);
    }
}

// Drops the entries of the cells that the records after one index up to another set.
fn forget_records(cache: &mut CellCache, log: &ActiveLog, from: u64, to: u64)
    requires first { log.now.base ≤ from }
    requires order { from ≤ to }
    requires last { to ≤ top log.now }
    ensures { AreLeftBy (changes_between log.now.base (changes_in log.now.records) from to)
        cache.old.entries cache.new.entries }
{
    let mut at = from;
    while at < to {
        forget_changes(cache, log.changes(at + 1));
        at += 1;
    }
}

impl TreeLog {
    /// Brings the changes of at most so many records after AP, up to CP, to the store, in the order
    /// of the records and whatever the cells hold. Each cell leaves the cache before it changes.
    /// Where the store fails, a first part of the changes is made, and the log is as before.
    pub fn apply<D: Store>(
        &mut self,
        alloc: Global,
        most: u32,
        store: &mut D,
    ) -> Result<(), StoreFault>
        requires { AreOf (cells_told (D.told store.old)) self.old.cached }
        ensures log { OnOk result (self.new.log
            ≡ applied_to self.old.log (applied_by most self.old.log)) }
        ensures still { OnErr result (self.new.log ≡ self.old.log) }
        ensures changes { MakesChanges result (changes_by most self.old.log) (D.told store.old)
            (D.told store.new) }
        ensures fuzzy { AppliesFuzzy result most self.old.log (D.told store.old)
            (D.told store.new) }
        ensures cached { AreOf (cells_told (D.told store.new)) self.new.cached }
        ensures tree { (list : List Entry) (upto : ℕ) → self.old.log.cp ≤ upto
            → HoldsTree list upto self.old.log (D.told store.old)
            → HoldsTree list upto self.new.log (D.told store.new) }
        ensures faults { CountsFaults (result ≡ Err Failed) (D.faults store.old)
            (D.faults store.new) }
    {
        let ap = self.log.ap();
        let cp = self.log.cp();
        let to = ap.saturating_add(u64::from(most)).min(cp);
        forget_records(&mut self.cache, &self.log, ap, to);
        let reached = apply_some(alloc, &self.log, ap, cp, most, store)?;
        self.log.applied_to(reached);
        Ok(())
    }

    /// Syncs the store, and then writes the mark with LB = AP. At each moment the mark on the disk
    /// is the old one, or all cells are synced. Where it fails, a first part of the two calls is
    /// made, and the log and the mark in memory are as before.
    pub fn flush<D: Store>(
        &mut self,
        alloc: Global,
        store: &mut D,
        mark: &mut Mark,
    ) -> Result<(), StoreFault>
        requires { AreOf (cells_told (D.told store.old)) self.old.cached }
        ensures lowers { Lowers result self.old.log self.new.log }
        ensures writes { FlushesUpTo result self.old.log.ap mark.old mark.new (D.told store.old)
            (D.told store.new) }
        ensures at_once { FlushesAtOnce (D.told store.old) (D.told store.new) }
        ensures fuzzy { (history : History) (m : ℕ) (h : Moments) → D.told store.old ≡ Some h
            → h.now.mark ≡ Some mark.old
            → IsFuzzyDisk history mark.old.lb self.old.log.ap m h.now
            → AtEachMoment (IsFuzzyByMark history self.old.log.ap m) (D.told store.old)
            (D.told store.new) }
        ensures cached { AreOf (cells_told (D.told store.new)) self.new.cached }
        ensures tree { (list : List Entry) (upto : ℕ)
            → HoldsTree list upto self.old.log (D.told store.old)
            → HoldsTree list upto self.new.log (D.told store.new) }
        ensures faults { CountsFaults (result ≡ Err Failed) (D.faults store.old)
            (D.faults store.new) }
    {
        let ap = self.log.ap();
        flush(alloc, store, mark, ap)?;
        self.log.lower_to(ap);
        Ok(())
    }
}
