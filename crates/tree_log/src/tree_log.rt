//! A log over a tree.

ghost use Rattle.std.specs.Prelude.{◌≡◌, ℕ, ◌+◌, ◌-◌, ◌<◌, ◌≤◌, ◌^◌, ◌↔◌, ◌++◌, ◌∷◌, [], List, drop, length, take, true, Option, IfOk, IfErr, IfSome, IsSome, OnErr, OnOk};
ghost use Rattle.std.specs.Option.{option_copied};
ghost use Rattle.file_tree.specs.Book.{Entry};
ghost use Rattle.harp_types.specs.Update.{is_update};
ghost use Rattle.harp_store.specs.Disk.{Moments};
ghost use Rattle.overlay.specs.Index.{IsIndexOf};
ghost use Rattle.tree_log.specs.Reading.{HoldsTree, IsNextRecord};
ghost use Rattle.tree_log.specs.TreeLog.{bare, changes_in};
ghost use Rattle.volatile_log.specs.Log.{IsLog, committed_to, dropped_to, lowered_to, record_at, room, top, with_record};

use cell_cache::CellCache;
use event_record::Record;
use harp_cells::ChangeLog;
use overlay::CellIndex;
use std::alloc::{AllocError, Global};
use std::marker::Model;
use volatile_log::{ActiveLog, FrozenLog};

/// How many cells are kept in memory at most.
const PLACES: u32 = 4096;

/// An active log over a store that has the first of its updates. It has an index of which record
/// changes which cell, which follows the log where cells are read, and a cache of the store's
/// cells. Contracts see it as the log and the cells that the cache has.
#[derive(Drop)]
pub struct TreeLog {
    pub(crate) log: ActiveLog,
    pub(crate) index: CellIndex,
    /// Up to which record the index goes: a log may end before a cell is read.
    pub(crate) indexed: u64,
    pub(crate) cache: CellCache,
}

impl Model for TreeLog {
    ghost use Rattle.std.specs.Prelude.{◌≤◌, ◌-◌, take};
    ghost use Rattle.overlay.specs.Index.{IsIndexOf};
    ghost use Rattle.tree_log.specs.TreeLog.{TreeLogValue, changes_in};
    ghost use Rattle.volatile_log.specs.Log.{top};

    ghost Value = { TreeLogValue };

    ghost view = { λ t. record { log = t.log; cached = t.cache.entries } };

    ghost invariant = { λ t. (t.log.base ≤ t.indexed) × (t.indexed ≤ top t.log)
        × IsIndexOf t.index t.log.base
        (take (t.indexed - t.log.base) (changes_in t.log.records)) };
}

// The index of the first records of a log gets the others too; where memory runs out, some first
// ones of them.
pub(crate) fn follow(
    index: &mut CellIndex,
    indexed: &mut u64,
    log: &ActiveLog,
) -> Result<(), AllocError>
    requires within { (log.now.base ≤ indexed.old) × (indexed.old ≤ top log.now) }
    requires index { IsIndexOf index.old log.now.base
        (take (indexed.old - log.now.base) (changes_in log.now.records)) }
    ensures within { (log.now.base ≤ indexed.new) × (indexed.new ≤ top log.now) }
    ensures index { IsIndexOf index.new log.now.base
        (take (indexed.new - log.now.base) (changes_in log.now.records)) }
    ensures end { OnOk result (indexed.new ≡ top log.now) }
    ensures whole { OnOk result (IsIndexOf index.new log.now.base
        (changes_in log.now.records)) }
{
    while *indexed < log.top() {
        index.add(*indexed + 1, log.changes(*indexed + 1))?;
        *indexed += 1;
    }
    Ok(())
}

// The records up to n go of the index, before the log drops them. Where it has none behind them, or
// no memory to follow the log, it begins anew there.
fn drop_indexed(index: &mut CellIndex, indexed: &mut u64, log: &ActiveLog, n: u64)
    requires dropped { (log.now.base ≤ n) × (n ≤ log.now.lb) }
    requires within { (log.now.base ≤ indexed.old) × (indexed.old ≤ top log.now) }
    requires index { IsIndexOf index.old log.now.base
        (take (indexed.old - log.now.base) (changes_in log.now.records)) }
    ensures within { (n ≤ indexed.new) × (indexed.new ≤ top log.now) }
    ensures index { IsIndexOf index.new n
        (take (indexed.new - n) (drop (n - log.now.base) (changes_in log.now.records))) }
{
    let _ = log.top();
    if *indexed > n {
        if let Ok(()) = follow(index, indexed, log) {
            index.drop_to(log, n);
            return;
        }
    }
    index.clear();
    *indexed = n;
}

impl TreeLog {
    /// A log with an index and an empty cache. It fails only for want of memory, and then the log
    /// comes back.
    pub fn of(alloc: Global, log: ActiveLog) -> Result<TreeLog, ActiveLog>
        ensures ok { IfOk result (λ t. t ≡ bare log) }
        ensures err { IfErr result (λ back. back ≡ log) }
    {
        let indexed = log.base();
        match CellCache::new(alloc, PLACES) {
            Ok(cache) => Ok(TreeLog {
                log,
                index: CellIndex::new(alloc),
                indexed,
                cache,
            }),
            Err(_) => Err(log),
        }
    }

    /// The log, just as it stands.
    pub fn log(&self) -> &ActiveLog
        ensures { result.now ≡ self.now.log }
    {
        &self.log
    }

    /// Adds the next record, for which there is room. Where it fails, for want of memory alone,
    /// all is as before.
    pub fn append(&mut self, item: Record) -> Result<(), AllocError>
        requires next { item.index ≡ top self.old.log + 1 }
        requires limit { item.index < 2 ^ 62 }
        requires room { length self.old.log.records < room }
        ensures ok { OnOk result (self.new ≡ record self.old {
          log = with_record self.old.log item;
        }) }
        ensures err { OnErr result (self.new ≡ self.old) }
        // The record of the next update: the log is of the list with it.
        ensures tree { (list : List Entry) (upto : ℕ) (told : Option Moments) (e : Entry)
            → upto ≤ top self.old.log → IsNextRecord list e item → is_update e.call ≡ true
            → HoldsTree list upto self.old.log told
            → OnOk result (HoldsTree (list ++ e ∷ []) upto self.new.log told) }
    {
        match self.log.append(item) {
            Ok(()) => Ok(()),
            Err(_) => unreachable!(),
        }
    }

    /// Commits the records up to this index, which is from CP to top.
    pub fn commit_to(&mut self, n: u64)
        requires { (self.old.log.cp ≤ n) × (n ≤ top self.old.log) }
        ensures log { self.new ≡ record self.old { log = committed_to self.old.log n } }
        ensures tree { (list : List Entry) (upto : ℕ) (told : Option Moments)
            → HoldsTree list upto self.old.log told → HoldsTree list upto self.new.log told }
    {
        self.log.commit_to(n);
    }

    /// Keeps that the records up to this index, which is from LB to AP, are on this server's disk.
    pub fn lower_to(&mut self, n: u64)
        requires { (self.old.log.lb ≤ n) × (n ≤ self.old.log.ap) }
        ensures log { self.new ≡ record self.old { log = lowered_to self.old.log n } }
        ensures tree { (list : List Entry) (upto : ℕ) (told : Option Moments)
            → HoldsTree list upto self.old.log told → HoldsTree list upto self.new.log told }
    {
        self.log.lower_to(n);
    }

    /// Drops the records up to this index, which is from the base to LB.
    pub fn drop_to(&mut self, n: u64)
        requires { (self.old.log.base ≤ n) × (n ≤ self.old.log.lb) }
        ensures log { self.new ≡ record self.old { log = dropped_to self.old.log n } }
        ensures tree { (list : List Entry) (upto : ℕ) (told : Option Moments)
            → HoldsTree list upto self.old.log told → HoldsTree list upto self.new.log told }
    {
        if n == self.log.base() {
            return;
        }
        // The index reads of the log what the records change that go.
        drop_indexed(&mut self.index, &mut self.indexed, &self.log, n);
        self.log.drop_to(n);
    }

    /// The same log, to which nothing is added and in which nothing is committed any more.
    pub fn freeze(self) -> FrozenLog
        ensures { result ≡ self.log }
    {
        self.log.freeze()
    }

    /// The record of an index, None exactly outside base + 1 to top.
    pub fn item(&self, index: u64) -> Option<&Record>
        ensures found { IsSome result ↔ ((self.now.log.base < index)
            × (index ≤ top self.now.log)) }
        ensures value { option_copied result ≡ record_at self.now.log index }
        ensures index { IfSome result (λ r. r.now.index ≡ index) }
    {
        self.log.item(index)
    }

    /// The index before the first record.
    pub fn base(&self) -> u64
        ensures value { result ≡ self.now.log.base }
        ensures order { IsLog self.now.log }
    {
        self.log.base()
    }

    /// The greatest index up to which all records are on this server's disk.
    pub fn lb(&self) -> u64
        ensures value { result ≡ self.now.log.lb }
        ensures order { IsLog self.now.log }
    {
        self.log.lb()
    }

    /// The greatest index up to which all records are applied to this server's tree.
    pub fn ap(&self) -> u64
        ensures value { result ≡ self.now.log.ap }
        ensures order { IsLog self.now.log }
    {
        self.log.ap()
    }

    /// The greatest index up to which all records are committed.
    pub fn cp(&self) -> u64
        ensures value { result ≡ self.now.log.cp }
        ensures order { IsLog self.now.log }
    {
        self.log.cp()
    }

    /// The index of the last record.
    pub fn top(&self) -> u64
        ensures value { result ≡ top self.now.log }
        ensures order { IsLog self.now.log }
    {
        self.log.top()
    }
}
