//! An index over the records of a log.

ghost use Rattle.std.specs.Prelude.{◌≡◌, ℕ, Bool, not, ◌+◌, ◌-◌, ◌<◌, ◌≤◌, ◌==◌, ◌&&◌, ◌||◌, ◌∷◌, ◌++◌, [], false, length, drop, nat_lt, OnOk, OnErr};
ghost use Rattle.fuzzy_cells.specs.History.{History};
ghost use Rattle.overlay.specs.Index.{Place, blocks_of, place_of, names, is_entry, changes_at, IsAddedTo, IsIndexOf, IsLast, IsPartAddedTo, may_set};

use crate::indices::Indices;
use harp_cells::{Cell, Change, ChangeLog, Key};
use std::alloc::{AllocError, Global};
use std::collections::HashMap;
use std::marker::Model;

/// Which records of a log change what: per cell the ascending indices of those that put or erase
/// it, and per object the indices of those that erase its blocks from some one on. A look-up costs
/// a hash, and a logarithm of how many indices are kept there.
#[derive(Drop)]
pub struct CellIndex {
    alloc: Global,
    places: HashMap<Key, Indices>,
}

impl Model for CellIndex {
    ghost use Rattle.overlay.specs.Index.{AreInUse, Entries};

    ghost Value = { Entries };

    ghost view = { λ x. x.places.entries };

    ghost invariant = { λ x. AreInUse x.places.entries };
}

// The place of the blocks of an object.
fn blocks_of(object: u32) -> Key
    ensures { result ≡ blocks_of object }
{
    (7, object, 0)
}

fn place_of(change: &Change) -> Key
    ensures { result ≡ place_of change.now }
{
    match change {
        Change::Put { cell, .. } => cell.key(),
        Change::Erase { cell } => cell.key(),
        Change::EraseFrom { object, .. } => blocks_of(*object),
    }
}

// The later of two records.
fn later(one: Option<u64>, other: Option<u64>) -> Option<u64>
    ensures { (p q : ℕ → Bool) (upto : ℕ) → IsLast p upto one → IsLast q upto other
        → IsLast (λ j. p j || q j) upto result }
{
    match (one, other) {
        (Some(i), Some(j)) => Some(i.max(j)),
        (Some(i), None) => Some(i),
        (None, last) => last,
    }
}

// The last entry of a place up to an index.
fn last_at(places: &HashMap<Key, Indices>, place: Key, upto: u64) -> Option<u64>
    ensures { IsLast (names places.now.entries place) upto result }
{
    places.get(&place)?.last_upto(upto)
}

fn discard(_indices: Option<Indices>) {}

impl CellIndex {
    /// An index over no records.
    pub fn new(alloc: Global) -> CellIndex
        ensures { (base : ℕ) → IsIndexOf result base [] }
    {
        CellIndex {
            alloc,
            places: HashMap::new(alloc),
        }
    }

    // The first index of a place that has none.
    fn add_first(&mut self, place: Key, index: u64) -> Result<(), AllocError>
        ensures added { OnOk result (((i : ℕ) → names self.old place i ≡ false)
            → (p : Place) (i : ℕ) → names self.new p i
            ≡ (is_entry place index (p, i) || names self.old p i)) }
        ensures same { OnErr result ((p : Place) (i : ℕ) → names self.new p i
            ≡ names self.old p i) }
    {
        let indices = Indices::one(self.alloc, index)?;
        discard(self.places.insert(place, indices)?);
        Ok(())
    }

    fn add_place(&mut self, place: Key, index: u64) -> Result<(), AllocError>
        ensures added { OnOk result ((p : Place) (i : ℕ) → names self.new p i
            ≡ (is_entry place index (p, i) || names self.old p i)) }
        ensures same { OnErr result ((p : Place) (i : ℕ) → names self.new p i
            ≡ names self.old p i) }
    {
        match self.places.get_mut(&place) {
            Some(indices) => indices.add(index),
            None => self.add_first(place, index),
        }
    }

    fn remove_place(&mut self, place: Key, index: u64)
        ensures { (p : Place) (i : ℕ) → names self.new p i
            ≡ (not (is_entry place index (p, i)) && names self.old p i) }
    {
        let Some(indices) = self.places.get_mut(&place) else {
            return;
        };
        indices.remove(index);
        if indices.is_empty() {
            discard(self.places.remove(&place));
        }
    }

    // The record with this index has these changes; where memory runs out, some first ones.
    fn add_all(&mut self, index: u64, changes: &[Change]) -> Result<(), AllocError>
        ensures added { OnOk result (IsAddedTo self.old index changes.now self.new) }
        ensures part { OnErr result (IsPartAddedTo self.old index changes.now self.new) }
    {
        for change in changes {
            self.add_place(place_of(change), index)?;
        }
        Ok(())
    }

    // The record with this index has none of these changes.
    fn take_back(&mut self, index: u64, changes: &[Change])
        ensures { (p : Place) (i : ℕ) → names self.new p i
            ≡ (not ((index == i) && changes_at changes.now p) && names self.old p i) }
    {
        for change in changes {
            self.remove_place(place_of(change), index);
        }
    }

    /// The record with this index has these changes. Where memory runs out, it has none of them.
    pub fn add(&mut self, index: u64, changes: &[Change]) -> Result<(), AllocError>
        ensures added { OnOk result (IsAddedTo self.old index changes.now self.new) }
        ensures follows { OnOk result ((base : ℕ) (records : History)
            → IsIndexOf self.old base records → index ≡ base + length records + 1
            → IsIndexOf self.new base (records ++ changes.now ∷ [])) }
        ensures kept { OnErr result ((base : ℕ) (records : History)
            → IsIndexOf self.old base records → index ≡ base + length records + 1
            → IsIndexOf self.new base records) }
    {
        match self.add_all(index, changes) {
            Ok(()) => Ok(()),
            Err(fault) => {
                self.take_back(index, changes);
                Err(fault)
            }
        }
    }

    /// It is one over no records again.
    pub fn clear(&mut self)
        ensures { (base : ℕ) → IsIndexOf self.new base [] }
    {
        self.places.clear();
    }

    /// The records up to n go, of this log over which the index is: what each of them changes is
    /// read of the log, which drops them after that.
    pub fn drop_to<L: ChangeLog>(&mut self, log: &L, n: u64)
        ensures dropped { IsIndexOf self.old (L.base log.now) (L.records log.now)
            → (p : Place) (i : ℕ) → names self.new p i
            ≡ (nat_lt n i && names self.old p i) }
        ensures follows { IsIndexOf self.old (L.base log.now) (L.records log.now)
            → L.base log.now ≤ n
            → IsIndexOf self.new n (drop (n - L.base log.now) (L.records log.now)) }
    {
        let to = n.min(log.last());
        let mut at = log.first() - 1;
        while at < to {
            at += 1;
            self.take_back(at, log.changes(at));
        }
    }

    // The last record up to an index that may set the cell.
    pub(crate) fn last_for(&self, cell: Cell, upto: u64) -> Option<u64>
        ensures { IsLast (may_set self.now cell) upto result }
    {
        let own = last_at(&self.places, cell.key(), upto);
        match cell {
            Cell::Block { object, .. } => {
                later(own, last_at(&self.places, blocks_of(object), upto))
            }
            Cell::Meta
            | Cell::Object { .. }
            | Cell::Slot { .. }
            | Cell::Client { .. }
            | Cell::Saved { .. } => own,
        }
    }
}
