//! Ascending indices.

ghost use Rattle.std.specs.Prelude.{◌≡◌, ◌<◌, ℕ, [], ◌∷◌, length, true, false, ◌↔◌, IfOk, OnOk, OnErr, if◌then◌else◌, ◌==◌, slice_index_or};
ghost use Rattle.overlay.specs.Indices.{is_among};
ghost use Rattle.overlay.specs.Index.{IsLast};

use std::alloc::{AllocError, Global};
use std::collections::VecDeque;
use std::marker::Model;

/// Indices of records, ascending. The greatest one comes and is found, and the least one goes,
/// without a search.
#[derive(Drop)]
pub struct Indices {
    items: VecDeque<u64>,
}

impl Model for Indices {
    ghost use Rattle.std.specs.Prelude.{ℕ, List};
    ghost use Rattle.overlay.specs.Indices.{Ascend};

    ghost Value = { List ℕ };

    ghost view = { λ s. s.items.items };

    ghost invariant = { λ s. Ascend s.items.items };
}

impl Indices {
    /// One index.
    pub fn one(alloc: Global, index: u64) -> Result<Indices, AllocError>
        ensures { IfOk result (λ s. s ≡ index ∷ []) }
    {
        let mut items = VecDeque::new(alloc);
        items.push_back(index)?;
        Ok(Indices { items })
    }

    // Whether the index stands in a place.
    fn stands_at(&self, index: u64, place: usize) -> bool
        ensures there { result ≡ true
            → (place < length self.now) × (index ≡ slice_index_or self.now place 0) }
        ensures not { result ≡ false → place < length self.now
            → index ≡ slice_index_or self.now place 0 → ⊥ }
    {
        match self.items.get(place) {
            Some(there) => *there == index,
            None => false,
        }
    }

    /// The index is one of them.
    pub fn add(&mut self, index: u64) -> Result<(), AllocError>
        ensures added { OnOk result ((i : ℕ) → is_among self.new i
            ≡ (if index == i then true else is_among self.old i)) }
        ensures some { OnOk result (0 < length self.new) }
        ensures same { OnErr result (self.new ≡ self.old) }
    {
        match self.items.back() {
            Some(last) if index <= *last => self.put(index),
            _ => {
                self.items.push_back(index)?;
                Ok(())
            }
        }
    }

    // The index comes to its place, which isn't the last one.
    fn put(&mut self, index: u64) -> Result<(), AllocError>
        ensures added { OnOk result ((i : ℕ) → is_among self.new i
            ≡ (if index == i then true else is_among self.old i)) }
        ensures some { OnOk result (0 < length self.new) }
        ensures same { OnErr result (self.new ≡ self.old) }
    {
        let at = self.items.partition_point(|i| *i < index);
        if !self.stands_at(index, at) {
            self.items.insert(at, index)?;
        }
        Ok(())
    }

    /// The index is none of them.
    pub fn remove(&mut self, index: u64)
        ensures { (i : ℕ) → is_among self.new i
            ≡ (if index == i then false else is_among self.old i) }
    {
        if self.stands_at(index, 0) {
            self.items.pop_front();
        } else {
            self.take_out(index);
        }
    }

    // The same, by a search.
    fn take_out(&mut self, index: u64)
        ensures { (i : ℕ) → is_among self.new i
            ≡ (if index == i then false else is_among self.old i) }
    {
        let at = self.items.partition_point(|i| *i < index);
        if self.stands_at(index, at) {
            self.items.remove(at);
        }
    }

    /// Whether there is none.
    pub fn is_empty(&self) -> bool
        ensures { result ≡ true ↔ (length self.now ≡ 0) }
    {
        self.items.is_empty()
    }

    /// The last one up to a number.
    pub fn last_upto(&self, upto: u64) -> Option<u64>
        ensures { IsLast (is_among self.now) upto result }
    {
        match self.items.back() {
            Some(last) if *last <= upto => Some(*last),
            _ => self.last_within(upto),
        }
    }

    // The same, by a search.
    fn last_within(&self, upto: u64) -> Option<u64>
        ensures { IsLast (is_among self.now) upto result }
    {
        let after = self.items.partition_point(|i| *i <= upto);
        let at = after.checked_sub(1)?;
        self.items.get(at).copied()
    }
}
