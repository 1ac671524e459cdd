//! A cache of cells.

ghost use Rattle.std.specs.Prelude.{◌≡◌, ◌-◌, ◌<◌, ◌≤◌, [], ◌∷◌, length, take, IfOk, OnOk, OnErr, IfSome, IfNone, true, false, Option, Some};
ghost use Rattle.std.specs.Option.{option_copied};
ghost use Rattle.std.specs.Map.{remove_entry};
ghost use Rattle.harp_cells.specs.Effect.{Cells, Reads, after, is_cell, sets};
ghost use Rattle.harp_cells.specs.declared.change.Change.TheVariants as change;
ghost use Rattle.cell_cache.specs.Entries.{AreOf, AreUpTo, IsUpTo, IsUsed, has_entry, left_by, newest_of};

use harp_cells::{Cell, Change, SharedValue, Value};
use lru::LruCache;
use std::alloc::{AllocError, Global};
use std::marker::Model;
use std::num::NonZeroUsize;

/// Cells and what they hold, the most recently used first. An absent cell has an entry too. The
/// least recently used one goes where no place is left.
#[derive(Drop)]
pub struct CellCache {
    entries: LruCache<Cell, Option<SharedValue>>,
    // No entry is of a block with a greater number.
    last_block: u32,
}

impl Model for CellCache {
    ghost use Rattle.cell_cache.specs.Entries.{Kept, AreUpTo};

    ghost Value = { Kept };

    ghost view = { λ c. record { entries = c.entries.entries; places = c.entries.cap } };

    ghost invariant = { λ c. AreUpTo c.last_block c.entries.entries };
}

impl CellCache {
    /// A cache with so many places and no entry.
    pub fn new(alloc: Global, places: u32) -> Result<CellCache, AllocError>
        requires { 0 < places }
        ensures { IfOk result (λ c. c ≡ record { entries = []; places = places }) }
    {
        Ok(CellCache {
            entries: LruCache::sparse(alloc, NonZeroUsize::new(places as usize).unwrap())?,
            last_block: 0,
        })
    }

    // The cell's entry becomes the first, where there is one.
    pub(crate) fn promote(&mut self, cell: Cell) -> bool
        ensures value { result ≡ has_entry cell self.old.entries }
        ensures found { result ≡ true → (told : Option Cells) → AreOf told self.old.entries
            → Reads told cell (newest_of self.new.entries) }
        ensures used { result ≡ true → IsUsed cell self.old self.new }
        ensures kept { (told : Option Cells) → AreOf told self.old.entries
            → AreOf told self.new.entries }
        ensures still { result ≡ false → self.new ≡ self.old }
    {
        self.entries.promote(&cell)
    }

    // The cell has no entry: it gets this one, as the first.
    pub(crate) fn insert(
        &mut self,
        cell: Cell,
        value: Option<SharedValue>,
    ) -> Result<(), AllocError>
        requires { has_entry cell self.old.entries ≡ false }
        ensures found { OnOk result (newest_of self.new.entries ≡ value) }
        ensures used { OnOk result (IsUsed cell self.old self.new) }
        ensures kept { (told : Option Cells) → AreOf told self.old.entries
            → Reads told cell value → AreOf told self.new.entries }
        ensures err { OnErr result (self.new ≡ self.old) }
    {
        self.entries.put(cell, value)?;
        self.last_block = greater_block(self.last_block, cell);
        Ok(())
    }

    // What the first entry's cell holds.
    pub(crate) fn newest(&self) -> Option<&Value>
        ensures { option_copied result ≡ newest_of self.now.entries }
    {
        let (_, value) = self.entries.peek_mru()?;
        match value {
            Some(value) => Some(value.get()),
            None => None,
        }
    }

    // Whether the cell has an entry.
    fn has(&self, cell: Cell) -> bool
        ensures { result ≡ has_entry cell self.now.entries }
    {
        self.entries.contains(&cell)
    }

    // The cell of the first entry that a change sets.
    fn first_set(&self, change: &Change) -> Option<Cell>
        ensures found { IfSome result (λ c. sets change.now c ≡ true) }
        ensures entry { IfSome result (λ c. has_entry c self.now.entries ≡ true) }
        ensures none { IfNone result (left_by change.now self.now.entries ≡ self.now.entries) }
    {
        for (cell, _) in self.entries.iter() {
            if change.sets(*cell) {
                return Some(*cell);
            }
        }
        None
    }

    // The entry of a cell goes.
    fn drop_entry(&mut self, cell: Cell)
        ensures entries { self.new ≡ record {
          entries = remove_entry (is_cell cell) self.old.entries;
          places = self.old.places;
        } }
        ensures fewer { has_entry cell self.old.entries ≡ true
            → length self.new.entries < length self.old.entries }
    {
        self.entries.pop(&cell);
    }

    // Drops the entry of one cell, without a look at the others.
    fn forget_cell(&mut self, cell: Cell)
        ensures { self.new ≡ record {
          entries = left_by (change.Erase cell) self.old.entries;
          places = self.old.places;
        } }
    {
        while self.has(cell) {
            self.drop_entry(cell);
        }
    }

    // Drops the entries of all cells that the change sets, which may be many.
    fn forget_each(&mut self, change: &Change)
        ensures { self.new ≡ record {
          entries = left_by change.now self.old.entries;
          places = self.old.places;
        } }
    {
        while let Some(cell) = self.first_set(change) {
            self.drop_entry(cell);
        }
    }

    // No entry is of a block with a greater number.
    fn last_block(&self) -> u32
        ensures { AreUpTo result self.now.entries }
    {
        self.last_block
    }

    // Whether the blocks from the first on that may have entries are no more than the entries, so
    // that to look each up takes no more steps than a walk.
    fn has_few_from(&self, first: u32) -> bool {
        (self.last_block.saturating_sub(first) as usize) < self.entries.len()
    }

    // Drops the entries of the object's blocks from the first on, without a look at the others.
    fn forget_blocks(&mut self, object: u32, first: u32)
        ensures { self.new ≡ record {
          entries = left_by (change.EraseFrom object first) self.old.entries;
          places = self.old.places;
        } }
    {
        for block in first..=self.last_block() {
            self.forget_cell(Cell::Block { object, block });
        }
    }

    /// Drops the entries of all cells that the change sets, and keeps the others in their order. It
    /// takes no memory.
    pub fn forget(&mut self, change: &Change)
        ensures left { self.new ≡ record {
          entries = left_by change.now self.old.entries;
          places = self.old.places;
        } }
        ensures after { (cells : Cells) → AreOf (Some cells) self.old.entries
            → AreOf (Some (after (change.now ∷ []) cells)) self.new.entries }
    {
        match change {
            Change::Put { cell, .. } => self.forget_cell(*cell),
            Change::Erase { cell } => self.forget_cell(*cell),
            Change::EraseFrom { object, first } => {
                if self.has_few_from(*first) {
                    self.forget_blocks(*object, *first)
                } else {
                    self.forget_each(change)
                }
            }
        }
    }
}

// The number, or the cell's where that is a block with a greater one.
fn greater_block(number: u32, cell: Cell) -> u32
    ensures number { number ≤ result }
    ensures cell { IsUpTo result cell }
{
    match cell {
        Cell::Block { block, .. } => number.max(block),
        Cell::Meta => number,
        Cell::Object { .. } => number,
        Cell::Slot { .. } => number,
        Cell::Client { .. } => number,
        Cell::Saved { .. } => number,
    }
}
