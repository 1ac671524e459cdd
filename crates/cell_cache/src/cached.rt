//! The cells of a store, with a cache in front.

ghost use Rattle.std.specs.Prelude.{◌≡◌, ℕ, ◌≤◌, Option, None, OnOk, OnErr, Err, false};
ghost use Rattle.std.specs.Option.{option_copied};
ghost use Rattle.harp_cells.specs.Effect.{Reads};
ghost use Rattle.harp_types.specs.Streams.{Rose};
ghost use Rattle.harp_store.specs.Disk.{Moments, cells_told};
ghost use Rattle.cell_cache.specs.Entries.{AreOf, IsUsed, found_in};

use crate::cache::CellCache;
use harp_cells::{Cell, CellFault, CellRead, Value};
use harp_store::{Store, StoreFault};
use std::alloc::Global;

/// The cells of a store, with a cache in front. Where the store tells its cells, each entry of the
/// cache is the store's cell.
#[derive(Drop)]
pub struct Cached<'a, D: Store> {
    store: &'a mut D,
    cache: &'a mut CellCache,
    alloc: Global,
    // Whether the cache's first entry is that of the cell that was fetched last.
    fetched: bool,
    ghost are: { AreOf (cells_told (D.told store.now)) cache.now.entries },
}

impl<'a, D: Store> Cached<'a, D> {
    /// The cells of the store. Nothing is read.
    pub fn new(alloc: Global, store: &'a mut D, cache: &'a mut CellCache) -> Cached<'a, D>
        requires { AreOf (cells_told (D.told store.old)) cache.old.entries }
        ensures same_store { result.store.ghost_name ≡ store.entry.ghost_name }
        ensures same_cache { result.cache.ghost_name ≡ cache.entry.ghost_name }
        ensures store { result.store.now ≡ store.old }
        ensures cache { result.cache.now ≡ cache.old }
        ensures fetched { result.fetched ≡ false }
    {
        Cached {
            store,
            cache,
            alloc,
            fetched: false,
        }
    }
}

impl<D: Store> CellRead for Cached<'_, D> {
    ghost cells = { λ s. cells_told (D.told s.store.now) };

    ghost found = { λ s. found_in s.fetched s.cache.now.entries };

    ghost faults = { λ s. D.faults s.store.now };

    ghost Left = { ℕ × ℕ × Option Moments };

    ghost left = { λ s. (s.store.ghost_name, s.cache.ghost_name, D.told s.store.now) };

    /// The store is read only where the cell has no entry. Afterwards its entry is the first.
    fn fetch(&mut self, cell: Cell) -> Result<(), CellFault>
        ensures found { OnOk result (Reads (cells_told (D.told self.old.store.now)) cell
            (found_in self.new.fetched self.new.cache.now.entries)) }
        ensures none { OnErr result (found_in self.new.fetched self.new.cache.now.entries ≡ None) }
        ensures kept { cells_told (D.told self.new.store.now)
            ≡ cells_told (D.told self.old.store.now) }
        ensures left { ◌≡◌ {A = ℕ × ℕ × Option Moments}
            (self.new.store.ghost_name, self.new.cache.ghost_name, D.told self.new.store.now)
            (self.old.store.ghost_name, self.old.cache.ghost_name, D.told self.old.store.now) }
        ensures rose { result ≡ Err CellFault.StoreFailed
            → Rose (D.faults self.old.store.now) (D.faults self.new.store.now) }
        ensures count { D.faults self.old.store.now ≤ D.faults self.new.store.now }

        ensures used { OnOk result (IsUsed cell self.old.cache.now self.new.cache.now) }
        ensures still { OnErr result (self.new.cache.now ≡ self.old.cache.now) }
    {
        self.fetched = self.cache.promote(cell);
        if self.fetched {
            return Ok(());
        }
        match self.store.read(self.alloc, cell) {
            Ok(value) => {
                self.cache.insert(cell, value)?;
                self.fetched = true;
                Ok(())
            }
            Err(StoreFault::Failed) => Err(CellFault::StoreFailed),
            Err(StoreFault::NoMemory) => Err(CellFault::NoMemory),
        }
    }

    fn value(&self) -> Option<&Value> {
        if self.fetched {
            self.cache.newest()
        } else {
            None
        }
    }
}
