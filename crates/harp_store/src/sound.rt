//! A store of which no call fails.

ghost use Rattle.std.specs.Prelude.{◌≡◌, [], None};
ghost use Rattle.harp_store.specs.Memory.{crashed_by, nothing_stored, stored_of, without_past};
ghost use Rattle.harp_store.specs.Sound.{IsSound};
ghost use Rattle.harp_store.specs.Values.{stands, stored};

use crate::mark::Mark;
use crate::mem_store::MemStore;
use crate::store::{Store, StoreFault};
use crate::stores::{SoundStore, StoppingStore};
use harp_cells::{Cell, SharedValue};
use harp_types::Pick;
use std::alloc::Global;

impl SoundStore {
    /// A store without a cell or a mark.
    pub fn new(alloc: Global) -> SoundStore
        ensures { stored result ≡ nothing_stored }
    {
        SoundStore {
            store: MemStore::new(alloc),
        }
    }

    /// Drops the record of the earlier moments. No cell and no mark changes.
    pub fn settle(&mut self)
        ensures { stored self.new ≡ without_past (stored self.old) }
    {
        self.store.settle();
    }

    /// A crash: of the changes that weren't synced those stay that the pick keeps.
    pub fn crash(&mut self, pick: &Pick)
        ensures { stored self.new
            ≡ record { past = []; now = crashed_by pick.now (stored self.old).now } }
    {
        self.store.crash(pick);
    }

    /// The store with a stop: so many calls that change it pass.
    pub fn stop_after(self, calls: u64) -> StoppingStore
        ensures left { result.left ≡ calls }
        ensures stopped { result.stopped ≡ None }
        ensures stands { stands result ≡ without_past (stored self) }
    {
        let mut store = self.store;
        store.settle();
        StoppingStore {
            store,
            left: calls,
            stopped: None,
            faults: 0,
        }
    }

    /// A store in memory without a stop.
    pub(crate) fn of(store: MemStore) -> SoundStore
        requires { IsSound store.failing }
        ensures { stored result ≡ stored_of store }
    {
        SoundStore { store }
    }
}

impl Store for SoundStore {
    ghost use Rattle.std.specs.Prelude.{Some};

    ghost told = { λ s. Some (stored s) };

    ghost faults = { λ s. 0 };

    fn attach(&mut self, alloc: Global, path: &str) -> Result<(), StoreFault> {
        self.store.attach(alloc, path)
    }

    fn read(&mut self, alloc: Global, cell: Cell) -> Result<Option<SharedValue>, StoreFault> {
        self.store.read(alloc, cell)
    }

    fn put(&mut self, alloc: Global, cell: Cell, value: &SharedValue) -> Result<(), StoreFault> {
        self.store.put(alloc, cell, value)
    }

    fn erase(&mut self, alloc: Global, cell: Cell) -> Result<(), StoreFault> {
        self.store.erase(alloc, cell)
    }

    fn erase_from(&mut self, alloc: Global, object: u32, first: u32) -> Result<(), StoreFault> {
        self.store.erase_from(alloc, object, first)
    }

    fn sync(&mut self, alloc: Global) -> Result<(), StoreFault> {
        self.store.sync(alloc)
    }

    fn read_mark(&mut self, alloc: Global) -> Result<Option<Mark>, StoreFault> {
        self.store.read_mark(alloc)
    }

    fn write_mark(&mut self, alloc: Global, mark: &Mark) -> Result<(), StoreFault> {
        self.store.write_mark(alloc, mark)
    }
}
