//! The disk of a server.

ghost use Rattle.std.specs.Prelude.{None};

use harp_cells::{Cell, SharedValue};
use harp_store::{Mark, MemStore, Store, StoreFault};
use std::alloc::Global;

/// A store in memory that tells nothing of its cells, so that a server over it needs no proof of
/// what it keeps of them.
#[derive(Drop)]
pub struct Disk {
    pub store: MemStore,
}

impl Store for Disk {
    ghost told = { λ _. None };

    ghost faults = { λ s. s.store.failing.faults };

    fn attach(&mut self, alloc: Global, path: &str) -> Result<(), StoreFault> {
        self.store.attach(alloc, path)
    }

    fn read(&mut self, alloc: Global, cell: Cell) -> Result<Option<SharedValue>, StoreFault> {
        self.store.read(alloc, cell)
    }

    fn put(&mut self, alloc: Global, cell: Cell, value: &SharedValue) -> Result<(), StoreFault> {
        self.store.put(alloc, cell, value)
    }

    fn erase(&mut self, alloc: Global, cell: Cell) -> Result<(), StoreFault> {
        self.store.erase(alloc, cell)
    }

    fn erase_from(&mut self, alloc: Global, object: u32, first: u32) -> Result<(), StoreFault> {
        self.store.erase_from(alloc, object, first)
    }

    fn sync(&mut self, alloc: Global) -> Result<(), StoreFault> {
        self.store.sync(alloc)
    }

    fn read_mark(&mut self, alloc: Global) -> Result<Option<Mark>, StoreFault> {
        self.store.read_mark(alloc)
    }

    fn write_mark(&mut self, alloc: Global, mark: &Mark) -> Result<(), StoreFault> {
        self.store.write_mark(alloc, mark)
    }
}
