//! A store that stops after so many calls that change it.

ghost use Rattle.std.specs.Prelude.{◌≡◌, ◌+◌, ◌≤◌, [], Err, None, Some, is_some, length, true};
ghost use Rattle.harp_types.specs.Streams.{Rose};
ghost use Rattle.harp_store.specs.Disk.{then_disk};
ghost use Rattle.harp_store.specs.Memory.{crashed_by, without_past};
ghost use Rattle.harp_store.specs.Stopping.{made, stop_moment};
ghost use Rattle.harp_store.specs.Values.{stands, stored, told};

use crate::attempt::Attempt;
use crate::mark::Mark;
use crate::store::{Store, StoreFault};
use crate::stores::{SoundStore, StoppingStore};
use harp_cells::{Cell, SharedValue};
use harp_types::Pick;
use std::alloc::Global;

impl StoppingStore {
    /// Whether a call failed by the stop.
    pub fn is_stopped(&self) -> bool
        ensures value { result ≡ is_some self.now.stopped }
        ensures left { result ≡ true → self.now.left ≡ 0 }
        ensures within { self.now.left + length (stands self.now).past ≤ stop_moment }
    {
        self.stopped.is_some()
    }

    /// The store without its stop.
    pub fn lift(self) -> SoundStore
        ensures { stored result ≡ without_past (stands self) }
    {
        let mut store = self.store;
        store.settle();
        SoundStore::of(store)
    }

    /// The store after a crash: of the changes that weren't synced those stay that the pick keeps.
    pub fn crash(self, pick: &Pick) -> SoundStore
        ensures { stored result
            ≡ record { past = []; now = crashed_by pick.now (stands self).now } }
    {
        let mut store = self.store;
        store.crash(pick);
        SoundStore::of(store)
    }

    /// The call that the stop comes before.
    fn stop(&mut self, attempt: Attempt) -> StoreFault
        requires stopped { self.old.stopped ≡ None }
        requires left { self.old.left ≡ 0 }
        ensures fails { result ≡ StoreFault.Failed }
        ensures told { told self.new ≡ then_disk (made attempt (told self.old).now)
            (told self.old) }
        ensures rose { Rose self.old.faults self.new.faults }
        ensures count { self.old.faults ≤ self.new.faults }
    {
        self.stopped = Some(attempt);
        self.faults = 1;
        StoreFault::Failed
    }

    /// A call after the stop.
    fn fail(&mut self) -> StoreFault
        requires { is_some self.old.stopped ≡ true }
        ensures fails { result ≡ StoreFault.Failed }
        ensures told { told self.new ≡ told self.old }
        ensures rose { Rose self.old.faults self.new.faults }
        ensures count { self.old.faults ≤ self.new.faults }
    {
        self.faults = self.faults.saturating_add(1);
        StoreFault::Failed
    }
}

impl Store for StoppingStore {
    ghost use Rattle.std.specs.Prelude.{Some};

    ghost told = { λ s. Some (told s) };

    ghost faults = { λ s. s.faults };

    fn attach(&mut self, alloc: Global, path: &str) -> Result<(), StoreFault> {
        if self.stopped.is_some() {
            return Err(self.fail());
        }
        self.store.attach(alloc, path)
    }

    fn read(&mut self, alloc: Global, cell: Cell) -> Result<Option<SharedValue>, StoreFault> {
        if self.stopped.is_some() {
            return Err(self.fail());
        }
        self.store.read(alloc, cell)
    }

    fn put(&mut self, alloc: Global, cell: Cell, value: &SharedValue) -> Result<(), StoreFault> {
        if self.stopped.is_some() {
            return Err(self.fail());
        }
        if self.left == 0 {
            let value = value.share()?;
            return Err(self.stop(Attempt::Put { cell, value }));
        }
        self.store.put(alloc, cell, value)?;
        self.left -= 1;
        Ok(())
    }

    fn erase(&mut self, alloc: Global, cell: Cell) -> Result<(), StoreFault> {
        if self.stopped.is_some() {
            return Err(self.fail());
        }
        if self.left == 0 {
            return Err(self.stop(Attempt::Erase { cell }));
        }
        self.store.erase(alloc, cell)?;
        self.left -= 1;
        Ok(())
    }

    fn erase_from(&mut self, alloc: Global, object: u32, first: u32) -> Result<(), StoreFault> {
        if self.stopped.is_some() {
            return Err(self.fail());
        }
        if self.left == 0 {
            return Err(self.stop(Attempt::EraseFrom { object, first }));
        }
        self.store.erase_from(alloc, object, first)?;
        self.left -= 1;
        Ok(())
    }

    fn sync(&mut self, alloc: Global) -> Result<(), StoreFault> {
        if self.stopped.is_some() {
            return Err(self.fail());
        }
        if self.left == 0 {
            return Err(self.stop(Attempt::Sync));
        }
        self.store.sync(alloc)?;
        self.left -= 1;
        Ok(())
    }

    fn read_mark(&mut self, alloc: Global) -> Result<Option<Mark>, StoreFault> {
        if self.stopped.is_some() {
            return Err(self.fail());
        }
        self.store.read_mark(alloc)
    }

    fn write_mark(&mut self, alloc: Global, mark: &Mark) -> Result<(), StoreFault> {
        if self.stopped.is_some() {
            return Err(self.fail());
        }
        if self.left == 0 {
            return Err(self.stop(Attempt::WriteMark { mark: *mark }));
        }
        self.store.write_mark(alloc, mark)?;
        self.left -= 1;
        Ok(())
    }
}
