//! What a disk is to the layers above.

ghost use Rattle.std.specs.Prelude.{◌≡◌, ◌≤◌, ℕ, Option, Some, None, IfOk, OnOk, OnErr, Err};
ghost use Rattle.harp_types.specs.Streams.{Rose};
ghost use Rattle.harp_cells.specs.Effect.{Reads};
ghost use Rattle.harp_cells.specs.declared.change.Change.TheVariants.{EraseFrom};
ghost use Rattle.harp_store.specs.Disk.{Disk, Moments, with_value, without_from, synced_whole, with_mark, after_step, MayHaveMade, cells_told, ReadsMark};

use crate::mark::Mark;
use harp_cells::{Cell, SharedValue};
use std::alloc::{AllocError, Global};

/// Why a call of a store gave nothing.
#[derive(Clone, Copy, PartialEq, Eq)]
pub enum StoreFault {
    Failed,
    NoMemory,
}

impl From<AllocError> for StoreFault {
    ghost use Rattle.harp_store.specs.declared.store.StoreFault.TheVariants.{NoMemory};

    ghost from_gives = { λ _ fault. fault ≡ NoMemory };

    fn from(_: AllocError) -> StoreFault {
        StoreFault::NoMemory
    }
}

/// Cells and a mark on a disk. What is put or erased is on the disk for sure once it is synced; a
/// crash before may leave any of it, cell by cell. The mark is written whole.
pub trait Store {
    // The disk at each moment, where the store tells it.
    ghost told: { Self → Option Moments };

    // How many calls failed, which never falls.
    ghost faults: { Self → ℕ };

    /// Takes the place with this name for the store's own. It changes no cell and no mark.
    fn attach(&mut self, alloc: Global, path: &str) -> Result<(), StoreFault>
        ensures kept { told self.new ≡ told self.old }
        ensures rose { result ≡ Err StoreFault.Failed → Rose (faults self.old) (faults self.new) }
        ensures count { faults self.old ≤ faults self.new };

    /// What a cell holds, None where it is absent.
    fn read(&mut self, alloc: Global, cell: Cell) -> Result<Option<SharedValue>, StoreFault>
        ensures value { IfOk result (λ value. Reads (cells_told (told self.old)) cell value) }
        ensures kept { told self.new ≡ told self.old }
        ensures rose { (result ≡ Err StoreFault.Failed) → Rose (faults self.old) (faults self.new) }
        ensures count { faults self.old ≤ faults self.new };

    /// The cell holds the value, whatever it held before. The store may share it.
    fn put(&mut self, alloc: Global, cell: Cell, value: &SharedValue) -> Result<(), StoreFault>
        ensures put { OnOk result (told self.new
            ≡ after_step (with_value cell (Some value.now)) (told self.old)) }
        ensures part { OnErr result (MayHaveMade (with_value cell (Some value.now))
            (told self.old) (told self.new)) }
        ensures rose { result ≡ Err StoreFault.Failed → Rose (faults self.old) (faults self.new) }
        ensures count { faults self.old ≤ faults self.new };

    /// The cell is absent.
    fn erase(&mut self, alloc: Global, cell: Cell) -> Result<(), StoreFault>
        ensures erased { OnOk result (told self.new
            ≡ after_step (with_value cell None) (told self.old)) }
        ensures part { OnErr result (MayHaveMade (with_value cell None) (told self.old)
            (told self.new)) }
        ensures rose { result ≡ Err StoreFault.Failed → Rose (faults self.old) (faults self.new) }
        ensures count { faults self.old ≤ faults self.new };

    /// All blocks of the object from the first on are absent.
    fn erase_from(&mut self, alloc: Global, object: u32, first: u32) -> Result<(), StoreFault>
        ensures erased { OnOk result (told self.new
            ≡ after_step (without_from object first) (told self.old)) }
        ensures part { OnErr result (MayHaveMade (without_from object first) (told self.old)
            (told self.new)) }
        ensures rose { result ≡ Err StoreFault.Failed → Rose (faults self.old) (faults self.new) }
        ensures count { faults self.old ≤ faults self.new };

    /// What was put and erased is on the disk.
    fn sync(&mut self, alloc: Global) -> Result<(), StoreFault>
        ensures synced { OnOk result (told self.new ≡ after_step synced_whole (told self.old)) }
        ensures part { OnErr result (MayHaveMade synced_whole (told self.old) (told self.new)) }
        ensures rose { result ≡ Err StoreFault.Failed → Rose (faults self.old) (faults self.new) }
        ensures count { faults self.old ≤ faults self.new };

    /// The mark, None where none was written.
    fn read_mark(&mut self, alloc: Global) -> Result<Option<Mark>, StoreFault>
        ensures value { IfOk result (λ mark. ReadsMark (told self.old) mark) }
        ensures kept { told self.new ≡ told self.old }
        ensures rose { (result ≡ Err StoreFault.Failed) → Rose (faults self.old) (faults self.new) }
        ensures count { faults self.old ≤ faults self.new };

    /// Writes the mark whole. A crash in the middle leaves the old mark or this one, and so does a
    /// failed call.
    fn write_mark(&mut self, alloc: Global, mark: &Mark) -> Result<(), StoreFault>
        ensures written { OnOk result (told self.new
            ≡ after_step (with_mark mark.now) (told self.old)) }
        ensures part { OnErr result (MayHaveMade (with_mark mark.now) (told self.old)
            (told self.new)) }
        ensures rose { result ≡ Err StoreFault.Failed → Rose (faults self.old) (faults self.new) }
        ensures count { faults self.old ≤ faults self.new };
}
