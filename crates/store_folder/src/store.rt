//! The store over a folder.

ghost use Rattle.std.specs.Prelude.{◌≡◌, ◌⊎◌, ◌≤◌, [], Err, None, Some, IfOk, OnOk, OnErr};
ghost use Rattle.harp_types.specs.Streams.{Rose};
ghost use Rattle.harp_cells.specs.declared.change.Change.TheVariants as change;
ghost use Rattle.store_folder.specs.Sync.{Attaches, Detaches, MaySync, ReadsHere, ReadsMarkHere, SyncsAll, SyncsSome, WritesMark, WritesMarkPart, made_over};
ghost use Rattle.store_folder.specs.Unsynced.{GainsBlock, HasBlocks, IsAlike, IsChanged, IsNothing, made_of};
ghost use Rattle.store_folder.specs.Store.{beside, files_of, folder_of, journal_of, store_faults, unsynced_of};
ghost use Rattle.store_journal.specs.Waiting.{NothingWaits, waits};

use crate::disk_files::DiskFiles;
use crate::files::SystemFiles;
use crate::journal::Journal;
use crate::unsynced::Unsynced;
use crate::{folder, syncing};
use harp_cells::{Cell, SharedValue, Value};
use harp_store::{Mark, Store, StoreFault};
use std::alloc::{AllocError, Global};

/// A store over a folder of files, which `attach` names and makes.
///
/// The folder has a file for each cell that isn't absent: `meta`, `object-N`, `block-N-I`,
/// `slot-N-I`, `client-C`, `saved-P`, with the cell's numbers in decimal; each holds the spelling
/// of the cell's value. The file `mark` holds the mark. A file is replaced in one step: it is
/// written as `next`, synced and renamed. Other files are left alone.
///
/// Before the cells' files stands the `journal`. Puts and erasures stay in memory until `sync`
/// writes all of them as one entry of it, which costs one sync of a file; a sync that fails keeps
/// them for the next one. So what was synced last stands after a crash, whole. The files of cells
/// follow, so many at each sync; what they lack stays in memory, and `attach` takes it up from the
/// journal. An entry that is cut there was never synced, and counts for nothing. A folder without
/// a journal is one of which each file stands.
///
/// A folder has one store at a time. It tells nothing of the disk. Each error of a file is a
/// fault, and so are a folder that isn't there or that another store has, a call before `attach`,
/// a file that doesn't hold a value or a mark, whole and with nothing behind it, and a whole entry
/// of the journal that isn't of changes.
#[derive(Drop)]
pub struct FolderStore<F> {
    files: F,
    folder: Option<String>,
    unsynced: Unsynced,
    journal: Journal,
    faults: u64,
}

impl<R: AllocGlobal> FolderStore<SystemFiles<R>> {
    /// A store without a folder, over the files of the system.
    pub fn new(rt: R) -> FolderStore<SystemFiles<R>>
        ensures faults { store_faults result ≡ 0 }
        ensures unsynced { IsNothing (unsynced_of result) }
        ensures blocks { (unsynced_of result).blocks ≡ [] }
        ensures waiting { NothingWaits (journal_of result).waiting }
    {
        let unsynced = Unsynced::new(rt.alloc());
        let journal = Journal::new(rt.alloc());
        FolderStore {
            files: SystemFiles::new(rt),
            folder: None,
            unsynced,
            journal,
            faults: 0,
        }
    }
}

impl<F> FolderStore<F> {
    /// How many calls failed.
    pub fn faults(&self) -> u64
        ensures { result ≡ store_faults self.now }
    {
        self.faults
    }

    // The path of the folder.
    fn folder(&self) -> Result<&str, StoreFault>
        ensures { IfOk result (λ folder. folder_of self.now ≡ Some folder.now) }
    {
        match &self.folder {
            Some(folder) => Ok(folder.as_str()),
            None => Err(StoreFault::Failed),
        }
    }

    // Hands on what a call gave, and counts a failure.
    fn counted<T: Drop>(&mut self, given: Result<T, StoreFault>) -> Result<T, StoreFault>
        ensures same { result ≡ given }
        ensures unsynced { unsynced_of self.new ≡ unsynced_of self.old }
        ensures files { files_of self.new ≡ files_of self.old }
        ensures folder { folder_of self.new ≡ folder_of self.old }
        ensures journal { journal_of self.new ≡ journal_of self.old }
        ensures rose { result ≡ Err StoreFault.Failed
            → Rose (store_faults self.old) (store_faults self.new) }
        ensures count { store_faults self.old ≤ store_faults self.new }
    {
        if let Err(StoreFault::Failed) = given {
            self.faults = self.faults.saturating_add(1);
        }
        given
    }
}

// What was read, where copies share it.
fn shared(alloc: Global, value: Option<Value>) -> Result<Option<SharedValue>, AllocError>
    ensures { IfOk result (λ shared. shared ≡ value) }
{
    match value {
        Some(value) => Ok(Some(SharedValue::new(alloc, value)?)),
        None => Ok(None),
    }
}

impl<F: DiskFiles + Drop> FolderStore<F> {
    // Lets the folder go. What stands in its journal is taken up where it is attached again.
    fn detach(&mut self, alloc: Global)
        ensures unsynced { unsynced_of self.new ≡ unsynced_of self.old }
        ensures folder { folder_of self.new ≡ None }
        ensures waiting { NothingWaits (journal_of self.new).waiting }
        ensures files { files_of self.new ≡ files_of self.old }
        ensures faults { store_faults self.new ≡ store_faults self.old }
    {
        self.folder = None;
        self.journal = Journal::new(alloc);
    }

    // The journal of a folder that is made, where there is none, taken for this store, and synced.
    fn open_folder(&mut self, alloc: Global, path: &str) -> Result<Journal, StoreFault>
        ensures unsynced { unsynced_of self.new
            ≡ record (unsynced_of self.old) { blocks = (unsynced_of self.new).blocks } }
        ensures blocks { HasBlocks (unsynced_of self.old) (unsynced_of self.new) }
        ensures opened { IfOk result (λ journal. Attaches path.now (Some path.now) journal
            (F.told (files_of self.old)) (F.told (files_of self.new))) }
        ensures part { OnErr result (MaySync path.now (F.told (files_of self.old))
            (F.told (files_of self.new))) }
        ensures same { (folder_of self.new ≡ folder_of self.old) × (journal_of self.new
            ≡ journal_of self.old) × (store_faults self.new ≡ store_faults self.old) }
    {
        if path.is_empty() {
            return Err(StoreFault::Failed);
        }
        self.files.make_folder(path)?;
        self.files.lock_folder(path)?;
        self.files.sync_folder(path)?;
        folder::list_blocks(&self.files, alloc, path, &mut self.unsynced)?;
        let found = folder::read_journal(&self.files, alloc, path)?;
        let journal = Journal::of(alloc, found)?;
        journal.add_blocks(&mut self.unsynced)?;
        Ok(journal)
    }

    fn try_attach(&mut self, alloc: Global, path: &str) -> Result<(), StoreFault>
        ensures unsynced { unsynced_of self.new
            ≡ record (unsynced_of self.old) { blocks = (unsynced_of self.new).blocks } }
        ensures blocks { HasBlocks (unsynced_of self.old) (unsynced_of self.new) }
        ensures attached { OnOk result (Attaches path.now (folder_of self.new)
            (journal_of self.new) (F.told (files_of self.old)) (F.told (files_of self.new))) }
        ensures detached { OnErr result (Detaches path.now (folder_of self.new)
            (journal_of self.new) (F.told (files_of self.old)) (F.told (files_of self.new))) }
        ensures faults { store_faults self.new ≡ store_faults self.old }
    {
        self.detach(alloc);
        let folder = String::from_str(alloc, path)?;
        let journal = self.open_folder(alloc, path)?;
        self.journal = journal;
        self.folder = Some(folder);
        Ok(())
    }

    // What waits for a cell, and else what its file holds.
    fn read_synced(&self, alloc: Global, cell: Cell) -> Result<Option<Value>, StoreFault>
        ensures { IfOk result (λ v. ReadsHere (waits (journal_of self.now).waiting cell)
            (folder_of self.now) cell (F.told (files_of self.now)) v) }
    {
        match self.journal.waiting.find(alloc, cell)? {
            Some(value) => Ok(value),
            None => folder::read_cell(&self.files, alloc, self.folder()?, cell.key()),
        }
    }

    fn try_read(&mut self, alloc: Global, cell: Cell) -> Result<Option<SharedValue>, StoreFault>
        ensures made { IfOk result (λ v. ReadsHere (made_over (made_of (unsynced_of self.old) cell)
            (waits (journal_of self.old).waiting cell)) (folder_of self.old) cell
            (F.told (files_of self.old)) v) }
        ensures alike { IsAlike (unsynced_of self.old) (unsynced_of self.new) }
        ensures blocks { (unsynced_of self.new).blocks ≡ (unsynced_of self.old).blocks }
        ensures beside { beside (F.told (files_of self.new)) self.new
            ≡ beside (F.told (files_of self.old)) self.old }
        ensures faults { store_faults self.new ≡ store_faults self.old }
    {
        let value = match self.unsynced.find(alloc, cell)? {
            Some(value) => value,
            None => self.read_synced(alloc, cell)?,
        };
        Ok(shared(alloc, value)?)
    }

    fn try_sync(&mut self, alloc: Global) -> Result<(), StoreFault>
        ensures done { OnOk result (IsNothing (unsynced_of self.new)) }
        ensures alike { OnErr result (IsAlike (unsynced_of self.old) (unsynced_of self.new)) }
        ensures all { OnOk result (SyncsAll (folder_of self.old) (unsynced_of self.old)
            (unsynced_of self.new) (journal_of self.old) (journal_of self.new)
            (F.told (files_of self.old)) (F.told (files_of self.new))) }
        ensures some { OnErr result (SyncsSome (folder_of self.old) (unsynced_of self.old)
            (unsynced_of self.new) (journal_of self.old) (journal_of self.new)
            (F.told (files_of self.old)) (F.told (files_of self.new))) }
        ensures folder { folder_of self.new ≡ folder_of self.old }
        ensures faults { store_faults self.new ≡ store_faults self.old }
    {
        let Some(folder) = &self.folder else {
            return Err(StoreFault::Failed);
        };
        syncing::sync(
            &mut self.files,
            alloc,
            folder.as_str(),
            &mut self.unsynced,
            &mut self.journal,
        )?;
        self.unsynced.clear(alloc);
        Ok(())
    }

    fn try_read_mark(&self, alloc: Global) -> Result<Option<Mark>, StoreFault>
        ensures { IfOk result (λ mark. ReadsMarkHere (folder_of self.now)
            (F.told (files_of self.now)) mark) }
    {
        folder::read_mark(&self.files, alloc, self.folder()?)
    }

    fn try_write_mark(&mut self, alloc: Global, mark: &Mark) -> Result<(), StoreFault>
        ensures written { OnOk result (WritesMark (folder_of self.old) mark.now
            (F.told (files_of self.old)) (F.told (files_of self.new))) }
        ensures part { OnErr result (WritesMarkPart (folder_of self.old) mark.now
            (F.told (files_of self.old)) (F.told (files_of self.new))) }
        ensures unsynced { unsynced_of self.new ≡ unsynced_of self.old }
        ensures folder { folder_of self.new ≡ folder_of self.old }
        ensures journal { journal_of self.new ≡ journal_of self.old }
        ensures faults { store_faults self.new ≡ store_faults self.old }
    {
        let Some(folder) = &self.folder else {
            return Err(StoreFault::Failed);
        };
        folder::write_mark(&mut self.files, alloc, folder.as_str(), mark)
    }
}

impl<F: DiskFiles + Drop> Store for FolderStore<F> {
    ghost told = { λ _. None };

    ghost faults = { store_faults };

    /// Makes the folder and those above it, where there are none. What was put and erased since
    /// the last sync stays; a folder that the store had before is let go first.
    fn attach(&mut self, alloc: Global, path: &str) -> Result<(), StoreFault>
        ensures unsynced { unsynced_of self.new
            ≡ record (unsynced_of self.old) { blocks = (unsynced_of self.new).blocks } }
        ensures blocks { HasBlocks (unsynced_of self.old) (unsynced_of self.new) }
        ensures attached { OnOk result (Attaches path.now (folder_of self.new)
            (journal_of self.new) (F.told (files_of self.old)) (F.told (files_of self.new))) }
        ensures detached { OnErr result (Detaches path.now (folder_of self.new)
            (journal_of self.new) (F.told (files_of self.old)) (F.told (files_of self.new))) }

        ensures rose { result ≡ Err StoreFault.Failed
            → Rose (store_faults self.old) (store_faults self.new) }
        ensures count { store_faults self.old ≤ store_faults self.new }
    {
        let done = self.try_attach(alloc, path);
        self.counted(done)
    }

    fn read(&mut self, alloc: Global, cell: Cell) -> Result<Option<SharedValue>, StoreFault>
        // What was put or erased and isn't synced yet is read, then what waits in the journal.
        ensures made { IfOk result (λ v. ReadsHere (made_over (made_of (unsynced_of self.old) cell)
            (waits (journal_of self.old).waiting cell)) (folder_of self.old) cell
            (F.told (files_of self.old)) v) }
        ensures alike { IsAlike (unsynced_of self.old) (unsynced_of self.new) }
        ensures blocks { (unsynced_of self.new).blocks ≡ (unsynced_of self.old).blocks }
        ensures beside { beside (F.told (files_of self.new)) self.new
            ≡ beside (F.told (files_of self.old)) self.old }

        ensures rose { result ≡ Err StoreFault.Failed
            → Rose (store_faults self.old) (store_faults self.new) }
        ensures count { store_faults self.old ≤ store_faults self.new }
    {
        let read = self.try_read(alloc, cell);
        self.counted(read)
    }

    fn put(&mut self, alloc: Global, cell: Cell, value: &SharedValue) -> Result<(), StoreFault>
        // Reads give what the change makes of them, whatever the disk holds.
        ensures changed { OnOk result (IsChanged (change.Put cell value.now)
            (unsynced_of self.old) (unsynced_of self.new)) }
        ensures part { OnErr result (IsAlike (unsynced_of self.old) (unsynced_of self.new)
            ⊎ IsChanged (change.Put cell value.now) (unsynced_of self.old)
            (unsynced_of self.new)) }
        ensures added { OnOk result (GainsBlock cell (unsynced_of self.old)
            (unsynced_of self.new)) }
        ensures blocks { HasBlocks (unsynced_of self.old) (unsynced_of self.new) }
        ensures beside { beside (F.told (files_of self.new)) self.new
            ≡ beside (F.told (files_of self.old)) self.old }

        ensures rose { result ≡ Err StoreFault.Failed
            → Rose (store_faults self.old) (store_faults self.new) }
        ensures count { store_faults self.old ≤ store_faults self.new }
    {
        Ok(self.unsynced.put(alloc, cell, value.get())?)
    }

    fn erase(&mut self, alloc: Global, cell: Cell) -> Result<(), StoreFault>
        ensures changed { OnOk result (IsChanged (change.Erase cell)
            (unsynced_of self.old) (unsynced_of self.new)) }
        ensures alike { OnErr result (IsAlike (unsynced_of self.old) (unsynced_of self.new)) }
        ensures blocks { (unsynced_of self.new).blocks ≡ (unsynced_of self.old).blocks }
        ensures beside { beside (F.told (files_of self.new)) self.new
            ≡ beside (F.told (files_of self.old)) self.old }

        ensures rose { result ≡ Err StoreFault.Failed
            → Rose (store_faults self.old) (store_faults self.new) }
        ensures count { store_faults self.old ≤ store_faults self.new }
    {
        Ok(self.unsynced.erase(cell)?)
    }

    fn erase_from(&mut self, alloc: Global, object: u32, first: u32) -> Result<(), StoreFault>
        ensures changed { OnOk result (IsChanged (change.EraseFrom object first)
            (unsynced_of self.old) (unsynced_of self.new)) }
        ensures alike { OnErr result (IsAlike (unsynced_of self.old) (unsynced_of self.new)) }
        ensures blocks { (unsynced_of self.new).blocks ≡ (unsynced_of self.old).blocks }
        ensures beside { beside (F.told (files_of self.new)) self.new
            ≡ beside (F.told (files_of self.old)) self.old }

        ensures rose { result ≡ Err StoreFault.Failed
            → Rose (store_faults self.old) (store_faults self.new) }
        ensures count { store_faults self.old ≤ store_faults self.new }
    {
        Ok(self.unsynced.erase_from(object, first)?)
    }

    fn sync(&mut self, alloc: Global) -> Result<(), StoreFault>
        ensures done { OnOk result (IsNothing (unsynced_of self.new)) }
        ensures alike { OnErr result (IsAlike (unsynced_of self.old) (unsynced_of self.new)) }
        // Each cell that isn't synced is written into the journal, or the call fails.
        ensures all { OnOk result (SyncsAll (folder_of self.old) (unsynced_of self.old)
            (unsynced_of self.new) (journal_of self.old) (journal_of self.new)
            (F.told (files_of self.old)) (F.told (files_of self.new))) }
        ensures some { OnErr result (SyncsSome (folder_of self.old) (unsynced_of self.old)
            (unsynced_of self.new) (journal_of self.old) (journal_of self.new)
            (F.told (files_of self.old)) (F.told (files_of self.new))) }
        ensures folder { folder_of self.new ≡ folder_of self.old }

        ensures rose { result ≡ Err StoreFault.Failed
            → Rose (store_faults self.old) (store_faults self.new) }
        ensures count { store_faults self.old ≤ store_faults self.new }
    {
        let done = self.try_sync(alloc);
        self.counted(done)
    }

    fn read_mark(&mut self, alloc: Global) -> Result<Option<Mark>, StoreFault>
        ensures held { IfOk result (λ mark. ReadsMarkHere (folder_of self.old)
            (F.told (files_of self.old)) mark) }
        ensures unsynced { unsynced_of self.new ≡ unsynced_of self.old }
        ensures beside { beside (F.told (files_of self.new)) self.new
            ≡ beside (F.told (files_of self.old)) self.old }

        ensures rose { result ≡ Err StoreFault.Failed
            → Rose (store_faults self.old) (store_faults self.new) }
        ensures count { store_faults self.old ≤ store_faults self.new }
    {
        let read = self.try_read_mark(alloc);
        self.counted(read)
    }

    fn write_mark(&mut self, alloc: Global, mark: &Mark) -> Result<(), StoreFault>
        ensures written { OnOk result (WritesMark (folder_of self.old) mark.now
            (F.told (files_of self.old)) (F.told (files_of self.new))) }
        ensures part { OnErr result (WritesMarkPart (folder_of self.old) mark.now
            (F.told (files_of self.old)) (F.told (files_of self.new))) }
        ensures unsynced { unsynced_of self.new ≡ unsynced_of self.old }
        ensures folder { folder_of self.new ≡ folder_of self.old }
        ensures journal { journal_of self.new ≡ journal_of self.old }

        ensures rose { result ≡ Err StoreFault.Failed
            → Rose (store_faults self.old) (store_faults self.new) }
        ensures count { store_faults self.old ≤ store_faults self.new }
    {
        let done = self.try_write_mark(alloc, mark);
        self.counted(done)
    }
}
