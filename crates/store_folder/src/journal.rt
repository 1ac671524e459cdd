//! The journal, and the files of cells that follow it.

ghost use Rattle.std.specs.Prelude.{◌≡◌, ◌≤◌, ◌++◌, IfOk, IsSome, OnOk, OnErr, None, Some, option_map, ◌==◌, if◌then◌else◌};
ghost use Rattle.store_folder.specs.Files.{AppendsPart, after_steps};
ghost use Rattle.store_folder.specs.Journal.{BeginsPart, BringsUp, Journals, JournalsPart, Writes, WritesPart, entry_steps, journal_path as journal_at, new_steps};
ghost use Rattle.store_journal.specs.JournalFile.{entry_bytes};
ghost use Rattle.store_folder.specs.Sync.{IsJournalOf, at_once};
ghost use Rattle.store_folder.specs.Unsynced.{HasBlocks};
ghost use Rattle.store_journal.specs.Waiting.{NothingWaits, changes_in};

use crate::disk_files::DiskFiles;
use crate::folder;
use crate::names::{journal_path, next_path};
use crate::unsynced::Unsynced;
use harp_cells::{Cell, Change};
use harp_store::StoreFault;
use std::alloc::{AllocError, Global};
use store_journal::{Waiting, add_copies, take_up, write_entry};

/// How many files of cells are brought up at a sync, each with a sync of its own.
const AT_ONCE: usize = 32;

/// A journal that is longer is begun anew.
const ROOM: u64 = 1 << 24;

/// The same of one whose cells are all brought up.
const EMPTY_ROOM: u64 = 1 << 16;

/// What a cell that waits adds to the room: about twice its bytes.
const ROOM_OF_CELL: u64 = 1 << 13;

/// The journal of a folder: its length, where it ends with a whole entry, and the changes in it to
/// which the files of cells aren't brought up.
#[derive(Drop)]
pub struct Journal {
    pub length: Option<u64>,
    pub waiting: Waiting,
}

// An entry behind the others.
fn append<F: DiskFiles>(
    files: &mut F,
    alloc: Global,
    folder: &str,
    length: u64,
    changes: &[Change],
) -> Result<Option<u64>, StoreFault>
    ensures done { OnOk result (F.told files.new
        ≡ after_steps (entry_steps folder.now changes.now) (F.told files.old)) }
    ensures part { OnErr result (AppendsPart (journal_at folder.now) (entry_bytes changes.now)
        (F.told files.old) (F.told files.new)) }
{
    let bytes = write_entry(alloc, changes)?;
    let path = journal_path(alloc, folder)?;
    files.append(&path, &bytes)?;
    Ok(Some(length.saturating_add(bytes.len() as u64)))
}

// A new journal of one entry, once the files that were brought up are there for sure.
fn begin<F: DiskFiles>(
    files: &mut F,
    alloc: Global,
    folder: &str,
    changes: &[Change],
) -> Result<Option<u64>, StoreFault>
    ensures done { OnOk result (F.told files.new
        ≡ after_steps (new_steps folder.now changes.now) (F.told files.old)) }
    ensures part { OnErr result (BeginsPart folder.now changes.now (F.told files.old)
        (F.told files.new)) }
{
    let bytes = write_entry(alloc, changes)?;
    let path = journal_path(alloc, folder)?;
    let next = next_path(alloc, folder)?;
    files.sync_folder(folder)?;
    files.replace(&next, &path, &bytes)?;
    files.sync_folder(folder)?;
    Ok(Some(bytes.len() as u64))
}

// The length of a journal whose whole entries end at a place, where nothing stands behind them.
fn whole_length(end: usize, length: usize) -> Option<u64>
    ensures { result ≡ (if end == length then Some end else None) }
{
    if end == length {
        Some(end as u64)
    } else {
        None
    }
}

// The disk has the block that a change puts, where it puts one.
fn add_block_of(change: &Change, unsynced: &mut Unsynced) -> Result<(), AllocError>
    ensures same { unsynced.new ≡ record unsynced.old { blocks = unsynced.new.blocks } }
    ensures blocks { HasBlocks unsynced.old unsynced.new }
{
    match change {
        Change::Put {
            cell: Cell::Block { object, block },
            ..
        } => unsynced.add_block(*object, *block),
        Change::Put { .. } => Ok(()),
        Change::Erase { .. } => Ok(()),
        Change::EraseFrom { .. } => Ok(()),
    }
}

impl Journal {
    /// A journal that isn't there.
    pub fn new(alloc: Global) -> Journal
        ensures length { result.length ≡ None }
        ensures waiting { NothingWaits result.waiting }
    {
        Journal {
            length: None,
            waiting: Waiting::new(alloc),
        }
    }

    /// The journal that these bytes are, None for a folder without one. What stands behind its
    /// whole entries was never synced, and so counts for nothing.
    pub fn of(alloc: Global, found: Option<Vec<u8>>) -> Result<Journal, StoreFault>
        ensures { IfOk result (λ j. IsJournalOf (option_map (λ bytes. bytes.items) found) j) }
    {
        let mut journal = Journal::new(alloc);
        let Some(bytes) = found else {
            return Ok(journal);
        };
        let end = take_up(alloc, &bytes, &mut journal.waiting)?;
        journal.length = whole_length(end, bytes.len());
        Ok(journal)
    }

    /// The disk has the blocks for which values wait.
    pub fn add_blocks(&self, unsynced: &mut Unsynced) -> Result<(), AllocError>
        ensures same { unsynced.new ≡ record unsynced.old { blocks = unsynced.new.blocks } }
        ensures blocks { HasBlocks unsynced.old unsynced.new }
    {
        for (_, change) in self.waiting.iter() {
            add_block_of(change, unsynced)?;
        }
        Ok(())
    }

    // How long the journal may be without being begun anew.
    fn room(&self) -> u64 {
        match self.waiting.count() {
            0 => EMPTY_ROOM,
            count => (count as u64)
                .saturating_mul(ROOM_OF_CELL)
                .saturating_add(ROOM),
        }
    }

    // The journal's length, where an entry may stand behind the others.
    fn length_within(&self) -> Option<u64>
        ensures { IsSome result → IsSome self.now.length }
    {
        let length = self.length?;
        if length <= self.room() {
            Some(length)
        } else {
            None
        }
    }

    // Writes an entry, and returns the journal's length behind it.
    fn write_entry<F: DiskFiles>(
        &self,
        files: &mut F,
        alloc: Global,
        folder: &str,
        changes: &[Change],
    ) -> Result<Option<u64>, StoreFault>
        ensures done { IfOk result (λ end. Writes folder.now changes.now self.now end
            (F.told files.old) (F.told files.new)) }
        ensures part { OnErr result (WritesPart folder.now changes.now self.now
            (F.told files.old) (F.told files.new)) }
    {
        if changes.is_empty() {
            return Ok(self.length);
        }
        if let Some(length) = self.length_within() {
            return append(files, alloc, folder, length, changes);
        }
        let mut all = self.waiting.changes(alloc)?;
        add_copies(alloc, &mut all, changes)?;
        begin(files, alloc, folder, &all)
    }

    /// An entry of these changes is written, and they wait. Where the writing fails, the next
    /// entry begins a new journal.
    pub fn write<F: DiskFiles>(
        &mut self,
        files: &mut F,
        alloc: Global,
        folder: &str,
        changes: &[Change],
    ) -> Result<(), StoreFault>
        ensures done { OnOk result (Journals folder.now changes.now self.old self.new
            (F.told files.old) (F.told files.new)) }
        ensures part { OnErr result (JournalsPart folder.now changes.now self.old self.new
            (F.told files.old) (F.told files.new)) }
    {
        match self.write_entry(files, alloc, folder, changes) {
            Ok(length) => self.length = length,
            Err(fault) => {
                self.length = None;
                return Err(fault);
            }
        }
        Ok(self.waiting.add_all(alloc, changes)?)
    }
}

// The file of the cell that began to wait first is brought up.
fn bring_up_one<F: DiskFiles>(
    files: &mut F,
    alloc: Global,
    folder: &str,
    waiting: &mut Waiting,
) -> Result<(), StoreFault>
    ensures { BringsUp 1 folder.now waiting.old waiting.new (F.told files.old) (F.told files.new) }
{
    let Some(cell) = waiting.oldest() else {
        return Ok(());
    };
    let Some(value) = waiting.find(alloc, cell)? else {
        waiting.settle(cell);
        return Ok(());
    };
    folder::write_cell(files, alloc, folder, cell, &value)?;
    waiting.settle(cell);
    Ok(())
}

/// Brings up the files of the cells that began to wait first.
pub fn bring_up<F: DiskFiles>(
    files: &mut F,
    alloc: Global,
    folder: &str,
    waiting: &mut Waiting,
) -> Result<(), StoreFault>
    ensures { BringsUp at_once folder.now waiting.old waiting.new (F.told files.old)
        (F.told files.new) }
{
    for _ in 0..AT_ONCE {
        if let Err(fault) = bring_up_one(files, alloc, folder, waiting) {
            return Err(fault);
        }
    }
    Ok(())
}
