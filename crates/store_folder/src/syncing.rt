//! A sync: an entry of the journal, and then files of cells.

ghost use Rattle.std.specs.Prelude.{OnOk, OnErr};
ghost use Rattle.store_folder.specs.Sync.{Syncs, SyncsPart};
ghost use Rattle.store_folder.specs.Unsynced.{IsAlike};

use crate::disk_files::DiskFiles;
use crate::journal::{Journal, bring_up};
use crate::unsynced::Unsynced;
use harp_store::StoreFault;
use std::alloc::Global;

/// Writes an entry of all that is unsynced, and brings up some files of cells.
pub fn sync<F: DiskFiles>(
    files: &mut F,
    alloc: Global,
    folder: &str,
    unsynced: &mut Unsynced,
    journal: &mut Journal,
) -> Result<(), StoreFault>
    ensures all { OnOk result (Syncs folder.now unsynced.old unsynced.new journal.old journal.new
        (F.told files.old) (F.told files.new)) }
    ensures some { OnErr result (SyncsPart folder.now unsynced.old unsynced.new journal.old
        journal.new (F.told files.old) (F.told files.new)) }
    ensures alike { IsAlike unsynced.old unsynced.new }
{
    let changes = unsynced.changes(alloc)?;
    if let Err(fault) = journal.write(files, alloc, folder, &changes) {
        return Err(fault);
    }
    unsynced.forget_erased(&changes);
    bring_up(files, alloc, folder, &mut journal.waiting)
}
