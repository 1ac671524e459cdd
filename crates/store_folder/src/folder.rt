//! A folder with the files of a store.

ghost use Rattle.std.specs.Prelude.{◌≡◌, [], ◌∷◌, IfOk, IfSome, Some, OnOk, OnErr, option_map, string_bytes};
ghost use Rattle.harp_cells.specs.ValueBytes.{ValueFits};
ghost use Rattle.store_folder.specs.Files.{IsHeld, after_steps};
ghost use Rattle.store_folder.specs.Journal.{cell_step, journal_path};
ghost use Rattle.store_folder.specs.MarkFile.{MarkFits};
ghost use Rattle.store_folder.specs.Names.{cell_name, in_folder};
ghost use Rattle.store_folder.specs.Sync.{ReadsCell, ReadsMark, WritesMarkPart, mark_path as mark_at, mark_steps};
ghost use Rattle.store_folder.specs.Unsynced.{HasBlocks};

use crate::cell_file::{LONGEST_FILE, read_cell_file, write_cell_file};
use crate::disk_files::DiskFiles;
use crate::mark_file::{LONGEST_MARK, read_mark_file, write_mark_file};
use crate::names::{block_named, cell_path, journal_path, mark_path, next_path};
use crate::unsynced::Unsynced;
use harp_cells::{Cell, Key, Value};
use harp_store::{Mark, StoreFault};
use std::alloc::Global;
use store_journal::LONGEST_JOURNAL;

/// The blocks that the folder has are added.
pub fn list_blocks<F: DiskFiles>(
    files: &F,
    alloc: Global,
    folder: &str,
    unsynced: &mut Unsynced,
) -> Result<(), StoreFault>
    ensures same { unsynced.new ≡ record unsynced.old { blocks = unsynced.new.blocks } }
    ensures blocks { HasBlocks unsynced.old unsynced.new }
{
    let names = files.names(alloc, folder)?;
    for name in &names {
        if let Some((object, block)) = block_named(name) {
            unsynced.add_block(object, block)?;
        }
    }
    Ok(())
}

/// The bytes of a file in the folder, None where it has no such file. A folder that isn't there is
/// a failure.
fn read_in<F: DiskFiles>(
    files: &F,
    alloc: Global,
    folder: &str,
    path: &str,
    most: usize,
) -> Result<Option<Vec<u8>>, StoreFault>
    ensures { IfOk result (λ found. IsHeld path.now (F.told files.now)
        (option_map (λ bytes. bytes.items) found)) }
{
    match files.read(alloc, path, most)? {
        Some(bytes) => Ok(Some(bytes)),
        None if files.is_folder(folder) => Ok(None),
        None => Err(StoreFault::Failed),
    }
}

/// What the file of a cell holds.
pub fn read_cell<F: DiskFiles>(
    files: &F,
    alloc: Global,
    folder: &str,
    key: Key,
) -> Result<Option<Value>, StoreFault>
    ensures fits { IfOk result (λ found. IfSome found ValueFits) }
    ensures held { IfOk result (λ found. ReadsCell (in_folder folder.now (cell_name key))
        (F.told files.now) found) }
{
    let path = cell_path(alloc, folder, key)?;
    match read_in(files, alloc, folder, &path, LONGEST_FILE)? {
        Some(bytes) => Ok(Some(read_cell_file(alloc, &bytes)?)),
        None => Ok(None),
    }
}

/// What the file of the mark holds.
pub fn read_mark<F: DiskFiles>(
    files: &F,
    alloc: Global,
    folder: &str,
) -> Result<Option<Mark>, StoreFault>
    ensures fits { IfOk result (λ found. IfSome found MarkFits) }
    ensures held { IfOk result (λ found. ReadsMark (mark_at folder.now) (F.told files.now) found) }
{
    let path = mark_path(alloc, folder)?;
    match read_in(files, alloc, folder, &path, LONGEST_MARK)? {
        Some(bytes) => match read_mark_file(&bytes) {
            Some(mark) => Ok(Some(mark)),
            None => Err(StoreFault::Failed),
        },
        None => Ok(None),
    }
}

/// The file of a cell is replaced or removed.
pub fn write_cell<F: DiskFiles>(
    files: &mut F,
    alloc: Global,
    folder: &str,
    cell: Cell,
    value: &Option<Value>,
) -> Result<(), StoreFault>
    ensures written { OnOk result (F.told files.new
        ≡ after_steps (cell_step folder.now cell value.now ∷ []) (F.told files.old)) }
    ensures kept { OnErr result (F.told files.new ≡ F.told files.old) }
{
    let path = cell_path(alloc, folder, cell.key())?;
    match value {
        Some(value) => {
            let bytes = write_cell_file(alloc, value)?;
            let next = next_path(alloc, folder)?;
            files.replace(&next, &path, bytes.as_slice())
        }
        None => files.remove(&path),
    }
}

/// The bytes of the journal, None where the folder has none.
pub fn read_journal<F: DiskFiles>(
    files: &F,
    alloc: Global,
    folder: &str,
) -> Result<Option<Vec<u8>>, StoreFault>
    ensures { IfOk result (λ found. IsHeld (journal_path folder.now) (F.told files.now)
        (option_map (λ bytes. bytes.items) found)) }
{
    let path = journal_path(alloc, folder)?;
    files.read(alloc, &path, LONGEST_JOURNAL)
}

/// Writes the mark, and syncs the folder.
pub fn write_mark<F: DiskFiles>(
    files: &mut F,
    alloc: Global,
    folder: &str,
    mark: &Mark,
) -> Result<(), StoreFault>
    ensures written { OnOk result (F.told files.new
        ≡ after_steps (mark_steps folder.now mark.now) (F.told files.old)) }
    ensures part { OnErr result (WritesMarkPart (Some folder.now) mark.now (F.told files.old)
        (F.told files.new)) }
{
    let bytes = write_mark_file(alloc, mark)?;
    let path = mark_path(alloc, folder)?;
    let next = next_path(alloc, folder)?;
    files.replace(&next, &path, &bytes)?;
    files.sync_folder(folder)
}
