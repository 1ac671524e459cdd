//! The names of files.

ghost use Rattle.std.specs.Prelude.{◌≡◌, IfOk, codes, string_bytes};
ghost use Rattle.store_folder.specs.Names.{cell_name, in_folder};

use harp_cells::Key;
use std::alloc::{AllocError, Global};

/// The path of a cell's file: in the folder `meta`, `object-N`, `block-N-I`, `slot-N-I`, `client-C`
/// or `saved-P`, with the cell's numbers in decimal.
pub fn cell_path(alloc: Global, folder: &str, key: Key) -> Result<String, AllocError>
    ensures { IfOk result (λ path. string_bytes path ≡ in_folder folder.now (cell_name key)) }
{
    let (kind, first, second) = key;
    match kind {
        1 => format!(in alloc; "{folder}/meta"),
        2 => format!(in alloc; "{folder}/object-{first}"),
        3 => format!(in alloc; "{folder}/block-{first}-{second}"),
        4 => format!(in alloc; "{folder}/slot-{first}-{second}"),
        5 => format!(in alloc; "{folder}/client-{first}"),
        _ => format!(in alloc; "{folder}/saved-{first}"),
    }
}

/// The path of the mark's file.
pub fn mark_path(alloc: Global, folder: &str) -> Result<String, AllocError>
    ensures { IfOk result (λ path. string_bytes path ≡ in_folder folder.now (codes "mark")) }
{
    format!(in alloc; "{folder}/mark")
}

/// The path of the journal.
pub fn journal_path(alloc: Global, folder: &str) -> Result<String, AllocError>
    ensures { IfOk result (λ path. string_bytes path ≡ in_folder folder.now (codes "journal")) }
{
    format!(in alloc; "{folder}/journal")
}

/// The path at which a file is written that is to take the place of another.
pub fn next_path(alloc: Global, folder: &str) -> Result<String, AllocError>
    ensures { IfOk result (λ path. string_bytes path ≡ in_folder folder.now (codes "next")) }
{
    format!(in alloc; "{folder}/next")
}

/// The object and the number of a block, by its file's name.
pub fn block_named(name: &str) -> Option<(u32, u32)> {
    let (object, block) = name.strip_prefix("block-")?.split_once('-')?;
    Some((object.parse::<u32>().ok()?, block.parse::<u32>().ok()?))
}
