//! Changes that are appended to a list.

ghost use Rattle.std.specs.Prelude.{◌≡◌, ◌≤◌, ◌++◌, ◌∷◌, [], length, OnOk, OnErr, Err, MatchResult};
ghost use Rattle.harp_types.specs.Limits.{block_size};
ghost use Rattle.inode_blocks.specs.Changes.{put};

use harp_cells::{Cell, CellFault, Change, NonEmpty, Value};
use std::alloc::Global;

/// Appends a change. Where memory runs out, the changes are as before.
pub fn append(changes: &mut Vec<Change>, change: Change) -> Result<(), CellFault>
    ensures ok { OnOk result (changes.new.items ≡ changes.old.items ++ change ∷ []) }
    ensures err { OnErr result (changes.new.items ≡ changes.old.items) }
    ensures cause { OnErr result (result ≡ Err CellFault.NoMemory) }
{
    match changes.push(change) {
        Ok(()) => Ok(()),
        Err(_) => Err(CellFault::NoMemory),
    }
}

/// Appends a Put of a block with these bytes.
pub fn append_put(
    alloc: Global,
    changes: &mut Vec<Change>,
    object: u32,
    block: u32,
    bytes: Vec<u8>,
) -> Result<(), CellFault>
    requires least { 1 ≤ length bytes.items }
    requires most { length bytes.items ≤ block_size }
    ensures ok { OnOk result (changes.new.items ≡ changes.old.items ++ put object block bytes.items
        ∷ []) }
    ensures err { OnErr result (changes.new.items ≡ changes.old.items) }
    ensures cause { OnErr result (result ≡ Err CellFault.NoMemory) }
{
    let value = Value::Block {
        bytes: NonEmpty::new(bytes),
    };
    match Change::put(alloc, Cell::Block { object, block }, value) {
        Ok(change) => append(changes, change),
        Err(_) => Err(CellFault::NoMemory),
    }
}
