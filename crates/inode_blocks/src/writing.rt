//! Writing a file's bytes.

ghost use Rattle.std.specs.Prelude.{◌≡◌, ◌≤◌, ◌<◌, ◌+◌, ◌-◌, ◌*◌, ◌/◌, ◌==◌, ◌^◌, ◌++◌, if◌then◌else◌, ℕ, List, length, map, Some, Err, IfOk, OnOk};
ghost use Rattle.harp_types.specs.Limits.{block_size};
ghost use Rattle.harp_types.specs.Streams.{Rose};
ghost use Rattle.file_tree.specs.Tree.{blocks_of};
ghost use Rattle.file_tree.specs.Outcome.{written};
ghost use Rattle.harp_cells.specs.Effect.{Cells};
ghost use Rattle.inode_blocks.specs.Holds.{stored, HoldsBytes};
ghost use Rattle.inode_blocks.specs.Changes.{BeginsWith, LeadTo, added, block_put, blocks_met, part_in, puts, stored_in};

use crate::block::{blocks_of, part, stored, written};
use crate::changes::append_put;
use harp_cells::{Cell, CellFault, CellRead, Change};
use harp_types::BLOCK_SIZE;
use std::alloc::Global;

/// The part of bytes written at an offset that comes into a block.
fn part_in(offset: u32, bytes: &[u8], block: u32) -> &[u8]
    requires { block < 2 ^ 20 }
    ensures value { result.now ≡ part_in offset bytes.now block }
    ensures most { length result.now ≤ block_size - (offset - block_size * block) }
{
    let start = block * BLOCK_SIZE;
    let within = offset.saturating_sub(start);
    let room = BLOCK_SIZE.saturating_sub(within);
    part(bytes, start.saturating_sub(offset) as usize, room as usize)
}

/// The number behind the last block that a range meets, and that of the first one where it meets
/// none.
fn past_block(offset: u32, count: usize) -> u32
    requires { offset + count < 2 ^ 31 }
    ensures { result ≡ (if count == 0 then offset / block_size else blocks_of (offset + count)) }
{
    if count == 0 {
        offset / BLOCK_SIZE
    } else {
        blocks_of(offset + count as u32)
    }
}

/// The bytes of a block with others placed in it. What stands in it is fetched only where some of
/// it may be kept.
fn block_bytes<R: CellRead>(
    alloc: Global,
    cells: &mut R,
    object: u32,
    size: u32,
    block: u32,
    within: usize,
    bytes: &[u8],
) -> Result<Vec<u8>, CellFault>
    requires fits { within + length bytes.now ≤ block_size }
    requires small { block < 2 ^ 20 }
    ensures bytes { (held : Cells) → R.cells cells.old ≡ Some held
        → IfOk result (λ v. v.items ≡ written (stored_in held object size block) within bytes.now) }
    ensures size { IfOk result (λ v. (within + length bytes.now ≤ length v.items)
        × (length v.items ≤ block_size)) }
    ensures kept { R.cells cells.new ≡ R.cells cells.old }
    ensures left { R.left cells.new ≡ R.left cells.old }
    ensures rose { result ≡ Err CellFault.StoreFailed
        → Rose (R.faults cells.old) (R.faults cells.new) }
    ensures count { R.faults cells.old ≤ R.faults cells.new }
{
    if size <= block * BLOCK_SIZE || bytes.len() == BLOCK_SIZE as usize {
        return Ok(written(alloc, &[], within, bytes)?);
    }
    cells.fetch(Cell::Block { object, block })?;
    Ok(written(alloc, stored(cells.value()), within, bytes)?)
}

/// Appends the changes that place bytes in a file of a size: a Put of each block that their range
/// meets, ascending, and nothing else. It fetches only blocks that are written in part, and none
/// past the end of the file. After a fault some of the Puts may stand in the changes.
pub fn write_bytes<R: CellRead>(
    alloc: Global,
    cells: &mut R,
    object: u32,
    size: u32,
    offset: u32,
    bytes: &[u8],
    changes: &mut Vec<Change>,
) -> Result<(), CellFault>
    requires { offset + length bytes.now ≤ 2 ^ 31 - 1 }
    ensures puts { (held : Cells) → R.cells cells.old ≡ Some held
        → OnOk result (changes.new.items ≡ changes.old.items
        ++ puts held object size offset bytes.now) }
    ensures leads { (held : Cells) (old : List ℕ) → R.cells cells.old ≡ Some held
        → HoldsBytes held object old → length old ≡ size
        → OnOk result (LeadTo (added changes.old.items changes.new.items) held object size
        (written old offset bytes.now)) }
    ensures blocks { OnOk result (map block_put changes.new.items ≡ map block_put changes.old.items
        ++ map (λ block. Some (object, block)) (blocks_met offset (length bytes.now))) }
    ensures nothing { length bytes.now ≡ 0 → OnOk result (changes.new.items ≡ changes.old.items) }
    ensures front { BeginsWith changes.new.items changes.old.items }
    ensures kept { R.cells cells.new ≡ R.cells cells.old }
    ensures left { R.left cells.new ≡ R.left cells.old }
    ensures rose { result ≡ Err CellFault.StoreFailed
        → Rose (R.faults cells.old) (R.faults cells.new) }
    ensures count { R.faults cells.old ≤ R.faults cells.new }
{
    for block in offset / BLOCK_SIZE..past_block(offset, bytes.len()) {
        let within = offset.saturating_sub(block * BLOCK_SIZE) as usize;
        let part = part_in(offset, bytes, block);
        let new = block_bytes(alloc, cells, object, size, block, within, part)?;
        append_put(alloc, changes, object, block, new)?;
    }
    Ok(())
}
