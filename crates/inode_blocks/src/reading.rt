//! Reading a file's bytes.

ghost use Rattle.std.specs.Prelude.{◌≡◌, ◌≤◌, ◌+◌, ◌-◌, ◌++◌, ℕ, List, length, take, drop, min, Some, Err, IfOk, OnOk};
ghost use Rattle.harp_types.specs.Limits.{block_size};
ghost use Rattle.harp_types.specs.Streams.{Rose};
ghost use Rattle.file_tree.specs.Outcome.{resized};
ghost use Rattle.harp_cells.specs.Effect.{Cells};
ghost use Rattle.inode_blocks.specs.Holds.{stored, HoldsBytes};

use crate::block::{append_part, stored};
use harp_cells::{Cell, CellFault, CellRead};
use harp_types::{BLOCK_SIZE, Bytes};
use std::alloc::Global;

/// Appends so many bytes of a block from a place on, zeros where they are missing.
fn read_part<R: CellRead>(
    cells: &mut R,
    cell: Cell,
    within: u32,
    count: u32,
    bytes: &mut Vec<u8>,
) -> Result<(), CellFault>
    requires { count ≤ block_size }
    ensures part { (held : Cells) → R.cells cells.old ≡ Some held
        → OnOk result (bytes.new.items ≡ bytes.old.items
        ++ resized (drop within (stored (held cell))) count) }
    ensures size { OnOk result (length bytes.new.items ≡ length bytes.old.items + count) }
    ensures kept { R.cells cells.new ≡ R.cells cells.old }
    ensures left { R.left cells.new ≡ R.left cells.old }
    ensures rose { result ≡ Err CellFault.StoreFailed
        → Rose (R.faults cells.old) (R.faults cells.new) }
    ensures count { R.faults cells.old ≤ R.faults cells.new }
{
    cells.fetch(cell)?;
    append_part(
        bytes,
        stored(cells.value()),
        within as usize,
        count as usize,
    )?;
    Ok(())
}

/// The bytes of a file of a size from an offset on, at most so many and to the end of the file;
/// holes are zeros. It fetches the blocks that this range meets, and no others.
pub fn read_bytes<R: CellRead>(
    alloc: Global,
    cells: &mut R,
    object: u32,
    size: u32,
    offset: u32,
    count: u32,
) -> Result<Bytes, CellFault>
    ensures range { (held : Cells) (bytes : List ℕ) → R.cells cells.old ≡ Some held
        → HoldsBytes held object bytes → length bytes ≡ size
        → IfOk result (λ r. r ≡ take count (drop offset bytes)) }
    ensures size { IfOk result (λ r. length r ≡ min count (size - offset)) }
    ensures kept { R.cells cells.new ≡ R.cells cells.old }
    ensures left { R.left cells.new ≡ R.left cells.old }
    ensures rose { result ≡ Err CellFault.StoreFailed
        → Rose (R.faults cells.old) (R.faults cells.new) }
    ensures count { R.faults cells.old ≤ R.faults cells.new }
{
    let end = offset.saturating_add(count).min(size);
    let mut bytes = Vec::new(alloc);
    let mut at = offset;
    while at < end {
        let within = at % BLOCK_SIZE;
        let count = (BLOCK_SIZE - within).min(end - at);
        let block = at / BLOCK_SIZE;
        read_part(
            cells,
            Cell::Block { object, block },
            within,
            count,
            &mut bytes,
        )?;
        at += count;
    }
    Ok(Bytes::from_vec(bytes))
}
