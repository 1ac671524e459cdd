//! The blocks of a file with another byte than 0.

ghost use Rattle.std.specs.Prelude.{◌≡◌, ◌≤◌, ◌++◌, ℕ, List, length, take, Some, Err, IfOk, OnOk};
ghost use Rattle.std.specs.Option.{option_copied};
ghost use Rattle.harp_types.specs.Limits.{block_size};
ghost use Rattle.harp_types.specs.Streams.{Rose};
ghost use Rattle.file_tree.specs.Outcome.{resized};
ghost use Rattle.harp_cells.specs.declared.cell.Cell.TheVariants as cell;
ghost use Rattle.harp_cells.specs.Effect.{Cells};
ghost use Rattle.inode_blocks.specs.Holds.{HoldsBytes, stored};
ghost use Rattle.tree_listing.specs.Listing.{block_listed, blocks_listed, is_zeros};
ghost use Rattle.tree_listing.specs.Reading.{at_most_one};

use crate::inode::blocks_of;
use crate::listing::{ListedBlock, Row};
use harp_cells::{Cell, CellFault, CellRead, Value};
use harp_types::{BLOCK_SIZE, Bounded};
use std::alloc::{AllocError, Global};

// The bytes that stand in a block, none where it is absent.
fn stored(value: Option<&Value>) -> &[u8]
    ensures { result.now ≡ stored (option_copied value.entry) }
{
    match value {
        Some(Value::Block { bytes }) => bytes.as_slice(),
        _ => &[],
    }
}

fn front(bytes: &[u8], count: usize) -> &[u8]
    ensures value { result.now ≡ take count bytes.now }
    ensures most { length result.now ≤ count }
{
    if count <= bytes.len() {
        &bytes[..count]
    } else {
        bytes
    }
}

#[tactic(auto, unfolding(crate::specs::Listing::is_zeros))]
fn is_zeros(bytes: &[u8]) -> bool
    ensures { result ≡ is_zeros bytes.now }
{
    bytes.iter().all(|byte| *byte == 0)
}

// A block of which these bytes stand, made so long by zeros, where another byte than 0 stands.
fn block_with(
    alloc: Global,
    block: u32,
    stored: &[u8],
    count: u32,
) -> Result<Option<ListedBlock>, AllocError>
    requires { count ≤ block_size }
    ensures { IfOk result (λ b. at_most_one b ≡ block_listed block (resized stored.now count)) }
{
    let stored = front(stored, count as usize);
    if is_zeros(stored) {
        return Ok(None);
    }
    let mut bytes = Vec::from_slice(alloc, stored)?;
    bytes.resize(count as usize, 0)?;
    Ok(Some(ListedBlock {
        block,
        bytes: Bounded::new(bytes),
    }))
}

// Lists so many bytes of a block, where one isn't 0.
fn list_block<R: CellRead>(
    alloc: Global,
    cells: &mut R,
    file: u32,
    block: u32,
    count: u32,
    listed: &mut Row<ListedBlock>,
) -> Result<(), CellFault>
    requires { count ≤ block_size }
    ensures block { (held : Cells) → R.cells cells.old ≡ Some held
        → OnOk result (listed.new ≡ listed.old
        ++ block_listed block (resized (stored (held (cell.Block file block))) count)) }
    ensures kept { R.cells cells.new ≡ R.cells cells.old }
    ensures left { R.left cells.new ≡ R.left cells.old }
    ensures rose { result ≡ Err CellFault.StoreFailed
        → Rose (R.faults cells.old) (R.faults cells.new) }
    ensures count { R.faults cells.old ≤ R.faults cells.new }
{
    cells.fetch(Cell::Block {
        object: file,
        block,
    })?;
    if let Some(bytes) = block_with(alloc, block, stored(cells.value()), count)? {
        listed.push(bytes)?;
    }
    Ok(())
}

/// The blocks of a file of a size with another byte than 0. Each block is fetched once, and one
/// that is absent or has no other byte than 0 takes no memory.
pub fn list_blocks<R: CellRead>(
    alloc: Global,
    cells: &mut R,
    file: u32,
    size: u32,
) -> Result<Row<ListedBlock>, CellFault>
    ensures blocks { (held : Cells) (bytes : List ℕ) → R.cells cells.old ≡ Some held
        → HoldsBytes held file bytes → length bytes ≡ size
        → IfOk result (λ l. l ≡ blocks_listed bytes) }
    ensures kept { R.cells cells.new ≡ R.cells cells.old }
    ensures left { R.left cells.new ≡ R.left cells.old }
    ensures rose { result ≡ Err CellFault.StoreFailed
        → Rose (R.faults cells.old) (R.faults cells.new) }
    ensures count { R.faults cells.old ≤ R.faults cells.new }
{
    let mut listed = Row::new(alloc);
    for block in 0..blocks_of(size) {
        let count = (size - block * BLOCK_SIZE).min(BLOCK_SIZE);
        list_block(alloc, cells, file, block, count, &mut listed)?;
    }
    Ok(listed)
}
