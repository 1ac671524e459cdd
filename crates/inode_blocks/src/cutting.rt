//! Cutting a file's bytes.

ghost use Rattle.std.specs.Prelude.{◌≡◌, ◌≤◌, ◌<◌, ◌^◌, ◌-◌, ◌++◌, ◌∷◌, [], ℕ, List, Option, length, Some, Err, IfOk, IfSome, OnOk, OnErr};
ghost use Rattle.std.specs.Option.{option_map};
ghost use Rattle.harp_types.specs.Limits.{block_size};
ghost use Rattle.harp_types.specs.Streams.{Rose};
ghost use Rattle.file_tree.specs.Outcome.{resized};
ghost use Rattle.harp_cells.specs.Effect.{Cells};
ghost use Rattle.inode_blocks.specs.Holds.{HoldsBytes};
ghost use Rattle.inode_blocks.specs.Changes.{BeginsWith, LeadTo, added, cuts, erasure, kept_in, put_kept};

use crate::block::{blocks_of, stored};
use crate::changes::{append, append_put};
use harp_cells::{Cell, CellFault, CellRead, Change};
use harp_types::BLOCK_SIZE;
use std::alloc::Global;

/// What is kept of the block that a size cuts, where more stands there.
fn kept_part<R: CellRead>(
    alloc: Global,
    cells: &mut R,
    object: u32,
    wanted: u32,
) -> Result<Option<Vec<u8>>, CellFault>
    ensures value { (held : Cells) → R.cells cells.old ≡ Some held
        → IfOk result (λ kept. option_map (λ v. v.items) kept ≡ kept_in held object wanted) }
    ensures least { IfOk result (λ kept. IfSome kept (λ v. 1 ≤ length v.items)) }
    ensures most { IfOk result (λ kept. IfSome kept (λ v. length v.items ≤ block_size)) }
    ensures kept { R.cells cells.new ≡ R.cells cells.old }
    ensures left { R.left cells.new ≡ R.left cells.old }
    ensures rose { result ≡ Err CellFault.StoreFailed
        → Rose (R.faults cells.old) (R.faults cells.new) }
    ensures count { R.faults cells.old ≤ R.faults cells.new }
{
    let within = (wanted % BLOCK_SIZE) as usize;
    if within == 0 {
        return Ok(None);
    }
    let block = wanted / BLOCK_SIZE;
    cells.fetch(Cell::Block { object, block })?;
    let bytes = stored(cells.value());
    if bytes.len() <= within {
        return Ok(None);
    }
    Ok(Some(Vec::from_slice(alloc, &bytes[..within])?))
}

/// Appends a Put of what is kept of a block.
fn append_kept(
    alloc: Global,
    changes: &mut Vec<Change>,
    object: u32,
    block: u32,
    kept: Option<Vec<u8>>,
) -> Result<(), CellFault>
    requires least { IfSome kept (λ v. 1 ≤ length v.items) }
    requires most { IfSome kept (λ v. length v.items ≤ block_size) }
    ensures ok { OnOk result (changes.new.items ≡ changes.old.items
        ++ put_kept object block (option_map (λ v. v.items) kept)) }
    ensures err { OnErr result (changes.new.items ≡ changes.old.items) }
    ensures cause { OnErr result (result ≡ Err CellFault.NoMemory) }
{
    match kept {
        Some(bytes) => append_put(alloc, changes, object, block, bytes),
        None => Ok(()),
    }
}

/// Appends an erasure of the blocks past a size, where there are any.
fn append_erasure(
    changes: &mut Vec<Change>,
    object: u32,
    size: u32,
    wanted: u32,
) -> Result<(), CellFault>
    requires { wanted ≤ 2 ^ 31 - 1 }
    ensures ok { OnOk result (changes.new.items ≡ changes.old.items ++ erasure object size wanted) }
    ensures err { OnErr result (changes.new.items ≡ changes.old.items) }
    ensures cause { OnErr result (result ≡ Err CellFault.NoMemory) }
{
    let first = blocks_of(wanted);
    if first * BLOCK_SIZE < size {
        append(changes, Change::EraseFrom { object, first })
    } else {
        Ok(())
    }
}

/// Appends the changes that cut a file of a size to a wanted one: at most one Put, of the block
/// that is cut, where more stands in it than is kept, and then at most one EraseFrom, where whole
/// blocks go. A file that is extended needs no change, since what is missing is zeros. After a
/// fault the Put may stand in the changes.
pub fn cut_to<R: CellRead>(
    alloc: Global,
    cells: &mut R,
    object: u32,
    size: u32,
    wanted: u32,
    changes: &mut Vec<Change>,
) -> Result<(), CellFault>
    requires { wanted ≤ 2 ^ 31 - 1 }
    ensures cuts { (held : Cells) → R.cells cells.old ≡ Some held
        → OnOk result (changes.new.items ≡ changes.old.items
        ++ cuts object size wanted (kept_in held object wanted)) }
    ensures leads { (held : Cells) (old : List ℕ) → R.cells cells.old ≡ Some held
        → HoldsBytes held object old → length old ≡ size
        → OnOk result (LeadTo (added changes.old.items changes.new.items) held object size
        (resized old wanted)) }
    ensures kinds { OnOk result ((kept : Option (List ℕ)) × (changes.new.items ≡ changes.old.items
        ++ cuts object size wanted kept)) }
    ensures still { size ≤ wanted → changes.new.items ≡ changes.old.items }
    ensures front { BeginsWith changes.new.items changes.old.items }
    ensures kept { R.cells cells.new ≡ R.cells cells.old }
    ensures left { R.left cells.new ≡ R.left cells.old }
    ensures rose { result ≡ Err CellFault.StoreFailed
        → Rose (R.faults cells.old) (R.faults cells.new) }
    ensures count { R.faults cells.old ≤ R.faults cells.new }
{
    if size <= wanted {
        return Ok(());
    }
    let kept = kept_part(alloc, cells, object, wanted)?;
    append_kept(alloc, changes, object, wanted / BLOCK_SIZE, kept)?;
    append_erasure(changes, object, size, wanted)?;
    Ok(())
}
