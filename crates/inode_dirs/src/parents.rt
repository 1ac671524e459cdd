//! The way up from a directory.

ghost use Rattle.std.specs.Prelude.{◌≡◌, ◌≤◌, IfOk, Err, Some, length, true};
ghost use Rattle.harp_types.specs.Streams.{Rose};
ghost use Rattle.file_tree.specs.Tree.{Tree, place, is_directory_at, parent_of};
ghost use Rattle.file_tree.specs.Rename.{is_above};
ghost use Rattle.file_tree.specs.Sound.{IsSound};
ghost use Rattle.inode_dirs.specs.Parents.{TellsParents, parent_by};

use harp_cells::{Cell, CellFault, CellRead, Value};

fn parent_in(number: u32, value: &Value) -> u32
    ensures { result ≡ parent_by number (Some value.now) }
{
    match value {
        Value::Object { inode } => inode.parent,
        Value::Meta { .. }
        | Value::Block { .. }
        | Value::Slot { .. }
        | Value::Client { .. }
        | Value::Unformed { .. }
        | Value::Saved { .. }
        | Value::SavedCred { .. } => 0,
    }
}

fn parent_found<R: CellRead>(cells: &R, number: u32) -> u32
    ensures { result ≡ parent_by number (R.found cells.now) }
{
    match cells.value() {
        Some(value) => parent_in(number, value),
        None if number == 1 => 1,
        None => 0,
    }
}

/// The parent of a directory; 0 of any other number.
fn parent_at<R: CellRead>(cells: &mut R, number: u32) -> Result<u32, CellFault>
    ensures parent { (tree : Tree) → TellsParents (R.cells cells.old) tree
        → IfOk result (λ parent. parent ≡ parent_of tree number) }
    ensures kept { R.cells cells.new ≡ R.cells cells.old }
    ensures left { R.left cells.new ≡ R.left cells.old }
    ensures rose { result ≡ Err CellFault.StoreFailed
        → Rose (R.faults cells.old) (R.faults cells.new) }
    ensures count { R.faults cells.old ≤ R.faults cells.new }
{
    cells.fetch(Cell::Object { object: number })?;
    Ok(parent_found(cells, number))
}

/// As many levels as a tree has blocks at most: each directory above another one has a block of its
/// own.
const MOST_LEVELS: u32 = 65_536;

/// Whether a directory is `top` or below it, by the parents in the cells of a sound tree. They are
/// followed as far as `top` or the root, and on at most 65,536 levels, so that the walk ends on any
/// cells. Of the answer on cells of no sound tree nothing is said.
pub fn is_below<R: CellRead>(cells: &mut R, dir: u32, top: u32) -> Result<bool, CellFault>
    ensures below { (tree : Tree) → IsSound tree → is_directory_at (place tree dir) ≡ true
        → TellsParents (R.cells cells.old) tree
        → IfOk result (λ below. below ≡ is_above (length tree) tree top dir) }
    ensures kept { R.cells cells.new ≡ R.cells cells.old }
    ensures left { R.left cells.new ≡ R.left cells.old }
    ensures rose { result ≡ Err CellFault.StoreFailed
        → Rose (R.faults cells.old) (R.faults cells.new) }
    ensures count { R.faults cells.old ≤ R.faults cells.new }
{
    let mut at = dir;
    for _ in 0..MOST_LEVELS {
        if at == top {
            return Ok(true);
        }
        let parent = parent_at(cells, at)?;
        if parent == at {
            return Ok(false);
        }
        at = parent;
    }
    Ok(at == top)
}
