//! Directories and their entries.

ghost use Rattle.std.specs.Prelude.{◌≡◌, ◌≤◌, ◌<◌, Some, Err, IfOk, IfSome};
ghost use Rattle.harp_types.specs.Streams.{Rose};
ghost use Rattle.file_tree.specs.declared.object.Body.{Body};
ghost use Rattle.file_tree.specs.Tree.{place, slots_of, slots_within, kind_of, entry};
ghost use Rattle.file_tree.specs.Tries.{slots_in, directory};
ghost use Rattle.file_tree.specs.Outcome.{find, resolve, doomed};
ghost use Rattle.cell_changes.specs.TreeCells.{TreeCells};
ghost use Rattle.nfs_calls.specs.TreeCells.{IsInode, IsDirectory};
ghost use Rattle.nfs_calls.specs.Gives.{Gives, Tells};

use crate::error::CallError;
use crate::parts::inode::live;
use crate::parts::names::{check_name, is_dot, is_dot_dot};
use harp_cells::{CellFault, CellRead, Inode};
use harp_types::{Kind, Status};

/// Ok for a directory, else its refusal.
pub fn slots_in(kind: Kind) -> Result<(), Status>
    ensures { (body : Body) → kind_of body ≡ kind
        → Tells (λ _. slots_within body) result (slots_in body) }
{
    match kind {
        Kind::Directory => Ok(()),
        Kind::Regular => Err(Status::NotDir),
        Kind::Link => Err(Status::NotDir),
    }
}

/// The attributes of the directory that a number names.
pub fn directory<R: CellRead>(cells: &mut R, number: u32) -> Result<Inode, CallError>
    ensures step { (t : TreeCells) → R.cells cells.old ≡ Some t.cells
        → Gives (λ _. slots_of (place t.tree number)) result (directory t.tree number) }
    ensures inode { (t : TreeCells) → R.cells cells.old ≡ Some t.cells
        → IfOk result (IsInode t.tree number) }
    ensures kept { R.cells cells.new ≡ R.cells cells.old }
    ensures left { R.left cells.new ≡ R.left cells.old }
    ensures rose { result ≡ Err (CallError.Fault CellFault.StoreFailed)
        → Rose (R.faults cells.old) (R.faults cells.new) }
    ensures count { R.faults cells.old ≤ R.faults cells.new }
{
    let inode = live(cells, number)?;
    slots_in(inode.kind)?;
    Ok(inode)
}

/// The slot and the object of the entry with a name.
pub fn entry<R: CellRead>(
    cells: &mut R,
    dir: u32,
    inode: &Inode,
    name: &[u8],
) -> Result<Option<(u32, u32)>, CellFault>
    ensures entry { (t : TreeCells) → R.cells cells.old ≡ Some t.cells
        → IsDirectory t.tree dir inode.now
        → IfOk result (λ x. x ≡ entry (slots_of (place t.tree dir)) name.now) }
    ensures within { IfOk result (λ x. IfSome x (λ entry. entry.0 < inode.now.slots)) }
    ensures kept { R.cells cells.new ≡ R.cells cells.old }
    ensures left { R.left cells.new ≡ R.left cells.old }
    ensures rose { result ≡ Err CellFault.StoreFailed
        → Rose (R.faults cells.old) (R.faults cells.new) }
    ensures count { R.faults cells.old ≤ R.faults cells.new }
{
    inode_dirs::find(cells, dir, inode.slots, name)
}

/// The slot and the object of the entry with a name, which is checked first.
pub fn find<R: CellRead>(
    cells: &mut R,
    dir: u32,
    inode: &Inode,
    name: &[u8],
) -> Result<(u32, u32), CallError>
    ensures step { (t : TreeCells) → R.cells cells.old ≡ Some t.cells
        → IsDirectory t.tree dir inode.now
        → Gives (λ x. x) result (find (slots_of (place t.tree dir)) name.now) }
    ensures within { IfOk result (λ x. x.0 < inode.now.slots) }
    ensures kept { R.cells cells.new ≡ R.cells cells.old }
    ensures left { R.left cells.new ≡ R.left cells.old }
    ensures rose { result ≡ Err (CallError.Fault CellFault.StoreFailed)
        → Rose (R.faults cells.old) (R.faults cells.new) }
    ensures count { R.faults cells.old ≤ R.faults cells.new }
{
    check_name(name)?;
    match entry(cells, dir, inode, name)? {
        Some(found) => Ok(found),
        None => Err(CallError::Status(Status::NoEnt)),
    }
}

/// The object that a name stands for in a directory.
pub fn resolve<R: CellRead>(
    cells: &mut R,
    dir: u32,
    inode: &Inode,
    name: &[u8],
) -> Result<u32, CallError>
    ensures step { (t : TreeCells) → R.cells cells.old ≡ Some t.cells
        → IsDirectory t.tree dir inode.now
        → Gives (λ x. x) result (resolve t.tree dir (slots_of (place t.tree dir)) name.now) }
    ensures kept { R.cells cells.new ≡ R.cells cells.old }
    ensures left { R.left cells.new ≡ R.left cells.old }
    ensures rose { result ≡ Err (CallError.Fault CellFault.StoreFailed)
        → Rose (R.faults cells.old) (R.faults cells.new) }
    ensures count { R.faults cells.old ≤ R.faults cells.new }
{
    if is_dot(name) {
        return Ok(dir);
    }
    if is_dot_dot(name) {
        return Ok(inode.parent);
    }
    let (_, number) = find(cells, dir, inode, name)?;
    Ok(number)
}
