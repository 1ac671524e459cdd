//! What a caller may do with objects, by the attributes in their cells.

ghost use Rattle.std.specs.Prelude.{◌≡◌, ◌≤◌, ℕ, not, Some, Err, IfOk};
ghost use Rattle.harp_types.specs.Streams.{Rose};
ghost use Rattle.harp_types.specs.declared.reply.Status.TheVariants.{Perm};
ghost use Rattle.file_tree.specs.Tree.{Tree, place, slots_of};
ghost use Rattle.file_tree.specs.Tries.{refuse};
ghost use Rattle.file_tree.specs.Permissions.{allowed, searched, may_set, may_make};
ghost use Rattle.cell_changes.specs.TreeCells.{TreeCells};
ghost use Rattle.nfs_calls.specs.TreeCells.{IsInode, IsDirectory, object_at};
ghost use Rattle.nfs_calls.specs.Gives.{Gives};

use crate::error::CallError;
use crate::parts::directory::directory;
use crate::parts::names::refuse;
use file_tree::{TO_SEARCH, TO_WRITE, may, may_give, may_set};
use harp_cells::{CellFault, CellRead, Inode};
use harp_types::{Cred, SetAttr, Status};

/// A refusal, unless the caller may do what is wanted with an object.
pub fn allowed(cred: Cred, inode: &Inode, want: u8) -> Result<(), Status>
    ensures { (tree : Tree) (number : ℕ) → IsInode tree number inode.now
        → result ≡ allowed tree cred number want }
{
    refuse(
        Status::Acces,
        !may(cred, inode.mode, inode.uid, inode.gid, want),
    )
}

/// The attributes of the directory that a number names, where the caller may search it.
pub fn searched<R: CellRead>(cells: &mut R, cred: Cred, number: u32) -> Result<Inode, CallError>
    ensures step { (t : TreeCells) → R.cells cells.old ≡ Some t.cells
        → Gives (λ _. slots_of (place t.tree number)) result (searched t.tree cred number) }
    ensures directory { (t : TreeCells) → R.cells cells.old ≡ Some t.cells
        → IfOk result (IsDirectory t.tree number) }
    ensures kept { R.cells cells.new ≡ R.cells cells.old }
    ensures left { R.left cells.new ≡ R.left cells.old }
    ensures rose { result ≡ Err (CallError.Fault CellFault.StoreFailed)
        → Rose (R.faults cells.old) (R.faults cells.new) }
    ensures count { R.faults cells.old ≤ R.faults cells.new }
{
    let inode = directory(cells, number)?;
    allowed(cred, &inode, TO_SEARCH)?;
    Ok(inode)
}

/// A refusal, unless the caller may write the directory and make an object with these fields.
pub fn may_make(cred: Cred, inode: &Inode, attr: &SetAttr) -> Result<(), Status>
    ensures { (tree : Tree) (number : ℕ) → IsInode tree number inode.now
        → result ≡ may_make tree cred number attr.now }
{
    allowed(cred, inode, TO_WRITE)?;
    refuse(Status::Perm, !may_give(cred, attr))
}

/// A refusal, unless the caller may set these fields of an object.
pub fn settable(cred: Cred, inode: &Inode, attr: &SetAttr) -> Result<(), Status>
    ensures { (tree : Tree) (number : ℕ) → IsInode tree number inode.now
        → result ≡ refuse Perm (not
        (may_set cred attr.now (object_at tree number).uid (object_at tree number).gid)) }
{
    refuse(Status::Perm, !may_set(cred, attr, inode.uid, inode.gid))
}
