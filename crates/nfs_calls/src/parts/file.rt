//! The bytes of files and the texts of links.

ghost use Rattle.std.specs.Prelude.{◌≡◌, ◌≤◌, ◌≢◌, Some, Err, IfOk, length, take, drop};
ghost use Rattle.harp_types.specs.Streams.{Rose};
ghost use Rattle.harp_types.specs.declared.attr.Kind.TheVariants as kinds;
ghost use Rattle.file_tree.specs.declared.object.Body.{Body};
ghost use Rattle.file_tree.specs.Tree.{place, kind_of};
ghost use Rattle.file_tree.specs.Tries.{bytes_in, text_in};
ghost use Rattle.harp_cells.specs.CellsOfTree.{content_of};
ghost use Rattle.cell_changes.specs.TreeCells.{TreeCells};
ghost use Rattle.nfs_calls.specs.TreeCells.{IsInode, bytes_within};
ghost use Rattle.nfs_calls.specs.Gives.{Gives, Tells};

use harp_cells::{CellFault, CellRead, Inode};
use harp_types::{Bytes, Kind, Status};
use inode_blocks::read_bytes;
use std::alloc::Global;

/// Ok for a regular file, else its refusal.
pub fn bytes_in(kind: Kind) -> Result<(), Status>
    ensures step { (body : Body) → kind_of body ≡ kind
        → Tells (λ _. bytes_within body) result (bytes_in body) }
    ensures kind { IfOk result (λ _. kind ≡ kinds.Regular) }
{
    match kind {
        Kind::Regular => Ok(()),
        Kind::Directory => Err(Status::IsDir),
        Kind::Link => Err(Status::Io),
    }
}

/// Ok for a symbolic link, else its refusal.
pub fn text_in(kind: Kind) -> Result<(), Status>
    ensures step { (body : Body) → kind_of body ≡ kind
        → Tells (λ _. bytes_within body) result (text_in body) }
    ensures kind { IfOk result (λ _. kind ≡ kinds.Link) }
{
    match kind {
        Kind::Link => Ok(()),
        Kind::Regular => Err(Status::Io),
        Kind::Directory => Err(Status::Io),
    }
}

/// The bytes of a file or the text of a link from an offset on, at most so many.
pub fn content<R: CellRead>(
    alloc: Global,
    cells: &mut R,
    number: u32,
    inode: &Inode,
    offset: u32,
    count: u32,
) -> Result<Bytes, CellFault>
    requires { inode.now.kind ≢ kinds.Directory }
    ensures bytes { (t : TreeCells) → R.cells cells.old ≡ Some t.cells
        → IsInode t.tree number inode.now
        → IfOk result (λ b. b ≡ take count (drop offset (content_of (place t.tree number)))) }
    ensures most { IfOk result (λ b. length b ≤ count) }
    ensures kept { R.cells cells.new ≡ R.cells cells.old }
    ensures left { R.left cells.new ≡ R.left cells.old }
    ensures rose { result ≡ Err CellFault.StoreFailed
        → Rose (R.faults cells.old) (R.faults cells.new) }
    ensures count { R.faults cells.old ≤ R.faults cells.new }
{
    read_bytes(alloc, cells, number, inode.size, offset, count)
}
