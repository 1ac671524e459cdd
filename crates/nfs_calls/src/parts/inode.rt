//! The attributes of objects, read in their cells.

ghost use Rattle.std.specs.Prelude.{◌≡◌, ◌≤◌, Some, Err, IfOk};
ghost use Rattle.harp_types.specs.Streams.{Rose};
ghost use Rattle.harp_cells.specs.Effect.{Cells};
ghost use Rattle.file_tree.specs.Tree.{attr_at, attr_zero};
ghost use Rattle.file_tree.specs.Tries.{live};
ghost use Rattle.cell_changes.specs.TreeCells.{TreeCells};
ghost use Rattle.nfs_calls.specs.TreeCells.{IsInode, inode_found, inode_placed, object_at, root_inode, attr_by};
ghost use Rattle.nfs_calls.specs.Gives.{Gives};

use crate::error::CallError;
use harp_cells::{Cell, CellFault, CellRead, Inode, Value};
use harp_types::{Attr, BLOCK_SIZE, Kind, Status, Time};

/// The attributes of the root of the first tree.
fn root_inode() -> Inode
    ensures { result ≡ root_inode }
{
    let zero = Time {
        seconds: 0,
        micros: 0,
    };
    Inode {
        kind: Kind::Directory,
        mode: 0o755,
        uid: 0,
        gid: 0,
        links: 2,
        parent: 1,
        size: 0,
        slots: 0,
        atime: zero,
        mtime: zero,
        ctime: zero,
    }
}

fn inode_in(value: &Value) -> Option<Inode>
    ensures { result ≡ inode_found 0 (Some value.now) }
{
    match value {
        Value::Object { inode } => Some(*inode),
        Value::Meta { .. }
        | Value::Block { .. }
        | Value::Slot { .. }
        | Value::Client { .. }
        | Value::Unformed { .. }
        | Value::Saved { .. }
        | Value::SavedCred { .. } => None,
    }
}

fn inode_found<R: CellRead>(cells: &R, number: u32) -> Option<Inode>
    ensures { result ≡ inode_found number (R.found cells.now) }
{
    match cells.value() {
        Some(value) => inode_in(value),
        None if number == 1 => Some(root_inode()),
        None => None,
    }
}

/// An object's attributes; nothing where no object lives.
#[tactic(auto, using(crate::proofs::Inodes::inode_read))]
pub fn inode_at<R: CellRead>(cells: &mut R, number: u32) -> Result<Option<Inode>, CellFault>
    ensures inode { (t : TreeCells) → R.cells cells.old ≡ Some t.cells
        → IfOk result (λ i. i ≡ inode_placed t.tree number) }
    ensures kept { R.cells cells.new ≡ R.cells cells.old }
    ensures left { R.left cells.new ≡ R.left cells.old }
    ensures rose { result ≡ Err CellFault.StoreFailed
        → Rose (R.faults cells.old) (R.faults cells.new) }
    ensures count { R.faults cells.old ≤ R.faults cells.new }
{
    cells.fetch(Cell::Object { object: number })?;
    Ok(inode_found(cells, number))
}

/// The attributes of a live object.
pub fn live<R: CellRead>(cells: &mut R, number: u32) -> Result<Inode, CallError>
    ensures step { (t : TreeCells) → R.cells cells.old ≡ Some t.cells
        → Gives (λ i. object_at t.tree number) result (live t.tree number) }
    ensures inode { (t : TreeCells) → R.cells cells.old ≡ Some t.cells
        → IfOk result (IsInode t.tree number) }
    ensures kept { R.cells cells.new ≡ R.cells cells.old }
    ensures left { R.left cells.new ≡ R.left cells.old }
    ensures rose { result ≡ Err (CallError.Fault CellFault.StoreFailed)
        → Rose (R.faults cells.old) (R.faults cells.new) }
    ensures count { R.faults cells.old ≤ R.faults cells.new }
{
    match inode_at(cells, number)? {
        Some(inode) => Ok(inode),
        None => Err(CallError::Status(Status::Stale)),
    }
}

/// The attributes of NFS (RFC 1094, section 2.3.5): a block has 4096 bytes.
pub fn attr_by(number: u32, inode: &Inode) -> Attr
    ensures { result ≡ attr_by number inode.now }
{
    Attr {
        kind: inode.kind,
        mode: inode.mode,
        links: inode.links,
        uid: inode.uid,
        gid: inode.gid,
        size: inode.size,
        blocks: inode.size / BLOCK_SIZE + u32::from(inode.size % BLOCK_SIZE != 0),
        fileid: number,
        atime: inode.atime,
        mtime: inode.mtime,
        ctime: inode.ctime,
    }
}

fn attr_zero() -> Attr
    ensures { result ≡ attr_zero }
{
    let zero = Time {
        seconds: 0,
        micros: 0,
    };
    Attr {
        kind: Kind::Regular,
        mode: 0,
        links: 0,
        uid: 0,
        gid: 0,
        size: 0,
        blocks: 0,
        fileid: 0,
        atime: zero,
        mtime: zero,
        ctime: zero,
    }
}

/// The attributes of an object; zeros where none lives, as no entry of a sound tree says.
#[tactic(auto, using(crate::proofs::Inodes::attrs_are))]
pub fn attr_at<R: CellRead>(cells: &mut R, number: u32) -> Result<Attr, CellFault>
    ensures attr { (t : TreeCells) → R.cells cells.old ≡ Some t.cells
        → IfOk result (λ a. a ≡ attr_at t.tree number) }
    ensures kept { R.cells cells.new ≡ R.cells cells.old }
    ensures left { R.left cells.new ≡ R.left cells.old }
    ensures rose { result ≡ Err CellFault.StoreFailed
        → Rose (R.faults cells.old) (R.faults cells.new) }
    ensures count { R.faults cells.old ≤ R.faults cells.new }
{
    match inode_at(cells, number)? {
        Some(inode) => Ok(attr_by(number, &inode)),
        None => Ok(attr_zero()),
    }
}
