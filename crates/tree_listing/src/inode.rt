//! What is read in the cells of the whole tree and of an object.

ghost use Rattle.std.specs.Prelude.{◌≡◌, ◌≤◌, length, Some, Err, IfOk};
ghost use Rattle.harp_types.specs.Streams.{Rose};
ghost use Rattle.cell_changes.specs.TreeCells.{TreeCells};
ghost use Rattle.file_tree.specs.Tree.{blocks_of};
ghost use Rattle.tree_listing.specs.Reading.{attr_by, first_root_inode, inode_found, inode_placed, next_found};

use harp_cells::{Cell, CellFault, CellRead, Inode, Value};
use harp_types::{Attr, BLOCK_SIZE, Kind, Time};

fn next_in(value: &Value) -> u32
    ensures { result ≡ next_found (Some value.now) }
{
    match value {
        Value::Meta { next, .. } => *next,
        Value::Object { .. }
        | Value::Unformed { .. }
        | Value::Block { .. }
        | Value::Slot { .. }
        | Value::Client { .. }
        | Value::Saved { .. }
        | Value::SavedCred { .. } => 2,
    }
}

fn next_found<R: CellRead>(cells: &R) -> u32
    ensures { result ≡ next_found (R.found cells.now) }
{
    match cells.value() {
        Some(value) => next_in(value),
        None => 2,
    }
}

/// The number of the next object.
#[tactic(auto, using(crate::proofs::CellsRead::next_read))]
pub fn next_number<R: CellRead>(cells: &mut R) -> Result<u32, CellFault>
    ensures next { (t : TreeCells) → R.cells cells.old ≡ Some t.cells
        → IfOk result (λ next. next ≡ length t.tree) }
    ensures kept { R.cells cells.new ≡ R.cells cells.old }
    ensures left { R.left cells.new ≡ R.left cells.old }
    ensures rose { result ≡ Err CellFault.StoreFailed
        → Rose (R.faults cells.old) (R.faults cells.new) }
    ensures count { R.faults cells.old ≤ R.faults cells.new }
{
    cells.fetch(Cell::Meta)?;
    Ok(next_found(cells))
}

// The attributes of the root of the first tree.
fn first_root() -> Inode
    ensures { result ≡ first_root_inode }
{
    let zero = Time {
        seconds: 0,
        micros: 0,
    };
    Inode {
        kind: Kind::Directory,
        mode: 0o755,
        uid: 0,
        gid: 0,
        links: 2,
        parent: 1,
        size: 0,
        slots: 0,
        atime: zero,
        mtime: zero,
        ctime: zero,
    }
}

fn inode_in(value: &Value) -> Option<Inode>
    ensures { result ≡ inode_found 0 (Some value.now) }
{
    match value {
        Value::Object { inode } => Some(*inode),
        Value::Meta { .. }
        | Value::Unformed { .. }
        | Value::Block { .. }
        | Value::Slot { .. }
        | Value::Client { .. }
        | Value::Saved { .. }
        | Value::SavedCred { .. } => None,
    }
}

fn inode_found<R: CellRead>(cells: &R, number: u32) -> Option<Inode>
    ensures { result ≡ inode_found number (R.found cells.now) }
{
    match cells.value() {
        Some(value) => inode_in(value),
        None if number == 1 => Some(first_root()),
        None => None,
    }
}

/// An object's attributes; nothing where no object lives.
#[tactic(auto, using(crate::proofs::CellsRead::inode_read))]
pub fn inode_at<R: CellRead>(cells: &mut R, number: u32) -> Result<Option<Inode>, CellFault>
    ensures inode { (t : TreeCells) → R.cells cells.old ≡ Some t.cells
        → IfOk result (λ i. i ≡ inode_placed t.tree number) }
    ensures kept { R.cells cells.new ≡ R.cells cells.old }
    ensures left { R.left cells.new ≡ R.left cells.old }
    ensures rose { result ≡ Err CellFault.StoreFailed
        → Rose (R.faults cells.old) (R.faults cells.new) }
    ensures count { R.faults cells.old ≤ R.faults cells.new }
{
    cells.fetch(Cell::Object { object: number })?;
    Ok(inode_found(cells, number))
}

/// How many blocks of 4096 bytes a size takes.
pub fn blocks_of(size: u32) -> u32
    ensures { result ≡ blocks_of size }
{
    size / BLOCK_SIZE + u32::from(size % BLOCK_SIZE != 0)
}

/// The attributes of NFS (RFC 1094, section 2.3.5): a block has 4096 bytes.
pub fn attr_by(number: u32, inode: &Inode) -> Attr
    ensures { result ≡ attr_by number inode.now }
{
    Attr {
        kind: inode.kind,
        mode: inode.mode,
        links: inode.links,
        uid: inode.uid,
        gid: inode.gid,
        size: inode.size,
        blocks: blocks_of(inode.size),
        fileid: number,
        atime: inode.atime,
        mtime: inode.mtime,
        ctime: inode.ctime,
    }
}
