//! The calls that change nothing.

ghost use Rattle.std.specs.Prelude.{◌≡◌, ◌≤◌, Some, Err, IfOk};
ghost use Rattle.harp_types.specs.Streams.{Rose};
ghost use Rattle.file_tree.specs.Tree.{attr_at};
ghost use Rattle.file_tree.specs.Outcome.{get_attr, lookup, read_link, read, read_dir, stat_fs};
ghost use Rattle.cell_changes.specs.TreeCells.{TreeCells};
ghost use Rattle.nfs_calls.specs.TreeCells.{attr_by};
ghost use Rattle.nfs_calls.specs.Gives.{Gives};
ghost use Rattle.nfs_calls.specs.Forms.{attr_form, bytes_form, form, node_form, page_form, path_form, space_form};

use crate::error::CallError;
use crate::parts::directory::{directory, resolve};
use crate::parts::file::{bytes_in, content, text_in};
use crate::parts::inode::{attr_at, attr_by, live};
use crate::parts::permissions::{allowed, searched};
use crate::parts::totals::read_totals;
use file_tree::TO_READ;
use harp_cells::{CellFault, CellRead};
use harp_types::{
    BLOCK_SIZE, Bounded, Cred, Entries, LONGEST_PATH, LONGEST_TRANSFER, Reply, TREE_BLOCKS,
};
use inode_dirs::list_from;
use std::alloc::Global;

/// GETATTR (RFC 1094, section 2.2.2).
#[tactic(auto, using(crate::proofs::Inodes::attr_is), unfolding(file_tree::specs::Outcome::get_attr))]
pub fn get_attr<R: CellRead>(cells: &mut R, handle: u32) -> Result<Reply, CallError>
    ensures reply { (t : TreeCells) → R.cells cells.old ≡ Some t.cells
        → Gives (λ r. (r, t.tree)) result (get_attr t.tree handle) }
    ensures form { IfOk result (λ r. form r ≡ attr_form) }
    ensures kept { R.cells cells.new ≡ R.cells cells.old }
    ensures left { R.left cells.new ≡ R.left cells.old }
    ensures rose { result ≡ Err (CallError.Fault CellFault.StoreFailed)
        → Rose (R.faults cells.old) (R.faults cells.new) }
    ensures count { R.faults cells.old ≤ R.faults cells.new }
{
    let inode = live(cells, handle)?;
    Ok(Reply::Attr {
        attr: attr_by(handle, &inode),
    })
}

/// LOOKUP (RFC 1094, section 2.2.5): `.` and `..` stand for the directory and its parent.
#[tactic(auto, unfolding(file_tree::specs::Outcome::lookup))]
pub fn lookup<R: CellRead>(
    cells: &mut R,
    cred: Cred,
    dir: u32,
    name: &[u8],
) -> Result<Reply, CallError>
    ensures reply { (t : TreeCells) → R.cells cells.old ≡ Some t.cells
        → Gives (λ r. (r, t.tree)) result (lookup t.tree cred dir name.now) }
    ensures form { IfOk result (λ r. form r ≡ node_form) }
    ensures kept { R.cells cells.new ≡ R.cells cells.old }
    ensures left { R.left cells.new ≡ R.left cells.old }
    ensures rose { result ≡ Err (CallError.Fault CellFault.StoreFailed)
        → Rose (R.faults cells.old) (R.faults cells.new) }
    ensures count { R.faults cells.old ≤ R.faults cells.new }
{
    let inode = searched(cells, cred, dir)?;
    let number = resolve(cells, dir, &inode, name)?;
    let attr = attr_at(cells, number)?;
    Ok(Reply::Node {
        handle: number,
        attr,
    })
}

/// READLINK (RFC 1094, section 2.2.6).
#[tactic(auto, unfolding(file_tree::specs::Outcome::read_link))]
pub fn read_link<R: CellRead>(alloc: Global, cells: &mut R, handle: u32) -> Result<Reply, CallError>
    ensures reply { (t : TreeCells) → R.cells cells.old ≡ Some t.cells
        → Gives (λ r. (r, t.tree)) result (read_link t.tree handle) }
    ensures form { IfOk result (λ r. form r ≡ path_form) }
    ensures kept { R.cells cells.new ≡ R.cells cells.old }
    ensures left { R.left cells.new ≡ R.left cells.old }
    ensures rose { result ≡ Err (CallError.Fault CellFault.StoreFailed)
        → Rose (R.faults cells.old) (R.faults cells.new) }
    ensures count { R.faults cells.old ≤ R.faults cells.new }
{
    let inode = live(cells, handle)?;
    text_in(inode.kind)?;
    let text = content(alloc, cells, handle, &inode, 0, LONGEST_PATH as u32)?;
    Ok(Reply::Path {
        text: Bounded::new(text.into_vec()),
    })
}

/// READ (RFC 1094, section 2.2.7): at most 8192 bytes, to the end of the file.
#[tactic(auto, unfolding(file_tree::specs::Outcome::read))]
pub fn read<R: CellRead>(
    alloc: Global,
    cells: &mut R,
    cred: Cred,
    handle: u32,
    offset: u32,
    count: u32,
) -> Result<Reply, CallError>
    ensures reply { (t : TreeCells) → R.cells cells.old ≡ Some t.cells
        → Gives (λ r. (r, t.tree)) result (read t.tree cred handle offset count) }
    ensures form { IfOk result (λ r. form r ≡ bytes_form) }
    ensures kept { R.cells cells.new ≡ R.cells cells.old }
    ensures left { R.left cells.new ≡ R.left cells.old }
    ensures rose { result ≡ Err (CallError.Fault CellFault.StoreFailed)
        → Rose (R.faults cells.old) (R.faults cells.new) }
    ensures count { R.faults cells.old ≤ R.faults cells.new }
{
    let inode = live(cells, handle)?;
    bytes_in(inode.kind)?;
    allowed(cred, &inode, TO_READ)?;
    let bytes = content(
        alloc,
        cells,
        handle,
        &inode,
        offset,
        count.min(LONGEST_TRANSFER as u32),
    )?;
    Ok(Reply::Bytes {
        attr: attr_by(handle, &inode),
        bytes: Bounded::new(bytes.into_vec()),
    })
}

/// READDIR (RFC 1094, section 2.2.17).
#[tactic(auto, unfolding(file_tree::specs::Outcome::read_dir))]
pub fn read_dir<R: CellRead>(
    alloc: Global,
    cells: &mut R,
    cred: Cred,
    dir: u32,
    cookie: u32,
    count: u32,
) -> Result<Reply, CallError>
    ensures reply { (t : TreeCells) → R.cells cells.old ≡ Some t.cells
        → Gives (λ r. (r, t.tree)) result (read_dir t.tree cred dir cookie count) }
    ensures form { IfOk result (λ r. form r ≡ page_form) }
    ensures kept { R.cells cells.new ≡ R.cells cells.old }
    ensures left { R.left cells.new ≡ R.left cells.old }
    ensures rose { result ≡ Err (CallError.Fault CellFault.StoreFailed)
        → Rose (R.faults cells.old) (R.faults cells.new) }
    ensures count { R.faults cells.old ≤ R.faults cells.new }
{
    let inode = directory(cells, dir)?;
    allowed(cred, &inode, TO_READ)?;
    let page = list_from(alloc, cells, dir, inode.parent, inode.slots, cookie, count)?;
    Ok(Reply::Page {
        entries: Entries::new(page.entries),
        eof: page.eof,
    })
}

/// STATFS (RFC 1094, section 2.2.18): in blocks of 4096 bytes.
#[tactic(auto, unfolding(file_tree::specs::Outcome::stat_fs))]
pub fn stat_fs<R: CellRead>(cells: &mut R, handle: u32) -> Result<Reply, CallError>
    ensures reply { (t : TreeCells) → R.cells cells.old ≡ Some t.cells
        → Gives (λ r. (r, t.tree)) result (stat_fs t.tree handle) }
    ensures form { IfOk result (λ r. form r ≡ space_form) }
    ensures kept { R.cells cells.new ≡ R.cells cells.old }
    ensures left { R.left cells.new ≡ R.left cells.old }
    ensures rose { result ≡ Err (CallError.Fault CellFault.StoreFailed)
        → Rose (R.faults cells.old) (R.faults cells.new) }
    ensures count { R.faults cells.old ≤ R.faults cells.new }
{
    live(cells, handle)?;
    let totals = read_totals(cells)?;
    let free = TREE_BLOCKS.saturating_sub(totals.used);
    Ok(Reply::Space {
        transfer: LONGEST_TRANSFER as u32,
        block: BLOCK_SIZE,
        blocks: TREE_BLOCKS,
        free,
        available: free,
    })
}
