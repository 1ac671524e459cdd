//! Directories and objects that entries were taken away from.

ghost use Rattle.std.specs.Prelude.{◌≡◌, ◌≤◌, ◌++◌, ◌-◌, ℕ, List, Some, Err, IfOk};
ghost use Rattle.harp_types.specs.Streams.{Rose};
ghost use Rattle.file_tree.specs.Tree.{place, slots_of, blocks_of, entry};
ghost use Rattle.cell_changes.specs.Short.{AreShort};
ghost use Rattle.cell_changes.specs.TreeCells.{TreeCells};
ghost use Rattle.nfs_calls.specs.TreeCells.{IsInode};
ghost use Rattle.nfs_calls.specs.Entries.{is_directory_kind, link_of, relinked, unlinked, is_last, has_blocks, loss, after_loss, inode_zero};

use crate::parts::inode::inode_at;
use crate::parts::pushes::{erase_blocks, erase_object, put_object};
use crate::parts::totals::Totals;
use harp_cells::{CellFault, CellRead, Change, Inode};
use harp_types::{BLOCK_SIZE, Kind, Time};
use std::alloc::{AllocError, Global};

pub fn is_directory(kind: Kind) -> bool
    ensures { result ≡ is_directory_kind kind }
{
    match kind {
        Kind::Directory => true,
        Kind::Regular => false,
        Kind::Link => false,
    }
}

/// How many links an entry for an object of this kind is to its directory.
pub fn link_of(kind: Kind) -> u32
    ensures { result ≡ link_of kind }
{
    u32::from(is_directory(kind))
}

/// The blocks of 4096 bytes of a size.
fn blocks_of(size: u32) -> u32
    ensures { result ≡ blocks_of size }
{
    size / BLOCK_SIZE + u32::from(size % BLOCK_SIZE != 0)
}

/// A directory with so many links, after a change of its slots.
pub fn relinked(inode: &Inode, links: u32, now: Time) -> Inode
    ensures { result ≡ relinked now links inode.now }
{
    Inode {
        links,
        mtime: now,
        ctime: now,
        ..*inode
    }
}

fn unlinked(inode: &Inode, now: Time) -> Inode
    ensures { result ≡ unlinked now inode.now }
{
    Inode {
        links: inode.links.saturating_sub(1),
        ctime: now,
        ..*inode
    }
}

/// Whether an object goes with one of its entries: its last one, or that of a directory.
fn is_last(inode: &Inode) -> bool
    ensures { result ≡ is_last inode.now }
{
    is_directory(inode.kind) || inode.links <= 1
}

fn has_blocks(inode: &Inode) -> bool
    ensures { result ≡ has_blocks inode.now }
{
    !is_directory(inode.kind) && inode.size != 0
}

/// The changes of an object that loses an entry.
pub fn lose(
    alloc: Global,
    changes: &mut Vec<Change>,
    number: u32,
    inode: &Inode,
    now: Time,
) -> Result<(), AllocError>
    ensures { IfOk result (λ _. changes.new.items ≡ changes.old.items
        ++ loss number inode.now now) }
{
    if !is_last(inode) {
        return put_object(alloc, changes, number, &unlinked(inode, now));
    }
    if has_blocks(inode) {
        erase_blocks(changes, number)?;
    }
    erase_object(changes, number)
}

/// The totals after an object lost an entry.
pub fn after_loss(totals: Totals, inode: &Inode) -> Totals
    ensures { result ≡ after_loss totals inode.now }
{
    if is_last(inode) {
        Totals {
            next: totals.next,
            used: totals.used.saturating_sub(blocks_of(inode.size)),
        }
    } else {
        totals
    }
}

fn inode_zero() -> Inode
    ensures { result ≡ inode_zero }
{
    let zero = Time {
        seconds: 0,
        micros: 0,
    };
    Inode {
        kind: Kind::Regular,
        mode: 0,
        uid: 0,
        gid: 0,
        links: 0,
        parent: 0,
        size: 0,
        slots: 0,
        atime: zero,
        mtime: zero,
        ctime: zero,
    }
}

/// The attributes of an object that an entry names; zeros where none lives, as no entry of a sound
/// tree says.
pub fn named<R: CellRead>(cells: &mut R, number: u32) -> Result<Inode, CellFault>
    ensures inode { (t : TreeCells) (dir slot : ℕ) (name : List ℕ)
        → R.cells cells.old ≡ Some t.cells
        → entry (slots_of (place t.tree dir)) name ≡ Some (slot, number)
        → IfOk result (IsInode t.tree number) }
    ensures kept { R.cells cells.new ≡ R.cells cells.old }
    ensures left { R.left cells.new ≡ R.left cells.old }
    ensures rose { result ≡ Err CellFault.StoreFailed
        → Rose (R.faults cells.old) (R.faults cells.new) }
    ensures count { R.faults cells.old ≤ R.faults cells.new }
{
    match inode_at(cells, number)? {
        Some(inode) => Ok(inode),
        None => Ok(inode_zero()),
    }
}
