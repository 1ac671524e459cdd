//! The changes of an entry that moves.

ghost use Rattle.std.specs.Prelude.{◌≡◌, ◌++◌, IfOk};
ghost use Rattle.nfs_calls.specs.Moves.{slot_changes, directory_changes, moved_inode, links_over};

use crate::parts::loss::{is_directory, link_of, relinked};
use crate::parts::pushes::{erase_slot, put_object, put_slot};
use harp_cells::{Change, Inode, NonEmpty};
use harp_types::{LONGEST_NAME, Time};
use std::alloc::{AllocError, Global};

/// The directories of a move, which may be one, and their attributes.
#[derive(Clone, Copy)]
pub struct Directories {
    pub dir: u32,
    pub from: Inode,
    pub to_dir: u32,
    pub to: Inode,
}

/// An entry that moves: its slot, the object that it names, the directory that it is in and the one
/// that it moves to, which may be the same, and the attributes of these.
#[derive(Clone, Copy)]
pub struct Relocation {
    pub dir: u32,
    pub from: Inode,
    pub slot: u32,
    pub number: u32,
    pub moved: Inode,
    pub to_dir: u32,
    pub to: Inode,
}

/// The entry leaves its slot for another one, unless that is the same.
pub fn push_slots(
    alloc: Global,
    changes: &mut Vec<Change>,
    entry: &Relocation,
    to_slot: u32,
    to_name: NonEmpty<LONGEST_NAME>,
) -> Result<(), AllocError>
    ensures { IfOk result (λ _. changes.new.items ≡ changes.old.items
        ++ slot_changes entry.now to_slot to_name) }
{
    if entry.dir != entry.to_dir || entry.slot != to_slot {
        erase_slot(changes, entry.dir, entry.slot)?;
    }
    put_slot(alloc, changes, entry.to_dir, to_slot, entry.number, to_name)
}

/// The directories, which may be one, get their attributes.
pub fn push_directories(
    alloc: Global,
    changes: &mut Vec<Change>,
    entry: &Relocation,
    to: &Inode,
    now: Time,
) -> Result<(), AllocError>
    ensures { IfOk result (λ _. changes.new.items ≡ changes.old.items
        ++ directory_changes entry.now to.now now) }
{
    if entry.dir != entry.to_dir {
        let links = entry.from.links.saturating_sub(link_of(entry.moved.kind));
        put_object(
            alloc,
            changes,
            entry.dir,
            &relinked(&entry.from, links, now),
        )?;
    }
    put_object(alloc, changes, entry.to_dir, to)
}

/// The moved object after its move: a directory gets another parent.
pub fn moved_inode(entry: &Relocation, now: Time) -> Inode
    ensures { result ≡ moved_inode entry.now now }
{
    let parent = if is_directory(entry.moved.kind) {
        entry.to_dir
    } else {
        entry.moved.parent
    };
    Inode {
        parent,
        ctime: now,
        ..entry.moved
    }
}

/// The links of the directory that the entry moves to, where it replaces an entry of its own kind.
pub fn links_over(entry: &Relocation) -> u32
    ensures { result ≡ links_over entry.now }
{
    if entry.dir == entry.to_dir {
        entry.to.links.saturating_sub(link_of(entry.moved.kind))
    } else {
        entry.to.links
    }
}
