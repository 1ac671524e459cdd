//! New objects with their entries.

ghost use Rattle.std.specs.Prelude.{◌≡◌, ◌≤◌, ◌<◌, ◌+◌, ◌*◌, ◌^◌, ◌++◌, ℕ, List, Some, Ok, Err, IfOk, length};
ghost use Rattle.harp_types.specs.Limits.{longest_path, object_numbers, slot_size};
ghost use Rattle.harp_types.specs.Streams.{Rose};
ghost use Rattle.harp_types.specs.declared.call.Call.TheVariants as call;
ghost use Rattle.file_tree.specs.declared.object.Slot.{Slot};
ghost use Rattle.file_tree.specs.Tree.{Tree, place, slots_of, free_from, with_entry, blocks_of};
ghost use Rattle.file_tree.specs.Outcome.{make_dir, make_link, room_for};
ghost use Rattle.harp_cells.specs.Effect.{Cells};
ghost use Rattle.inode_blocks.specs.Changes.{text_put};
ghost use Rattle.cell_changes.specs.Short.{AreShort};
ghost use Rattle.cell_changes.specs.TreeCells.{TreeCells};
ghost use Rattle.nfs_calls.specs.TreeCells.{IsDirectory, IsRoom};
ghost use Rattle.nfs_calls.specs.Plans.{plan_view, planned, totals_of};
ghost use Rattle.nfs_calls.specs.NewEntries.{FitsName, made_inode, makes_by};
ghost use Rattle.nfs_calls.specs.Space.{replaced_blocks};
ghost use Rattle.nfs_calls.specs.Gives.{Gives, Tells};
ghost use Rattle.nfs_calls.specs.Forms.{done_form, form, node_form};

use crate::error::CallError;
use crate::parts::inode::attr_by;
use crate::parts::names::{entry_name, refuse};
use crate::parts::new_entry::{Room, entered, free_name, free_slot, room_at};
use crate::parts::permissions::{may_make, searched};
use crate::parts::pushes::{put_object, put_slot};
use crate::parts::space::blocks_of;
use crate::parts::totals::Totals;
use crate::updates::planned::Planned;
use crate::updates::set_attr::{given, given_mode, given_time};
use harp_cells::{Cell, CellFault, CellRead, Change, Inode, NonEmpty, Value};
use harp_types::{
    Cred, Kind, LONGEST_NAME, LONGEST_PATH, OBJECT_NUMBERS, Reply, SetAttr, Status, Time,
};
use std::alloc::{AllocError, Global};

/// The place of the entry of a new object of a size in the first free slot, where there is room for
/// both.
pub fn room_for(totals: Totals, slot: u32, inode: &Inode, size: u32) -> Result<Room, Status>
    ensures step { (tree : Tree) (dir : ℕ) (name : List ℕ) → totals ≡ totals_of tree
        → IsDirectory tree dir inode.now → slot ≡ free_from 0 (slots_of (place tree dir))
        → Tells (λ _. with_entry (slots_of (place tree dir))
        (record { name = name; number = totals.next })) result
        (room_for tree dir (slots_of (place tree dir)) name size) }
    ensures used { (tree : Tree) (dir : ℕ) (s : Slot) → IsDirectory tree dir inode.now
        → slot ≡ free_from 0 (slots_of (place tree dir))
        → IfOk result (λ room. replaced_blocks (totals.used + blocks_of size) inode.now.size
        (slot_size * length (with_entry (slots_of (place tree dir)) s)) ≡ Ok room.used) }
    ensures room { (tree : Tree) (dir : ℕ) → IsDirectory tree dir inode.now
        → slot ≡ free_from 0 (slots_of (place tree dir))
        → IfOk result (IsRoom (slots_of (place tree dir))) }
    ensures bound { IfOk result (λ room. room.slots < 2 ^ 40) }
    ensures few { IfOk result (λ _. totals.next < object_numbers) }
{
    refuse(Status::NoSpc, totals.next >= OBJECT_NUMBERS)?;
    let used = u64::from(totals.used) + blocks_of(u64::from(size));
    let room = room_at(used, slot, inode)?;
    Ok(room)
}

/// The attributes of a caller's new object.
#[tactic(auto, unfolding(crate::specs::NewEntries::made_inode))]
pub fn made(
    cred: Cred,
    attr: &SetAttr,
    kind: Kind,
    links: u32,
    parent: u32,
    size: u32,
    now: Time,
) -> Inode
    ensures { result ≡ made_inode cred attr.now kind links parent size now }
{
    Inode {
        kind,
        mode: given_mode(attr.mode, 0),
        uid: given(attr.uid, cred.uid),
        gid: given(attr.gid, cred.gid),
        links,
        parent,
        size,
        slots: 0,
        atime: given_time(attr.atime, now),
        mtime: given_time(attr.mtime, now),
        ctime: now,
    }
}

/// A directory that gets an entry: its number, its attributes with the entry, and the entry's slot
/// and name.
#[derive(Drop)]
pub struct Entering {
    pub dir: u32,
    pub inode: Inode,
    pub slot: u32,
    pub name: NonEmpty<LONGEST_NAME>,
}

/// Puts the text of a new link, where it isn't empty.
#[tactic(auto, using(crate::proofs::Makes::text_puts))]
fn put_text(
    alloc: Global,
    changes: &mut Vec<Change>,
    object: u32,
    text: &[u8],
) -> Result<(), AllocError>
    requires { length text.now ≤ longest_path }
    ensures { IfOk result (λ _. changes.new.items ≡ changes.old.items ++ text_put object text.now) }
{
    if text.is_empty() {
        return Ok(());
    }
    let value = Value::Block {
        bytes: NonEmpty::new(Vec::from_slice(alloc, text)?),
    };
    let put = Change::put(alloc, Cell::Block { object, block: 0 }, value)?;
    changes.push(put)?;
    Ok(())
}

/// The changes that make an object with its entry, and with a text where it is a link.
pub fn make(
    alloc: Global,
    entering: Entering,
    number: u32,
    made: &Inode,
    text: &[u8],
) -> Result<Vec<Change>, AllocError>
    requires { length text.now ≤ longest_path }
    ensures { IfOk result (λ changes. changes.items
        ≡ makes_by entering.dir entering.slot entering.name entering.inode number made.now
        text.now) }
{
    let mut changes = Vec::new(alloc);
    put_slot(
        alloc,
        &mut changes,
        entering.dir,
        entering.slot,
        number,
        entering.name,
    )?;
    put_text(alloc, &mut changes, number, text)?;
    put_object(alloc, &mut changes, entering.dir, &entering.inode)?;
    put_object(alloc, &mut changes, number, made)?;
    Ok(changes)
}

/// A name that is known to fit an entry's cell.
pub fn name_of(alloc: Global, name: &[u8]) -> Result<NonEmpty<LONGEST_NAME>, AllocError>
    requires { FitsName name.now }
    ensures { IfOk result (λ n. n ≡ name.now) }
{
    Ok(NonEmpty::new(Vec::from_slice(alloc, name)?))
}

/// MKDIR (RFC 1094, section 2.2.15).
#[tactic(auto, unfolding(file_tree::specs::Outcome::make_dir))]
pub fn make_dir<R: CellRead>(
    alloc: Global,
    cells: &mut R,
    totals: Totals,
    cred: Cred,
    dir: u32,
    name: &[u8],
    attr: &SetAttr,
    now: Time,
) -> Result<Planned, CallError>
    ensures plan { (t : TreeCells) → R.cells cells.old ≡ Some t.cells → totals ≡ totals_of t.tree
        → Gives plan_view result
        (planned t.cells t.tree (call.MkDir dir name.now attr.now)
        (make_dir t.tree cred dir name.now attr.now now)) }
    ensures short { IfOk result (λ p. AreShort 13 p.changes.items) }
    ensures form { IfOk result (λ p. form p.reply ≡ node_form) }
    ensures kept { R.cells cells.new ≡ R.cells cells.old }
    ensures left { R.left cells.new ≡ R.left cells.old }
    ensures rose { result ≡ Err (CallError.Fault CellFault.StoreFailed)
        → Rose (R.faults cells.old) (R.faults cells.new) }
    ensures count { R.faults cells.old ≤ R.faults cells.new }
{
    let inode = searched(cells, cred, dir)?;
    let slot = free_name(cells, dir, &inode, name)?;
    may_make(cred, &inode, attr)?;
    let room = room_for(totals, slot, &inode, 0)?;
    let made = made(cred, attr, Kind::Directory, 2, dir, 0, now);
    let entering = Entering {
        dir,
        inode: entered(&inode, room.slots, 1, now),
        slot: room.slot,
        name: name_of(alloc, name)?,
    };
    let number = totals.next;
    let changes = make(alloc, entering, number, &made, b"")?;
    Ok(Planned {
        reply: Reply::Node {
            handle: number,
            attr: attr_by(number, &made),
        },
        changes,
        totals: Totals {
            next: number + 1,
            used: room.used,
        },
    })
}

/// SYMLINK (RFC 1094, section 2.2.14).
#[tactic(auto, unfolding(file_tree::specs::Outcome::make_link))]
pub fn make_link<R: CellRead>(
    alloc: Global,
    cells: &mut R,
    totals: Totals,
    cred: Cred,
    dir: u32,
    name: &[u8],
    text: &[u8],
    attr: &SetAttr,
    now: Time,
) -> Result<Planned, CallError>
    ensures plan { (t : TreeCells) → R.cells cells.old ≡ Some t.cells → totals ≡ totals_of t.tree
        → Gives plan_view result (planned t.cells t.tree
        (call.SymLink dir name.now text.now attr.now)
        (make_link t.tree cred dir name.now text.now attr.now now)) }
    ensures short { IfOk result (λ p. AreShort 13 p.changes.items) }
    ensures form { IfOk result (λ p. form p.reply ≡ done_form) }
    ensures kept { R.cells cells.new ≡ R.cells cells.old }
    ensures left { R.left cells.new ≡ R.left cells.old }
    ensures rose { result ≡ Err (CallError.Fault CellFault.StoreFailed)
        → Rose (R.faults cells.old) (R.faults cells.new) }
    ensures count { R.faults cells.old ≤ R.faults cells.new }
{
    let inode = searched(cells, cred, dir)?;
    entry_name(name)?;
    refuse(Status::NameTooLong, text.len() > LONGEST_PATH)?;
    let slot = free_slot(cells, dir, &inode, name)?;
    may_make(cred, &inode, attr)?;
    let size = text.len() as u32;
    let room = room_for(totals, slot, &inode, size)?;
    let made = made(cred, attr, Kind::Link, 1, 0, size, now);
    let entering = Entering {
        dir,
        inode: entered(&inode, room.slots, 0, now),
        slot: room.slot,
        name: name_of(alloc, name)?,
    };
    let changes = make(alloc, entering, totals.next, &made, text)?;
    Ok(Planned {
        reply: Reply::Done,
        changes,
        totals: Totals {
            next: totals.next + 1,
            used: room.used,
        },
    })
}
