//! A further entry of a file or a link.

ghost use Rattle.std.specs.Prelude.{◌≡◌, ◌≤◌, ◌<◌, ◌*◌, ◌^◌, ℕ, Some, Ok, Err, IfOk, length};
ghost use Rattle.harp_types.specs.Limits.{slot_size};
ghost use Rattle.harp_types.specs.Streams.{Rose};
ghost use Rattle.harp_types.specs.declared.call.Call.TheVariants as call;
ghost use Rattle.harp_types.specs.declared.attr.Time.{Time};
ghost use Rattle.file_tree.specs.declared.object.Body.{Body};
ghost use Rattle.file_tree.specs.declared.object.Slot.{Slot};
ghost use Rattle.file_tree.specs.Tree.{Tree, free_from, is_directory, kind_of, place, slots_of, with_entry};
ghost use Rattle.file_tree.specs.Outcome.{add_entry, change, link, reslotted};
ghost use Rattle.harp_cells.specs.Effect.{Cells};
ghost use Rattle.cell_changes.specs.Short.{AreShort};
ghost use Rattle.cell_changes.specs.TreeCells.{TreeCells};
ghost use Rattle.nfs_calls.specs.TreeCells.{IsDirectory, IsRoom};
ghost use Rattle.nfs_calls.specs.Plans.{plan_view, planned, totals_of};
ghost use Rattle.nfs_calls.specs.NewEntries.{linked, links_by};
ghost use Rattle.nfs_calls.specs.Space.{replaced_blocks};
ghost use Rattle.nfs_calls.specs.Gives.{Gives, Tells};
ghost use Rattle.nfs_calls.specs.Forms.{done_form, form};

use crate::error::CallError;
use crate::parts::inode::live;
use crate::parts::names::refuse;
use crate::parts::new_entry::{Room, entered, free_name, room_at};
use crate::parts::permissions::{allowed, searched};
use crate::parts::pushes::{put_object, put_slot};
use crate::parts::space::capped;
use crate::parts::totals::Totals;
use crate::updates::make::{Entering, name_of};
use crate::updates::planned::Planned;
use file_tree::TO_WRITE;
use harp_cells::{CellFault, CellRead, Change, Inode};
use harp_types::{Cred, Kind, Reply, Status, Time};
use std::alloc::{AllocError, Global};

fn is_directory(kind: Kind) -> bool
    ensures { (body : Body) → kind_of body ≡ kind → result ≡ is_directory body }
{
    match kind {
        Kind::Directory => true,
        Kind::Regular | Kind::Link => false,
    }
}

/// The attributes of a file or a link with one more entry.
#[tactic(auto, unfolding(crate::specs::NewEntries::linked))]
fn linked(inode: &Inode, now: Time) -> Inode
    ensures { result ≡ linked inode.now now }
{
    Inode {
        links: capped(u64::from(inode.links) + 1),
        ctime: now,
        ..*inode
    }
}

/// The place of an entry of an object that is there in the first free slot, where a directory has
/// room for it.
#[tactic(auto, unfolding(file_tree::specs::Outcome::add_entry))]
fn room_beside(totals: Totals, slot: u32, inode: &Inode) -> Result<Room, Status>
    ensures step { (tree : Tree) (dir : ℕ) (s : Slot) (now : Time) → totals ≡ totals_of tree
        → IsDirectory tree dir inode.now → slot ≡ free_from 0 (slots_of (place tree dir))
        → Tells (λ _. change tree dir
        (reslotted now (with_entry (slots_of (place tree dir)) s))) result
        (add_entry tree dir (slots_of (place tree dir)) s now) }
    ensures used { (tree : Tree) (dir : ℕ) (s : Slot) → IsDirectory tree dir inode.now
        → slot ≡ free_from 0 (slots_of (place tree dir))
        → IfOk result (λ room. replaced_blocks totals.used inode.now.size
        (slot_size * length (with_entry (slots_of (place tree dir)) s)) ≡ Ok room.used) }
    ensures room { (tree : Tree) (dir : ℕ) → IsDirectory tree dir inode.now
        → slot ≡ free_from 0 (slots_of (place tree dir))
        → IfOk result (IsRoom (slots_of (place tree dir))) }
    ensures bound { IfOk result (λ room. room.slots < 2 ^ 40) }
{
    let room = room_at(u64::from(totals.used), slot, inode)?;
    Ok(room)
}

/// The changes that make an entry of an object that is there.
fn link_changes(
    alloc: Global,
    entering: Entering,
    handle: u32,
    linked: &Inode,
) -> Result<Vec<Change>, AllocError>
    ensures { IfOk result (λ changes. changes.items
        ≡ links_by entering.dir entering.slot entering.name entering.inode handle linked.now) }
{
    let mut changes = Vec::new(alloc);
    put_slot(
        alloc,
        &mut changes,
        entering.dir,
        entering.slot,
        handle,
        entering.name,
    )?;
    put_object(alloc, &mut changes, entering.dir, &entering.inode)?;
    put_object(alloc, &mut changes, handle, linked)?;
    Ok(changes)
}

/// LINK (RFC 1094, section 2.2.13).
#[tactic(auto, unfolding(file_tree::specs::Outcome::link))]
pub fn link<R: CellRead>(
    alloc: Global,
    cells: &mut R,
    totals: Totals,
    cred: Cred,
    handle: u32,
    dir: u32,
    name: &[u8],
    now: Time,
) -> Result<Planned, CallError>
    ensures plan { (t : TreeCells) → R.cells cells.old ≡ Some t.cells → totals ≡ totals_of t.tree
        → Gives plan_view result
        (planned t.cells t.tree (call.Link handle dir name.now)
        (link t.tree cred handle dir name.now now)) }
    ensures short { IfOk result (λ p. AreShort 13 p.changes.items) }
    ensures form { IfOk result (λ p. form p.reply ≡ done_form) }
    ensures kept { R.cells cells.new ≡ R.cells cells.old }
    ensures left { R.left cells.new ≡ R.left cells.old }
    ensures rose { result ≡ Err (CallError.Fault CellFault.StoreFailed)
        → Rose (R.faults cells.old) (R.faults cells.new) }
    ensures count { R.faults cells.old ≤ R.faults cells.new }
{
    let target = live(cells, handle)?;
    let inode = searched(cells, cred, dir)?;
    refuse(Status::Perm, is_directory(target.kind))?;
    let slot = free_name(cells, dir, &inode, name)?;
    allowed(cred, &inode, TO_WRITE)?;
    let room = room_beside(totals, slot, &inode)?;
    let entering = Entering {
        dir,
        inode: entered(&inode, room.slots, 0, now),
        slot: room.slot,
        name: name_of(alloc, name)?,
    };
    let changes = link_changes(alloc, entering, handle, &linked(&target, now))?;
    Ok(Planned {
        reply: Reply::Done,
        changes,
        totals: Totals {
            next: totals.next,
            used: room.used,
        },
    })
}
