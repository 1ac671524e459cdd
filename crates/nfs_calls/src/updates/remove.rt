//! Calls that take an entry away.

ghost use Rattle.std.specs.Prelude.{◌≡◌, ◌≤◌, ◌++◌, ◌-◌, ℕ, List, Some, Err, IfOk};
ghost use Rattle.harp_types.specs.Streams.{Rose};
ghost use Rattle.harp_types.specs.declared.call.Call.TheVariants as call;
ghost use Rattle.harp_types.specs.declared.reply.Reply.TheVariants.{Done};
ghost use Rattle.file_tree.specs.Tree.{place, slots_of, entry};
ghost use Rattle.file_tree.specs.Outcome.{doomed, has_no_entry, removed, remove, remove_dir};
ghost use Rattle.cell_changes.specs.Short.{AreShort};
ghost use Rattle.cell_changes.specs.Table.{takes};
ghost use Rattle.cell_changes.specs.TreeCells.{TreeCells};
ghost use Rattle.nfs_calls.specs.TreeCells.{IsInode, IsDirectory};
ghost use Rattle.nfs_calls.specs.Gives.{Gives};
ghost use Rattle.nfs_calls.specs.Plans.{plan_view, planned, totals_of};
ghost use Rattle.nfs_calls.specs.Entries.{IsTaking};
ghost use Rattle.nfs_calls.specs.Forms.{done_form, form};

use crate::error::CallError;
use crate::parts::directory::find;
use crate::parts::loss::{after_loss, is_directory, link_of, lose, named, relinked};
use crate::parts::names::{is_dots, refuse};
use crate::parts::permissions::{allowed, searched};
use crate::parts::pushes::{erase_slot, put_object};
use crate::parts::totals::Totals;
use crate::updates::planned::Planned;
use file_tree::TO_WRITE;
use harp_cells::{CellFault, CellRead, Inode};
use harp_types::{Cred, Reply, Status, Time};
use inode_dirs::list_from;
use std::alloc::{AllocError, Global};

/// The slot and the object of an entry that is to be taken away.
pub fn doomed<R: CellRead>(
    cells: &mut R,
    dir: u32,
    inode: &Inode,
    name: &[u8],
) -> Result<(u32, u32), CallError>
    ensures step { (t : TreeCells) → R.cells cells.old ≡ Some t.cells
        → IsDirectory t.tree dir inode.now
        → Gives (λ x. x) result (doomed (slots_of (place t.tree dir)) name.now) }
    ensures entry { (t : TreeCells) → R.cells cells.old ≡ Some t.cells
        → IsDirectory t.tree dir inode.now
        → IfOk result (λ x. entry (slots_of (place t.tree dir)) name.now ≡ Some x) }
    ensures kept { R.cells cells.new ≡ R.cells cells.old }
    ensures left { R.left cells.new ≡ R.left cells.old }
    ensures rose { result ≡ Err (CallError.Fault CellFault.StoreFailed)
        → Rose (R.faults cells.old) (R.faults cells.new) }
    ensures count { R.faults cells.old ≤ R.faults cells.new }
{
    refuse(Status::Perm, is_dots(name))?;
    let found = find(cells, dir, inode, name)?;
    Ok(found)
}

/// Whether an object has no entry: `.` and `..` are then the last ones of a directory.
pub fn is_empty<R: CellRead>(
    alloc: Global,
    cells: &mut R,
    number: u32,
    inode: &Inode,
) -> Result<bool, CellFault>
    ensures empty { (t : TreeCells) → R.cells cells.old ≡ Some t.cells
        → IsInode t.tree number inode.now
        → IfOk result (λ empty. empty ≡ has_no_entry (slots_of (place t.tree number))) }
    ensures kept { R.cells cells.new ≡ R.cells cells.old }
    ensures left { R.left cells.new ≡ R.left cells.old }
    ensures rose { result ≡ Err CellFault.StoreFailed
        → Rose (R.faults cells.old) (R.faults cells.new) }
    ensures count { R.faults cells.old ≤ R.faults cells.new }
{
    let page = list_from(alloc, cells, number, inode.parent, inode.slots, 2, 0)?;
    Ok(page.eof)
}

/// The plan that takes an entry away from a directory.
fn take(
    alloc: Global,
    totals: Totals,
    dir: u32,
    inode: &Inode,
    slot: u32,
    number: u32,
    object: &Inode,
    now: Time,
) -> Result<Planned, AllocError>
    ensures plan { (t : TreeCells) (name : List ℕ) → totals ≡ totals_of t.tree
        → IsTaking t.tree dir inode.now name (slot, number) object.now
        → let new = removed t.tree dir (slot, number) now in
        IfOk result (λ p. plan_view p
        ≡ (Done, takes t.tree new dir (Some (slot, number)), totals_of new)) }
    ensures short { IfOk result (λ p. AreShort 13 p.changes.items) }
    ensures form { IfOk result (λ p. form p.reply ≡ done_form) }
{
    let links = inode.links.saturating_sub(link_of(object.kind));
    let mut changes = Vec::new(alloc);
    erase_slot(&mut changes, dir, slot)?;
    put_object(alloc, &mut changes, dir, &relinked(inode, links, now))?;
    lose(alloc, &mut changes, number, object, now)?;
    Ok(Planned {
        reply: Reply::Done,
        changes,
        totals: after_loss(totals, object),
    })
}

/// REMOVE (RFC 1094, section 2.2.11): a file or a link goes with its last entry.
#[tactic(auto, unfolding(file_tree::specs::Outcome::remove))]
pub fn remove<R: CellRead>(
    alloc: Global,
    cells: &mut R,
    totals: Totals,
    cred: Cred,
    dir: u32,
    name: &[u8],
    now: Time,
) -> Result<Planned, CallError>
    ensures plan { (t : TreeCells) → R.cells cells.old ≡ Some t.cells → totals ≡ totals_of t.tree
        → Gives plan_view result (planned t.cells t.tree (call.Remove dir name.now)
        (remove t.tree cred dir name.now now)) }
    ensures short { IfOk result (λ p. AreShort 13 p.changes.items) }
    ensures form { IfOk result (λ p. form p.reply ≡ done_form) }
    ensures kept { R.cells cells.new ≡ R.cells cells.old }
    ensures left { R.left cells.new ≡ R.left cells.old }
    ensures rose { result ≡ Err (CallError.Fault CellFault.StoreFailed)
        → Rose (R.faults cells.old) (R.faults cells.new) }
    ensures count { R.faults cells.old ≤ R.faults cells.new }
{
    let inode = searched(cells, cred, dir)?;
    let (slot, number) = doomed(cells, dir, &inode, name)?;
    allowed(cred, &inode, TO_WRITE)?;
    let object = named(cells, number)?;
    if is_directory(object.kind) {
        return Err(CallError::Status(Status::IsDir));
    }
    Ok(take(alloc, totals, dir, &inode, slot, number, &object, now)?)
}

/// RMDIR (RFC 1094, section 2.2.16): of a directory without an entry.
#[tactic(auto, unfolding(file_tree::specs::Outcome::remove_dir))]
pub fn remove_dir<R: CellRead>(
    alloc: Global,
    cells: &mut R,
    totals: Totals,
    cred: Cred,
    dir: u32,
    name: &[u8],
    now: Time,
) -> Result<Planned, CallError>
    ensures plan { (t : TreeCells) → R.cells cells.old ≡ Some t.cells → totals ≡ totals_of t.tree
        → Gives plan_view result (planned t.cells t.tree (call.RmDir dir name.now)
        (remove_dir t.tree cred dir name.now now)) }
    ensures short { IfOk result (λ p. AreShort 13 p.changes.items) }
    ensures form { IfOk result (λ p. form p.reply ≡ done_form) }
    ensures kept { R.cells cells.new ≡ R.cells cells.old }
    ensures left { R.left cells.new ≡ R.left cells.old }
    ensures rose { result ≡ Err (CallError.Fault CellFault.StoreFailed)
        → Rose (R.faults cells.old) (R.faults cells.new) }
    ensures count { R.faults cells.old ≤ R.faults cells.new }
{
    let inode = searched(cells, cred, dir)?;
    let (slot, number) = doomed(cells, dir, &inode, name)?;
    allowed(cred, &inode, TO_WRITE)?;
    let object = named(cells, number)?;
    if !is_directory(object.kind) {
        return Err(CallError::Status(Status::NotDir));
    }
    if !is_empty(alloc, cells, number, &object)? {
        return Err(CallError::Status(Status::NotEmpty));
    }
    Ok(take(alloc, totals, dir, &inode, slot, number, &object, now)?)
}
