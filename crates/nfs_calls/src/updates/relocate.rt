//! The plans of an entry that moves.

ghost use Rattle.std.specs.Prelude.{◌≡◌, ◌≢◌, ◌≤◌, ◌++◌, ◌∷◌, [], ℕ, List, Some, None, Ok, Err, IfOk};
ghost use Rattle.harp_types.specs.Streams.{Rose};
ghost use Rattle.harp_types.specs.declared.call.Call.TheVariants as call;
ghost use Rattle.harp_types.specs.declared.reply.Reply.TheVariants.{Done};
ghost use Rattle.harp_cells.specs.declared.cell.Cell.TheVariants as cell;
ghost use Rattle.harp_cells.specs.declared.value.Value.TheVariants as value;
ghost use Rattle.harp_cells.specs.declared.change.Change.TheVariants as change;
ghost use Rattle.file_tree.specs.Tree.{place, slots_of, entry, free_from};
ghost use Rattle.file_tree.specs.Rename.{check_target};
ghost use Rattle.cell_changes.specs.Short.{AreShort};
ghost use Rattle.cell_changes.specs.TreeCells.{TreeCells};
ghost use Rattle.nfs_calls.specs.TreeCells.{IsInode};
ghost use Rattle.nfs_calls.specs.Gives.{Gives};
ghost use Rattle.nfs_calls.specs.Plans.{plan_view, planned, totals_of};
ghost use Rattle.nfs_calls.specs.Entries.{relinked, loss, after_loss};
ghost use Rattle.nfs_calls.specs.Moves.{slot_changes, directory_changes, moved_inode, links_over, moved_outcome, kind_refusal, IsMoving};
ghost use Rattle.nfs_calls.specs.Forms.{done_form, form};

use crate::error::CallError;
use crate::parts::loss::{after_loss, is_directory, link_of, lose, named, relinked};
use crate::parts::new_entry::{entered, room_at};
use crate::parts::pushes::put_object;
use crate::parts::totals::Totals;
use crate::updates::planned::Planned;
use crate::updates::relocation::{
    Relocation, links_over, moved_inode, push_directories, push_slots,
};
use crate::updates::remove::is_empty;
use harp_cells::{CellFault, CellRead, Inode, NonEmpty};
use harp_types::{LONGEST_NAME, Reply, Status, Time};
use std::alloc::{AllocError, Global};

/// The plan where no entry is replaced, by the totals and the attributes of the directory after it.
fn plan_in(
    alloc: Global,
    totals: Totals,
    moving: &Relocation,
    to_slot: u32,
    to: &Inode,
    to_name: NonEmpty<LONGEST_NAME>,
    now: Time,
) -> Result<Planned, AllocError>
    ensures plan { IfOk result (λ p. plan_view p ≡ (
      Done,
      slot_changes moving.now to_slot to_name
          ++ directory_changes moving.now to.now now
          ++ change.Put (cell.Object moving.now.number) (value.Object (moved_inode moving.now now))
          ∷ [],
      totals,
    )) }
    ensures short { IfOk result (λ p. AreShort 13 p.changes.items) }
    ensures form { IfOk result (λ p. form p.reply ≡ done_form) }
{
    let mut changes = Vec::new(alloc);
    push_slots(alloc, &mut changes, moving, to_slot, to_name)?;
    push_directories(alloc, &mut changes, moving, to, now)?;
    put_object(
        alloc,
        &mut changes,
        moving.number,
        &moved_inode(moving, now),
    )?;
    Ok(Planned {
        reply: Reply::Done,
        changes,
        totals,
    })
}

/// The plan where an entry is replaced, whose object has these attributes.
fn plan_over(
    alloc: Global,
    totals: Totals,
    moving: &Relocation,
    to_slot: u32,
    target: u32,
    object: &Inode,
    to_name: NonEmpty<LONGEST_NAME>,
    now: Time,
) -> Result<Planned, AllocError>
    ensures plan { IfOk result (λ p. plan_view p ≡ (
      Done,
      slot_changes moving.now to_slot to_name
          ++ directory_changes moving.now (relinked now (links_over moving.now) moving.now.to) now
          ++ loss target object.now now
          ++ change.Put (cell.Object moving.now.number) (value.Object (moved_inode moving.now now))
          ∷ [],
      after_loss totals object.now,
    )) }
    ensures short { IfOk result (λ p. AreShort 13 p.changes.items) }
    ensures form { IfOk result (λ p. form p.reply ≡ done_form) }
{
    let to = relinked(&moving.to, links_over(moving), now);
    let mut changes = Vec::new(alloc);
    push_slots(alloc, &mut changes, moving, to_slot, to_name)?;
    push_directories(alloc, &mut changes, moving, &to, now)?;
    lose(alloc, &mut changes, target, object, now)?;
    put_object(
        alloc,
        &mut changes,
        moving.number,
        &moved_inode(moving, now),
    )?;
    Ok(Planned {
        reply: Reply::Done,
        changes,
        totals: after_loss(totals, object),
    })
}

/// The move to another name in the same directory: the old slot counts as free, beside the first
/// free one.
fn move_within(
    alloc: Global,
    totals: Totals,
    moving: &Relocation,
    free: u32,
    to_name: NonEmpty<LONGEST_NAME>,
    now: Time,
) -> Result<Planned, AllocError>
    ensures plan { (t : TreeCells) (name : List ℕ) → totals ≡ totals_of t.tree
        → free ≡ free_from 0 (slots_of (place t.tree moving.now.to_dir))
        → moving.now.dir ≡ moving.now.to_dir → IsMoving t.tree moving.now name to_name
        → entry (slots_of (place t.tree moving.now.to_dir)) to_name ≡ None
        → IfOk result (λ p. planned t.cells t.tree
        (call.Rename moving.now.dir name moving.now.to_dir to_name)
        (moved_outcome t.tree moving.now.dir
        (moving.now.slot, moving.now.number) moving.now.to_dir to_name None now)
        ≡ Ok (plan_view p)) }
    ensures short { IfOk result (λ p. AreShort 13 p.changes.items) }
    ensures form { IfOk result (λ p. form p.reply ≡ done_form) }
{
    let to_slot = moving.slot.min(free);
    let to = relinked(&moving.to, moving.to.links, now);
    Ok(plan_in(alloc, totals, moving, to_slot, &to, to_name, now)?)
}

/// The move into the first free slot of another directory, where that has room.
fn move_across(
    alloc: Global,
    totals: Totals,
    moving: &Relocation,
    free: u32,
    to_name: NonEmpty<LONGEST_NAME>,
    now: Time,
) -> Result<Planned, CallError>
    ensures plan { (t : TreeCells) (name : List ℕ) → totals ≡ totals_of t.tree
        → free ≡ free_from 0 (slots_of (place t.tree moving.now.to_dir))
        → moving.now.dir ≢ moving.now.to_dir → IsMoving t.tree moving.now name to_name
        → entry (slots_of (place t.tree moving.now.to_dir)) to_name ≡ None
        → Gives plan_view result (planned t.cells t.tree
        (call.Rename moving.now.dir name moving.now.to_dir to_name)
        (moved_outcome t.tree moving.now.dir
        (moving.now.slot, moving.now.number) moving.now.to_dir to_name None now)) }
    ensures short { IfOk result (λ p. AreShort 13 p.changes.items) }
    ensures form { IfOk result (λ p. form p.reply ≡ done_form) }
    ensures store { result ≢ Err (CallError.Fault CellFault.StoreFailed) }
{
    match room_at(u64::from(totals.used), free, &moving.to) {
        Err(refusal) => Err(CallError::Status(refusal)),
        Ok(room) => {
            let to = entered(&moving.to, room.slots, link_of(moving.moved.kind), now);
            let after = Totals {
                next: totals.next,
                used: room.used,
            };
            Ok(plan_in(alloc, after, moving, room.slot, &to, to_name, now)?)
        }
    }
}

/// The move where there is no target, to a directory with this first free slot.
pub fn move_in(
    alloc: Global,
    totals: Totals,
    moving: &Relocation,
    free: u32,
    to_name: NonEmpty<LONGEST_NAME>,
    now: Time,
) -> Result<Planned, CallError>
    ensures plan { (t : TreeCells) (name : List ℕ) → totals ≡ totals_of t.tree
        → free ≡ free_from 0 (slots_of (place t.tree moving.now.to_dir))
        → IsMoving t.tree moving.now name to_name
        → entry (slots_of (place t.tree moving.now.to_dir)) to_name ≡ None
        → Gives plan_view result (planned t.cells t.tree
        (call.Rename moving.now.dir name moving.now.to_dir to_name)
        (moved_outcome t.tree moving.now.dir
        (moving.now.slot, moving.now.number) moving.now.to_dir to_name None now)) }
    ensures short { IfOk result (λ p. AreShort 13 p.changes.items) }
    ensures form { IfOk result (λ p. form p.reply ≡ done_form) }
    ensures store { result ≢ Err (CallError.Fault CellFault.StoreFailed) }
{
    if moving.dir == moving.to_dir {
        return Ok(move_within(alloc, totals, moving, free, to_name, now)?);
    }
    move_across(alloc, totals, moving, free, to_name, now)
}

/// The refusal where a directory and what is none would take each other's place.
fn kind_refusal(from: bool) -> Status
    ensures { result ≡ kind_refusal from }
{
    if from { Status::NotDir } else { Status::IsDir }
}

/// What a target refuses.
fn check_target<R: CellRead>(
    alloc: Global,
    cells: &mut R,
    moving: &Relocation,
    target: u32,
    object: &Inode,
) -> Result<(), CallError>
    ensures step { (t : TreeCells) (slot : ℕ) → R.cells cells.old ≡ Some t.cells
        → IsInode t.tree moving.now.number moving.now.moved
        → IsInode t.tree target object.now
        → Gives (λ u. u) result (check_target t.tree moving.now.number (Some (slot, target))) }
    ensures kept { R.cells cells.new ≡ R.cells cells.old }
    ensures left { R.left cells.new ≡ R.left cells.old }
    ensures rose { result ≡ Err (CallError.Fault CellFault.StoreFailed)
        → Rose (R.faults cells.old) (R.faults cells.new) }
    ensures count { R.faults cells.old ≤ R.faults cells.new }
{
    let from = is_directory(moving.moved.kind);
    let to = is_directory(object.kind);
    if from != to {
        return Err(CallError::Status(kind_refusal(from)));
    }
    if target == moving.number {
        return Ok(());
    }
    if !is_empty(alloc, cells, target, object)? {
        return Err(CallError::Status(Status::NotEmpty));
    }
    Ok(())
}

/// The move where there is a target, which the moved object replaces. Onto the same object nothing
/// changes.
pub fn move_over<R: CellRead>(
    alloc: Global,
    cells: &mut R,
    totals: Totals,
    moving: &Relocation,
    to_slot: u32,
    target: u32,
    to_name: NonEmpty<LONGEST_NAME>,
    now: Time,
) -> Result<Planned, CallError>
    ensures plan { (t : TreeCells) (name : List ℕ) → R.cells cells.old ≡ Some t.cells
        → totals ≡ totals_of t.tree
        → IsMoving t.tree moving.now name to_name
        → entry (slots_of (place t.tree moving.now.to_dir)) to_name ≡ Some (to_slot, target)
        → Gives plan_view result (planned t.cells t.tree
        (call.Rename moving.now.dir name moving.now.to_dir to_name)
        (moved_outcome t.tree moving.now.dir
        (moving.now.slot, moving.now.number) moving.now.to_dir to_name
        (Some (to_slot, target)) now)) }
    ensures short { IfOk result (λ p. AreShort 13 p.changes.items) }
    ensures form { IfOk result (λ p. form p.reply ≡ done_form) }
    ensures kept { R.cells cells.new ≡ R.cells cells.old }
    ensures left { R.left cells.new ≡ R.left cells.old }
    ensures rose { result ≡ Err (CallError.Fault CellFault.StoreFailed)
        → Rose (R.faults cells.old) (R.faults cells.new) }
    ensures count { R.faults cells.old ≤ R.faults cells.new }
{
    let object = named(cells, target)?;
    if let Err(refusal) = check_target(alloc, cells, moving, target, &object) {
        return Err(refusal);
    }
    if target == moving.number {
        return Ok(Planned {
            reply: Reply::Done,
            changes: Vec::new(alloc),
            totals,
        });
    }
    Ok(plan_over(
        alloc, totals, moving, to_slot, target, &object, to_name, now,
    )?)
}
