//! RENAME.

ghost use Rattle.std.specs.Prelude.{◌≡◌, ◌≤◌, ◌&&◌, ℕ, List, Some, Ok, Err, IfOk, length, true};
ghost use Rattle.harp_types.specs.Streams.{Rose};
ghost use Rattle.harp_types.specs.declared.call.Call.TheVariants as call;
ghost use Rattle.file_tree.specs.Tree.{place, slots_of, entry, is_directory_at};
ghost use Rattle.file_tree.specs.Tries.{entry_name};
ghost use Rattle.file_tree.specs.Rename.{is_above, rename};
ghost use Rattle.cell_changes.specs.Short.{AreShort};
ghost use Rattle.cell_changes.specs.TreeCells.{TreeCells};
ghost use Rattle.nfs_calls.specs.TreeCells.{IsInode, IsDirectory};
ghost use Rattle.nfs_calls.specs.Gives.{Gives};
ghost use Rattle.nfs_calls.specs.Plans.{plan_view, planned, totals_of};
ghost use Rattle.nfs_calls.specs.NewEntries.{FitsName};
ghost use Rattle.nfs_calls.specs.Moves.{apart_outcome, found_outcome};
ghost use Rattle.nfs_calls.specs.Forms.{done_form, form};

use crate::error::CallError;
use crate::parts::directory::{entry, slots_in};
use crate::parts::inode::live;
use crate::parts::loss::{is_directory, named};
use crate::parts::names::{check_name, is_dots, refuse};
use crate::parts::new_entry::entry_or_slot;
use crate::parts::permissions::allowed;
use crate::parts::totals::Totals;
use crate::updates::make::name_of;
use crate::updates::planned::Planned;
use crate::updates::relocate::{move_in, move_over};
use crate::updates::relocation::{Directories, Relocation};
use file_tree::{TO_SEARCH, TO_WRITE};
use harp_cells::{CellFault, CellRead, Inode};
use harp_types::{Cred, Status, Time};
use inode_dirs::{Sought, is_below};
use std::alloc::Global;

/// Whether an object is a directory that the new directory is or is below.
fn holds_itself<R: CellRead>(
    cells: &mut R,
    number: u32,
    moved: &Inode,
    to_dir: u32,
) -> Result<bool, CellFault>
    ensures above { (t : TreeCells) → R.cells cells.old ≡ Some t.cells
        → IsInode t.tree number moved.now
        → is_directory_at (place t.tree to_dir) ≡ true
        → IfOk result (λ b. b ≡ (is_directory_at (place t.tree number)
        && is_above (length t.tree) t.tree number to_dir)) }
    ensures kept { R.cells cells.new ≡ R.cells cells.old }
    ensures left { R.left cells.new ≡ R.left cells.old }
    ensures rose { result ≡ Err CellFault.StoreFailed
        → Rose (R.faults cells.old) (R.faults cells.new) }
    ensures count { R.faults cells.old ≤ R.faults cells.new }
{
    if !is_directory(moved.kind) {
        return Ok(false);
    }
    is_below(cells, to_dir, number)
}

/// The rename of an entry that was found in a slot.
fn rename_found<R: CellRead>(
    alloc: Global,
    cells: &mut R,
    totals: Totals,
    directories: &Directories,
    slot: u32,
    number: u32,
    to_name: &[u8],
    now: Time,
) -> Result<Planned, CallError>
    requires { FitsName to_name.now }
    ensures plan { (t : TreeCells) (name : List ℕ) → R.cells cells.old ≡ Some t.cells
        → totals ≡ totals_of t.tree
        → IsDirectory t.tree directories.now.dir directories.now.from
        → IsDirectory t.tree directories.now.to_dir directories.now.to
        → entry (slots_of (place t.tree directories.now.dir)) name ≡ Some (slot, number)
        → entry_name to_name.now ≡ Ok tt
        → Gives plan_view result
        (planned t.cells t.tree (call.Rename directories.now.dir name directories.now.to_dir
        to_name.now)
        (apart_outcome t.tree directories.now.dir
        (slot, number) directories.now.to_dir to_name.now now)) }
    ensures short { IfOk result (λ p. AreShort 13 p.changes.items) }
    ensures form { IfOk result (λ p. form p.reply ≡ done_form) }
    ensures kept { R.cells cells.new ≡ R.cells cells.old }
    ensures left { R.left cells.new ≡ R.left cells.old }
    ensures rose { result ≡ Err (CallError.Fault CellFault.StoreFailed)
        → Rose (R.faults cells.old) (R.faults cells.new) }
    ensures count { R.faults cells.old ≤ R.faults cells.new }
{
    let moved = named(cells, number)?;
    if holds_itself(cells, number, &moved, directories.to_dir)? {
        return Err(CallError::Status(Status::Perm));
    }
    let moving = Relocation {
        dir: directories.dir,
        from: directories.from,
        slot,
        number,
        moved,
        to_dir: directories.to_dir,
        to: directories.to,
    };
    let owned = name_of(alloc, to_name)?;
    match entry_or_slot(cells, directories.to_dir, &directories.to, to_name)? {
        Sought::Free { slot } => move_in(alloc, totals, &moving, slot, owned, now),
        Sought::Entry { slot, object } => move_over(
            alloc, cells, totals, &moving, slot, object, owned, now,
        ),
    }
}

/// The rename after the names were checked.
fn rename_checked<R: CellRead>(
    alloc: Global,
    cells: &mut R,
    totals: Totals,
    cred: Cred,
    directories: &Directories,
    name: &[u8],
    to_name: &[u8],
    now: Time,
) -> Result<Planned, CallError>
    requires { FitsName to_name.now }
    ensures plan { (t : TreeCells) → R.cells cells.old ≡ Some t.cells → totals ≡ totals_of t.tree
        → IsDirectory t.tree directories.now.dir directories.now.from
        → IsDirectory t.tree directories.now.to_dir directories.now.to
        → entry_name to_name.now ≡ Ok tt
        → Gives plan_view result
        (planned t.cells t.tree (call.Rename directories.now.dir name.now directories.now.to_dir
        to_name.now)
        (found_outcome t.tree cred directories.now.dir name.now directories.now.to_dir to_name.now
        now)) }
    ensures short { IfOk result (λ p. AreShort 13 p.changes.items) }
    ensures form { IfOk result (λ p. form p.reply ≡ done_form) }
    ensures kept { R.cells cells.new ≡ R.cells cells.old }
    ensures left { R.left cells.new ≡ R.left cells.old }
    ensures rose { result ≡ Err (CallError.Fault CellFault.StoreFailed)
        → Rose (R.faults cells.old) (R.faults cells.new) }
    ensures count { R.faults cells.old ≤ R.faults cells.new }
{
    match entry(cells, directories.dir, &directories.from, name)? {
        None => Err(CallError::Status(Status::NoEnt)),
        Some((slot, number)) => {
            allowed(cred, &directories.from, TO_WRITE)?;
            allowed(cred, &directories.to, TO_WRITE)?;
            rename_found(
                alloc,
                cells,
                totals,
                directories,
                slot,
                number,
                to_name,
                now,
            )
        }
    }
}

/// RENAME (RFC 1094, section 2.2.12): a target is replaced, where it is of the same kind and no
/// directory with entries.
#[tactic(auto, unfolding(file_tree::specs::Rename::rename))]
pub fn rename<R: CellRead>(
    alloc: Global,
    cells: &mut R,
    totals: Totals,
    cred: Cred,
    dir: u32,
    name: &[u8],
    to_dir: u32,
    to_name: &[u8],
    now: Time,
) -> Result<Planned, CallError>
    ensures plan { (t : TreeCells) → R.cells cells.old ≡ Some t.cells → totals ≡ totals_of t.tree
        → Gives plan_view result (planned t.cells t.tree
        (call.Rename dir name.now to_dir to_name.now)
        (rename t.tree cred dir name.now to_dir to_name.now now)) }
    ensures short { IfOk result (λ p. AreShort 13 p.changes.items) }
    ensures form { IfOk result (λ p. form p.reply ≡ done_form) }
    ensures kept { R.cells cells.new ≡ R.cells cells.old }
    ensures left { R.left cells.new ≡ R.left cells.old }
    ensures rose { result ≡ Err (CallError.Fault CellFault.StoreFailed)
        → Rose (R.faults cells.old) (R.faults cells.new) }
    ensures count { R.faults cells.old ≤ R.faults cells.new }
{
    let from = live(cells, dir)?;
    let to = live(cells, to_dir)?;
    slots_in(from.kind)?;
    slots_in(to.kind)?;
    allowed(cred, &from, TO_SEARCH)?;
    allowed(cred, &to, TO_SEARCH)?;
    refuse(Status::Perm, is_dots(name))?;
    refuse(Status::Perm, is_dots(to_name))?;
    check_name(name)?;
    check_name(to_name)?;
    let directories = Directories {
        dir,
        from,
        to_dir,
        to,
    };
    rename_checked(alloc, cells, totals, cred, &directories, name, to_name, now)
}
