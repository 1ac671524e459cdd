//! New entries of directories.

ghost use Rattle.std.specs.Prelude.{◌≡◌, ◌≤◌, ◌<◌, ◌^◌, ◌*◌, ℕ, Some, Err, IfOk, length};
ghost use Rattle.harp_types.specs.Limits.{slot_size};
ghost use Rattle.harp_types.specs.declared.reply.Status.TheVariants.{Exist};
ghost use Rattle.harp_types.specs.Streams.{Rose};
ghost use Rattle.file_tree.specs.declared.object.Slot.{Slot};
ghost use Rattle.file_tree.specs.Tree.{Tree, place, slots_of, with_entry, free_from};
ghost use Rattle.file_tree.specs.Tries.{refuse};
ghost use Rattle.file_tree.specs.Outcome.{has_entry, free_name};
ghost use Rattle.harp_cells.specs.Effect.{Cells};
ghost use Rattle.inode_dirs.specs.Searches.{IsSought};
ghost use Rattle.cell_changes.specs.TreeCells.{TreeCells};
ghost use Rattle.nfs_calls.specs.TreeCells.{IsDirectory, IsRoom};
ghost use Rattle.nfs_calls.specs.NewEntries.{FitsName, entered};
ghost use Rattle.nfs_calls.specs.Space.{replaced_blocks};
ghost use Rattle.nfs_calls.specs.Gives.{Gives, Tells};

use crate::error::CallError;
use crate::parts::names::entry_name;
use crate::parts::space::{capped, replaced};
use harp_cells::{CellFault, CellRead, Inode};
use harp_types::{SLOT_SIZE, Status, Time};
use inode_dirs::{Sought, find_or_slot};

/// The entry with a name in a directory, or else the slot for a new one.
pub fn entry_or_slot<R: CellRead>(
    cells: &mut R,
    dir: u32,
    inode: &Inode,
    name: &[u8],
) -> Result<Sought, CellFault>
    ensures sought { (t : TreeCells) → R.cells cells.old ≡ Some t.cells
        → IsDirectory t.tree dir inode.now
        → IfOk result (IsSought (slots_of (place t.tree dir)) name.now) }
    ensures kept { R.cells cells.new ≡ R.cells cells.old }
    ensures left { R.left cells.new ≡ R.left cells.old }
    ensures rose { result ≡ Err CellFault.StoreFailed
        → Rose (R.faults cells.old) (R.faults cells.new) }
    ensures count { R.faults cells.old ≤ R.faults cells.new }
{
    find_or_slot(cells, dir, inode.slots, name)
}

/// The slot for a new entry with a name, which no entry of the directory may have.
pub fn free_slot<R: CellRead>(
    cells: &mut R,
    dir: u32,
    inode: &Inode,
    name: &[u8],
) -> Result<u32, CallError>
    ensures step { (t : TreeCells) → R.cells cells.old ≡ Some t.cells
        → IsDirectory t.tree dir inode.now
        → Gives (λ _. tt) result
        (refuse Exist (has_entry (slots_of (place t.tree dir)) name.now)) }
    ensures slot { (t : TreeCells) → R.cells cells.old ≡ Some t.cells
        → IsDirectory t.tree dir inode.now
        → IfOk result (λ slot. slot ≡ free_from 0 (slots_of (place t.tree dir))) }
    ensures kept { R.cells cells.new ≡ R.cells cells.old }
    ensures left { R.left cells.new ≡ R.left cells.old }
    ensures rose { result ≡ Err (CallError.Fault CellFault.StoreFailed)
        → Rose (R.faults cells.old) (R.faults cells.new) }
    ensures count { R.faults cells.old ≤ R.faults cells.new }
{
    match entry_or_slot(cells, dir, inode, name)? {
        Sought::Entry { .. } => Err(CallError::Status(Status::Exist)),
        Sought::Free { slot } => Ok(slot),
    }
}

/// The slot for a new entry with a name, which is checked first.
pub fn free_name<R: CellRead>(
    cells: &mut R,
    dir: u32,
    inode: &Inode,
    name: &[u8],
) -> Result<u32, CallError>
    ensures step { (t : TreeCells) → R.cells cells.old ≡ Some t.cells
        → IsDirectory t.tree dir inode.now
        → Gives (λ _. tt) result (free_name (slots_of (place t.tree dir)) name.now) }
    ensures slot { (t : TreeCells) → R.cells cells.old ≡ Some t.cells
        → IsDirectory t.tree dir inode.now
        → IfOk result (λ slot. slot ≡ free_from 0 (slots_of (place t.tree dir))) }
    ensures fits { IfOk result (λ _. FitsName name.now) }
    ensures kept { R.cells cells.new ≡ R.cells cells.old }
    ensures left { R.left cells.new ≡ R.left cells.old }
    ensures rose { result ≡ Err (CallError.Fault CellFault.StoreFailed)
        → Rose (R.faults cells.old) (R.faults cells.new) }
    ensures count { R.faults cells.old ≤ R.faults cells.new }
{
    entry_name(name)?;
    free_slot(cells, dir, inode, name)
}

/// The place of a new entry in a directory, which then has so many slots, and the used blocks with
/// it.
#[derive(Clone, Copy)]
pub struct Room {
    pub slot: u32,
    pub slots: u64,
    pub used: u32,
}

/// The place of a new entry in the first free slot, where there is room beside so many used blocks.
pub fn room_at(used: u64, slot: u32, inode: &Inode) -> Result<Room, Status>
    requires { used < 2 ^ 48 }
    ensures step { (tree : Tree) (dir : ℕ) (s : Slot) → IsDirectory tree dir inode.now
        → slot ≡ free_from 0 (slots_of (place tree dir))
        → Tells (λ room. room.used) result
        (replaced_blocks used inode.now.size
        (slot_size * length (with_entry (slots_of (place tree dir)) s))) }
    ensures room { (tree : Tree) (dir : ℕ) → IsDirectory tree dir inode.now
        → slot ≡ free_from 0 (slots_of (place tree dir))
        → IfOk result (IsRoom (slots_of (place tree dir))) }
    ensures bound { IfOk result (λ room. room.slots < 2 ^ 40) }
{
    let slots = u64::from(inode.slots).max(u64::from(slot) + 1);
    let used = replaced(used, inode.size, SLOT_SIZE as u64 * slots)?;
    Ok(Room { slot, slots, used })
}

/// A directory's attributes with so many slots after an entry came, and so many links more.
#[tactic(auto, unfolding(crate::specs::NewEntries::entered))]
pub fn entered(inode: &Inode, slots: u64, more: u32, now: Time) -> Inode
    requires { slots < 2 ^ 40 }
    ensures { result ≡ entered inode.now slots more now }
{
    Inode {
        links: capped(u64::from(inode.links) + u64::from(more)),
        size: capped(SLOT_SIZE as u64 * slots),
        slots: capped(slots),
        mtime: now,
        ctime: now,
        ..*inode
    }
}
