//! Entries by their names, and free slots.

ghost use Rattle.std.specs.Prelude.{◌≡◌, ◌<◌, ◌≤◌, ◌+◌, IfOk, IfSome, Err, drop};
ghost use Rattle.harp_types.specs.Streams.{Rose};
ghost use Rattle.file_tree.specs.Tree.{Slots, entry, entry_from, free_from};
ghost use Rattle.inode_dirs.specs.Slots.{TellsSlots};
ghost use Rattle.inode_dirs.specs.Searches.{IsSought, slot_sought};

use crate::slot::{look_at, object_at};
use harp_cells::{CellFault, CellRead};

/// What a search by a name for a new entry comes to.
#[derive(Clone, Copy)]
pub enum Sought {
    /// The slot and the object of the entry that has the name.
    Entry { slot: u32, object: u32 },
    /// No entry has it: the slot for a new one.
    Free { slot: u32 },
}

/// The slot and the object of the entry with a name among the slots from one on. They are fetched
/// in order, as far as that entry.
fn find_from<R: CellRead>(
    cells: &mut R,
    dir: u32,
    first: u32,
    slots: u32,
    name: &[u8],
) -> Result<Option<(u32, u32)>, CellFault>
    ensures found { (held : Slots) → TellsSlots (R.cells cells.old) dir slots held
        → IfOk result (λ x. x ≡ entry_from first (drop first held) name.now) }
    ensures within { IfOk result (λ x. IfSome x (λ entry. entry.0 < slots)) }
    ensures kept { R.cells cells.new ≡ R.cells cells.old }
    ensures left { R.left cells.new ≡ R.left cells.old }
    ensures rose { result ≡ Err CellFault.StoreFailed
        → Rose (R.faults cells.old) (R.faults cells.new) }
    ensures count { R.faults cells.old ≤ R.faults cells.new }
{
    for slot in first..slots {
        if let Some(object) = object_at(cells, dir, slot, name)? {
            return Ok(Some((slot, object)));
        }
    }
    Ok(None)
}

/// The slot and the object of the entry with a name, in a directory of so many slots. The slots are
/// fetched in order, as far as that entry.
pub fn find<R: CellRead>(
    cells: &mut R,
    dir: u32,
    slots: u32,
    name: &[u8],
) -> Result<Option<(u32, u32)>, CellFault>
    ensures found { (held : Slots) → TellsSlots (R.cells cells.old) dir slots held
        → IfOk result (λ x. x ≡ entry held name.now) }
    ensures within { IfOk result (λ x. IfSome x (λ entry. entry.0 < slots)) }
    ensures kept { R.cells cells.new ≡ R.cells cells.old }
    ensures left { R.left cells.new ≡ R.left cells.old }
    ensures rose { result ≡ Err CellFault.StoreFailed
        → Rose (R.faults cells.old) (R.faults cells.new) }
    ensures count { R.faults cells.old ≤ R.faults cells.new }
{
    find_from(cells, dir, 0, slots, name)
}

/// The search where no slot up to the first free one has the name.
fn find_behind<R: CellRead>(
    cells: &mut R,
    dir: u32,
    free: u32,
    slots: u32,
    name: &[u8],
) -> Result<Sought, CellFault>
    requires { free < slots }
    ensures sought { (held : Slots) → TellsSlots (R.cells cells.old) dir slots held
        → free ≡ free_from 0 held
        → entry_from (free + 1) (drop (free + 1) held) name.now ≡ entry held name.now
        → IfOk result (IsSought held name.now) }
    ensures within { IfOk result (λ x. slot_sought x ≤ slots) }
    ensures kept { R.cells cells.new ≡ R.cells cells.old }
    ensures left { R.left cells.new ≡ R.left cells.old }
    ensures rose { result ≡ Err CellFault.StoreFailed
        → Rose (R.faults cells.old) (R.faults cells.new) }
    ensures count { R.faults cells.old ≤ R.faults cells.new }
{
    match find_from(cells, dir, free + 1, slots, name)? {
        Some((slot, object)) => Ok(Sought::Entry { slot, object }),
        None => Ok(Sought::Free { slot: free }),
    }
}

/// The entry with a name in a directory of so many slots, or else the slot for a new one: the first
/// free one, else one behind the last. The slots are fetched once, in order, as far as the entry.
pub fn find_or_slot<R: CellRead>(
    cells: &mut R,
    dir: u32,
    slots: u32,
    name: &[u8],
) -> Result<Sought, CellFault>
    ensures sought { (held : Slots) → TellsSlots (R.cells cells.old) dir slots held
        → IfOk result (IsSought held name.now) }
    ensures within { IfOk result (λ x. slot_sought x ≤ slots) }
    ensures kept { R.cells cells.new ≡ R.cells cells.old }
    ensures left { R.left cells.new ≡ R.left cells.old }
    ensures rose { result ≡ Err CellFault.StoreFailed
        → Rose (R.faults cells.old) (R.faults cells.new) }
    ensures count { R.faults cells.old ≤ R.faults cells.new }
{
    for slot in 0..slots {
        let (object, is_free) = look_at(cells, dir, slot, name)?;
        if let Some(object) = object {
            return Ok(Sought::Entry { slot, object });
        }
        if is_free {
            return find_behind(cells, dir, slot, slots, name);
        }
    }
    Ok(Sought::Free { slot: slots })
}
