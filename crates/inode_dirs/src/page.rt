//! Pages of a directory.

ghost use Rattle.std.specs.Prelude.{◌≡◌, ◌≤◌, ◌<◌, ◌+◌, ◌*◌, ◌∷◌, ◌++◌, ◌^◌, List, length, replicate, min, false};
ghost use Rattle.std.specs.Prelude.{IfOk, Err, if◌then◌else◌};
ghost use Rattle.harp_types.specs.Limits.{longest_transfer};
ghost use Rattle.harp_types.specs.Streams.{Rose};
ghost use Rattle.harp_types.specs.declared.reply.DirEntry.{DirEntry as Listed};
ghost use Rattle.file_tree.specs.Tree.{Slots};
ghost use Rattle.file_tree.specs.Outcome.{entry_size, entries_from, page_of};
ghost use Rattle.inode_dirs.specs.Slots.{TellsSlots};
ghost use Rattle.inode_dirs.specs.Pages.{entries_under, entry_list, page_after};

use crate::slot::entry_of_slot;
use harp_cells::{CellFault, CellRead};
use harp_types::{Bounded, DirEntry, LONGEST_TRANSFER};
use std::alloc::{AllocError, Global};

/// A page of a directory: entries in the order of their cookies, and whether none is left after
/// them.
#[derive(Drop)]
pub struct DirPage {
    pub entries: Vec<DirEntry>,
    pub eof: bool,
}

// A page that is being filled with entries above a cookie, and the bytes that are left on it.
#[derive(Drop)]
struct Filling {
    entries: Vec<DirEntry>,
    above: u32,
    room: u32,
    ghost within: { 16 * length entries.items + room ≤ longest_transfer },
}

fn size_of(entry: &DirEntry) -> u32
    ensures value { result ≡ entry_size entry.now }
    ensures least { 16 ≤ result }
{
    16 + (entry.name.len() as u32 + 3) / 4 * 4
}

impl Filling {
    /// Adds an entry, unless its cookie isn't above. It gives false where the entry doesn't fit,
    /// which ends the page.
    #[tactic(auto, using(crate::proofs::PageSteps::offer_steps))]
    fn offer(&mut self, entry: DirEntry) -> Result<bool, AllocError>
        ensures above { self.new.above ≡ self.old.above }
        ensures page { IfOk result (λ goes. (more : List Listed)
            → page_after self.old.entries.items self.old.above self.old.room (entry ∷ more)
            ≡ (if goes then page_after self.new.entries.items self.new.above self.new.room more
            else (self.new.entries.items, false))) }
    {
        if entry.cookie <= self.above {
            return Ok(true);
        }
        let size = size_of(&entry);
        if size > self.room {
            return Ok(false);
        }
        self.entries.push(entry)?;
        self.room -= size;
        Ok(true)
    }

    /// Adds the entry of a slot, where it has one.
    fn offer_some(&mut self, entry: Option<DirEntry>) -> Result<bool, AllocError>
        ensures above { self.new.above ≡ self.old.above }
        ensures page { IfOk result (λ goes. (more : List Listed)
            → page_after self.old.entries.items self.old.above self.old.room
            (entry_list entry ++ more)
            ≡ (if goes then page_after self.new.entries.items self.new.above self.new.room more
            else (self.new.entries.items, false))) }
    {
        match entry {
            None => Ok(true),
            Some(entry) => Ok(self.offer(entry)?),
        }
    }

    /// Adds `.` and `..`.
    fn offer_dots(&mut self, alloc: Global, dir: u32, parent: u32) -> Result<bool, AllocError>
        ensures above { self.new.above ≡ self.old.above }
        ensures page { IfOk result (λ goes. (slots : Slots)
            → page_after self.old.entries.items self.old.above self.old.room
            (entries_under dir parent slots)
            ≡ (if goes then page_after self.new.entries.items self.new.above self.new.room
            (entries_from 3 slots)
            else (self.new.entries.items, false))) }
    {
        if !self.offer(dots(alloc, dir, 1)?)? {
            return Ok(false);
        }
        Ok(self.offer(dots(alloc, parent, 2)?)?)
    }
}

fn dots(alloc: Global, fileid: u32, count: usize) -> Result<DirEntry, AllocError>
    requires { count < 3 }
    ensures { IfOk result (λ e. e ≡ record
        { fileid = fileid; name = replicate count 46; cookie = count }) }
{
    Ok(DirEntry {
        fileid,
        name: Bounded::new(vec![in alloc; b'.'; count]?),
        cookie: count as u32,
    })
}

/// Adds the entries of a directory's slots, and gives whether none is left.
fn list_slots<R: CellRead>(
    alloc: Global,
    cells: &mut R,
    dir: u32,
    slots: u32,
    page: &mut Filling,
) -> Result<bool, CellFault>
    ensures page { (held : Slots) → TellsSlots (R.cells cells.old) dir slots held
        → slots + 2 < 2 ^ 32
        → IfOk result (λ eof. page_after page.old.entries.items page.old.above page.old.room
        (entries_from 3 held)
        ≡ (page.new.entries.items, eof)) }
    ensures kept { R.cells cells.new ≡ R.cells cells.old }
    ensures left { R.left cells.new ≡ R.left cells.old }
    ensures rose { result ≡ Err CellFault.StoreFailed
        → Rose (R.faults cells.old) (R.faults cells.new) }
    ensures count { R.faults cells.old ≤ R.faults cells.new }
{
    for slot in page.above.saturating_sub(2)..slots {
        let entry = entry_of_slot(alloc, cells, dir, slot)?;
        if !page.offer_some(entry)? {
            return Ok(false);
        }
    }
    Ok(true)
}

/// READDIR (RFC 1094, section 2.2.17) of a directory with so many slots: the entries with a cookie
/// above the one given, `.`, `..` and those of the slots, as many as fit into `count` bytes, of
/// which 8192 count at most. An entry takes 16 bytes and its name, rounded up to a multiple of 4.
/// Slots are fetched in order from the first one with such a cookie on, as far as the first entry
/// that doesn't fit. Cookies fit 32 bits where there are fewer than 2^32 - 2 slots.
pub fn list_from<R: CellRead>(
    alloc: Global,
    cells: &mut R,
    dir: u32,
    parent: u32,
    slots: u32,
    cookie: u32,
    count: u32,
) -> Result<DirPage, CellFault>
    ensures page { (held : Slots) → TellsSlots (R.cells cells.old) dir slots held
        → slots + 2 < 2 ^ 32
        → IfOk result (λ page. (page.entries.items, page.eof)
        ≡ page_of cookie (min count longest_transfer) (entries_under dir parent held)) }
    ensures few { IfOk result (λ page. length page.entries.items ≤ 512) }
    ensures kept { R.cells cells.new ≡ R.cells cells.old }
    ensures left { R.left cells.new ≡ R.left cells.old }
    ensures rose { result ≡ Err CellFault.StoreFailed
        → Rose (R.faults cells.old) (R.faults cells.new) }
    ensures count { R.faults cells.old ≤ R.faults cells.new }
{
    let mut page = Filling {
        entries: Vec::new(alloc),
        above: cookie,
        room: count.min(LONGEST_TRANSFER as u32),
    };
    let eof = if page.offer_dots(alloc, dir, parent)? {
        list_slots(alloc, cells, dir, slots, &mut page)?
    } else {
        false
    };
    Ok(DirPage {
        entries: page.entries,
        eof,
    })
}
