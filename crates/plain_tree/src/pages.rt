//! Pages of a directory.

ghost use Rattle.std.specs.Prelude.{◌≡◌, ◌<◌, ◌≤◌, ◌^◌, ◌++◌, replicate, length, IfOk, OnOk};
ghost use Rattle.harp_types.specs.Limits.{longest_transfer, object_numbers};
ghost use Rattle.file_tree.specs.Within.{IsWithinLimits};
ghost use Rattle.plain_tree.specs.Plain.{Gives};
ghost use Rattle.file_tree.specs.Outcome.{entry_at, entries_of, entry_size, page_of, read_dir};

use crate::computed::parent_of;
use crate::error::TreeError;
use crate::objects::Objects;
use crate::permissions::allowed;
use crate::tries::directory;
use file_tree::{Slot, TO_READ};
use harp_types::{Bounded, Cred, DirEntry, Entries, LONGEST_TRANSFER, Reply};
use std::alloc::{AllocError, Global};

fn dots(alloc: Global, fileid: u32, count: usize) -> Result<DirEntry, AllocError>
    requires { count < 3 }
    ensures { IfOk result (λ e. e ≡ record
        { fileid = fileid; name = replicate count 46; cookie = count }) }
{
    Ok(DirEntry {
        fileid,
        name: Bounded::new(vec![in alloc; 46u8; count]?),
        cookie: count as u32,
    })
}

fn push_entry(
    alloc: Global,
    entries: &mut Vec<DirEntry>,
    slot: &Option<Slot>,
    cookie: u32,
) -> Result<(), AllocError>
    ensures { OnOk result (entries.new.items ≡ entries.old.items ++ entry_at cookie slot.now) }
{
    if let Some(slot) = slot {
        let name = slot.name.copy(alloc)?;
        entries.push(DirEntry {
            fileid: slot.number,
            name,
            cookie,
        })?;
    }
    Ok(())
}

/// `.`, `..` and the slots, each with its cookie.
#[tactic(auto, using(crate::proofs::PageLemmas::entry_steps))]
fn entries_of(
    alloc: Global,
    tree: &Objects,
    dir: u32,
    slots: &[Option<Slot>],
) -> Result<Vec<DirEntry>, AllocError>
    requires few { length tree.now ≤ object_numbers }
    requires slots { length slots.now < 2 ^ 31 }
    ensures { IfOk result (λ v. v.items ≡ entries_of tree.now dir slots.now) }
{
    let mut entries = Vec::new(alloc);
    entries.push(dots(alloc, dir, 1)?)?;
    entries.push(dots(alloc, parent_of(tree, dir), 2)?)?;
    for (i, slot) in slots.iter().enumerate() {
        push_entry(alloc, &mut entries, slot, i as u32 + 3)?;
    }
    Ok(entries)
}

fn entry_size(entry: &DirEntry) -> u32
    ensures value { result ≡ entry_size entry.now }
    ensures least { 16 ≤ result }
{
    16 + (entry.name.len() as u32 + 3) / 4 * 4
}

/// The entries above a cookie that fit, and whether none is left.
#[tactic(auto, using(crate::proofs::PageLemmas::page_steps))]
fn page(
    alloc: Global,
    above: u32,
    fits: u32,
    entries: &[DirEntry],
) -> Result<(Vec<DirEntry>, bool), AllocError>
    requires { fits ≤ longest_transfer }
    ensures page { IfOk result (λ p. (p.0.items, p.1) ≡ page_of above fits entries.now) }
    ensures few { IfOk result (λ p. length p.0.items ≤ 512) }
{
    let mut page = Vec::new(alloc);
    let mut room = fits;
    for entry in entries {
        if entry.cookie <= above {
            continue;
        }
        let size = entry_size(entry);
        if size > room {
            return Ok((page, false));
        }
        page.push(entry.copy(alloc)?)?;
        room -= size;
    }
    Ok((page, true))
}

/// READDIR (RFC 1094, section 2.2.17): at most 8192 bytes, and an entry has 16 bytes and its name,
/// rounded up to a multiple of 4.
#[tactic(auto, unfolding(file_tree::specs::Outcome::read_dir))]
pub fn read_dir(
    alloc: Global,
    tree: &Objects,
    cred: Cred,
    dir: u32,
    cookie: u32,
    count: u32,
) -> Result<Reply, TreeError>
    requires { IsWithinLimits tree.now }
    ensures { Gives (λ r. (r, tree.now)) result (read_dir tree.now cred dir cookie count) }
{
    let slots = directory(tree, dir)?;
    allowed(tree, cred, dir, TO_READ)?;
    let entries = entries_of(alloc, tree, dir, slots)?;
    let (items, eof) = page(alloc, cookie, count.min(LONGEST_TRANSFER as u32), &entries)?;
    Ok(Reply::Page {
        entries: Entries::new(items),
        eof,
    })
}
