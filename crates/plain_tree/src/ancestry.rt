//! The way up from a directory, in time linear in the tree: one pass finds every holder.

ghost use Rattle.std.specs.Prelude.{◌≡◌, ◌<◌, ◌≤◌, ◌==◌, ◌&&◌, ℕ, IfOk, length, slice_index_or, if◌then◌else◌};
ghost use Rattle.harp_types.specs.Limits.{object_numbers};
ghost use Rattle.plain_tree.specs.Plain.{AreHolders};
ghost use Rattle.file_tree.specs.Tree.{place, names_it, names_in, is_directory_at, parent_of};
ghost use Rattle.file_tree.specs.Rename.{is_above};

use crate::computed::{is_directory, is_directory_at, place, slots_of};
use crate::objects::Objects;
use file_tree::{Object, Slot};
use std::alloc::{AllocError, Global};

#[tactic(auto, using(crate::proofs::HolderTable::notes))]
fn note_slot(holders: &mut Vec<u32>, slot: &Option<Slot>, dir: u32)
    ensures size { length holders.new.items ≡ length holders.old.items }
    ensures noted { (n : ℕ) → n < length holders.old.items
        → slice_index_or holders.new.items n 0 ≡ if names_it n slot.now then dir
        else slice_index_or holders.old.items n 0 }
{
    if let Some(slot) = slot {
        if (slot.number as usize) < holders.len() {
            holders[slot.number as usize] = dir;
        }
    }
}

/// Notes a directory as the holder of all that its slots name.
#[tactic(auto, using(crate::proofs::HolderTable::notes))]
fn note(holders: &mut Vec<u32>, slots: &[Option<Slot>], dir: u32)
    ensures size { length holders.new.items ≡ length holders.old.items }
    ensures noted { (n : ℕ) → n < length holders.old.items
        → slice_index_or holders.new.items n 0
        ≡ if names_in n slots.now == 0 then slice_index_or holders.old.items n 0 else dir }
{
    for slot in slots {
        note_slot(holders, slot, dir);
    }
}

/// The holder of each number.
fn holders_of(alloc: Global, tree: &[Option<Object>]) -> Result<Vec<u32>, AllocError>
    requires { length tree.now ≤ object_numbers }
    ensures { IfOk result (λ holders. AreHolders tree.now holders.items) }
{
    let mut holders = vec![in alloc; 0u32; tree.len()]?;
    for (i, object) in tree.iter().enumerate() {
        note(&mut holders, slots_of(object), i as u32);
    }
    Ok(holders)
}

#[tactic(auto, unfolding(file_tree::specs::Tree::parent_of))]
fn parent_by(tree: &Objects, holders: &[u32], number: u32) -> u32
    requires { AreHolders tree.now holders.now }
    ensures { result ≡ parent_of tree.now number }
{
    match place(tree, number) {
        None => 0,
        Some(object) => {
            if !is_directory(&object.body) {
                return 0;
            }
            if number == 1 {
                return 1;
            }
            holders[number as usize]
        }
    }
}

/// Whether an object is a directory, or above it.
#[tactic(auto, using(crate::proofs::Above::aboves))]
fn is_above(alloc: Global, tree: &Objects, top: u32, dir: u32) -> Result<bool, AllocError>
    requires { length tree.now ≤ object_numbers }
    ensures { IfOk result (λ above. above ≡ is_above (length tree.now) tree.now top dir) }
{
    let holders = holders_of(alloc, tree.as_slice())?;
    let mut at = dir;
    for _ in 0..tree.len() {
        if at == top {
            return Ok(true);
        }
        at = parent_by(tree, &holders, at);
    }
    Ok(at == top)
}

/// Whether an object is a directory that can't move to another one, since that is below it.
pub fn holds_itself(
    alloc: Global,
    tree: &Objects,
    moved: u32,
    to_dir: u32,
) -> Result<bool, AllocError>
    requires { length tree.now ≤ object_numbers }
    ensures { IfOk result (λ below. below
        ≡ (is_directory_at (place tree.now moved)
        && is_above (length tree.now) tree.now moved to_dir)) }
{
    if !is_directory_at(tree, moved) {
        return Ok(false);
    }
    is_above(alloc, tree, moved, to_dir)
}
