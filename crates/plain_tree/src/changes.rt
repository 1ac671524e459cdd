//! Changes of the objects of a tree, by which nothing is counted.

ghost use Rattle.std.specs.Prelude.{◌≡◌, ◌<◌, ◌≤◌, ◌+◌, ◌*◌, ◌^◌, ℕ, IfOk, OnOk, OnErr, length, None, Option, slice_set, true};
ghost use Rattle.harp_types.specs.Limits.{object_numbers, slot_size, tree_blocks};
ghost use Rattle.file_tree.specs.Within.{IsWithinLimits, SameBlocks};
ghost use Rattle.file_tree.specs.Tree.{place, with_entry, size_of, blocks_at, blocks_of, names_in, used_blocks};
ghost use Rattle.file_tree.specs.declared.object.Body.TheVariants.{Regular};
ghost use Rattle.plain_tree.specs.Counts.{bytes_of, bytes_within, one};
ghost use Rattle.file_tree.specs.Outcome.{change, is_regular, is_regular_at, written, reslotted, rewritten, set_ctime, slot_changed, slot_replaced};

use crate::computed::free_place;
use crate::files::write_in;
use file_tree::{Body, Object, Slot, Slots};
use harp_types::Time;
use std::alloc::{AllocError, Global};

/// Equal slots.
pub fn copy_slots(alloc: Global, slots: &[Option<Slot>]) -> Result<Vec<Option<Slot>>, AllocError>
    ensures { IfOk result (λ copy. copy.items ≡ slots.now) }
{
    let mut copy = Vec::new(alloc);
    for slot in slots {
        copy.push(copy_slot(alloc, slot)?)?;
    }
    Ok(copy)
}

fn copy_slot(alloc: Global, slot: &Option<Slot>) -> Result<Option<Slot>, AllocError>
    ensures { IfOk result (λ copy. copy ≡ slot.now) }
{
    match slot {
        None => Ok(None),
        Some(slot) => Ok(Some(Slot {
            name: slot.name.copy(alloc)?,
            number: slot.number,
        })),
    }
}

#[tactic(auto, using(file_tree::proofs::FreeSlots::further_entries))]
fn entered(alloc: Global, slots: &[Option<Slot>], slot: Slot) -> Result<Slots, AllocError>
    ensures value { IfOk result (λ new. new ≡ with_entry slots.now slot) }
    ensures size { IfOk result (λ new. length new ≤ length slots.now + 1) }
{
    let free = free_place(slots);
    let mut new = copy_slots(alloc, slots)?;
    if free < new.len() {
        new[free] = Some(slot);
        return Ok(Slots::of(new));
    }
    new.push(Some(slot))?;
    Ok(Slots::of(new))
}

/// The slots with a further entry.
pub fn with_entry(alloc: Global, slots: &[Option<Slot>], slot: Slot) -> Result<Slots, AllocError>
    ensures value { IfOk result (λ new. new ≡ with_entry slots.now slot) }
    ensures size { IfOk result (λ new. length new ≤ length slots.now + 1) }
    ensures names { IfOk result (λ new. (k : ℕ)
        → names_in k new ≡ names_in k slots.now + one slot.number k) }
{
    match entered(alloc, slots, slot) {
        Ok(new) => Ok(new),
        Err(e) => Err(e),
    }
}

/// A directory with other slots.
pub fn reslot(tree: &mut Vec<Option<Object>>, dir: u32, slots: Slots, now: Time)
    requires few { length tree.old.items ≤ object_numbers }
    requires within { dir < length tree.old.items }
    requires room { used_blocks tree.old.items + blocks_of
        (slot_size * length slots) ≤ tree_blocks + blocks_at (place tree.old.items dir) }
    ensures value { tree.new.items ≡ change tree.old.items dir (reslotted now slots) }
    ensures kept { IsWithinLimits tree.new.items }
{
    if let Some(object) = &mut tree[dir as usize] {
        object.mtime = now;
        object.ctime = now;
        object.body = Body::Directory { slots };
    }
}

fn write_body(alloc: Global, body: &mut Body, offset: usize, bytes: &[u8]) -> Result<(), AllocError>
    requires file { is_regular body.old ≡ true }
    requires fits { offset + length bytes.now < 2 ^ 64 }
    ensures ok { OnOk result
        (body.new ≡ Regular (written (bytes_within body.old) offset bytes.now)) }
    ensures err { OnErr result (body.new ≡ body.old) }
{
    match body {
        Body::Regular { bytes: file } => write_in(alloc, file, offset, bytes),
        Body::Directory { .. } => unreachable!(),
        Body::Link { .. } => unreachable!(),
    }
}

fn write_object(
    alloc: Global,
    object: &mut Object,
    offset: usize,
    bytes: &[u8],
    now: Time,
) -> Result<(), AllocError>
    requires file { is_regular object.old.body ≡ true }
    requires fits { offset + length bytes.now < 2 ^ 64 }
    ensures ok { OnOk result (object.new
        ≡ rewritten now (written (bytes_within object.old.body) offset bytes.now) object.old) }
    ensures err { OnErr result (object.new ≡ object.old) }
{
    write_body(alloc, &mut object.body, offset, bytes)?;
    object.mtime = now;
    object.ctime = now;
    Ok(())
}

/// A file with bytes placed at an offset. Where memory runs out it is as before.
pub fn write_at(
    alloc: Global,
    tree: &mut Vec<Option<Object>>,
    handle: u32,
    offset: usize,
    bytes: &[u8],
    now: Time,
) -> Result<(), AllocError>
    requires within { handle < length tree.old.items }
    requires file { is_regular_at (place tree.old.items handle) ≡ true }
    requires fits { offset + length bytes.now < 2 ^ 64 }
    ensures ok { OnOk result (tree.new.items ≡ change tree.old.items handle
        (rewritten now (written (bytes_of (place tree.old.items handle)) offset bytes.now))) }
    ensures err { OnErr result (tree.new.items ≡ tree.old.items) }
{
    match &mut tree[handle as usize] {
        Some(object) => write_object(alloc, object, offset, bytes, now),
        None => unreachable!(),
    }
}

/// Sets the ctime of an object.
#[tactic(auto, using(file_tree::proofs::Kept::pasts))]
pub fn set_ctime(tree: &mut Vec<Option<Object>>, number: u32, now: Time)
    requires tree { IsWithinLimits tree.old.items }
    ensures value { tree.new.items ≡ change tree.old.items number (set_ctime now) }
    ensures kept { IsWithinLimits tree.new.items }
{
    if (number as usize) < tree.len() {
        if let Some(object) = &mut tree[number as usize] {
            object.ctime = now;
        }
    }
}

/// A directory with one slot set.
#[tactic(auto, using(file_tree::proofs::Kept::pasts))]
pub fn set_slot(tree: &mut Vec<Option<Object>>, dir: u32, i: usize, slot: Option<Slot>, now: Time)
    requires tree { IsWithinLimits tree.old.items }
    ensures value { tree.new.items ≡ change tree.old.items dir (slot_changed now i slot) }
    ensures same { SameBlocks tree.old.items tree.new.items }
    ensures kept { IsWithinLimits tree.new.items }
{
    if (dir as usize) < tree.len() {
        if let Some(object) = &mut tree[dir as usize] {
            object.mtime = now;
            object.ctime = now;
            set_in(&mut object.body, i, slot);
        }
    }
}

fn set_in(body: &mut Body, i: usize, slot: Option<Slot>)
    ensures value { body.new ≡ slot_replaced body.old i slot }
    ensures size { size_of body.new ≡ size_of body.old }
{
    if let Body::Directory { slots } = body {
        slots.set(i, slot);
    }
}

/// No object has the number.
#[tactic(auto, using(file_tree::proofs::Kept::pasts))]
pub fn clear(tree: &mut Vec<Option<Object>>, number: u32)
    requires tree { IsWithinLimits tree.old.items }
    ensures value { tree.new.items ≡ slice_set tree.old.items number None }
    ensures kept { IsWithinLimits tree.new.items }
{
    if (number as usize) < tree.len() {
        tree[number as usize] = None;
    }
}
