//! Renaming.

ghost use Rattle.std.specs.Prelude.{◌≡◌, ◌<◌, ◌≤◌, ◌*◌, ◌+◌, length, IfOk, IfErr, OnOk, OnErr, Option, true};
ghost use Rattle.harp_types.specs.Limits.{longest_name, tree_blocks};
ghost use Rattle.plain_tree.specs.declared.error.TreeError.TheVariants.{NoMemory};
ghost use Rattle.file_tree.specs.Within.{IsWithinLimits};
ghost use Rattle.plain_tree.specs.Plain.{Does, DoesStep, Gives};
ghost use Rattle.file_tree.specs.Tree.{used_blocks, place, slots_of, is_directory_at, entry};
ghost use Rattle.harp_types.specs.declared.reply.Status.TheVariants.{NoEnt};
ghost use Rattle.file_tree.specs.Tries.{some_or};
ghost use Rattle.file_tree.specs.Outcome.{has_no_entry};
ghost use Rattle.file_tree.specs.Rename.{check_target, freed, moved_in, moved_over, moved_to, rename};

use crate::ancestry::holds_itself;
use crate::changes::{copy_slots, with_entry};
use crate::computed::{entry, is_directory_at, slots_of_place};
use crate::error::TreeError;
use crate::objects::Objects;
use crate::permissions::allowed;
use crate::tries::{check_name, is_dots, live, refuse, room, slots_in};
use file_tree::{Slot, TO_SEARCH, TO_WRITE};
use harp_types::{Bounded, Cred, Reply, SLOT_SIZE, Status, Time};
use std::alloc::{AllocError, Global};

pub fn has_no_entry(slots: &[Option<Slot>]) -> bool
    ensures { result ≡ has_no_entry slots.now }
{
    slots.iter().all(|slot| !slot.is_some())
}

/// What a target refuses.
#[tactic(auto, unfolding(file_tree::specs::Rename::check_target))]
fn check_target(tree: &Objects, moved: u32, target: Option<(usize, u32)>) -> Result<(), TreeError>
    requires { used_blocks tree.now ≤ tree_blocks }
    ensures { Gives (λ x. x) result (check_target tree.now moved target) }
{
    match target {
        None => Ok(()),
        Some((_, target)) => {
            let from = is_directory_at(tree, moved);
            let to = is_directory_at(tree, target);
            refuse(Status::NotDir, from && !to)?;
            refuse(Status::IsDir, to && !from)?;
            let full = !has_no_entry(slots_of_place(tree, target));
            refuse(Status::NotEmpty, to && target != moved && full)
        }
    }
}

/// The slots of a directory after its slot was freed, or of another one as they are.
fn freed(
    alloc: Global,
    dir: u32,
    to_dir: u32,
    i: usize,
    to_slots: &[Option<Slot>],
) -> Result<Vec<Option<Slot>>, TreeError>
    ensures memory { IfErr result (λ e. e ≡ NoMemory) }
    ensures value { IfOk result (λ v. v.items ≡ freed dir to_dir i to_slots.now) }
    ensures size { IfOk result (λ v. length v.items ≡ length to_slots.now) }
{
    let mut copy = copy_slots(alloc, to_slots)?;
    if dir == to_dir && i < copy.len() {
        copy[i] = None;
    }
    Ok(copy)
}

/// The move where there is no target: the old slot is freed first.
#[tactic(auto, unfolding(file_tree::specs::Rename::moved_in))]
fn move_in(
    alloc: Global,
    tree: &mut Objects,
    dir: u32,
    x: (usize, u32),
    to_dir: u32,
    to_name: &[u8],
    now: Time,
) -> Result<(), TreeError>
    requires tree { IsWithinLimits tree.old }
    requires directory { is_directory_at (place tree.old to_dir) ≡ true }
    requires moved { x.1 < length tree.old }
    requires name { length to_name.now ≤ longest_name }
    ensures does { DoesStep tree.old tree.new result
        (moved_in tree.old dir x to_dir
        (slots_of (place tree.old to_dir)) to_name.now now) }
    ensures kept { IsWithinLimits tree.new }
{
    let to_slots = slots_of_place(tree, to_dir);
    let free = freed(alloc, dir, to_dir, x.0, to_slots)?;
    let name = Bounded::new(Vec::from_slice(alloc, to_name)?);
    let slot = Slot { name, number: x.1 };
    let slots = with_entry(alloc, &free, slot)?;
    room(tree, to_dir, (SLOT_SIZE as usize * slots.len()) as u32)?;
    tree.set_slot(dir, x.0, None, now);
    tree.reslot(to_dir, slots, x.1, now);
    tree.set_ctime(x.1, now);
    Ok(())
}

/// The move where there is a target: its slot names the moved object, and the old slot is freed.
#[tactic(auto, unfolding(file_tree::specs::Rename::moved_over))]
fn move_over(
    alloc: Global,
    tree: &mut Objects,
    dir: u32,
    x: (usize, u32),
    to_dir: u32,
    to_name: &[u8],
    y: (usize, u32),
    now: Time,
) -> Result<(), AllocError>
    requires tree { IsWithinLimits tree.old }
    requires moved { x.1 < length tree.old }
    requires name { length to_name.now ≤ longest_name }
    ensures ok { OnOk result
        (tree.new ≡ moved_over tree.old dir x to_dir to_name.now y now) }
    ensures err { OnErr result (tree.new ≡ tree.old) }
    ensures kept { IsWithinLimits tree.new }
{
    let name = Bounded::new(Vec::from_slice(alloc, to_name)?);
    let slot = Slot { name, number: x.1 };
    tree.set_slot(to_dir, y.0, Some(slot), now);
    tree.set_slot(dir, x.0, None, now);
    tree.lost_entry(y.1, now);
    tree.set_ctime(x.1, now);
    Ok(())
}

/// The move of an entry to its new place.
fn move_to(
    alloc: Global,
    tree: &mut Objects,
    dir: u32,
    x: (usize, u32),
    to_dir: u32,
    to_name: &[u8],
    target: Option<(usize, u32)>,
    now: Time,
) -> Result<(), TreeError>
    requires tree { IsWithinLimits tree.old }
    requires directory { is_directory_at (place tree.old to_dir) ≡ true }
    requires moved { x.1 < length tree.old }
    requires name { length to_name.now ≤ longest_name }
    ensures does { DoesStep tree.old tree.new result
        (moved_to tree.old dir x to_dir
        (slots_of (place tree.old to_dir)) to_name.now target now) }
    ensures kept { IsWithinLimits tree.new }
{
    match target {
        None => move_in(alloc, tree, dir, x, to_dir, to_name, now),
        Some(y) => {
            if y.1 == x.1 {
                return Ok(());
            }
            move_over(alloc, tree, dir, x, to_dir, to_name, y, now)?;
            Ok(())
        }
    }
}

/// The entry of a directory with a name.
fn entry_in(tree: &Objects, dir: u32, name: &[u8]) -> Result<(usize, u32), TreeError>
    requires { used_blocks tree.now ≤ tree_blocks }
    ensures step { Gives (λ x. x) result
        (some_or NoEnt (entry (slots_of (place tree.now dir)) name.now)) }
    ensures within { IfOk result (λ x. x.1 < length tree.now) }
{
    match tree.entry(dir, name) {
        Some(x) => Ok(x),
        None => Err(TreeError::Status(Status::NoEnt)),
    }
}

/// RENAME (RFC 1094, section 2.2.12): a target is replaced, where it is of the same kind and no
/// directory with entries.
#[tactic(auto, unfolding(file_tree::specs::Rename::rename))]
pub fn rename(
    alloc: Global,
    tree: &mut Objects,
    cred: Cred,
    dir: u32,
    name: &[u8],
    to_dir: u32,
    to_name: &[u8],
    now: Time,
) -> Result<Reply, TreeError>
    requires { IsWithinLimits tree.old }
    ensures does { Does tree.old tree.new result
        (rename tree.old cred dir name.now to_dir to_name.now now) }
    ensures kept { IsWithinLimits tree.new }
{
    let d = live(tree, dir)?;
    let e = live(tree, to_dir)?;
    slots_in(&d.body)?;
    let to_slots = slots_in(&e.body)?;
    allowed(tree, cred, dir, TO_SEARCH)?;
    allowed(tree, cred, to_dir, TO_SEARCH)?;
    refuse(Status::Perm, is_dots(name))?;
    refuse(Status::Perm, is_dots(to_name))?;
    check_name(name)?;
    check_name(to_name)?;
    let x = entry_in(tree, dir, name)?;
    allowed(tree, cred, dir, TO_WRITE)?;
    allowed(tree, cred, to_dir, TO_WRITE)?;
    let below_itself = holds_itself(alloc, tree, x.1, to_dir)?;
    refuse(Status::Perm, below_itself)?;
    let target = entry(to_slots, to_name);
    check_target(tree, x.1, target)?;
    move_to(alloc, tree, dir, x, to_dir, to_name, target, now)?;
    Ok(Reply::Done)
}
