//! The calls that add and remove entries.

ghost use Rattle.std.specs.Prelude.{◌≡◌, ◌<◌, ◌≤◌, [], length, true};
ghost use Rattle.harp_types.specs.Limits.{longest_name};
ghost use Rattle.file_tree.specs.Within.{IsWithinLimits};
ghost use Rattle.plain_tree.specs.Plain.{Does, DoesStep};
ghost use Rattle.file_tree.specs.Tree.{place, slots_of, is_directory_at};
ghost use Rattle.file_tree.specs.declared.object.Body.TheVariants.{Directory};
ghost use Rattle.file_tree.specs.Outcome.{add_entry, link, make_dir, make_link, removed, remove, remove_dir};

use crate::changes::with_entry;
use crate::computed::{attr_at, is_directory, is_directory_at, slots_of_place};
use crate::error::TreeError;
use crate::fields::made;
use crate::objects::Objects;
use crate::permissions::{allowed, may_make, searched};
use crate::rename::has_no_entry;
use crate::tries::{doomed, entry_name, free_name, has_entry, live, refuse, room, room_for};
use file_tree::{Body, Slot, Slots, TO_WRITE};
use harp_types::{Bounded, Cred, LONGEST_PATH, Reply, SLOT_SIZE, SetAttr, Status, Time};
use std::alloc::Global;

/// A directory with a further entry, where it has room.
#[tactic(auto, unfolding(file_tree::specs::Outcome::add_entry))]
fn add_entry(
    alloc: Global,
    tree: &mut Objects,
    dir: u32,
    name: &[u8],
    number: u32,
    now: Time,
) -> Result<(), TreeError>
    requires tree { IsWithinLimits tree.old }
    requires within { number < length tree.old }
    requires directory { is_directory_at (place tree.old dir) ≡ true }
    requires name { length name.now ≤ longest_name }
    ensures does { DoesStep tree.old tree.new result
        (add_entry tree.old dir (slots_of (place tree.old dir))
        (record { name = name.now; number = number }) now) }
    ensures kept { IsWithinLimits tree.new }
{
    let slots = slots_of_place(tree, dir);
    let name = Bounded::new(Vec::from_slice(alloc, name)?);
    let slot = Slot { name, number };
    let slots = with_entry(alloc, slots, slot)?;
    room(tree, dir, (SLOT_SIZE as usize * slots.len()) as u32)?;
    tree.reslot(dir, slots, number, now);
    Ok(())
}

/// LINK (RFC 1094, section 2.2.13): a further entry of a file or a symbolic link.
#[tactic(auto, unfolding(file_tree::specs::Outcome::link))]
pub fn link(
    alloc: Global,
    tree: &mut Objects,
    cred: Cred,
    handle: u32,
    dir: u32,
    name: &[u8],
    now: Time,
) -> Result<Reply, TreeError>
    requires { IsWithinLimits tree.old }
    ensures does { Does tree.old tree.new result
        (link tree.old cred handle dir name.now now) }
    ensures kept { IsWithinLimits tree.new }
{
    let object = live(tree, handle)?;
    let slots = searched(tree, cred, dir)?;
    refuse(Status::Perm, is_directory(&object.body))?;
    free_name(slots, name)?;
    allowed(tree, cred, dir, TO_WRITE)?;
    add_entry(alloc, tree, dir, name, handle, now)?;
    tree.set_ctime(handle, now);
    Ok(Reply::Done)
}

/// SYMLINK (RFC 1094, section 2.2.14).
#[tactic(auto, unfolding(file_tree::specs::Outcome::make_link))]
pub fn make_link(
    alloc: Global,
    tree: &mut Objects,
    cred: Cred,
    dir: u32,
    name: &[u8],
    text: &[u8],
    a: &SetAttr,
    now: Time,
) -> Result<Reply, TreeError>
    requires { IsWithinLimits tree.old }
    ensures does { Does tree.old tree.new result
        (make_link tree.old cred dir name.now text.now a.now now) }
    ensures kept { IsWithinLimits tree.new }
{
    let slots = searched(tree, cred, dir)?;
    entry_name(name)?;
    refuse(Status::NameTooLong, text.len() > LONGEST_PATH)?;
    refuse(Status::Exist, has_entry(slots, name))?;
    may_make(tree, cred, dir, a)?;
    let slots = room_for(alloc, tree, dir, name, text.len() as u32)?;
    let text = Bounded::new(Vec::from_slice(alloc, text)?);
    let object = made(cred, a, Body::Link { text }, now);
    tree.add_object(dir, slots, object, now)?;
    Ok(Reply::Done)
}

fn no_slots(alloc: Global) -> Body
    ensures { result ≡ Directory [] }
{
    Body::Directory {
        slots: Slots::of(Vec::new(alloc)),
    }
}

/// MKDIR (RFC 1094, section 2.2.15).
#[tactic(auto, unfolding(file_tree::specs::Outcome::make_dir))]
pub fn make_dir(
    alloc: Global,
    tree: &mut Objects,
    cred: Cred,
    dir: u32,
    name: &[u8],
    a: &SetAttr,
    now: Time,
) -> Result<Reply, TreeError>
    requires { IsWithinLimits tree.old }
    ensures does { Does tree.old tree.new result
        (make_dir tree.old cred dir name.now a.now now) }
    ensures kept { IsWithinLimits tree.new }
{
    let slots = searched(tree, cred, dir)?;
    free_name(slots, name)?;
    may_make(tree, cred, dir, a)?;
    let slots = room_for(alloc, tree, dir, name, 0)?;
    let number = tree.len() as u32;
    let object = made(cred, a, no_slots(alloc), now);
    tree.add_object(dir, slots, object, now)?;
    Ok(Reply::Node {
        handle: number,
        attr: attr_at(tree, number),
    })
}

/// Frees a slot, and takes away the object whose last entry went.
fn take_away(tree: &mut Objects, dir: u32, x: (usize, u32), now: Time)
    requires { IsWithinLimits tree.old }
    ensures value { tree.new ≡ removed tree.old dir x now }
    ensures kept { IsWithinLimits tree.new }
{
    tree.set_slot(dir, x.0, None, now);
    tree.lost_entry(x.1, now);
}

/// REMOVE (RFC 1094, section 2.2.11).
#[tactic(auto, unfolding(file_tree::specs::Outcome::remove))]
pub fn remove(
    tree: &mut Objects,
    cred: Cred,
    dir: u32,
    name: &[u8],
    now: Time,
) -> Result<Reply, TreeError>
    requires { IsWithinLimits tree.old }
    ensures does { Does tree.old tree.new result
        (remove tree.old cred dir name.now now) }
    ensures kept { IsWithinLimits tree.new }
{
    let slots = searched(tree, cred, dir)?;
    let x = doomed(slots, name)?;
    allowed(tree, cred, dir, TO_WRITE)?;
    refuse(Status::IsDir, is_directory_at(tree, x.1))?;
    take_away(tree, dir, x, now);
    Ok(Reply::Done)
}

/// RMDIR (RFC 1094, section 2.2.16).
#[tactic(auto, unfolding(file_tree::specs::Outcome::remove_dir))]
pub fn remove_dir(
    tree: &mut Objects,
    cred: Cred,
    dir: u32,
    name: &[u8],
    now: Time,
) -> Result<Reply, TreeError>
    requires { IsWithinLimits tree.old }
    ensures does { Does tree.old tree.new result
        (remove_dir tree.old cred dir name.now now) }
    ensures kept { IsWithinLimits tree.new }
{
    let slots = searched(tree, cred, dir)?;
    let x = doomed(slots, name)?;
    allowed(tree, cred, dir, TO_WRITE)?;
    refuse(Status::NotDir, !is_directory_at(tree, x.1))?;
    refuse(Status::NotEmpty, !has_no_entry(slots_of_place(tree, x.1)))?;
    take_away(tree, dir, x, now);
    Ok(Reply::Done)
}
