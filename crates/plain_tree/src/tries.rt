//! The steps that a call is made of.

ghost use Rattle.std.specs.Prelude.{◌≡◌, ◌<◌, ◌≤◌, ◌||◌, ◌==◌, [], ◌∷◌, ◌+◌, ◌*◌, false, IfOk, length, Some, Option, None, nat_lt, true};
ghost use Rattle.harp_types.specs.Limits.{longest_name, object_numbers, slot_size, tree_blocks};
ghost use Rattle.std.specs.List.{list_any};
ghost use Rattle.file_tree.specs.declared.object.Body.TheVariants.{Regular, Directory};
ghost use Rattle.file_tree.specs.Within.{IsWithinLimits};
ghost use Rattle.plain_tree.specs.Plain.{Gives};
ghost use Rattle.plain_tree.specs.Counts.{HasRoomFor, IsEntered};
ghost use Rattle.file_tree.specs.Tree.{place, slots_of, is_directory_at, entry, used_blocks, size_of, blocks_of, blocks_at, parent_of};
ghost use Rattle.file_tree.specs.Tries.{refuse, live, slots_in, bytes_in, text_in, directory, is_dot, is_dot_dot, is_dots, is_odd_byte, is_odd, check_name, entry_name, room};
ghost use Rattle.file_tree.specs.Outcome.{has_entry, find, resolve, free_name, room_for, doomed};

use crate::changes::with_entry;
use crate::computed::{blocks_of, blocks_placed, entry, parent_of, place, slots_of_place};
use crate::error::TreeError;
use crate::objects::Objects;
use file_tree::{Body, Object, Slot, Slots};
use harp_types::{
    Bounded, LONGEST_NAME, LONGEST_PATH, OBJECT_NUMBERS, SLOT_SIZE, Status, TREE_BLOCKS,
};
use std::alloc::Global;

/// A refusal, where its cause holds.
pub fn refuse(status: Status, when: bool) -> Result<(), TreeError>
    ensures step { Gives (λ x. x) result (refuse status when) }
    ensures passed { IfOk result (λ _. when ≡ false) }
{
    if when {
        Err(TreeError::Status(status))
    } else {
        Ok(())
    }
}

/// The object that a number names.
pub fn live(tree: &Objects, number: u32) -> Result<&Object, TreeError>
    requires { used_blocks tree.now ≤ tree_blocks }
    ensures object { Gives (λ o. o.now) result (live tree.now number) }
    ensures fits { IfOk result (λ o. blocks_of (size_of o.now.body) ≤ tree_blocks) }
    ensures within { IfOk result (λ _. number < length tree.now) }
{
    match place(tree, number) {
        None => Err(TreeError::Status(Status::Stale)),
        Some(object) => Ok(object),
    }
}

/// The slots of a directory.
pub fn slots_in(body: &Body) -> Result<&[Option<Slot>], TreeError>
    ensures step { Gives (λ s. s.now) result (slots_in body.now) }
    ensures body { IfOk result (λ s. body.now ≡ Directory s.now) }
{
    match body {
        Body::Directory { slots } => Ok(slots.as_slice()),
        Body::Regular { .. } => Err(TreeError::Status(Status::NotDir)),
        Body::Link { .. } => Err(TreeError::Status(Status::NotDir)),
    }
}

/// The bytes of a regular file.
pub fn bytes_in(body: &Body) -> Result<&[u8], TreeError>
    ensures step { Gives (λ s. s.now) result (bytes_in body.now) }
    ensures body { IfOk result (λ s. body.now ≡ Regular s.now) }
{
    match body {
        Body::Regular { bytes } => Ok(bytes.as_slice()),
        Body::Directory { .. } => Err(TreeError::Status(Status::IsDir)),
        Body::Link { .. } => Err(TreeError::Status(Status::Io)),
    }
}

/// The slots of the directory that a number names.
pub fn directory(tree: &Objects, number: u32) -> Result<&[Option<Slot>], TreeError>
    requires { used_blocks tree.now ≤ tree_blocks }
    ensures step { Gives (λ s. s.now) result (directory tree.now number) }
    ensures fits { IfOk result (λ s. blocks_of (slot_size * length s.now) ≤ tree_blocks) }
    ensures within { IfOk result (λ _. number < length tree.now) }
    ensures directory { IfOk result (λ _. is_directory_at (place tree.now number) ≡ true) }
{
    let object = live(tree, number)?;
    slots_in(&object.body)
}

fn is_dot(name: &[u8]) -> bool
    ensures { result ≡ is_dot name.now }
{
    name == b".".as_slice()
}

fn is_dot_dot(name: &[u8]) -> bool
    ensures { result ≡ is_dot_dot name.now }
{
    name == b"..".as_slice()
}

/// `.` or `..`.
pub fn is_dots(name: &[u8]) -> bool
    ensures { result ≡ is_dots name.now }
{
    is_dot(name) || is_dot_dot(name)
}

fn is_odd_byte(b: u8) -> bool
    ensures { result ≡ is_odd_byte b }
{
    b == 47 || b == 0
}

fn has_odd_byte(name: &[u8]) -> bool
    ensures { result ≡ list_any is_odd_byte name.now }
{
    name.iter().any(|b| is_odd_byte(*b))
}

fn is_odd(name: &[u8]) -> bool
    ensures { result ≡ is_odd name.now }
{
    name.is_empty() || has_odd_byte(name)
}

/// A name of 1 to 255 bytes without a slash or a zero.
pub fn check_name(name: &[u8]) -> Result<(), TreeError>
    ensures step { Gives (λ x. x) result (check_name name.now) }
    ensures short { IfOk result (λ _. length name.now ≤ longest_name) }
{
    refuse(Status::NameTooLong, name.len() > LONGEST_NAME)?;
    refuse(Status::Acces, is_odd(name))
}

/// The slot and the number of an entry.
pub fn find(slots: &[Option<Slot>], name: &[u8]) -> Result<(usize, u32), TreeError>
    ensures { Gives (λ x. x) result (find slots.now name.now) }
{
    check_name(name)?;
    entry(slots, name).ok_or(TreeError::Status(Status::NoEnt))
}

/// The object that a name stands for in a directory.
pub fn resolve(
    tree: &Objects,
    dir: u32,
    slots: &[Option<Slot>],
    name: &[u8],
) -> Result<u32, TreeError>
    requires { length tree.now ≤ object_numbers }
    ensures { Gives (λ x. x) result (resolve tree.now dir slots.now name.now) }
{
    if is_dot(name) {
        return Ok(dir);
    }
    if is_dot_dot(name) {
        return Ok(parent_of(tree, dir));
    }
    let (_, number) = find(slots, name)?;
    Ok(number)
}

/// The blocks stay within the limit where the object of a number gets a size.
pub fn room(tree: &Objects, number: u32, size: u32) -> Result<(), TreeError>
    requires tree { used_blocks tree.now ≤ tree_blocks }
    requires size { size < 2147483648 }
    ensures step { Gives (λ x. x) result (room tree.now number size) }
    ensures enough { IfOk result (λ _.
        used_blocks tree.now + blocks_of size ≤ tree_blocks + blocks_at (place tree.now number)) }
{
    let limit = TREE_BLOCKS + blocks_placed(tree, number);
    refuse(Status::NoSpc, limit < tree.used_blocks() + blocks_of(size))
}

/// Whether a directory has an entry of a name.
pub fn has_entry(slots: &[Option<Slot>], name: &[u8]) -> bool
    ensures { result ≡ has_entry slots.now name.now }
{
    entry(slots, name).is_some()
}

/// A name that an entry can have.
pub fn entry_name(name: &[u8]) -> Result<(), TreeError>
    ensures step { Gives (λ x. x) result (entry_name name.now) }
    ensures short { IfOk result (λ _. length name.now ≤ longest_name) }
{
    check_name(name)?;
    refuse(Status::Exist, is_dots(name))
}

/// A name for a new entry.
pub fn free_name(slots: &[Option<Slot>], name: &[u8]) -> Result<(), TreeError>
    ensures step { Gives (λ x. x) result (free_name slots.now name.now) }
    ensures short { IfOk result (λ _. length name.now ≤ longest_name) }
{
    entry_name(name)?;
    refuse(Status::Exist, has_entry(slots, name))
}

/// The slots with an entry for the next object, where there is room for it and for the entry.
#[tactic(auto, unfolding(file_tree::specs::Outcome::room_for))]
pub fn room_for(
    alloc: Global,
    tree: &Objects,
    dir: u32,
    name: &[u8],
    size: u32,
) -> Result<Slots, TreeError>
    requires tree { IsWithinLimits tree.now }
    requires directory { is_directory_at (place tree.now dir) ≡ true }
    requires name { length name.now ≤ longest_name }
    requires size { size < 2147483648 }
    ensures step { Gives (λ s. s) result
        (room_for tree.now dir (slots_of (place tree.now dir)) name.now size) }
    ensures room { IfOk result (λ s. HasRoomFor tree.now dir s size) }
    ensures entered { IfOk result (λ s. IsEntered tree.now dir s (length tree.now)) }
{
    let number = tree.len();
    refuse(Status::NoSpc, number >= OBJECT_NUMBERS as usize)?;
    let name = Bounded::new(Vec::from_slice(alloc, name)?);
    let slot = Slot {
        name,
        number: number as u32,
    };
    let new = with_entry(alloc, slots_of_place(tree, dir), slot)?;
    let limit = TREE_BLOCKS + blocks_placed(tree, dir);
    let wanted = tree.used_blocks()
        + blocks_of(size)
        + blocks_of((SLOT_SIZE as usize * new.len()) as u32);
    refuse(Status::NoSpc, limit < wanted)?;
    Ok(new)
}

/// The text of a symbolic link.
pub fn text_in(body: &Body) -> Result<&Bounded<LONGEST_PATH>, TreeError>
    ensures { Gives (λ s. s.now) result (text_in body.now) }
{
    match body {
        Body::Link { text } => Ok(text),
        Body::Regular { .. } => Err(TreeError::Status(Status::Io)),
        Body::Directory { .. } => Err(TreeError::Status(Status::Io)),
    }
}

/// An entry to be taken away.
pub fn doomed(slots: &[Option<Slot>], name: &[u8]) -> Result<(usize, u32), TreeError>
    ensures { Gives (λ x. x) result (doomed slots.now name.now) }
{
    refuse(Status::Perm, is_dots(name))?;
    find(slots, name)
}
