//! What is computed from the objects.

ghost use Rattle.std.specs.Prelude.{◌≡◌, ◌<◌, ◌≤◌, ◌^◌, IfOk, length, Some, Option, None, IsTrue, ◌↔◌, unwrap_or, IfSome};
ghost use Rattle.harp_types.specs.Limits.{object_numbers, slot_size, tree_blocks};
ghost use Rattle.std.specs.Option.{option_copied};
ghost use Rattle.std.specs.Prelude.{◌+◌, ◌*◌, ◌/◌, count_by};
ghost use Rattle.file_tree.specs.Within.{IsWithinLimits};
ghost use Rattle.file_tree.specs.Tree.{place, slots_within, slots_of, is_directory, is_directory_at, kind_of, size_of, blocks_of, blocks_at, used_blocks, names_it, names_in, names_at, names_of, is_subdirectory, links_of, holder_from, parent_of, attr_of, attr_at, entry_from, free_from};

use crate::objects::Objects;
use file_tree::{Body, Object, Slot};
use harp_types::{Attr, BLOCK_SIZE, Kind, SLOT_SIZE, Time};

const TIME_ZERO: Time = Time {
    seconds: 0,
    micros: 0,
};

const ATTR_ZERO: Attr = Attr {
    kind: Kind::Regular,
    mode: 0,
    links: 0,
    uid: 0,
    gid: 0,
    size: 0,
    blocks: 0,
    fileid: 0,
    atime: TIME_ZERO,
    mtime: TIME_ZERO,
    ctime: TIME_ZERO,
};

fn names_it(slot: &Option<Slot>, number: u32) -> bool
    ensures { result ≡ names_it number slot.now }
{
    match slot {
        None => false,
        Some(slot) => slot.number == number,
    }
}

/// How many slots name an object.
pub fn names_in(number: u32, slots: &[Option<Slot>]) -> usize
    ensures { result ≡ names_in number slots.now }
{
    slots.iter().filter(|slot| names_it(slot, number)).count()
}

fn slots_within(body: &Body) -> &[Option<Slot>]
    ensures { result.now ≡ slots_within body.now }
{
    match body {
        Body::Directory { slots } => slots.as_slice(),
        Body::Regular { .. } => &[],
        Body::Link { .. } => &[],
    }
}

/// The slots of a directory; none of anything else.
pub fn slots_of(object: &Option<Object>) -> &[Option<Slot>]
    ensures { result.now ≡ slots_of object.now }
{
    match object {
        None => &[],
        Some(object) => slots_within(&object.body),
    }
}

pub fn is_directory(body: &Body) -> bool
    ensures { result ≡ is_directory body.now }
{
    matches!(body, Body::Directory { .. })
}

fn kind_of(body: &Body) -> Kind
    ensures { result ≡ kind_of body.now }
{
    match body {
        Body::Regular { .. } => Kind::Regular,
        Body::Directory { .. } => Kind::Directory,
        Body::Link { .. } => Kind::Link,
    }
}

fn place_of(tree: &[Option<Object>], number: u32) -> Option<&Object>
    ensures { option_copied result ≡ place tree.now number }
{
    match tree.get(number as usize) {
        Some(Some(object)) => Some(object),
        _ => None,
    }
}

/// The object that a number names.
pub fn place(tree: &Objects, number: u32) -> Option<&Object>
    ensures value { option_copied result ≡ place tree.now number }
    ensures fits { IfSome result (λ o. blocks_of (size_of o.now.body) ≤ used_blocks tree.now) }
    ensures within { IfSome result (λ _. number < length tree.now) }
{
    match place_of(tree.as_slice(), number) {
        Some(object) => Some(object),
        None => None,
    }
}

#[tactic(auto, unfolding(file_tree::specs::Tree::holder_from))]
fn holder_of(tree: &[Option<Object>], number: u32) -> u32
    requires { length tree.now ≤ object_numbers }
    ensures { result ≡ holder_from 0 tree.now number 0 }
{
    let mut found = 0;
    for (i, object) in tree.iter().enumerate() {
        if names_in(number, slots_of(object)) != 0 {
            found = i as u32;
        }
    }
    found
}

/// The slot and the number of the entry with a name.
#[tactic(auto, unfolding(file_tree::specs::Tree::entry_from))]
pub fn entry(slots: &[Option<Slot>], name: &[u8]) -> Option<(usize, u32)>
    ensures { result ≡ entry_from 0 slots.now name.now }
{
    for (i, slot) in slots.iter().enumerate() {
        if let Some(slot) = slot {
            if slot.name.as_slice() == name {
                return Some((i, slot.number));
            }
        }
    }
    None
}

/// The first free slot, or the place after the last.
#[tactic(auto, unfolding(file_tree::specs::Tree::free_from))]
pub fn free_place(slots: &[Option<Slot>]) -> usize
    ensures { result ≡ free_from 0 slots.now }
{
    for (i, slot) in slots.iter().enumerate() {
        if slot.is_none() {
            return i;
        }
    }
    slots.len()
}

/// The blocks of 4096 bytes that a size needs.
pub fn blocks_of(size: u32) -> u32
    requires { size + 4095 < 2 ^ 32 }
    ensures { result ≡ blocks_of size }
{
    (size + (BLOCK_SIZE - 1)) / BLOCK_SIZE
}

/// The size in bytes: a directory has 264 for each slot.
pub fn size_of(body: &Body) -> u32
    requires { size_of body.now < 2 ^ 32 }
    ensures { result ≡ size_of body.now }
{
    match body {
        Body::Regular { bytes } => bytes.len() as u32,
        Body::Directory { slots } => (SLOT_SIZE as usize * slots.len()) as u32,
        Body::Link { text } => text.len() as u32,
    }
}

/// The blocks of the object of a number in a list; 0 where it has none.
#[tactic(auto, using(file_tree::proofs::Bounds::blocks_placed, file_tree::proofs::Bounds::place_fits))]
pub fn blocks_in(tree: &[Option<Object>], number: u32) -> u32
    requires { used_blocks tree.now ≤ tree_blocks }
    ensures value { result ≡ blocks_at (place tree.now number) }
    ensures within { result ≤ used_blocks tree.now }
{
    match place_of(tree, number) {
        None => 0,
        Some(object) => blocks_of(size_of(&object.body)),
    }
}

/// The slots of the directory of a number in a list; none of anything else.
pub fn slots_at(tree: &[Option<Object>], number: u32) -> &[Option<Slot>]
    ensures { result.now ≡ slots_of (place tree.now number) }
{
    match place_of(tree, number) {
        None => &[],
        Some(object) => slots_within(&object.body),
    }
}

/// Whether a number names a directory.
pub fn is_directory_at(tree: &Objects, number: u32) -> bool
    ensures { result ≡ is_directory_at (place tree.now number) }
{
    match place(tree, number) {
        None => false,
        Some(object) => is_directory(&object.body),
    }
}

fn is_subdirectory(tree: &Objects, slot: &Option<Slot>) -> bool
    ensures { result ≡ is_subdirectory tree.now slot.now }
{
    match slot {
        None => false,
        Some(slot) => is_directory_at(tree, slot.number),
    }
}

fn subdirectories(tree: &Objects, slots: &[Option<Slot>]) -> usize
    ensures { result ≡ count_by (is_subdirectory tree.now) slots.now }
{
    slots
        .iter()
        .filter(|slot| is_subdirectory(tree, slot))
        .count()
}

/// The number of links: of a directory 2 and its subdirectories, else the slots that name it.
#[tactic(auto, using(file_tree::proofs::Bounds::links), unfolding(file_tree::specs::Tree::links_of))]
pub fn links_of(tree: &Objects, number: u32, body: &Body) -> u32
    requires tree { used_blocks tree.now ≤ tree_blocks }
    requires body { blocks_of (size_of body.now) ≤ tree_blocks }
    ensures { result ≡ links_of tree.now number body.now }
{
    match body {
        Body::Directory { slots } => 2 + subdirectories(tree, slots.as_slice()) as u32,
        Body::Regular { .. } => tree.names_of(number),
        Body::Link { .. } => tree.names_of(number),
    }
}

/// The parent of a directory; 0 for any other number.
#[tactic(auto, unfolding(file_tree::specs::Tree::parent_of))]
pub fn parent_of(tree: &Objects, number: u32) -> u32
    requires { length tree.now ≤ object_numbers }
    ensures { result ≡ parent_of tree.now number }
{
    if !is_directory_at(tree, number) {
        return 0;
    }
    if number == 1 {
        return 1;
    }
    holder_of(tree.as_slice(), number)
}

/// The attributes of an object.
pub fn attr_of(tree: &Objects, number: u32, object: &Object) -> Attr
    requires tree { used_blocks tree.now ≤ tree_blocks }
    requires body { blocks_of (size_of object.now.body) ≤ tree_blocks }
    ensures { result ≡ attr_of tree.now number object.now }
{
    let size = size_of(&object.body);
    Attr {
        kind: kind_of(&object.body),
        mode: object.mode,
        links: links_of(tree, number, &object.body),
        uid: object.uid,
        gid: object.gid,
        size,
        blocks: blocks_of(size),
        fileid: number,
        atime: object.atime,
        mtime: object.mtime,
        ctime: object.ctime,
    }
}

/// The blocks of the object that a number names; 0 where it names none.
pub fn blocks_placed(tree: &Objects, number: u32) -> u32
    requires { used_blocks tree.now ≤ tree_blocks }
    ensures value { result ≡ blocks_at (place tree.now number) }
    ensures bound { result ≤ tree_blocks }
{
    match place(tree, number) {
        None => 0,
        Some(object) => blocks_of(size_of(&object.body)),
    }
}

/// The attributes of the object that a number names; zeros where it names none.
#[tactic(auto, unfolding(file_tree::specs::Tree::attr_at))]
pub fn attr_at(tree: &Objects, number: u32) -> Attr
    requires { used_blocks tree.now ≤ tree_blocks }
    ensures { result ≡ attr_at tree.now number }
{
    match place(tree, number) {
        None => ATTR_ZERO,
        Some(object) => attr_of(tree, number, object),
    }
}

/// The slots of the directory that a number names; none of anything else.
#[tactic(auto, using(file_tree::proofs::Bounds::slots_fit))]
pub fn slots_of_place(tree: &Objects, number: u32) -> &[Option<Slot>]
    requires { used_blocks tree.now ≤ tree_blocks }
    ensures value { result.now ≡ slots_of (place tree.now number) }
    ensures fits { slot_size * length result.now ≤ 268435456 }
{
    match place(tree, number) {
        None => &[],
        Some(object) => slots_within(&object.body),
    }
}
