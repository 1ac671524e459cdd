//! The calls that change a file.

ghost use Rattle.std.specs.Prelude.{◌≡◌, ◌<◌, ◌≤◌, [], length, replicate, IfOk, true};
ghost use Rattle.harp_types.specs.Limits.{longest_name};
ghost use Rattle.file_tree.specs.declared.object.Body.TheVariants.{Regular};
ghost use Rattle.file_tree.specs.Within.{IsWithinLimits};
ghost use Rattle.plain_tree.specs.Plain.{Does};
ghost use Rattle.file_tree.specs.Tree.{place, slots_of, slots_within, is_directory_at, size_of};
ghost use Rattle.file_tree.specs.Outcome.{write, set_attr, is_regular, is_regular_at, create_again, create_new, create};

use crate::computed::{attr_at, entry, place};
use crate::error::TreeError;
use crate::fields::{given, made, set_fields};
use crate::objects::Objects;
use crate::permissions::{allowed, may_make, searched};
use crate::tries::{bytes_in, entry_name, live, refuse, room, room_for};
use file_tree::{Body, TO_WRITE, heeded};
use harp_types::{Bytes, Cred, LARGEST_FILE, Reply, SetAttr, Status, Time};
use std::alloc::{AllocError, Global};

/// WRITE (RFC 1094, section 2.2.9): a gap is filled with zeros, and no bytes change nothing.
#[tactic(auto, using(file_tree::proofs::FileBytes::resizes), unfolding(file_tree::specs::Outcome::write))]
pub fn write(
    alloc: Global,
    tree: &mut Objects,
    cred: Cred,
    handle: u32,
    offset: u32,
    bytes: &[u8],
    now: Time,
) -> Result<Reply, TreeError>
    requires { IsWithinLimits tree.old }
    ensures does { Does tree.old tree.new result
        (write tree.old cred handle offset bytes.now now) }
    ensures kept { IsWithinLimits tree.new }
{
    let object = live(tree, handle)?;
    let old = bytes_in(&object.body)?;
    allowed(tree, cred, handle, TO_WRITE)?;
    let end = u64::from(offset) + bytes.len() as u64;
    refuse(Status::FBig, end > u64::from(LARGEST_FILE))?;
    if bytes.is_empty() {
        return Ok(Reply::Attr {
            attr: attr_at(tree, handle),
        });
    }
    let size = (old.len() as u32).max(end as u32);
    room(tree, handle, size)?;
    tree.write(alloc, handle, offset, bytes, size, now)?;
    Ok(Reply::Attr {
        attr: attr_at(tree, handle),
    })
}

/// SETATTR (RFC 1094, section 2.2.3).
#[tactic(auto, unfolding(file_tree::specs::Outcome::set_attr))]
pub fn set_attr(
    alloc: Global,
    tree: &mut Objects,
    cred: Cred,
    handle: u32,
    a: &SetAttr,
    now: Time,
) -> Result<Reply, TreeError>
    requires { IsWithinLimits tree.old }
    ensures does { Does tree.old tree.new result
        (set_attr tree.old cred handle a.now now) }
    ensures kept { IsWithinLimits tree.new }
{
    set_fields(alloc, tree, cred, handle, a, now)?;
    Ok(Reply::Attr {
        attr: attr_at(tree, handle),
    })
}

/// A file that is there already, with its attributes set.
#[tactic(auto, unfolding(file_tree::specs::Outcome::create_again))]
fn create_again(
    alloc: Global,
    tree: &mut Objects,
    cred: Cred,
    number: u32,
    a: &SetAttr,
    now: Time,
) -> Result<Reply, TreeError>
    requires { IsWithinLimits tree.old }
    ensures does { Does tree.old tree.new result
        (create_again tree.old cred number a.now now) }
    ensures kept { IsWithinLimits tree.new }
{
    refuse(Status::Exist, !is_regular_at(tree, number))?;
    let object = live(tree, number)?;
    let a = heeded(cred, object.uid, a);
    set_fields(alloc, tree, cred, number, &a, now)?;
    Ok(Reply::Node {
        handle: number,
        attr: attr_at(tree, number),
    })
}

fn is_regular(body: &Body) -> bool
    ensures { result ≡ is_regular body.now }
{
    matches!(body, Body::Regular { .. })
}

fn is_regular_at(tree: &Objects, number: u32) -> bool
    ensures { result ≡ is_regular_at (place tree.now number) }
{
    match place(tree, number) {
        None => false,
        Some(object) => is_regular(&object.body),
    }
}

/// A file of zeros.
fn zero_file(alloc: Global, size: u32) -> Result<Body, AllocError>
    ensures value { IfOk result (λ b. b ≡ Regular (replicate size 0)) }
    ensures size { IfOk result (λ b. size_of b ≡ size) }
    ensures empty { IfOk result (λ b. slots_within b ≡ []) }
{
    Ok(Body::Regular {
        bytes: Bytes::from_vec(vec![in alloc; 0u8; size as usize]?),
    })
}

/// A file of zeros with a new entry.
#[tactic(auto, unfolding(file_tree::specs::Outcome::create_new))]
fn create_new(
    alloc: Global,
    tree: &mut Objects,
    cred: Cred,
    dir: u32,
    name: &[u8],
    a: &SetAttr,
    now: Time,
) -> Result<Reply, TreeError>
    requires tree { IsWithinLimits tree.old }
    requires name { length name.now ≤ longest_name }
    requires directory { is_directory_at (place tree.old dir) ≡ true }
    ensures does { Does tree.old tree.new result
        (create_new tree.old cred dir
        (slots_of (place tree.old dir)) name.now a.now now) }
    ensures kept { IsWithinLimits tree.new }
{
    may_make(tree, cred, dir, a)?;
    let size = given(a.size, 0);
    refuse(Status::FBig, size > LARGEST_FILE)?;
    let slots = room_for(alloc, tree, dir, name, size)?;
    let number = tree.len() as u32;
    let object = made(cred, a, zero_file(alloc, size)?, now);
    tree.add_object(dir, slots, object, now)?;
    Ok(Reply::Node {
        handle: number,
        attr: attr_at(tree, number),
    })
}

/// CREATE (RFC 1094, section 2.2.10): a file that is there gets the attributes.
#[tactic(auto, unfolding(file_tree::specs::Outcome::create))]
pub fn create(
    alloc: Global,
    tree: &mut Objects,
    cred: Cred,
    dir: u32,
    name: &[u8],
    a: &SetAttr,
    now: Time,
) -> Result<Reply, TreeError>
    requires { IsWithinLimits tree.old }
    ensures does { Does tree.old tree.new result
        (create tree.old cred dir name.now a.now now) }
    ensures kept { IsWithinLimits tree.new }
{
    let slots = searched(tree, cred, dir)?;
    entry_name(name)?;
    match entry(slots, name) {
        Some((_, number)) => create_again(alloc, tree, cred, number, a, now),
        None => create_new(alloc, tree, cred, dir, name, a, now),
    }
}
