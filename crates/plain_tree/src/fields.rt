//! Attributes that are set.

ghost use Rattle.std.specs.Prelude.{◌≡◌, ◌<◌, ◌≤◌, ◌+◌, length, IfOk, IfSome, Option, true};
ghost use Rattle.harp_types.specs.Limits.{tree_blocks};
ghost use Rattle.file_tree.specs.Within.{IsWithinLimits};
ghost use Rattle.plain_tree.specs.Plain.{DoesStep, Gives};
ghost use Rattle.file_tree.specs.Tree.{used_blocks, blocks_at, blocks_of, size_of, place};
ghost use Rattle.file_tree.specs.Outcome.{given, given_mode, given_time, mtime_for_size, made, body_with, with_fields, with_size, set_fields, change, is_regular};

use crate::error::TreeError;
use crate::files::resized;
use crate::objects::Objects;
use crate::permissions::allowed;
use crate::tries::{bytes_in, live, refuse, room};
use file_tree::{Body, Object, TO_WRITE, may_set};
use harp_types::{Bytes, Cred, FIELD_LEFT, LARGEST_FILE, SetAttr, Status, Time};
use std::alloc::Global;

/// A field of SETATTR: 4294967295 leaves the old value (RFC 1094, section 2.3.6).
pub fn given(new: u32, old: u32) -> u32
    ensures { result ≡ given new old }
{
    if new == FIELD_LEFT { old } else { new }
}

/// A given mode has 12 bits.
pub fn given_mode(new: u32, old: u16) -> u16
    ensures { result ≡ given_mode new old }
{
    if new == FIELD_LEFT {
        old
    } else {
        (new % 4096) as u16
    }
}

/// A given time; its seconds say whether it is left.
pub fn given_time(new: Time, old: Time) -> Time
    ensures { result ≡ given_time new old }
{
    if new.seconds == FIELD_LEFT { old } else { new }
}

/// A new object of a caller with the given fields.
pub fn made(cred: Cred, a: &SetAttr, body: Body, now: Time) -> Object
    ensures { result ≡ made cred a.now body now }
{
    Object {
        mode: given_mode(a.mode, 0),
        uid: given(a.uid, cred.uid),
        gid: given(a.gid, cred.gid),
        atime: given_time(a.atime, now),
        mtime: given_time(a.mtime, now),
        ctime: now,
        body,
    }
}

/// The mtime where none is given: a given size changes it.
fn mtime_for_size(size: u32, old: Time, now: Time) -> Time
    ensures { result ≡ mtime_for_size size old now }
{
    if size == FIELD_LEFT { old } else { now }
}

/// The bytes of a body at a given size.
#[tactic(auto, unfolding(file_tree::specs::Outcome::with_size))]
fn with_size(
    alloc: Global,
    tree: &Objects,
    cred: Cred,
    number: u32,
    body: &Body,
    size: u32,
) -> Result<Option<Bytes>, TreeError>
    requires tree { used_blocks tree.now ≤ tree_blocks }
    requires fits { blocks_of (size_of body.now) ≤ tree_blocks }
    ensures step { Gives (λ b. b) result (with_size tree.now cred number body.now size) }
    ensures enough { IfOk result (λ b. IfSome b (λ bytes.
        used_blocks tree.now + blocks_of (length bytes) ≤ tree_blocks + blocks_at
        (place tree.now number))) }
    ensures file { IfOk result (λ b. IfSome b (λ bytes. is_regular body.now ≡ true)) }
{
    if size == FIELD_LEFT {
        return Ok(None);
    }
    let bytes = bytes_in(body)?;
    allowed(tree, cred, number, TO_WRITE)?;
    refuse(Status::FBig, size > LARGEST_FILE)?;
    room(tree, number, size)?;
    let bytes = resized(alloc, bytes, size as usize)?;
    Ok(Some(Bytes::from_vec(bytes)))
}

fn set_in(object: &mut Object, a: &SetAttr, bytes: Option<Bytes>, now: Time)
    ensures { object.new ≡ with_fields a.now bytes now object.old }
{
    object.mode = given_mode(a.mode, object.mode);
    object.uid = given(a.uid, object.uid);
    object.gid = given(a.gid, object.gid);
    object.atime = given_time(a.atime, object.atime);
    object.mtime = given_time(a.mtime, mtime_for_size(a.size, object.mtime, now));
    object.ctime = now;
    if let Some(bytes) = bytes {
        object.body = Body::Regular { bytes };
    }
}

/// An object with the given fields set.
#[tactic(auto, using(file_tree::proofs::Kept::pasts))]
pub fn set_at(
    tree: &mut Vec<Option<Object>>,
    handle: u32,
    a: &SetAttr,
    bytes: Option<Bytes>,
    now: Time,
)
    requires tree { IsWithinLimits tree.old.items }
    requires enough { IfSome bytes (λ b.
        used_blocks tree.old.items + blocks_of (length b) ≤ tree_blocks + blocks_at
        (place tree.old.items handle)) }
    ensures value { tree.new.items ≡ change tree.old.items handle (with_fields a.now bytes now) }
    ensures kept { IsWithinLimits tree.new.items }
{
    if (handle as usize) < tree.len() {
        if let Some(object) = &mut tree[handle as usize] {
            set_in(object, a, bytes, now);
        }
    }
}

/// Sets the given fields of an object.
#[tactic(auto, unfolding(file_tree::specs::Outcome::set_fields))]
pub fn set_fields(
    alloc: Global,
    tree: &mut Objects,
    cred: Cred,
    handle: u32,
    a: &SetAttr,
    now: Time,
) -> Result<(), TreeError>
    requires { IsWithinLimits tree.old }
    ensures does { DoesStep tree.old tree.new result
        (set_fields tree.old cred handle a.now now) }
    ensures kept { IsWithinLimits tree.new }
{
    let object = live(tree, handle)?;
    refuse(Status::Perm, !may_set(cred, a, object.uid, object.gid))?;
    let bytes = with_size(alloc, tree, cred, handle, &object.body, a.size)?;
    tree.set_fields(handle, a, bytes, now);
    Ok(())
}
