//! A tree as a plain list of objects, and its outcomes.

ghost use Rattle.std.specs.Prelude.{◌≡◌, IfOk, OnErr, true, false};
ghost use Rattle.harp_types.specs.declared.attr.Time.{Time};
ghost use Rattle.harp_types.specs.Update.{changes_entries, is_update};
ghost use Rattle.file_tree.specs.Within.{IsWithinLimits};
ghost use Rattle.plain_tree.specs.Plain.{Does, Gives};
ghost use Rattle.file_tree.specs.Tree.{first_tree};
ghost use Rattle.file_tree.specs.Calls.{answered, outcome};

use crate::entries::{link, make_dir, make_link, remove, remove_dir};
use crate::error::TreeError;
use crate::objects::Objects;
use crate::pages::read_dir;
use crate::reads::{get_attr, lookup, read, read_link, stat_fs};
use crate::rename::rename;
use crate::writes::{create, set_attr, write};
use harp_types::{Call, Cred, Reply, Time, changes_entries, is_update, time_of};
use std::alloc::{AllocError, Global};
use std::marker::Model;

/// The reply to a read, or its refusal.
fn read_answered(alloc: Global, tree: &Objects, cred: Cred, call: &Call) -> Result<Reply, TreeError>
    requires tree { IsWithinLimits tree.now }
    requires read { is_update call.now ≡ false }
    ensures { (now : Time) → Gives (λ r. (r, tree.now)) result
        (answered tree.now cred call.now now) }
{
    match call {
        Call::Null => Ok(Reply::Done),
        Call::GetAttr { handle } => get_attr(tree, *handle),
        Call::Lookup { dir, name } => lookup(tree, cred, *dir, name.as_slice()),
        Call::ReadLink { handle } => read_link(alloc, tree, *handle),
        Call::Read {
            handle,
            offset,
            count,
        } => read(alloc, tree, cred, *handle, *offset, *count),
        Call::ReadDir { dir, cookie, count } => {
            read_dir(alloc, tree, cred, *dir, *cookie, *count)
        }
        Call::StatFs { handle } => stat_fs(tree, *handle),
        _ => unreachable!(),
    }
}

/// The reply to an update of entries, or its refusal.
fn entries_answered(
    alloc: Global,
    tree: &mut Objects,
    cred: Cred,
    call: &Call,
    now: Time,
) -> Result<Reply, TreeError>
    requires tree { IsWithinLimits tree.old }
    requires entries { changes_entries call.now ≡ true }
    ensures does { Does tree.old tree.new result
        (answered tree.old cred call.now now) }
    ensures kept { IsWithinLimits tree.new }
{
    match call {
        Call::Remove { dir, name } => remove(tree, cred, *dir, name.as_slice(), now),
        Call::Rename {
            dir,
            name,
            to_dir,
            to_name,
        } => {
            let (name, to_name) = (name.as_slice(), to_name.as_slice());
            rename(alloc, tree, cred, *dir, name, *to_dir, to_name, now)
        }
        Call::Link { handle, dir, name } => {
            link(alloc, tree, cred, *handle, *dir, name.as_slice(), now)
        }
        Call::RmDir { dir, name } => remove_dir(tree, cred, *dir, name.as_slice(), now),
        _ => unreachable!(),
    }
}

/// The reply to an update that sets attributes or bytes, or its refusal.
fn content_answered(
    alloc: Global,
    tree: &mut Objects,
    cred: Cred,
    call: &Call,
    now: Time,
) -> Result<Reply, TreeError>
    requires tree { IsWithinLimits tree.old }
    requires update { is_update call.now ≡ true }
    requires content { changes_entries call.now ≡ false }
    ensures does { Does tree.old tree.new result
        (answered tree.old cred call.now now) }
    ensures kept { IsWithinLimits tree.new }
{
    match call {
        Call::SetAttr { handle, attr } => set_attr(alloc, tree, cred, *handle, attr, now),
        Call::Write {
            handle,
            offset,
            bytes,
        } => write(alloc, tree, cred, *handle, *offset, bytes.as_slice(), now),
        Call::Create { dir, name, attr } => {
            create(alloc, tree, cred, *dir, name.as_slice(), attr, now)
        }
        Call::SymLink {
            dir,
            name,
            text,
            attr,
        } => {
            let (name, text) = (name.as_slice(), text.as_slice());
            make_link(alloc, tree, cred, *dir, name, text, attr, now)
        }
        Call::MkDir { dir, name, attr } => {
            make_dir(alloc, tree, cred, *dir, name.as_slice(), attr, now)
        }
        _ => unreachable!(),
    }
}

/// The reply to a call, or its refusal.
fn call_answered(
    alloc: Global,
    tree: &mut Objects,
    cred: Cred,
    call: &Call,
    now: Time,
) -> Result<Reply, TreeError>
    requires { IsWithinLimits tree.old }
    ensures does { Does tree.old tree.new result
        (answered tree.old cred call.now now) }
    ensures kept { IsWithinLimits tree.new }
{
    if !is_update(call) {
        read_answered(alloc, tree, cred, call)
    } else if changes_entries(call) {
        entries_answered(alloc, tree, cred, call, now)
    } else {
        content_answered(alloc, tree, cred, call, now)
    }
}

/// A file tree: contracts see the list of its objects by number. It has less than 2^32 numbers, and
/// its objects have at most 65,536 blocks of 4096 bytes.
#[derive(Drop)]
pub struct PlainTree {
    objects: Objects,
}

impl Model for PlainTree {
    ghost use Rattle.std.specs.Prelude.{List, Option};
    ghost use Rattle.file_tree.specs.declared.object.Object.{Object};
    ghost use Rattle.file_tree.specs.Within.{IsWithinLimits};

    ghost Value = { List (Option Object) };

    ghost view = { λ t. t.objects };

    ghost invariant = { λ t. IsWithinLimits t.objects };
}

impl PlainTree {
    /// The tree with the root alone: object 1, a directory of mode 755 octal without slots.
    pub fn new(alloc: Global) -> Result<PlainTree, AllocError>
        ensures { IfOk result (λ tree. tree ≡ first_tree) }
    {
        let objects = Objects::new(alloc)?;
        Ok(PlainTree { objects })
    }

    /// The outcome of a caller's call at a stamp in milliseconds: its reply, and the new tree. An
    /// update changes the tree in place: it copies the slots of a directory that gets an entry, and
    /// the bytes of a file that gets a size. Where memory runs out the tree is as before.
    pub fn apply(
        &mut self,
        alloc: Global,
        cred: Cred,
        call: &Call,
        stamp: u64,
    ) -> Result<Reply, AllocError>
        ensures ok { IfOk result (λ reply. outcome self.old cred call.now stamp
            ≡ (reply, self.new)) }
        ensures err { OnErr result (self.new ≡ self.old) }
    {
        match call_answered(alloc, &mut self.objects, cred, call, time_of(stamp)) {
            Ok(reply) => Ok(reply),
            Err(TreeError::Status(status)) => Ok(Reply::Refused { status }),
            Err(TreeError::NoMemory) => Err(AllocError),
        }
    }
}
