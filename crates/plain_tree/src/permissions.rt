//! What a caller may do with objects of a tree.

ghost use Rattle.std.specs.Prelude.{◌≡◌, ◌<◌, ◌≤◌, ◌*◌, length, IfOk, true};
ghost use Rattle.harp_types.specs.Limits.{slot_size, tree_blocks};
ghost use Rattle.plain_tree.specs.Plain.{Gives};
ghost use Rattle.file_tree.specs.Tree.{place, is_directory_at, used_blocks, blocks_of};
ghost use Rattle.file_tree.specs.Permissions.{may_at, allowed, searched, may_make};

use crate::computed::place;
use crate::error::TreeError;
use crate::objects::Objects;
use crate::tries::{directory, refuse};
use file_tree::{Slot, TO_SEARCH, TO_WRITE, may, may_give};
use harp_types::{Cred, SetAttr, Status};

fn may_at(tree: &Objects, cred: Cred, number: u32, want: u8) -> bool
    ensures { result ≡ may_at cred (place tree.now number) want }
{
    match place(tree, number) {
        None => false,
        Some(object) => may(cred, object.mode, object.uid, object.gid, want),
    }
}

/// A refusal, unless the caller may do what is wanted with the object that a number names.
pub fn allowed(tree: &Objects, cred: Cred, number: u32, want: u8) -> Result<(), TreeError>
    ensures { Gives (λ x. x) result (allowed tree.now cred number want) }
{
    refuse(Status::Acces, !may_at(tree, cred, number, want))
}

/// The slots of a directory that the caller may search.
pub fn searched(tree: &Objects, cred: Cred, dir: u32) -> Result<&[Option<Slot>], TreeError>
    requires { used_blocks tree.now ≤ tree_blocks }
    ensures step { Gives (λ s. s.now) result (searched tree.now cred dir) }
    ensures fits { IfOk result (λ s. blocks_of (slot_size * length s.now) ≤ tree_blocks) }
    ensures within { IfOk result (λ _. dir < length tree.now) }
    ensures directory { IfOk result (λ _. is_directory_at (place tree.now dir) ≡ true) }
{
    let slots = directory(tree, dir)?;
    allowed(tree, cred, dir, TO_SEARCH)?;
    Ok(slots)
}

/// A refusal, unless the caller may write the directory and make an object with these fields.
pub fn may_make(tree: &Objects, cred: Cred, dir: u32, a: &SetAttr) -> Result<(), TreeError>
    ensures { Gives (λ x. x) result (may_make tree.now cred dir a.now) }
{
    allowed(tree, cred, dir, TO_WRITE)?;
    refuse(Status::Perm, !may_give(cred, a))
}
