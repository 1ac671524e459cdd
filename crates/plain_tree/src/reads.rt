//! The calls that change nothing.

ghost use Rattle.std.specs.Prelude.{◌≡◌, ◌≤◌, length};
ghost use Rattle.file_tree.specs.Within.{IsWithinLimits};
ghost use Rattle.plain_tree.specs.Plain.{Gives};
ghost use Rattle.file_tree.specs.Tree.{used_blocks};
ghost use Rattle.file_tree.specs.Outcome.{get_attr, lookup, read_link, read, stat_fs};

use crate::computed::attr_at;
use crate::error::TreeError;
use crate::files::part;
use crate::objects::Objects;
use crate::permissions::{allowed, searched};
use crate::tries::{bytes_in, live, resolve, text_in};
use file_tree::TO_READ;
use harp_types::{BLOCK_SIZE, Bounded, Cred, LONGEST_TRANSFER, Reply, TREE_BLOCKS};
use std::alloc::Global;

/// GETATTR (RFC 1094, section 2.2.2).
#[tactic(auto, unfolding(file_tree::specs::Outcome::get_attr))]
pub fn get_attr(tree: &Objects, handle: u32) -> Result<Reply, TreeError>
    requires { IsWithinLimits tree.now }
    ensures { Gives (λ r. (r, tree.now)) result (get_attr tree.now handle) }
{
    live(tree, handle)?;
    Ok(Reply::Attr {
        attr: attr_at(tree, handle),
    })
}

/// LOOKUP (RFC 1094, section 2.2.5): `.` and `..` stand for the directory and its parent.
#[tactic(auto, unfolding(file_tree::specs::Outcome::lookup))]
pub fn lookup(tree: &Objects, cred: Cred, dir: u32, name: &[u8]) -> Result<Reply, TreeError>
    requires { IsWithinLimits tree.now }
    ensures { Gives (λ r. (r, tree.now)) result (lookup tree.now cred dir name.now) }
{
    let slots = searched(tree, cred, dir)?;
    let number = resolve(tree, dir, slots, name)?;
    Ok(Reply::Node {
        handle: number,
        attr: attr_at(tree, number),
    })
}

/// READLINK (RFC 1094, section 2.2.6).
#[tactic(auto, unfolding(file_tree::specs::Outcome::read_link))]
pub fn read_link(alloc: Global, tree: &Objects, handle: u32) -> Result<Reply, TreeError>
    requires { IsWithinLimits tree.now }
    ensures { Gives (λ r. (r, tree.now)) result (read_link tree.now handle) }
{
    let object = live(tree, handle)?;
    let text = text_in(&object.body)?;
    Ok(Reply::Path {
        text: text.copy(alloc)?,
    })
}

/// READ (RFC 1094, section 2.2.7): at most 8192 bytes, to the end of the file.
#[tactic(auto, unfolding(file_tree::specs::Outcome::read))]
pub fn read(
    alloc: Global,
    tree: &Objects,
    cred: Cred,
    handle: u32,
    offset: u32,
    count: u32,
) -> Result<Reply, TreeError>
    requires { IsWithinLimits tree.now }
    ensures { Gives (λ r. (r, tree.now)) result (read tree.now cred handle offset count) }
{
    let object = live(tree, handle)?;
    let bytes = bytes_in(&object.body)?;
    allowed(tree, cred, handle, TO_READ)?;
    let bytes = part(bytes, offset as usize, LONGEST_TRANSFER.min(count as usize));
    Ok(Reply::Bytes {
        attr: attr_at(tree, handle),
        bytes: Bounded::new(Vec::from_slice(alloc, bytes)?),
    })
}

/// STATFS (RFC 1094, section 2.2.18): in blocks of 4096 bytes.
#[tactic(auto, unfolding(file_tree::specs::Outcome::stat_fs))]
pub fn stat_fs(tree: &Objects, handle: u32) -> Result<Reply, TreeError>
    requires { IsWithinLimits tree.now }
    ensures { Gives (λ r. (r, tree.now)) result (stat_fs tree.now handle) }
{
    live(tree, handle)?;
    let free = TREE_BLOCKS - tree.used_blocks();
    Ok(Reply::Space {
        transfer: LONGEST_TRANSFER as u32,
        block: BLOCK_SIZE,
        blocks: TREE_BLOCKS,
        free,
        available: free,
    })
}
