//! The blocks that a tree uses.

ghost use Rattle.std.specs.Prelude.{◌≡◌, ◌<◌, ◌^◌};
ghost use Rattle.file_tree.specs.Tree.{blocks_of};
ghost use Rattle.nfs_calls.specs.Space.{capped, replaced_blocks};

use crate::parts::names::refuse;
use harp_types::{BLOCK_SIZE, Status, TREE_BLOCKS};

/// The blocks of 4096 bytes of so many bytes.
pub fn blocks_of(size: u64) -> u64
    requires { size < 2 ^ 48 }
    ensures { result ≡ blocks_of size }
{
    (size + (BLOCK_SIZE as u64 - 1)) / BLOCK_SIZE as u64
}

/// A number as far as 32 bits hold it.
pub fn capped(number: u64) -> u32
    ensures { result ≡ capped number }
{
    number.min(4_294_967_295) as u32
}

/// The used blocks where those of one size in bytes are replaced by those of another, as far as
/// there is room.
pub fn replaced(used: u64, old: u32, new: u64) -> Result<u32, Status>
    requires used { used < 2 ^ 48 }
    requires new { new < 2 ^ 48 }
    ensures { result ≡ replaced_blocks used old new }
{
    let before = blocks_of(u64::from(old));
    let wanted = used + blocks_of(new);
    refuse(Status::NoSpc, TREE_BLOCKS as u64 + before < wanted)?;
    Ok(wanted.saturating_sub(before) as u32)
}
