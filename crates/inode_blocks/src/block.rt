//! Blocks: what stands in one, and the numbers of blocks.

ghost use Rattle.std.specs.Prelude.{◌≡◌, ◌≤◌, ◌+◌, ◌-◌, ◌<◌, ◌^◌, ◌++◌, length, take, drop, max, IfOk, OnOk};
ghost use Rattle.std.specs.Option.{option_copied};
ghost use Rattle.harp_types.specs.Limits.{block_size};
ghost use Rattle.file_tree.specs.Tree.{blocks_of};
ghost use Rattle.file_tree.specs.Outcome.{resized, written};
ghost use Rattle.inode_blocks.specs.Holds.{stored};

use harp_cells::Value;
use harp_types::BLOCK_SIZE;
use std::alloc::{AllocError, Global};

/// How many blocks a file of a size has, holes counted.
pub fn blocks_of(size: u32) -> u32
    requires { size < 2 ^ 31 }
    ensures { result ≡ blocks_of size }
{
    (size + (BLOCK_SIZE - 1)) / BLOCK_SIZE
}

/// The bytes that stand in a block, none where it is absent.
pub fn stored(value: Option<&Value>) -> &[u8]
    ensures value { result.now ≡ stored (option_copied value.entry) }
    ensures most { length result.now ≤ block_size }
{
    match value {
        Some(Value::Block { bytes }) => bytes.as_slice(),
        _ => &[],
    }
}

/// The bytes from a place on, none past the end.
pub fn rest_from(bytes: &[u8], at: usize) -> &[u8]
    ensures { result.now ≡ drop at bytes.now }
{
    if at <= bytes.len() { &bytes[at..] } else { &[] }
}

/// At most so many of the bytes from a place on.
pub fn part(bytes: &[u8], at: usize, count: usize) -> &[u8]
    ensures value { result.now ≡ take count (drop at bytes.now) }
    ensures most { length result.now ≤ count }
{
    let rest = rest_from(bytes, at);
    if count <= rest.len() {
        &rest[..count]
    } else {
        rest
    }
}

/// The bytes of a block with others placed in it, and zeros in the gap.
pub fn written(
    alloc: Global,
    old: &[u8],
    within: usize,
    bytes: &[u8],
) -> Result<Vec<u8>, AllocError>
    requires { within + length bytes.now ≤ block_size }
    ensures value { IfOk result (λ v. v.items ≡ written old.now within bytes.now) }
    ensures size { IfOk result (λ v. length v.items
        ≡ max (length old.now) (within + length bytes.now)) }
{
    let mut new = Vec::from_slice(alloc, old)?;
    new.resize(within, 0)?;
    new.extend_from_slice(bytes)?;
    new.extend_from_slice(rest_from(old, within + bytes.len()))?;
    Ok(new)
}

/// Appends so many bytes of a block from a place on, zeros where they are missing.
pub fn append_part(
    bytes: &mut Vec<u8>,
    stored: &[u8],
    within: usize,
    count: usize,
) -> Result<(), AllocError>
    requires { count ≤ block_size }
    ensures value { OnOk result (bytes.new.items ≡ bytes.old.items
        ++ resized (drop within stored.now) count) }
    ensures size { OnOk result (length bytes.new.items ≡ length bytes.old.items + count) }
{
    let end = bytes.len() + count;
    bytes.extend_from_slice(part(stored, within, count))?;
    bytes.resize(end, 0)?;
    Ok(())
}
