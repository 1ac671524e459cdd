//! The bytes of files.

ghost use Rattle.std.specs.Prelude.{◌≡◌, ◌<◌, ◌≤◌, ◌+◌, ◌-◌, ◌^◌, ◌++◌, IfOk, OnOk, OnErr, length, replicate, take, drop};
ghost use Rattle.file_tree.specs.Outcome.{resized, written};

use harp_types::Bytes;
use std::alloc::{AllocError, Global};
use std::mem::replace;

fn zeros(alloc: Global, count: usize) -> Result<Vec<u8>, AllocError>
    ensures { IfOk result (λ v. v.items ≡ replicate count 0) }
{
    vec![in alloc; 0u8; count]
}

/// The bytes cut, or extended with zeros.
#[tactic(auto, using(file_tree::proofs::FileBytes::resizes))]
pub fn resized(alloc: Global, bytes: &[u8], size: usize) -> Result<Vec<u8>, AllocError>
    ensures { IfOk result (λ v. v.items ≡ resized bytes.now size) }
{
    if size <= bytes.len() {
        return Vec::from_slice(alloc, &bytes[..size]);
    }
    let mut new = Vec::from_slice(alloc, bytes)?;
    let zeros = zeros(alloc, size - bytes.len())?;
    new.extend_from_slice(&zeros)?;
    Ok(new)
}

/// The bytes from a place on; none past the end.
pub fn rest_from(bytes: &[u8], end: usize) -> &[u8]
    ensures { result.now ≡ drop end bytes.now }
{
    if end <= bytes.len() {
        &bytes[end..]
    } else {
        &[]
    }
}

/// Places bytes in others, where there are enough.
fn overwrite(items: &mut Vec<u8>, offset: usize, bytes: &[u8])
    requires { offset + length bytes.now ≤ length items.old.items }
    ensures { items.new.items ≡ take offset items.old.items ++ bytes.now
        ++ drop (offset + length bytes.now) items.old.items }
{
    items[offset..offset + bytes.len()].copy_from_slice(bytes);
}

/// Places bytes at an offset, with zeros in the gap. Where memory runs out nothing changes.
#[tactic(auto, using(crate::proofs::Writing::writes))]
fn place_in(items: &mut Vec<u8>, offset: usize, bytes: &[u8]) -> Result<(), AllocError>
    requires { offset + length bytes.now < 2 ^ 64 }
    ensures ok { OnOk result (items.new.items ≡ written items.old.items offset bytes.now) }
    ensures err { OnErr result (items.new.items ≡ items.old.items) }
{
    if offset == items.len() {
        return items.extend_from_slice(bytes);
    }
    let end = items.len().max(offset + bytes.len());
    items.resize(end, 0)?;
    overwrite(items, offset, bytes);
    Ok(())
}

/// Places bytes of a file at an offset. Where memory runs out the file is as before.
pub fn write_in(
    alloc: Global,
    file: &mut Bytes,
    offset: usize,
    bytes: &[u8],
) -> Result<(), AllocError>
    requires { offset + length bytes.now < 2 ^ 64 }
    ensures ok { OnOk result (file.new ≡ written file.old offset bytes.now) }
    ensures err { OnErr result (file.new ≡ file.old) }
{
    let mut items = replace(file, Bytes::new(alloc)).into_vec();
    let placed = place_in(&mut items, offset, bytes);
    *file = Bytes::from_vec(items);
    placed
}

/// At most so many of the bytes from an offset on.
pub fn part(bytes: &[u8], offset: usize, count: usize) -> &[u8]
    ensures value { result.now ≡ take count (drop offset bytes.now) }
    ensures size { length result.now ≤ count }
{
    let rest = rest_from(bytes, offset);
    if count <= rest.len() {
        &rest[..count]
    } else {
        rest
    }
}
