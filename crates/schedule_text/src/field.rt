//! The fields of calls and steps, and the end of a line.

ghost use Rattle.std.specs.Prelude.{◌≡◌, ◌≤◌, length, IfOk};
ghost use Rattle.schedule_text.specs.Fields.{Gives};
ghost use Rattle.schedule_text.specs.Reading.{end_at, spaced_server_at, spaced_count_at, spaced_u32_at, spaced_name_at, spaced_bytes_at, spaced_attr_at, numbers_at, entry_at};

use crate::fault::TextFault;
use crate::name::hex_at;
use crate::number::{count_at, server_at, space_at, u32_at};
use crate::set_attr::set_attr_at;
use harp_types::{Bounded, ServerId, SetAttr};
use std::alloc::Global;

/// Nothing follows.
pub fn end_at(line: &[u8], at: usize) -> Result<(), TextFault>
    ensures { Gives (λ x. x) result (end_at tt line.now at) }
{
    if at == line.len() {
        Ok(())
    } else {
        Err(TextFault::Grammar(at))
    }
}

pub fn spaced_server_at(line: &[u8], at: usize) -> Result<(ServerId, usize), TextFault>
    ensures step { Gives (λ x. x) result (spaced_server_at line.now at) }
    ensures within { IfOk result (λ x. x.1 ≤ length line.now) }
{
    let at = space_at(line, at)?;
    server_at(line, at)
}

/// A number of at most 18 digits.
pub fn spaced_count_at(line: &[u8], at: usize) -> Result<(u64, usize), TextFault>
    ensures step { Gives (λ x. x) result (spaced_count_at line.now at) }
    ensures within { IfOk result (λ x. x.1 ≤ length line.now) }
{
    let at = space_at(line, at)?;
    count_at(line, at)
}

/// A handle, a directory, an offset, a cookie or a count.
pub fn spaced_u32_at(line: &[u8], at: usize) -> Result<(u32, usize), TextFault>
    ensures { Gives (λ x. x) result (spaced_u32_at line.now at) }
{
    let at = space_at(line, at)?;
    u32_at(line, at)
}

/// A name in a directory, or the text of a link.
pub fn spaced_name_at(
    alloc: Global,
    line: &[u8],
    at: usize,
) -> Result<(Bounded<4096>, usize), TextFault>
    ensures { Gives (λ x. x) result (spaced_name_at line.now at) }
{
    let at = space_at(line, at)?;
    hex_at(alloc, line, at)
}

/// The bytes of a write.
pub fn spaced_bytes_at(
    alloc: Global,
    line: &[u8],
    at: usize,
) -> Result<(Bounded<8192>, usize), TextFault>
    ensures { Gives (λ x. x) result (spaced_bytes_at line.now at) }
{
    let at = space_at(line, at)?;
    hex_at(alloc, line, at)
}

pub fn spaced_attr_at(line: &[u8], at: usize) -> Result<(SetAttr, usize), TextFault>
    ensures { Gives (λ x. x) result (spaced_attr_at line.now at) }
{
    let at = space_at(line, at)?;
    set_attr_at(line, at)
}

/// Two numbers.
pub fn numbers_at(line: &[u8], at: usize) -> Result<((u32, u32), usize), TextFault>
    ensures { Gives (λ x. x) result (numbers_at line.now at) }
{
    let (first, at) = spaced_u32_at(line, at)?;
    let (second, at) = spaced_u32_at(line, at)?;
    Ok(((first, second), at))
}

/// A directory and a name in it.
pub fn entry_at(
    alloc: Global,
    line: &[u8],
    at: usize,
) -> Result<((u32, Bounded<4096>), usize), TextFault>
    ensures { Gives (λ x. x) result (entry_at line.now at) }
{
    let (dir, at) = spaced_u32_at(line, at)?;
    let (name, at) = spaced_name_at(alloc, line, at)?;
    Ok(((dir, name), at))
}
