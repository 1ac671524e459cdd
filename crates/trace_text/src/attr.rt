//! Attributes that are read.

ghost use Rattle.std.specs.Prelude.{◌≡◌, ◌≤◌, ◌<◌, ◌^◌, length, IfOk};
ghost use Rattle.schedule_text.specs.Fields.{Gives, u32_at};
ghost use Rattle.trace_text.specs.Fields.{comma_at, colon_at, kind_of, kind_at, mode_at, moment_at, owner_at, extent_at, times_at, attr_at, spaced_attr_at};

use crate::field::sign_at;
use harp_types::{Attr, Kind, Time};
use schedule_text::{TextFault, number_at, peek, space_at, u32_at};

fn kind_of(b: u8) -> Option<Kind>
    ensures { result ≡ kind_of b }
{
    match b {
        b'1' => Some(Kind::Regular),
        b'2' => Some(Kind::Directory),
        b'5' => Some(Kind::Link),
        _ => None,
    }
}

fn kind_at(line: &[u8], at: usize) -> Result<(Kind, usize), TextFault>
    ensures step { Gives (λ x. x) result (kind_at line.now at) }
    ensures within { IfOk result (λ x. x.1 ≤ length line.now) }
{
    match kind_of(peek(line, at)) {
        None => Err(TextFault::Grammar(at)),
        Some(kind) => Ok((kind, at + 1)),
    }
}

/// Sixteen bits in octal digits, behind a comma.
fn comma_mode_at(line: &[u8], at: usize) -> Result<(u16, usize), TextFault>
    ensures { Gives (λ x. x) result (comma_at mode_at line.now at) }
{
    let at = sign_at(line, b',', at)?;
    let (mode, at) = number_at(line, 8, 65535, at)?;
    Ok((mode as u16, at))
}

/// A number behind a comma.
fn comma_u32_at(line: &[u8], at: usize) -> Result<(u32, usize), TextFault>
    ensures { Gives (λ x. x) result (comma_at u32_at line.now at) }
{
    let at = sign_at(line, b',', at)?;
    u32_at(line, at)
}

/// Seconds and microseconds, behind a comma.
#[tactic(auto, unfolding(crate::specs::Fields::moment_at))]
fn comma_moment_at(line: &[u8], at: usize) -> Result<(Time, usize), TextFault>
    ensures { Gives (λ x. x) result (comma_at moment_at line.now at) }
{
    let at = sign_at(line, b',', at)?;
    let (seconds, at) = u32_at(line, at)?;
    let at = sign_at(line, b':', at)?;
    let (micros, at) = u32_at(line, at)?;
    Ok((Time { seconds, micros }, at))
}

/// Kind, mode, links and owners.
#[tactic(auto, unfolding(crate::specs::Fields::owner_at))]
fn owner_at(line: &[u8], at: usize) -> Result<(((((Kind, u16), u32), u32), u32), usize), TextFault>
    ensures { Gives (λ x. x) result (owner_at line.now at) }
{
    let (kind, at) = kind_at(line, at)?;
    let (mode, at) = comma_mode_at(line, at)?;
    let (links, at) = comma_u32_at(line, at)?;
    let (uid, at) = comma_u32_at(line, at)?;
    let (gid, at) = comma_u32_at(line, at)?;
    Ok((((((kind, mode), links), uid), gid), at))
}

/// Size, blocks and number.
#[tactic(auto, unfolding(crate::specs::Fields::extent_at))]
fn extent_at(line: &[u8], at: usize) -> Result<(((u32, u32), u32), usize), TextFault>
    ensures { Gives (λ x. x) result (extent_at line.now at) }
{
    let (size, at) = comma_u32_at(line, at)?;
    let (blocks, at) = comma_u32_at(line, at)?;
    let (fileid, at) = comma_u32_at(line, at)?;
    Ok((((size, blocks), fileid), at))
}

/// The three times.
#[tactic(auto, unfolding(crate::specs::Fields::times_at))]
fn times_at(line: &[u8], at: usize) -> Result<(((Time, Time), Time), usize), TextFault>
    ensures { Gives (λ x. x) result (times_at line.now at) }
{
    let (atime, at) = comma_moment_at(line, at)?;
    let (mtime, at) = comma_moment_at(line, at)?;
    let (ctime, at) = comma_moment_at(line, at)?;
    Ok((((atime, mtime), ctime), at))
}

#[tactic(auto, unfolding(crate::specs::Fields::attr_at))]
fn attr_at(line: &[u8], at: usize) -> Result<(Attr, usize), TextFault>
    ensures { Gives (λ x. x) result (attr_at line.now at) }
{
    let (((((kind, mode), links), uid), gid), at) = owner_at(line, at)?;
    let (((size, blocks), fileid), at) = extent_at(line, at)?;
    let (((atime, mtime), ctime), at) = times_at(line, at)?;
    let attr = Attr {
        kind,
        mode,
        links,
        uid,
        gid,
        size,
        blocks,
        fileid,
        atime,
        mtime,
        ctime,
    };
    Ok((attr, at))
}

pub fn spaced_attr_at(line: &[u8], at: usize) -> Result<(Attr, usize), TextFault>
    ensures { Gives (λ x. x) result (spaced_attr_at line.now at) }
{
    let at = space_at(line, at)?;
    attr_at(line, at)
}
