//! Times and attributes, read from a place on and written.

ghost use Rattle.std.specs.Prelude.{◌≡◌, ◌≤◌, ◌++◌, length, IfOk, OnOk};
ghost use Rattle.harp_base.specs.Fields.{tag_at};
ghost use Rattle.harp_base.specs.Attributes.{TimeFits, SetAttrFits, AttrFits, time_at, time_bytes, set_attr_at, set_attr_bytes, attr_at, attr_bytes};
ghost use Rattle.harp_types.specs.Kinds.{kind_number, kinds};

use crate::field::{Misread, byte_at, put_u16, put_u32, u16_at, u32_at};
use harp_types::{Attr, Kind, SetAttr, Time};
use std::alloc::AllocError;

/// A time, and the place after it.
#[tactic(auto, unfolding(crate::specs::Attributes::time_at))]
pub fn time_at(bytes: &[u8], at: usize) -> Result<(Time, usize), Misread>
    requires { at ≤ length bytes.now }
    ensures step { result ≡ time_at bytes.now at }
    ensures within { IfOk result (λ x. x.1 ≤ length bytes.now) }
{
    let (seconds, at) = u32_at(bytes, at)?;
    let (micros, at) = u32_at(bytes, at)?;
    Ok((Time { seconds, micros }, at))
}

#[tactic(auto, unfolding(crate::specs::Attributes::set_attr_at))]
pub(crate) fn set_attr_at(bytes: &[u8], at: usize) -> Result<(SetAttr, usize), Misread>
    requires { at ≤ length bytes.now }
    ensures step { result ≡ set_attr_at bytes.now at }
    ensures within { IfOk result (λ x. x.1 ≤ length bytes.now) }
{
    let (mode, at) = u32_at(bytes, at)?;
    let (uid, at) = u32_at(bytes, at)?;
    let (gid, at) = u32_at(bytes, at)?;
    let (size, at) = u32_at(bytes, at)?;
    let (atime, at) = time_at(bytes, at)?;
    let (mtime, at) = time_at(bytes, at)?;
    let attr = SetAttr {
        mode,
        uid,
        gid,
        size,
        atime,
        mtime,
    };
    Ok((attr, at))
}

/// The kind of an object, and the place after it.
pub fn kind_at(bytes: &[u8], at: usize) -> Result<(Kind, usize), Misread>
    requires { at ≤ length bytes.now }
    ensures step { result ≡ tag_at kind_number kinds bytes.now at }
    ensures within { IfOk result (λ x. x.1 ≤ length bytes.now) }
{
    let (number, next) = byte_at(bytes, at)?;
    match Kind::of(number) {
        Some(kind) => Ok((kind, next)),
        None => Err(Misread::BadTag(at)),
    }
}

#[tactic(auto, unfolding(crate::specs::Attributes::attr_at))]
pub(crate) fn attr_at(bytes: &[u8], at: usize) -> Result<(Attr, usize), Misread>
    requires { at ≤ length bytes.now }
    ensures step { result ≡ attr_at bytes.now at }
    ensures within { IfOk result (λ x. x.1 ≤ length bytes.now) }
{
    let (kind, at) = kind_at(bytes, at)?;
    let (mode, at) = u16_at(bytes, at)?;
    let (links, at) = u32_at(bytes, at)?;
    let (uid, at) = u32_at(bytes, at)?;
    let (gid, at) = u32_at(bytes, at)?;
    let (size, at) = u32_at(bytes, at)?;
    let (blocks, at) = u32_at(bytes, at)?;
    let (fileid, at) = u32_at(bytes, at)?;
    let (atime, at) = time_at(bytes, at)?;
    let (mtime, at) = time_at(bytes, at)?;
    let (ctime, at) = time_at(bytes, at)?;
    let attr = Attr {
        kind,
        mode,
        links,
        uid,
        gid,
        size,
        blocks,
        fileid,
        atime,
        mtime,
        ctime,
    };
    Ok((attr, at))
}

/// Appends a time.
#[tactic(auto, unfolding(crate::specs::Attributes::time_bytes))]
pub fn put_time(out: &mut Vec<u8>, time: &Time) -> Result<(), AllocError>
    ensures value { OnOk result (out.new.items ≡ out.old.items ++ time_bytes time.now) }
    ensures fits { OnOk result (TimeFits time.now) }
{
    put_u32(out, time.seconds)?;
    put_u32(out, time.micros)?;
    Ok(())
}

#[tactic(auto, unfolding(crate::specs::Attributes::set_attr_bytes))]
pub(crate) fn put_set_attr(out: &mut Vec<u8>, attr: &SetAttr) -> Result<(), AllocError>
    ensures value { OnOk result (out.new.items ≡ out.old.items ++ set_attr_bytes attr.now) }
    ensures fits { OnOk result (SetAttrFits attr.now) }
{
    put_u32(out, attr.mode)?;
    put_u32(out, attr.uid)?;
    put_u32(out, attr.gid)?;
    put_u32(out, attr.size)?;
    put_time(out, &attr.atime)?;
    put_time(out, &attr.mtime)?;
    Ok(())
}

#[tactic(auto, unfolding(crate::specs::Attributes::attr_bytes))]
pub(crate) fn put_attr(out: &mut Vec<u8>, attr: &Attr) -> Result<(), AllocError>
    ensures value { OnOk result (out.new.items ≡ out.old.items ++ attr_bytes attr.now) }
    ensures fits { OnOk result (AttrFits attr.now) }
{
    out.push(attr.kind.number())?;
    put_u16(out, attr.mode)?;
    put_u32(out, attr.links)?;
    put_u32(out, attr.uid)?;
    put_u32(out, attr.gid)?;
    put_u32(out, attr.size)?;
    put_u32(out, attr.blocks)?;
    put_u32(out, attr.fileid)?;
    put_time(out, &attr.atime)?;
    put_time(out, &attr.mtime)?;
    put_time(out, &attr.ctime)?;
    Ok(())
}
