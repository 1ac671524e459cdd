//! Attributes that are written.

ghost use Rattle.std.specs.Prelude.{◌≡◌, ◌++◌, ◌∷◌, [], codes, decimal, OnOk};
ghost use Rattle.text_spelling.specs.Text.{comma, octal, time_text, left, is_left_time, number_field, mode_field, time_field, later, set_attr_text, kind_number, attr_owner, attr_extent, attr_times, attr_text, spaced};

use crate::decimals::{DIGITS, MARKED, push_behind, push_decimal};
use crate::put::{put_behind, put_decimal, put_octal};
use harp_types::{Attr, Kind, SetAttr, Time};
use std::alloc::AllocError;
use text_spelling::{LEFT, is_left_time};

#[tactic(auto, unfolding(text_spelling::specs::Text::time_text))]
fn put_time(out: &mut Vec<u8>, t: &Time) -> Result<(), AllocError>
    ensures { OnOk result (out.new.items ≡ out.old.items ++ time_text t.now) }
{
    out.reserve(DIGITS + MARKED)?;
    push_decimal(out, u64::from(t.seconds));
    push_behind(out, b':', u64::from(t.micros));
    Ok(())
}

#[tactic(auto, unfolding(text_spelling::specs::Text::number_field))]
fn put_number_field(out: &mut Vec<u8>, n: u32) -> Result<(), AllocError>
    ensures { OnOk result (out.new.items ≡ out.old.items ++ number_field n) }
{
    if n == LEFT {
        Ok(out.push(b'-')?)
    } else {
        put_decimal(out, u64::from(n))
    }
}

#[tactic(auto, unfolding(text_spelling::specs::Text::mode_field))]
fn put_mode_field(out: &mut Vec<u8>, n: u32) -> Result<(), AllocError>
    ensures { OnOk result (out.new.items ≡ out.old.items ++ mode_field n) }
{
    if n == LEFT {
        Ok(out.push(b'-')?)
    } else {
        put_octal(out, n)
    }
}

#[tactic(auto, unfolding(text_spelling::specs::Text::time_field))]
fn put_time_field(out: &mut Vec<u8>, t: &Time) -> Result<(), AllocError>
    ensures { OnOk result (out.new.items ≡ out.old.items ++ time_field t.now) }
{
    if is_left_time(t) {
        Ok(out.push(b'-')?)
    } else {
        put_time(out, t)
    }
}

/// A field behind the first one.
#[tactic(auto, unfolding(text_spelling::specs::Text::later))]
fn put_later_number(out: &mut Vec<u8>, given: bool, n: u32) -> Result<(), AllocError>
    ensures { OnOk result (out.new.items ≡ out.old.items ++ later given (number_field n)) }
{
    if !given {
        return Ok(());
    }
    out.push(b',')?;
    put_number_field(out, n)?;
    Ok(())
}

#[tactic(auto, unfolding(text_spelling::specs::Text::later))]
fn put_later_time(out: &mut Vec<u8>, given: bool, t: &Time) -> Result<(), AllocError>
    ensures { OnOk result (out.new.items ≡ out.old.items ++ later given (time_field t.now)) }
{
    if !given {
        return Ok(());
    }
    out.push(b',')?;
    put_time_field(out, t)?;
    Ok(())
}

/// Six fields, up to the last one that isn't left.
#[tactic(auto, unfolding(text_spelling::specs::Text::set_attr_text))]
fn put_set_attr_text(out: &mut Vec<u8>, a: &SetAttr) -> Result<(), AllocError>
    ensures { OnOk result (out.new.items ≡ out.old.items ++ set_attr_text a.now) }
{
    let mtime = !is_left_time(&a.mtime);
    let atime = !is_left_time(&a.atime) | mtime;
    let size = (a.size != LEFT) | atime;
    let gid = (a.gid != LEFT) | size;
    let uid = (a.uid != LEFT) | gid;
    put_mode_field(out, a.mode)?;
    put_later_number(out, uid, a.uid)?;
    put_later_number(out, gid, a.gid)?;
    put_later_number(out, size, a.size)?;
    put_later_time(out, atime, &a.atime)?;
    put_later_time(out, mtime, &a.mtime)?;
    Ok(())
}

/// The fields of SETATTR behind a space.
pub fn put_set_attr(out: &mut Vec<u8>, a: &SetAttr) -> Result<(), AllocError>
    ensures { OnOk result (out.new.items ≡ out.old.items ++ spaced (set_attr_text a.now)) }
{
    out.push(b' ')?;
    put_set_attr_text(out, a)?;
    Ok(())
}

fn kind_number(kind: Kind) -> u64
    ensures { result ≡ kind_number kind }
{
    match kind {
        Kind::Regular => 1,
        Kind::Directory => 2,
        Kind::Link => 5,
    }
}

/// A number behind a comma.
fn put_comma(out: &mut Vec<u8>, n: u32) -> Result<(), AllocError>
    ensures { OnOk result (out.new.items ≡ out.old.items ++ comma (decimal n)) }
{
    put_behind(out, b',', u64::from(n))
}

/// A time behind a comma.
fn put_comma_time(out: &mut Vec<u8>, t: &Time) -> Result<(), AllocError>
    ensures { OnOk result (out.new.items ≡ out.old.items ++ comma (time_text t.now)) }
{
    out.push(b',')?;
    put_time(out, t)?;
    Ok(())
}

/// Kind, mode, links and owners.
#[tactic(auto, unfolding(text_spelling::specs::Text::attr_owner))]
fn put_owner(out: &mut Vec<u8>, a: &Attr) -> Result<(), AllocError>
    ensures { OnOk result (out.new.items ≡ out.old.items ++ attr_owner a.now) }
{
    put_decimal(out, kind_number(a.kind))?;
    out.push(b',')?;
    put_octal(out, u32::from(a.mode))?;
    put_comma(out, a.links)?;
    put_comma(out, a.uid)?;
    put_comma(out, a.gid)?;
    Ok(())
}

/// Size, blocks and number.
#[tactic(auto, unfolding(text_spelling::specs::Text::attr_extent))]
fn put_extent(out: &mut Vec<u8>, a: &Attr) -> Result<(), AllocError>
    ensures { OnOk result (out.new.items ≡ out.old.items ++ attr_extent a.now) }
{
    put_comma(out, a.size)?;
    put_comma(out, a.blocks)?;
    put_comma(out, a.fileid)?;
    Ok(())
}

#[tactic(auto, unfolding(text_spelling::specs::Text::attr_times))]
fn put_times(out: &mut Vec<u8>, a: &Attr) -> Result<(), AllocError>
    ensures { OnOk result (out.new.items ≡ out.old.items ++ attr_times a.now) }
{
    put_comma_time(out, &a.atime)?;
    put_comma_time(out, &a.mtime)?;
    put_comma_time(out, &a.ctime)?;
    Ok(())
}

#[tactic(auto, unfolding(text_spelling::specs::Text::attr_text))]
fn put_attr_text(out: &mut Vec<u8>, a: &Attr) -> Result<(), AllocError>
    ensures { OnOk result (out.new.items ≡ out.old.items ++ attr_text a.now) }
{
    put_owner(out, a)?;
    put_extent(out, a)?;
    put_times(out, a)?;
    Ok(())
}

/// Attributes behind a space.
pub fn put_attr(out: &mut Vec<u8>, a: &Attr) -> Result<(), AllocError>
    ensures { OnOk result (out.new.items ≡ out.old.items ++ spaced (attr_text a.now)) }
{
    out.push(b' ')?;
    put_attr_text(out, a)?;
    Ok(())
}
