//! The fields of SETATTR that are read.

ghost use Rattle.std.specs.Prelude.{◌≡◌, ◌==◌, ◌+◌, ◌<◌, ◌≤◌, length, slice_index, IfOk, IsTrue};
ghost use Rattle.text_spelling.specs.Text.{left, is_left_time};
ghost use Rattle.schedule_text.specs.Fields.{Gives, number_field_at, mode_field_at, time_at, time_field_at, left_time, comma_at, later_at, later_number_at, set_attr_at};

use crate::fault::TextFault;
use crate::number::{number_at, peek, u32_at};
use harp_types::{SetAttr, Time};
use text_spelling::{LEFT, is_left_time};

/// Seconds and microseconds, not both of them left.
#[tactic(auto, unfolding(crate::specs::Fields::time_at))]
fn time_at(bytes: &[u8], at: usize) -> Result<(Time, usize), TextFault>
    ensures step { Gives (λ x. x) result (time_at bytes.now at) }
    ensures within { IfOk result (λ x. x.1 ≤ length bytes.now) }
{
    let (seconds, at) = u32_at(bytes, at)?;
    if peek(bytes, at) != b':' {
        return Err(TextFault::Grammar(at));
    }
    let most = if seconds == LEFT { LEFT - 1 } else { LEFT };
    let (micros, at) = number_at(bytes, 10, u64::from(most), at + 1)?;
    Ok((
        Time {
            seconds,
            micros: micros as u32,
        },
        at,
    ))
}

/// Owner, group or size: a dash, or a number below 2^32 - 1.
#[tactic(auto, unfolding(crate::specs::Fields::number_field_at))]
fn number_field_at(bytes: &[u8], at: usize) -> Result<(u32, usize), TextFault>
    ensures step { Gives (λ x. x) result (number_field_at bytes.now at) }
    ensures within { IfOk result (λ x. x.1 ≤ length bytes.now) }
{
    if peek(bytes, at) == b'-' {
        return Ok((LEFT, at + 1));
    }
    let (n, at) = number_at(bytes, 10, 4294967294, at)?;
    Ok((n as u32, at))
}

/// A dash, or a mode in octal digits.
#[tactic(auto, unfolding(crate::specs::Fields::mode_field_at))]
fn mode_field_at(bytes: &[u8], at: usize) -> Result<(u32, usize), TextFault>
    ensures step { Gives (λ x. x) result (mode_field_at bytes.now at) }
    ensures within { IfOk result (λ x. x.1 ≤ length bytes.now) }
{
    if peek(bytes, at) == b'-' {
        return Ok((LEFT, at + 1));
    }
    let (n, at) = number_at(bytes, 8, 4095, at)?;
    Ok((n as u32, at))
}

#[tactic(auto, unfolding(crate::specs::Fields::time_field_at))]
fn time_field_at(bytes: &[u8], at: usize) -> Result<(Time, usize), TextFault>
    ensures step { Gives (λ x. x) result (time_field_at bytes.now at) }
    ensures within { IfOk result (λ x. x.1 ≤ length bytes.now) }
{
    if peek(bytes, at) == b'-' {
        return Ok((LEFT_TIME, at + 1));
    }
    time_at(bytes, at)
}

const LEFT_TIME: Time = Time {
    seconds: LEFT,
    micros: LEFT,
};

/// Whether a comma stands here, as it has to where a field is due.
fn comma_at(bytes: &[u8], due: bool, at: usize) -> Result<bool, TextFault>
    ensures step { Gives (λ x. x) result (comma_at due bytes.now at) }
    ensures within { IfOk result (λ x. IsTrue x → at < length bytes.now) }
{
    if peek(bytes, at) == b',' {
        return Ok(true);
    }
    if due {
        return Err(TextFault::Grammar(at));
    }
    Ok(false)
}

/// A number behind a comma, and whether it is left, so that a further field is due. No field where
/// none is due.
fn later_number_at(bytes: &[u8], due: bool, at: usize) -> Result<((u32, bool), usize), TextFault>
    requires { at ≤ length bytes.now }
    ensures step { Gives (λ x. x) result (later_number_at due bytes.now at) }
    ensures within { IfOk result (λ x. x.1 ≤ length bytes.now) }
{
    if comma_at(bytes, due, at)? {
        let (n, at) = number_field_at(bytes, at + 1)?;
        return Ok(((n, n == LEFT), at));
    }
    Ok(((LEFT, false), at))
}

/// The time of the last access, as a field like these.
fn later_atime_at(bytes: &[u8], due: bool, at: usize) -> Result<((Time, bool), usize), TextFault>
    requires { at ≤ length bytes.now }
    ensures step { Gives (λ x. x) result
        (later_at time_field_at is_left_time left_time due bytes.now at) }
    ensures within { IfOk result (λ x. x.1 ≤ length bytes.now) }
{
    if comma_at(bytes, due, at)? {
        let (t, at) = time_field_at(bytes, at + 1)?;
        return Ok(((t, is_left_time(&t)), at));
    }
    Ok(((LEFT_TIME, false), at))
}

/// The time of the last change, which is the last field and so no dash.
fn later_mtime_at(bytes: &[u8], due: bool, at: usize) -> Result<((Time, bool), usize), TextFault>
    requires { at ≤ length bytes.now }
    ensures step { Gives (λ x. x) result
        (later_at time_at is_left_time left_time due bytes.now at) }
    ensures within { IfOk result (λ x. x.1 ≤ length bytes.now) }
{
    if comma_at(bytes, due, at)? {
        let (t, at) = time_at(bytes, at + 1)?;
        return Ok(((t, is_left_time(&t)), at));
    }
    Ok(((LEFT_TIME, false), at))
}

/// One to six fields.
#[tactic(auto, unfolding(crate::specs::Fields::set_attr_at))]
pub fn set_attr_at(bytes: &[u8], at: usize) -> Result<(SetAttr, usize), TextFault>
    ensures step { Gives (λ x. x) result (set_attr_at bytes.now at) }
    ensures within { IfOk result (λ x. x.1 ≤ length bytes.now) }
{
    let (mode, at) = mode_field_at(bytes, at)?;
    let ((uid, due), at) = later_number_at(bytes, false, at)?;
    let ((gid, due), at) = later_number_at(bytes, due, at)?;
    let ((size, due), at) = later_number_at(bytes, due, at)?;
    let ((atime, due), at) = later_atime_at(bytes, due, at)?;
    let ((mtime, _), at) = later_mtime_at(bytes, due, at)?;
    Ok((
        SetAttr {
            mode,
            uid,
            gid,
            size,
            atime,
            mtime,
        },
        at,
    ))
}
