//! Words, and bytes behind their length, read from a place on and written (RFC 1014).

ghost use Rattle.std.specs.Prelude.{◌≡◌, ◌≤◌, ◌<◌, ◌^◌, ◌++◌, length, IfOk, OnOk};
ghost use Rattle.harp_base.specs.Fields.{Gives, field_as};
ghost use Rattle.rpc_door.specs.Xdr.{handle_at, handle_bytes, object_of, opaque_at, opaque_bytes, padding, words, zeros};

use harp_base::Misread;
use harp_base::fields::{put_u32, u32_at};
use harp_types::Bounded;
use std::alloc::{AllocError, Global};

/// The bytes of a file handle (FHSIZE, RFC 1094, section 2.3).
const HANDLE: usize = 32;

/// What stands behind the number in a handle.
const HANDLE_END: [u8; 28] = [0; 28];

/// How many bytes are missing up to a multiple of 4.
fn padding(count: usize) -> usize
    ensures value { result ≡ padding count }
    ensures few { result < 4 }
{
    (4 - count % 4) % 4
}

/// Bytes behind their length, at most MOST, and the place after what fills them up.
#[tactic(auto, unfolding(crate::specs::Xdr::opaque_at))]
pub fn opaque_at<const MOST: usize>(
    alloc: Global,
    bytes: &[u8],
    at: usize,
) -> Result<(Bounded<MOST>, usize), Misread>
    requires { at ≤ length bytes.now }
    ensures step { Gives result (opaque_at MOST bytes.now at) }
    ensures within { IfOk result (λ x. x.1 ≤ length bytes.now) }
{
    let (count, from) = u32_at(bytes, at)?;
    let count = count as usize;
    if count > MOST {
        return Err(Misread::TooLong(at));
    }
    let rest = &bytes[from..];
    let filled = count + padding(count);
    if rest.len() < filled {
        return Err(Misread::Ends {
            from: at,
            to: from + filled,
        });
    }
    let items = Vec::from_slice(alloc, &rest[..count])?;
    Ok((Bounded::new(items), from + filled))
}

/// Goes past bytes behind their length, at most so many, and what fills them up.
#[tactic(auto, unfolding(crate::specs::Xdr::opaque_at))]
pub fn past_opaque(bytes: &[u8], at: usize, most: u32) -> Result<((), usize), Misread>
    requires { at ≤ length bytes.now }
    ensures step { result ≡ field_as (λ _. tt) (opaque_at most) bytes.now at }
    ensures within { IfOk result (λ x. x.1 ≤ length bytes.now) }
{
    let (count, from) = u32_at(bytes, at)?;
    if count > most {
        return Err(Misread::TooLong(at));
    }
    let count = count as usize;
    let filled = count + padding(count);
    if bytes[from..].len() < filled {
        return Err(Misread::Ends {
            from: at,
            to: from + filled,
        });
    }
    Ok(((), from + filled))
}

/// The object that a handle of 32 bytes names.
fn object_of(handle: &[u8]) -> u32
    requires { length handle.now ≡ 32 }
    ensures { result ≡ object_of handle.now }
{
    let end = &handle[4..];
    if end == HANDLE_END.as_slice() {
        u32::from_be_bytes([handle[0], handle[1], handle[2], handle[3]])
    } else {
        0
    }
}

/// The object that a handle names, 0 for none, and the place after it.
#[tactic(auto, unfolding(crate::specs::Xdr::handle_at))]
pub fn handle_at(bytes: &[u8], at: usize) -> Result<(u32, usize), Misread>
    requires { at ≤ length bytes.now }
    ensures step { result ≡ handle_at bytes.now at }
    ensures within { IfOk result (λ x. x.1 ≤ length bytes.now) }
{
    let rest = &bytes[at..];
    if rest.len() < HANDLE {
        return Err(Misread::Ends {
            from: at,
            to: at + HANDLE,
        });
    }
    Ok((object_of(&rest[..HANDLE]), at + HANDLE))
}

/// So many zeros, fewer than 4.
fn filling(count: usize) -> &'static [u8]
    requires { count < 4 }
    ensures { result.now ≡ zeros count }
{
    match count {
        0 => b"",
        1 => b"\0",
        2 => b"\0\0",
        3 => b"\0\0\0",
        _ => unreachable!(),
    }
}

/// Appends the handle of an object.
#[tactic(auto, unfolding(crate::specs::Xdr::handle_bytes))]
pub fn put_handle(out: &mut Vec<u8>, object: u32) -> Result<(), AllocError>
    ensures { OnOk result (out.new.items ≡ out.old.items ++ handle_bytes object) }
{
    put_u32(out, object)?;
    out.extend_from_slice(&HANDLE_END)
}

/// Appends bytes behind their length, filled up with zeros.
#[tactic(auto, unfolding(crate::specs::Xdr::opaque_bytes))]
pub fn put_opaque(out: &mut Vec<u8>, bytes: &[u8]) -> Result<(), AllocError>
    requires { length bytes.now < 2 ^ 32 }
    ensures { OnOk result (out.new.items ≡ out.old.items ++ opaque_bytes bytes.now) }
{
    put_u32(out, bytes.len() as u32)?;
    out.extend_from_slice(bytes)?;
    out.extend_from_slice(filling(padding(bytes.len())))
}

/// Appends words.
pub fn put_words(out: &mut Vec<u8>, numbers: &[u32]) -> Result<(), AllocError>
    ensures { OnOk result (out.new.items ≡ out.old.items ++ words numbers.now) }
{
    for number in numbers {
        put_u32(out, *number)?;
    }
    Ok(())
}
