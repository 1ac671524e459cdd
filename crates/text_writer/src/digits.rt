//! Bytes in hexadecimal digits, put at the end of what is written.

ghost use Rattle.std.specs.Prelude.{◌≡◌, ◌++◌, ◌*◌, ◌<◌, ◌≤◌, length, slice_index, IfOk, OnOk};
ghost use Rattle.hex.specs.Hex.{encode_lower, lower_digits};
ghost use Rattle.text_spelling.specs.Text.{spaced, hex_text};

use std::alloc::{AllocError, Global};

/// The digit of a value below 16.
#[tactic(auto, using(crate::proofs::Hex::glyph_at))]
fn digit(value: u8) -> u8
    requires { value < 16 }
    ensures { result ≡ slice_index lower_digits value }
{
    let beyond = if value > 9 { 39 } else { 0 };
    48 + value + beyond
}

/// Two digits over each place of a byte.
fn write_hex(bytes: &[u8], digits: &mut [u8])
    requires { length digits.old ≡ 2 * length bytes.now }
    ensures { digits.new ≡ encode_lower bytes.now }
{
    for i in 0..bytes.len() {
        let byte = bytes[i];
        digits[2 * i] = digit(byte / 16);
        digits[2 * i + 1] = digit(byte % 16);
    }
}

/// Two digits for each byte of a group. They are made apart, since many are made at once there.
#[inline(always)]
fn put_group<const N: usize>(out: &mut Vec<u8>, group: &[u8; N]) -> Result<(), AllocError>
    requires { N ≤ 32 }
    ensures { OnOk result (out.new.items ≡ out.old.items ++ encode_lower group.now) }
{
    let mut digits = [0; 64];
    write_hex(group, &mut digits[..2 * N]);
    out.extend_from_slice(&digits[..2 * N])
}

/// The digits of the groups of N bytes, from the first one on. The bytes behind the last group are
/// given.
fn put_groups<'a, const N: usize>(
    out: &mut Vec<u8>,
    bytes: &'a [u8],
) -> Result<&'a [u8], AllocError>
    requires { (0 < N) × (N ≤ 32) }
    ensures { IfOk result (λ rest. (length rest.now < N)
        × (out.new.items ++ encode_lower rest.now ≡ out.old.items ++ encode_lower bytes.now)) }
{
    let mut rest = bytes;
    while let Some((group, behind)) = rest.split_first_chunk::<N>() {
        put_group(out, group)?;
        rest = behind;
    }
    Ok(rest)
}

/// Two digits for each byte, or a dash for none.
#[tactic(auto, unfolding(text_spelling::specs::Text::hex_text))]
pub fn put_hex(alloc: Global, out: &mut Vec<u8>, bytes: &[u8]) -> Result<(), AllocError>
    ensures { OnOk result (out.new.items ≡ out.old.items ++ hex_text bytes.now) }
{
    if bytes.is_empty() {
        return Ok(out.push(b'-')?);
    }
    let rest = put_groups::<32>(out, bytes)?;
    let rest = put_groups::<8>(out, rest)?;
    let _none = put_groups::<1>(out, rest)?;
    Ok(())
}

/// Bytes in hexadecimal digits behind a space.
pub fn put_name(alloc: Global, out: &mut Vec<u8>, bytes: &[u8]) -> Result<(), AllocError>
    ensures { OnOk result (out.new.items ≡ out.old.items ++ spaced (hex_text bytes.now)) }
{
    out.push(b' ')?;
    put_hex(alloc, out, bytes)?;
    Ok(())
}
