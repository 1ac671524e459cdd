//! The pieces of a text, put at the end of what is written.

ghost use Rattle.std.specs.Prelude.{◌≡◌, ◌++◌, ◌∷◌, [], codes, decimal, OnOk};
ghost use Rattle.harp_types.specs.Server.{number_of};
ghost use Rattle.text_spelling.specs.Text.{spaced, cred_text, octal};

use crate::decimals::{DIGITS, MARKED, push_behind, push_decimal};
use harp_types::{Cred, ServerId};
use std::alloc::AllocError;
use text_spelling::is_implied;

/// A number in decimal digits.
pub fn put_decimal(out: &mut Vec<u8>, n: u64) -> Result<(), AllocError>
    ensures { OnOk result (out.new.items ≡ out.old.items ++ decimal n) }
{
    out.reserve(DIGITS)?;
    push_decimal(out, n);
    Ok(())
}

/// A number behind a mark.
pub fn put_behind(out: &mut Vec<u8>, mark: u8, n: u64) -> Result<(), AllocError>
    ensures { OnOk result (out.new.items ≡ out.old.items ++ mark ∷ decimal n) }
{
    out.reserve(MARKED)?;
    push_behind(out, mark, n);
    Ok(())
}

/// A number behind a space.
pub fn put_number(out: &mut Vec<u8>, n: u64) -> Result<(), AllocError>
    ensures { OnOk result (out.new.items ≡ out.old.items ++ spaced (decimal n)) }
{
    put_behind(out, b' ', n)
}

/// A server's number behind a space.
#[inline(always)]
pub fn put_server(out: &mut Vec<u8>, server: ServerId) -> Result<(), AllocError>
    ensures { OnOk result (out.new.items ≡ out.old.items ++ spaced (decimal (number_of server))) }
{
    put_number(out, u64::from(server.number()))
}

/// A word, and a number behind it.
#[inline(always)]
pub fn put_named(out: &mut Vec<u8>, word: &[u8], n: u64) -> Result<(), AllocError>
    ensures { OnOk result (out.new.items ≡ out.old.items ++ word.now ++ spaced (decimal n)) }
{
    out.extend_from_slice(word)?;
    put_number(out, n)
}

/// A word, and a server behind it.
#[inline(always)]
pub fn put_at(out: &mut Vec<u8>, word: &[u8], server: ServerId) -> Result<(), AllocError>
    ensures { OnOk result (out.new.items ≡ out.old.items
        ++ word.now ++ spaced (decimal (number_of server))) }
{
    out.extend_from_slice(word)?;
    put_server(out, server)
}

/// Three numbers.
pub fn put_three(out: &mut Vec<u8>, first: u64, second: u64, third: u64) -> Result<(), AllocError>
    ensures { OnOk result (out.new.items ≡ out.old.items
        ++ spaced (decimal first) ++ spaced (decimal second) ++ spaced (decimal third)) }
{
    out.reserve(3 * MARKED)?;
    push_behind(out, b' ', first);
    push_behind(out, b' ', second);
    push_behind(out, b' ', third);
    Ok(())
}

/// A word, and behind it a server, a client and a number of it.
#[inline(always)]
pub fn put_client(
    out: &mut Vec<u8>,
    word: &[u8],
    server: ServerId,
    client: u32,
    number: u64,
) -> Result<(), AllocError>
    ensures { OnOk result (out.new.items ≡ out.old.items ++ word.now
        ++ spaced (decimal (number_of server)) ++ spaced (decimal client)
        ++ spaced (decimal number)) }
{
    out.extend_from_slice(word)?;
    put_three(out, u64::from(server.number()), u64::from(client), number)
}

/// A number in octal digits, the last one behind those of an eighth of it.
#[tactic(auto, using(crate::proofs::Octal::octal_digit, crate::proofs::Octal::octal_step))]
pub fn put_octal(out: &mut Vec<u8>, n: u32) -> Result<(), AllocError>
    ensures { OnOk result (out.new.items ≡ out.old.items ++ octal n) }
{
    if n < 8 {
        return Ok(out.push(b'0' + n as u8)?);
    }
    put_octal(out, n / 8)?;
    Ok(out.push(b'0' + (n % 8) as u8)?)
}

/// The user and the group behind `as`, where a call has to tell them.
#[tactic(auto, unfolding(text_spelling::specs::Text::cred_text))]
pub fn put_cred(out: &mut Vec<u8>, cred: Cred) -> Result<(), AllocError>
    ensures { OnOk result (out.new.items ≡ out.old.items ++ cred_text cred) }
{
    if is_implied(cred) {
        return Ok(());
    }
    out.extend_from_slice(b" as")?;
    put_number(out, u64::from(cred.uid))?;
    put_number(out, u64::from(cred.gid))?;
    Ok(())
}
