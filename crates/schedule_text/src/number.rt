//! Separators, words and numbers that are read.

ghost use Rattle.std.specs.Prelude.{◌≡◌, ◌+◌, ◌<◌, ◌≤◌, ◌^◌, length, drop, slice_index, IfOk, IfSome};
ghost use Rattle.std.specs.List.{prefix_len, take_while};
ghost use Rattle.schedule_text.specs.Fields.{Gives, space_at, not_space, word_at, longer, number_from, number_at, u32_at, count_at, server_of, server_at};

use crate::fault::TextFault;
use harp_types::ServerId;

/// The byte at a place, or 0 past the end.
pub fn peek(bytes: &[u8], at: usize) -> u8
    ensures value { result ≡ slice_index bytes.now at }
{
    if at < bytes.len() { bytes[at] } else { 0 }
}

/// The place after the space that has to stand here.
pub fn space_at(bytes: &[u8], at: usize) -> Result<usize, TextFault>
    ensures step { Gives (λ x. x) result (space_at bytes.now at) }
    ensures within { IfOk result (λ x. x ≤ length bytes.now) }
{
    if peek(bytes, at) == b' ' {
        Ok(at + 1)
    } else {
        Err(TextFault::Grammar(at))
    }
}

/// How many bytes stand up to a space or the end.
fn word_len(bytes: &[u8]) -> usize
    ensures value { result ≡ prefix_len not_space bytes.now }
    ensures within { result ≤ length bytes.now }
{
    for (i, b) in bytes.iter().enumerate() {
        if *b == b' ' {
            return i;
        }
    }
    bytes.len()
}

fn first_word(bytes: &[u8]) -> &[u8]
    ensures value { result.now ≡ take_while not_space bytes.now }
    ensures within { length result.now ≤ length bytes.now }
{
    let count = word_len(bytes);
    &bytes[..count]
}

/// The bytes from a place on, up to a space or the end.
pub fn word_at(bytes: &[u8], at: usize) -> &[u8]
    requires { at ≤ length bytes.now }
    ensures value { result.now ≡ word_at bytes.now at }
    ensures within { at + length result.now ≤ length bytes.now }
{
    first_word(&bytes[at..])
}

/// The number with one more digit, where it stays within most.
fn longer(base: u64, most: u64, n: u64, b: u8) -> Option<u64>
    requires base { base ≤ 10 }
    requires most { most < 10 ^ 18 }
    requires within { n ≤ most }
    ensures value { result ≡ longer base most n b }
    ensures bound { IfSome result (λ m. m ≤ most) }
{
    let digit = u64::from(b);
    if digit < 48 || digit >= 48 + base {
        return None;
    }
    let m = n * base + (digit - 48);
    if m <= most { Some(m) } else { None }
}

/// Digits while the number stays within most.
#[tactic(auto, unfolding(crate::specs::Fields::number_from))]
fn number_from(bytes: &[u8], base: u64, most: u64, first: u64, at: usize) -> (u64, usize)
    requires base { base ≤ 10 }
    requires most { most < 10 ^ 18 }
    requires within { first ≤ most }
    requires place { at ≤ length bytes.now }
    ensures value { result ≡ number_from base most (drop at bytes.now) first at }
    ensures bound { result.0 ≤ most }
    ensures inside { result.1 ≤ length bytes.now }
{
    let mut n = first;
    for i in at..bytes.len() {
        let Some(m) = longer(base, most, n, bytes[i]) else {
            return (n, i);
        };
        n = m;
    }
    (n, bytes.len())
}

/// A number without a leading zero, at most `most`.
#[tactic(auto, unfolding(crate::specs::Fields::number_at))]
pub fn number_at(bytes: &[u8], base: u64, most: u64, at: usize) -> Result<(u64, usize), TextFault>
    requires base { base ≤ 10 }
    requires most { most < 10 ^ 18 }
    ensures step { Gives (λ x. x) result (number_at base most bytes.now at) }
    ensures bound { IfOk result (λ x. x.0 ≤ most) }
    ensures within { IfOk result (λ x. x.1 ≤ length bytes.now) }
{
    let first = peek(bytes, at);
    if first == b'0' {
        return Ok((0, at + 1));
    }
    match longer(base, most, 0, first) {
        None => Err(TextFault::Grammar(at)),
        Some(n) => Ok(number_from(bytes, base, most, n, at + 1)),
    }
}

/// A number below 2^32.
pub fn u32_at(bytes: &[u8], at: usize) -> Result<(u32, usize), TextFault>
    ensures step { Gives (λ x. x) result (u32_at bytes.now at) }
    ensures within { IfOk result (λ x. x.1 ≤ length bytes.now) }
{
    let (n, at) = number_at(bytes, 10, 4294967295, at)?;
    Ok((n as u32, at))
}

/// A number of at most 18 digits.
pub fn count_at(bytes: &[u8], at: usize) -> Result<(u64, usize), TextFault>
    ensures step { Gives (λ x. x) result (count_at bytes.now at) }
    ensures within { IfOk result (λ x. x.1 ≤ length bytes.now) }
{
    number_at(bytes, 10, 999999999999999999, at)
}

fn server_of(b: u8) -> Option<ServerId>
    ensures { result ≡ server_of b }
{
    match b {
        b'0' => Some(ServerId::Zero),
        b'1' => Some(ServerId::One),
        b'2' => Some(ServerId::Two),
        _ => None,
    }
}

pub fn server_at(bytes: &[u8], at: usize) -> Result<(ServerId, usize), TextFault>
    ensures step { Gives (λ x. x) result (server_at bytes.now at) }
    ensures within { IfOk result (λ x. x.1 ≤ length bytes.now) }
{
    match server_of(peek(bytes, at)) {
        None => Err(TextFault::Grammar(at)),
        Some(server) => Ok((server, at + 1)),
    }
}
