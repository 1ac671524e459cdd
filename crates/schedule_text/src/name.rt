//! Names and contents that are read.

ghost use Rattle.std.specs.Prelude.{◌≡◌, ◌+◌, ◌*◌, ◌<◌, ◌≤◌, [], length, slice_index, unwrap_or, None, IfOk, IsSome, IsTrue};
ghost use Rattle.schedule_text.specs.Fields.{Gives, hex_value, pair_at, pairs_from, is_odd_at, hex_at};

use crate::fault::TextFault;
use crate::number::peek;
use harp_types::Bounded;
use memchr::memchr;
use std::alloc::{AllocError, Global};

/// The value of a lower-case hexadecimal digit.
fn hex_value(b: u8) -> Option<u8>
    ensures { result ≡ hex_value b }
{
    match b {
        b'0'..=b'9' => Some(b - 48),
        b'a'..=b'f' => Some(b - 87),
        _ => None,
    }
}

/// The byte of two digits.
fn pair_at(bytes: &[u8], at: usize) -> Option<u8>
    requires { at ≤ length bytes.now }
    ensures step { result ≡ pair_at bytes.now at }
    ensures within { IsSome result → at + 2 ≤ length bytes.now }
{
    let high = hex_value(peek(bytes, at))?;
    let low = hex_value(peek(bytes, at + 1))?;
    Some(16 * high + low)
}

/// The value of a lower-case hexadecimal digit, or 255 for another byte.
fn value_or_255(b: u8) -> u8
    ensures { result ≡ unwrap_or (hex_value b) 255 }
{
    match b {
        b'0'..=b'9' => b - 48,
        b'a'..=b'f' => b - 87,
        _ => 255,
    }
}

/// Fills `items` with bytes of pairs of digits. Where a byte is no digit, which shows only at the
/// end, they say nothing: with no way out in between, many pairs are read at once.
#[tactic(auto, unfolding(crate::specs::Fields::pairs_from))]
fn fill_from(bytes: &[u8], at: usize, items: &mut [u8]) -> bool
    requires { at + 2 * length items.old ≤ length bytes.now }
    ensures { IsTrue result → pairs_from (length items.old) bytes.now at
        ≡ (items.new, at + 2 * length items.old) }
{
    let mut greatest: u8 = 0;
    for i in 0..items.len() {
        let high = value_or_255(bytes[at + 2 * i]);
        let low = value_or_255(bytes[at + 2 * i + 1]);
        items[i] = high % 16 * 16 + low % 16;
        greatest = greatest.max(high).max(low);
    }
    greatest < 16
}

/// Whether no further pair stands behind so many of them.
fn is_last(bytes: &[u8], most: usize, count: usize, end: usize) -> bool
    requires { end ≤ length bytes.now }
    ensures { IsTrue result → count < most → pair_at bytes.now end ≡ None }
{
    count >= most || pair_at(bytes, end).is_none()
}

/// Pairs of digits up to a place where none stands, over what `items` holds.
#[tactic(auto, unfolding(crate::specs::Fields::pairs_from))]
fn push_pairs(
    bytes: &[u8],
    most: usize,
    at: usize,
    items: &mut Vec<u8>,
) -> Result<usize, AllocError>
    requires at { at ≤ length bytes.now }
    requires empty { items.old.items ≡ [] }
    ensures value { IfOk result (λ end. (items.new.items, end) ≡ pairs_from most bytes.now at) }
    ensures within { IfOk result (λ end. end ≤ length bytes.now) }
    ensures bound { IfOk result (λ end. length items.new.items ≤ most) }
{
    let mut place = at;
    for _k in 0..most {
        let Some(b) = pair_at(bytes, place) else {
            return Ok(place);
        };
        items.push(b)?;
        place += 2;
    }
    Ok(place)
}

/// Pairs of digits, at most `most`, and the place after them.
pub fn pairs_from(
    alloc: Global,
    bytes: &[u8],
    most: usize,
    at: usize,
) -> Result<(Vec<u8>, usize), AllocError>
    requires { at ≤ length bytes.now }
    ensures value { IfOk result (λ x. (x.0.items, x.1) ≡ pairs_from most bytes.now at) }
    ensures within { IfOk result (λ x. x.1 ≤ length bytes.now) }
    ensures bound { IfOk result (λ x. length x.0.items ≤ most) }
{
    // There are no more pairs than what is left has room for, and mostly those of the word.
    let left = bytes.len() - at;
    let word = memchr(b' ', &bytes[at..]).unwrap_or(left);
    let room = most.min(word.min(left) / 2);
    let mut items = vec![in alloc; 0; room]?;
    let filled = fill_from(bytes, at, items.as_mut_slice());
    let end = at + 2 * room;
    if filled && is_last(bytes, most, room, end) {
        return Ok((items, end));
    }
    items.clear();
    let end = push_pairs(bytes, most, at, &mut items)?;
    Ok((items, end))
}

/// Whether one digit is left over.
pub fn is_odd_at(bytes: &[u8], most: usize, items: &[u8], at: usize) -> bool
    ensures { result ≡ is_odd_at most bytes.now (items.now, at) }
{
    items.len() < most && hex_value(peek(bytes, at)).is_some()
}

/// At most MOST bytes in hexadecimal digits, or a dash for none.
#[tactic(auto, unfolding(crate::specs::Fields::hex_at))]
pub fn hex_at<const MOST: usize>(
    alloc: Global,
    bytes: &[u8],
    at: usize,
) -> Result<(Bounded<MOST>, usize), TextFault>
    requires { at ≤ length bytes.now }
    ensures step { Gives (λ x. x) result (hex_at MOST bytes.now at) }
    ensures within { IfOk result (λ x. x.1 ≤ length bytes.now) }
{
    if peek(bytes, at) == b'-' {
        return Ok((Bounded::new(Vec::new(alloc)), at + 1));
    }
    let (items, end) = pairs_from(alloc, bytes, MOST, at)?;
    if is_odd_at(bytes, MOST, items.as_slice(), end) {
        return Err(TextFault::Grammar(end + 1));
    }
    if end == at {
        return Err(TextFault::Grammar(at));
    }
    Ok((Bounded::new(items), end))
}
