//! Picks that are read.

ghost use Rattle.std.specs.Prelude.{◌≡◌, ◌+◌, ◌≤◌, length, codes, IfOk};
ghost use Rattle.std.specs.Str.{bytes_eq};
ghost use Rattle.schedule_text.specs.Fields.{Gives};
ghost use Rattle.schedule_text.specs.Reading.{bit_of, bits_from, pick_named, pick_at, spaced_pick_at};

use crate::fault::TextFault;
use crate::number::{peek, space_at, word_at};
use crate::word::{farther, is_name};
use std::alloc::{AllocError, Global};
use trace_types::{Bits, Pick};

fn bit_of(b: u8) -> Option<bool>
    ensures { result ≡ bit_of b }
{
    match b {
        b'0' => Some(false),
        b'1' => Some(true),
        _ => None,
    }
}

/// Up to 64 bits, and the place after them.
#[tactic(auto, unfolding(crate::specs::Reading::bits_from))]
fn bits_from(alloc: Global, line: &[u8], at: usize) -> Result<(Vec<bool>, usize), AllocError>
    requires { at ≤ length line.now }
    ensures value { IfOk result (λ x. (x.0.items, x.1) ≡ bits_from 64 line.now at) }
    ensures within { IfOk result (λ x. x.1 ≤ length line.now) }
    ensures bound { IfOk result (λ x. length x.0.items ≤ 64) }
    ensures counted { IfOk result (λ x. x.1 ≡ at + length x.0.items) }
{
    let mut items = Vec::new(alloc);
    let mut place = at;
    for _k in 0..64usize {
        let Some(bit) = bit_of(peek(line, place)) else {
            return Ok((items, place));
        };
        items.push(bit)?;
        place += 1;
    }
    Ok((items, place))
}

fn pick_named(word: &[u8]) -> Option<Pick>
    ensures { result ≡ pick_named word.now }
{
    if is_name(word, b"all") {
        return Some(Pick::All);
    }
    if is_name(word, b"none") {
        return Some(Pick::None);
    }
    None
}

/// A word, or 1 to 64 bits.
#[tactic(auto, unfolding(crate::specs::Reading::pick_at))]
fn pick_at(alloc: Global, line: &[u8], at: usize) -> Result<(Pick, usize), TextFault>
    requires { at ≤ length line.now }
    ensures { Gives (λ x. x) result (pick_at line.now at) }
{
    let (items, end) = bits_from(alloc, line, at)?;
    if end != at {
        let Some(bits) = Bits::of(items) else {
            return Err(TextFault::Grammar(at));
        };
        return Ok((Pick::Bits(bits), end));
    }
    let word = word_at(line, at);
    match pick_named(word) {
        None => {
            let far = farther(b"none", word, farther(b"all", word, 0));
            Err(TextFault::Grammar(at + far))
        }
        Some(pick) => Ok((pick, at + word.len())),
    }
}

/// A pick behind a space.
pub fn spaced_pick_at(alloc: Global, line: &[u8], at: usize) -> Result<(Pick, usize), TextFault>
    ensures { Gives (λ x. x) result (spaced_pick_at line.now at) }
{
    let at = space_at(line, at)?;
    pick_at(alloc, line, at)
}
