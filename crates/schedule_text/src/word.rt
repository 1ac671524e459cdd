//! Names, numbers in a range, and bytes of any number that are read.

ghost use Rattle.std.specs.Prelude.{◌≡◌, ◌≤◌, ◌<◌, ◌^◌, length, nat_eq, IfOk};
ghost use Rattle.std.specs.List.{common_prefix_len};
ghost use Rattle.std.specs.Str.{bytes_eq};
ghost use Rattle.schedule_text.specs.Fields.{Gives};
ghost use Rattle.schedule_text.specs.Words.{farther, ranged_at, all_hex_at};

use crate::fault::TextFault;
use crate::name::{is_odd_at, pairs_from};
use crate::number::{number_at, peek};
use harp_types::Bytes;
use std::alloc::Global;

/// Whether a word is this name. Names are short and known, so that going byte by byte asks for a
/// few bytes of the word alone, where it goes into its callers.
#[inline(always)]
pub fn is_name(word: &[u8], name: &[u8]) -> bool
    ensures { result ≡ bytes_eq word.now name.now }
{
    if word.len() != name.len() {
        return false;
    }
    for i in 0..name.len() {
        if word[i] != name[i] {
            return false;
        }
    }
    true
}

/// How many bytes two words have in common from their fronts on.
fn common_len(name: &[u8], word: &[u8]) -> usize
    ensures value { result ≡ common_prefix_len nat_eq name.now word.now }
    ensures within { result ≤ length word.now }
{
    for i in 0..name.len() {
        if i >= word.len() {
            return i;
        }
        if name[i] != word[i] {
            return i;
        }
    }
    name.len()
}

/// How far a word goes along with a name, where it went so far along with others.
#[tactic(auto, unfolding(crate::specs::Words::farther))]
pub fn farther(name: &[u8], word: &[u8], reached: usize) -> usize
    requires { reached ≤ length word.now }
    ensures value { result ≡ farther name.now word.now reached }
    ensures within { result ≤ length word.now }
{
    let common = common_len(name, word);
    if reached < common { common } else { reached }
}

/// A number from `least` on, which isn't 0, to `most`.
#[tactic(auto, unfolding(crate::specs::Words::ranged_at))]
pub fn ranged_at(bytes: &[u8], least: u64, most: u64, at: usize) -> Result<(u64, usize), TextFault>
    requires most { most < 10 ^ 18 }
    ensures step { Gives (λ x. x) result (ranged_at least most bytes.now at) }
    ensures bound { IfOk result (λ x. x.0 ≤ most) }
    ensures within { IfOk result (λ x. x.1 ≤ length bytes.now) }
{
    let (n, next) = number_at(bytes, 10, most, at)?;
    if least <= n {
        return Ok((n, next));
    }
    let place = if n == 0 { at } else { next };
    Err(TextFault::Grammar(place))
}

/// As many bytes as stand here in hexadecimal digits, or a dash for none.
#[tactic(auto, unfolding(crate::specs::Fields::hex_at))]
pub fn all_hex_at(alloc: Global, bytes: &[u8], at: usize) -> Result<(Bytes, usize), TextFault>
    requires { at ≤ length bytes.now }
    ensures step { Gives (λ x. x) result (all_hex_at bytes.now at) }
    ensures within { IfOk result (λ x. x.1 ≤ length bytes.now) }
{
    if peek(bytes, at) == b'-' {
        return Ok((Bytes::new(alloc), at + 1));
    }
    let (items, end) = pairs_from(alloc, bytes, bytes.len(), at)?;
    if is_odd_at(bytes, bytes.len(), items.as_slice(), end) {
        return Err(TextFault::Grammar(end + 1));
    }
    if end == at {
        return Err(TextFault::Grammar(at));
    }
    Ok((Bytes::from_vec(items), end))
}
