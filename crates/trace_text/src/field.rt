//! Signs, views, and what is held.

ghost use Rattle.std.specs.Prelude.{◌≡◌, ◌≤◌, ◌<◌, ◌^◌, length, find, codes, IfOk};
ghost use Rattle.std.specs.Str.{bytes_eq};
ghost use Rattle.text_spelling.specs.Lines.{held_text};
ghost use Rattle.schedule_text.specs.Fields.{Gives, spaced_at, hex_at};
ghost use Rattle.schedule_text.specs.Words.{farthest};
ghost use Rattle.trace_text.specs.Fields.{sign_at, value_named, view_at, spaced_view_at, helds, held_at, some_hex_at};

use harp_types::{Bounded, Held, ViewNo};
use schedule_text::{
    TextFault, farther, hex_at, is_name, number_at, peek, server_at, space_at, word_at,
};
use std::alloc::Global;

/// The place after this byte, which has to stand here.
pub fn sign_at(line: &[u8], sign: u8, at: usize) -> Result<usize, TextFault>
    requires { 0 < sign }
    ensures step { Gives (λ x. x) result (sign_at sign line.now at) }
    ensures within { IfOk result (λ x. x ≤ length line.now) }
{
    if peek(line, at) == sign {
        Ok(at + 1)
    } else {
        Err(TextFault::Grammar(at))
    }
}

/// The count and the coordinator of a view.
#[tactic(auto, unfolding(crate::specs::Fields::view_at))]
fn view_at(line: &[u8], at: usize) -> Result<(ViewNo, usize), TextFault>
    ensures step { Gives (λ x. x) result (view_at line.now at) }
    ensures within { IfOk result (λ x. x.1 ≤ length line.now) }
{
    let (count, at) = number_at(line, 10, 999_999_999_999_999_999, at)?;
    let at = sign_at(line, b'.', at)?;
    let (coordinator, at) = server_at(line, at)?;
    Ok((ViewNo::new(count, coordinator), at))
}

pub fn spaced_view_at(line: &[u8], at: usize) -> Result<(ViewNo, usize), TextFault>
    ensures step { Gives (λ x. x) result (spaced_view_at line.now at) }
    ensures within { IfOk result (λ x. x.1 ≤ length line.now) }
{
    let at = space_at(line, at)?;
    view_at(line, at)
}

fn held_named(word: &[u8]) -> Option<Held>
    ensures { result ≡ value_named held_text helds word.now }
{
    if is_name(word, b"empty") {
        return Some(Held::Empty);
    }
    if is_name(word, b"held") {
        return Some(Held::Held);
    }
    if is_name(word, b"lost") {
        return Some(Held::Lost);
    }
    None
}

/// What a server has of the list of updates.
fn held_at(line: &[u8], at: usize) -> Result<(Held, usize), TextFault>
    requires { at ≤ length line.now }
    ensures step { Gives (λ x. x) result (held_at line.now at) }
    ensures within { IfOk result (λ x. x.1 ≤ length line.now) }
{
    let word = word_at(line, at);
    match held_named(word) {
        None => {
            let far = farther(b"empty", word, 0);
            let far = farther(b"held", word, far);
            let far = farther(b"lost", word, far);
            Err(TextFault::Grammar(at + far))
        }
        Some(held) => Ok((held, at + word.len())),
    }
}

pub fn spaced_held_at(line: &[u8], at: usize) -> Result<(Held, usize), TextFault>
    ensures step { Gives (λ x. x) result (spaced_at held_at line.now at) }
    ensures within { IfOk result (λ x. x.1 ≤ length line.now) }
{
    let at = space_at(line, at)?;
    held_at(line, at)
}

/// From one byte on to MOST of them, behind a space.
pub fn spaced_some_hex_at<const MOST: usize>(
    alloc: Global,
    line: &[u8],
    at: usize,
) -> Result<(Bounded<MOST>, usize), TextFault>
    ensures { Gives (λ x. x) result (spaced_at (some_hex_at MOST) line.now at) }
{
    let at = space_at(line, at)?;
    if peek(line, at) == b'-' {
        return Err(TextFault::Grammar(at));
    }
    hex_at(alloc, line, at)
}

/// At most MOST bytes, behind a space.
pub fn spaced_hex_at<const MOST: usize>(
    alloc: Global,
    line: &[u8],
    at: usize,
) -> Result<(Bounded<MOST>, usize), TextFault>
    ensures { Gives (λ x. x) result (spaced_at (hex_at MOST) line.now at) }
{
    let at = space_at(line, at)?;
    hex_at(alloc, line, at)
}
