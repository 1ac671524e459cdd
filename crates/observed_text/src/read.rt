//! Calls that read, which an observer answers.

ghost use Rattle.std.specs.Prelude.{◌≡◌, ◌+◌, ◌≤◌, length, true, Ok};
ghost use Rattle.std.specs.Str.{bytes_eq};
ghost use Rattle.schedule_text.specs.Fields.{Gives, space_at, spaced_at, word_at};
ghost use Rattle.schedule_text.specs.Words.{farthest};
ghost use Rattle.observed_text.specs.Reading.{is_read_name, read_at, read_names};

use harp_types::{Call, Cred};
use schedule_text::{TextFault, asked_at, farther, space_at, word_at};
use std::alloc::Global;

/// Whether a procedure that reads has this name.
fn is_read_name(word: &[u8]) -> bool
    ensures { result ≡ is_read_name word.now }
{
    word == b"null".as_slice()
        || word == b"getattr".as_slice()
        || word == b"lookup".as_slice()
        || word == b"readlink".as_slice()
        || word == b"read".as_slice()
        || word == b"readdir".as_slice()
        || word == b"statfs".as_slice()
}

/// How far a word goes along with the name of a procedure that reads.
fn far_along_reads(word: &[u8]) -> usize
    ensures value { result ≡ farthest read_names word.now 0 }
    ensures within { result ≤ length word.now }
{
    let far = farther(b"null", word, 0);
    let far = farther(b"getattr", word, far);
    let far = farther(b"lookup", word, far);
    let far = farther(b"readlink", word, far);
    let far = farther(b"read", word, far);
    let far = farther(b"readdir", word, far);
    farther(b"statfs", word, far)
}

/// A call behind a space, which an ask reads too, where its name is that of one that reads.
fn named_at(
    alloc: Global,
    line: &[u8],
    at: usize,
    from: usize,
) -> Result<((Cred, Call), usize), TextFault>
    requires at { at ≤ length line.now }
    requires space { space_at line.now at ≡ Ok from }
    requires named { is_read_name (word_at line.now from) ≡ true }
    ensures { Gives (λ x. (x.0.1, x.1)) result (spaced_at read_at line.now at) }
{
    asked_at(alloc, line, at)
}

/// A call that reads, behind a space.
#[tactic(auto, unfolding(crate::specs::Reading::read_at))]
pub fn spaced_read_at(alloc: Global, line: &[u8], at: usize) -> Result<(Call, usize), TextFault>
    requires { at ≤ length line.now }
    ensures { Gives (λ x. x) result (spaced_at read_at line.now at) }
{
    let from = space_at(line, at)?;
    let word = word_at(line, from);
    if !is_read_name(word) {
        return Err(TextFault::Grammar(from + far_along_reads(word)));
    }
    let ((_, call), next) = named_at(alloc, line, at, from)?;
    Ok((call, next))
}
