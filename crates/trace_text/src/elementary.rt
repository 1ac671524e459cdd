//! Steps of event lines that are read: all but the pump, whose deliveries a trace has.

ghost use Rattle.std.specs.Prelude.{◌≡◌, ◌≤◌, ◌+◌, length, codes, IfOk};
ghost use Rattle.std.specs.Str.{bytes_eq};
ghost use Rattle.schedule_text.specs.Fields.{Gives, spaced_at};
ghost use Rattle.schedule_text.specs.Words.{farthest};
ghost use Rattle.trace_text.specs.Reading.{elementary_names, elementary_named, elementary_at};

use schedule_text::{Form, TextFault, farther, form_at, form_named, is_name, space_at, word_at};
use std::alloc::Global;
use trace_types::Step;

/// The form of the step of this name, but for the pump.
fn elementary_named(word: &[u8]) -> Option<Form>
    ensures { result ≡ elementary_named word.now }
{
    if is_name(word, b"pump") {
        return None;
    }
    form_named(word)
}

/// How far a word goes along with the name of a form.
fn far_along(word: &[u8]) -> usize
    ensures value { result ≡ farthest elementary_names word.now 0 }
    ensures within { result ≤ length word.now }
{
    let far = farther(b"ask", word, 0);
    let far = farther(b"deliver", word, far);
    let far = farther(b"tick", word, far);
    let far = farther(b"suspect", word, far);
    let far = farther(b"apply", word, far);
    let far = farther(b"flush", word, far);
    let far = farther(b"list", word, far);
    let far = farther(b"boot", word, far);
    let far = farther(b"power", word, far);
    let far = farther(b"crash", word, far);
    let far = farther(b"stop", word, far);
    let far = farther(b"noise", word, far);
    let far = farther(b"clock", word, far);
    let far = farther(b"advance", word, far);
    farther(b"delta", word, far)
}

/// A step behind a space.
#[tactic(auto, unfolding(crate::specs::Reading::elementary_at))]
pub fn spaced_elementary_at(
    alloc: Global,
    line: &[u8],
    at: usize,
) -> Result<(Step, usize), TextFault>
    ensures { Gives (λ x. x) result (spaced_at elementary_at line.now at) }
{
    let at = space_at(line, at)?;
    let word = word_at(line, at);
    match elementary_named(word) {
        None => Err(TextFault::Grammar(at + far_along(word))),
        Some(form) => form_at(alloc, form, line, at + word.len()),
    }
}
