//! The forms of lines, by their names.

ghost use Rattle.std.specs.Prelude.{◌≡◌, ◌≤◌, ◌+◌, length, find, map, codes, drop, IfOk};
ghost use Rattle.std.specs.Str.{bytes_eq};
ghost use Rattle.schedule_text.specs.Fields.{Gives};
ghost use Rattle.schedule_text.specs.Words.{farthest};
ghost use Rattle.trace_text.specs.Fields.{value_named, name_at};
ghost use Rattle.trace_text.specs.Reading.{form_name, forms};

use schedule_text::{TextFault, farther, is_name, word_at};

/// What the first word of a line tells of it.
#[derive(Clone, Copy)]
pub enum LineForm {
    Event,
    Entered,
    Answered,
    Refused,
    Sent,
    State,
    Listed,
    Unlisted,
    Object,
    Slot,
    Block,
    Text,
    Bad,
    End,
}

impl LineForm {
    /// The form of this name.
    fn named(word: &[u8]) -> Option<LineForm>
        ensures { result ≡ value_named form_name forms word.now }
    {
        if is_name(word, b">") {
            return Some(LineForm::Event);
        }
        if is_name(word, b"entered") {
            return Some(LineForm::Entered);
        }
        if is_name(word, b"answered") {
            return Some(LineForm::Answered);
        }
        if is_name(word, b"refused") {
            return Some(LineForm::Refused);
        }
        if is_name(word, b"send") {
            return Some(LineForm::Sent);
        }
        if is_name(word, b"state") {
            return Some(LineForm::State);
        }
        LineForm::named_behind(word)
    }

    /// The form of this name among those behind the first six.
    fn named_behind(word: &[u8]) -> Option<LineForm>
        ensures { result ≡ value_named form_name (drop 6 forms) word.now }
    {
        if is_name(word, b"listed") {
            return Some(LineForm::Listed);
        }
        if is_name(word, b"unlisted") {
            return Some(LineForm::Unlisted);
        }
        if is_name(word, b"object") {
            return Some(LineForm::Object);
        }
        if is_name(word, b"slot") {
            return Some(LineForm::Slot);
        }
        if is_name(word, b"block") {
            return Some(LineForm::Block);
        }
        if is_name(word, b"text") {
            return Some(LineForm::Text);
        }
        if is_name(word, b"bad") {
            return Some(LineForm::Bad);
        }
        if is_name(word, b"end") {
            return Some(LineForm::End);
        }
        None
    }
}

/// How far a word goes along with the name of a form.
fn far_along(word: &[u8]) -> usize
    ensures value { result ≡ farthest (map form_name forms) word.now 0 }
    ensures within { result ≤ length word.now }
{
    let far = farther(b">", word, 0);
    let far = farther(b"entered", word, far);
    let far = farther(b"answered", word, far);
    let far = farther(b"refused", word, far);
    let far = farther(b"send", word, far);
    let far = farther(b"state", word, far);
    let far = farther(b"listed", word, far);
    let far = farther(b"unlisted", word, far);
    let far = farther(b"object", word, far);
    let far = farther(b"slot", word, far);
    let far = farther(b"block", word, far);
    let far = farther(b"text", word, far);
    let far = farther(b"bad", word, far);
    farther(b"end", word, far)
}

/// The form of a line, from its first word.
pub fn first_form(line: &[u8]) -> Result<(LineForm, usize), TextFault>
    ensures { Gives (λ x. x) result (name_at form_name forms line.now 0) }
{
    let word = word_at(line, 0);
    match LineForm::named(word) {
        None => Err(TextFault::Grammar(far_along(word))),
        Some(form) => Ok((form, word.len())),
    }
}
