//! The causes of a refusal, by their names.

ghost use Rattle.std.specs.Prelude.{◌≡◌, ◌≤◌, ◌+◌, length, find, map, codes, IfOk};
ghost use Rattle.std.specs.Str.{bytes_eq};
ghost use Rattle.schedule_text.specs.Fields.{Gives};
ghost use Rattle.schedule_text.specs.Words.{farthest};
ghost use Rattle.trace_text.specs.Fields.{value_named, name_at};
ghost use Rattle.trace_text.specs.Replies.{cause_name, cause_forms};

use schedule_text::{TextFault, farther, is_name, word_at};

/// A cause without the hint that one of them has.
#[derive(Clone, Copy)]
pub enum CauseForm {
    BadClient,
    NotLeader,
    NotYetOpen,
    NoPromise,
    LogFull,
    Old,
}

impl CauseForm {
    fn named(word: &[u8]) -> Option<CauseForm>
        ensures { result ≡ value_named cause_name cause_forms word.now }
    {
        if is_name(word, b"bad-client") {
            return Some(CauseForm::BadClient);
        }
        if is_name(word, b"not-leader") {
            return Some(CauseForm::NotLeader);
        }
        if is_name(word, b"not-yet-open") {
            return Some(CauseForm::NotYetOpen);
        }
        if is_name(word, b"no-promise") {
            return Some(CauseForm::NoPromise);
        }
        if is_name(word, b"log-full") {
            return Some(CauseForm::LogFull);
        }
        if is_name(word, b"old") {
            return Some(CauseForm::Old);
        }
        None
    }
}

/// How far a word goes along with the name of a form.
fn far_along(word: &[u8]) -> usize
    ensures value { result ≡ farthest (map cause_name cause_forms) word.now 0 }
    ensures within { result ≤ length word.now }
{
    let far = farther(b"bad-client", word, 0);
    let far = farther(b"not-leader", word, far);
    let far = farther(b"not-yet-open", word, far);
    let far = farther(b"no-promise", word, far);
    let far = farther(b"log-full", word, far);
    farther(b"old", word, far)
}

pub fn form_at(line: &[u8], at: usize) -> Result<(CauseForm, usize), TextFault>
    requires { at ≤ length line.now }
    ensures step { Gives (λ x. x) result (name_at cause_name cause_forms line.now at) }
    ensures within { IfOk result (λ x. x.1 ≤ length line.now) }
{
    let word = word_at(line, at);
    match CauseForm::named(word) {
        None => Err(TextFault::Grammar(at + far_along(word))),
        Some(form) => Ok((form, at + word.len())),
    }
}
