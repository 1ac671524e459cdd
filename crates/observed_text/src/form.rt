//! The forms of acts, and the names with which a step may begin.

ghost use Rattle.std.specs.Prelude.{◌≡◌, ◌≤◌, length, is_some};
ghost use Rattle.std.specs.Str.{bytes_eq};
ghost use Rattle.schedule_text.specs.Words.{farthest};
ghost use Rattle.schedule_text.specs.Reading.{form_named};
ghost use Rattle.observed_text.specs.Reading.{act_named, observed_names};

use schedule_text::{farther, form_named};

/// What the first word of a line tells of its act.
#[derive(Clone, Copy)]
pub enum ActForm {
    Copy,
    Want,
    Take,
    Drain,
    Peek,
}

/// The form of the act of this name.
pub fn act_named(word: &[u8]) -> Option<ActForm>
    ensures { result ≡ act_named word.now }
{
    if word == b"copy".as_slice() {
        return Some(ActForm::Copy);
    }
    if word == b"want".as_slice() {
        return Some(ActForm::Want);
    }
    if word == b"take".as_slice() {
        return Some(ActForm::Take);
    }
    if word == b"drain".as_slice() {
        return Some(ActForm::Drain);
    }
    if word == b"peek".as_slice() {
        return Some(ActForm::Peek);
    }
    None
}

/// Whether a step of a schedule has this name.
pub fn is_form_name(word: &[u8]) -> bool
    ensures { result ≡ is_some (form_named word.now) }
{
    form_named(word).is_some()
}

/// How far a word goes along with a name with which a step may begin.
pub fn far_along_names(word: &[u8]) -> usize
    ensures value { result ≡ farthest observed_names word.now 0 }
    ensures within { result ≤ length word.now }
{
    let far = farther(b"ask", word, 0);
    let far = farther(b"deliver", word, far);
    let far = farther(b"pump", word, far);
    let far = farther(b"tick", word, far);
    let far = farther(b"suspect", word, far);
    let far = farther(b"apply", word, far);
    let far = farther(b"flush", word, far);
    let far = farther(b"list", word, far);
    let far = farther(b"boot", word, far);
    let far = farther(b"power", word, far);
    let far = farther(b"crash", word, far);
    let far = farther(b"stop", word, far);
    let far = farther(b"noise", word, far);
    let far = farther(b"clock", word, far);
    let far = farther(b"advance", word, far);
    let far = farther(b"delta", word, far);
    let far = farther(b"copy", word, far);
    let far = farther(b"want", word, far);
    let far = farther(b"take", word, far);
    let far = farther(b"drain", word, far);
    farther(b"peek", word, far)
}
