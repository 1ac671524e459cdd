//! The forms of steps, and their names.

ghost use Rattle.std.specs.Prelude.{◌≡◌, ◌+◌, ◌≤◌, ◌<◌, ◌^◌, length, codes};
ghost use Rattle.std.specs.Str.{bytes_eq};
ghost use Rattle.schedule_text.specs.Words.{farthest};
ghost use Rattle.schedule_text.specs.Reading.{form_names, form_named};

use crate::word::{farther, is_name};

/// What the first word of a line tells of its step.
#[derive(Clone, Copy)]
pub enum Form {
    Ask,
    Deliver,
    Pump,
    Tick,
    Suspect,
    Apply,
    Flush,
    List,
    Boot,
    Power,
    Crash,
    Stop,
    Noise,
    Clock,
    Advance,
    Delta,
}

/// The form of the step of this name.
pub fn form_named(word: &[u8]) -> Option<Form>
    ensures { result ≡ form_named word.now }
{
    if is_name(word, b"ask") {
        return Some(Form::Ask);
    }
    if is_name(word, b"deliver") {
        return Some(Form::Deliver);
    }
    if is_name(word, b"pump") {
        return Some(Form::Pump);
    }
    if is_name(word, b"tick") {
        return Some(Form::Tick);
    }
    if is_name(word, b"suspect") {
        return Some(Form::Suspect);
    }
    if is_name(word, b"apply") {
        return Some(Form::Apply);
    }
    if is_name(word, b"flush") {
        return Some(Form::Flush);
    }
    if is_name(word, b"list") {
        return Some(Form::List);
    }
    if is_name(word, b"boot") {
        return Some(Form::Boot);
    }
    if is_name(word, b"power") {
        return Some(Form::Power);
    }
    if is_name(word, b"crash") {
        return Some(Form::Crash);
    }
    if is_name(word, b"stop") {
        return Some(Form::Stop);
    }
    if is_name(word, b"noise") {
        return Some(Form::Noise);
    }
    if is_name(word, b"clock") {
        return Some(Form::Clock);
    }
    if is_name(word, b"advance") {
        return Some(Form::Advance);
    }
    if is_name(word, b"delta") {
        return Some(Form::Delta);
    }
    None
}

/// How far a word goes along with the name of a form.
pub fn far_along_forms(word: &[u8]) -> usize
    ensures value { result ≡ farthest form_names word.now 0 }
    ensures within { result ≤ length word.now }
{
    let far = farther(b"ask", word, 0);
    let far = farther(b"deliver", word, far);
    let far = farther(b"pump", word, far);
    let far = farther(b"tick", word, far);
    let far = farther(b"suspect", word, far);
    let far = farther(b"apply", word, far);
    let far = farther(b"flush", word, far);
    let far = farther(b"list", word, far);
    let far = farther(b"boot", word, far);
    let far = farther(b"power", word, far);
    let far = farther(b"crash", word, far);
    let far = farther(b"stop", word, far);
    let far = farther(b"noise", word, far);
    let far = farther(b"clock", word, far);
    let far = farther(b"advance", word, far);
    farther(b"delta", word, far)
}
