//! The forms of messages, by their names.

ghost use Rattle.std.specs.Prelude.{◌≡◌, ◌≤◌, ◌+◌, length, find, map, codes, IfOk};
ghost use Rattle.std.specs.Str.{bytes_eq};
ghost use Rattle.schedule_text.specs.Fields.{Gives};
ghost use Rattle.schedule_text.specs.Words.{farthest};
ghost use Rattle.trace_text.specs.Fields.{value_named, name_at};
ghost use Rattle.trace_text.specs.Messages.{message_name, message_forms};

use schedule_text::{TextFault, farther, is_name, word_at};

/// What the first word of a message tells of it.
#[derive(Clone, Copy)]
pub enum MessageForm {
    Invite,
    Join,
    Form,
    Fetch,
    Give,
    Formed,
    Event,
    Beat,
    Ack,
    Demote,
}

impl MessageForm {
    fn named(word: &[u8]) -> Option<MessageForm>
        ensures { result ≡ value_named message_name message_forms word.now }
    {
        if is_name(word, b"invite") {
            return Some(MessageForm::Invite);
        }
        if is_name(word, b"join") {
            return Some(MessageForm::Join);
        }
        if is_name(word, b"form") {
            return Some(MessageForm::Form);
        }
        if is_name(word, b"fetch") {
            return Some(MessageForm::Fetch);
        }
        if is_name(word, b"give") {
            return Some(MessageForm::Give);
        }
        if is_name(word, b"formed") {
            return Some(MessageForm::Formed);
        }
        if is_name(word, b"event") {
            return Some(MessageForm::Event);
        }
        if is_name(word, b"beat") {
            return Some(MessageForm::Beat);
        }
        if is_name(word, b"ack") {
            return Some(MessageForm::Ack);
        }
        if is_name(word, b"demote") {
            return Some(MessageForm::Demote);
        }
        None
    }
}

/// How far a word goes along with the name of a form.
fn far_along(word: &[u8]) -> usize
    ensures value { result ≡ farthest (map message_name message_forms) word.now 0 }
    ensures within { result ≤ length word.now }
{
    let far = farther(b"invite", word, 0);
    let far = farther(b"join", word, far);
    let far = farther(b"form", word, far);
    let far = farther(b"fetch", word, far);
    let far = farther(b"give", word, far);
    let far = farther(b"formed", word, far);
    let far = farther(b"event", word, far);
    let far = farther(b"beat", word, far);
    let far = farther(b"ack", word, far);
    farther(b"demote", word, far)
}

pub fn form_at(line: &[u8], at: usize) -> Result<(MessageForm, usize), TextFault>
    requires { at ≤ length line.now }
    ensures step { Gives (λ x. x) result (name_at message_name message_forms line.now at) }
    ensures within { IfOk result (λ x. x.1 ≤ length line.now) }
{
    let word = word_at(line, at);
    match MessageForm::named(word) {
        None => Err(TextFault::Grammar(at + far_along(word))),
        Some(form) => Ok((form, at + word.len())),
    }
}
