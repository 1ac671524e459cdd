//! The forms of a reply, the statuses and the ends of pages, by their names.

ghost use Rattle.std.specs.Prelude.{◌≡◌, ◌≤◌, ◌+◌, length, find, map, codes, drop, IfOk};
ghost use Rattle.std.specs.Str.{bytes_eq};
ghost use Rattle.harp_types.specs.Statuses.{statuses};
ghost use Rattle.text_spelling.specs.Text.{page_end};
ghost use Rattle.schedule_text.specs.Fields.{Gives};
ghost use Rattle.schedule_text.specs.Words.{farthest};
ghost use Rattle.trace_text.specs.Fields.{value_named, name_at};
ghost use Rattle.trace_text.specs.Replies.{status_word, status_at, page_ends, page_end_at, reply_name, reply_forms};

use harp_types::Status;
use schedule_text::{TextFault, farther, is_name, word_at};

/// What the first word of a reply tells of it.
#[derive(Clone, Copy)]
pub enum ReplyForm {
    Refused,
    Done,
    Attr,
    Node,
    Path,
    Bytes,
    Page,
    Space,
}

impl ReplyForm {
    fn named(word: &[u8]) -> Option<ReplyForm>
        ensures { result ≡ value_named reply_name reply_forms word.now }
    {
        if is_name(word, b"no") {
            return Some(ReplyForm::Refused);
        }
        if is_name(word, b"done") {
            return Some(ReplyForm::Done);
        }
        if is_name(word, b"attr") {
            return Some(ReplyForm::Attr);
        }
        if is_name(word, b"node") {
            return Some(ReplyForm::Node);
        }
        if is_name(word, b"path") {
            return Some(ReplyForm::Path);
        }
        if is_name(word, b"data") {
            return Some(ReplyForm::Bytes);
        }
        if is_name(word, b"dir") {
            return Some(ReplyForm::Page);
        }
        if is_name(word, b"fs") {
            return Some(ReplyForm::Space);
        }
        None
    }
}

/// How far a word goes along with the name of a form.
fn far_along(word: &[u8]) -> usize
    ensures value { result ≡ farthest (map reply_name reply_forms) word.now 0 }
    ensures within { result ≤ length word.now }
{
    let far = farther(b"no", word, 0);
    let far = farther(b"done", word, far);
    let far = farther(b"attr", word, far);
    let far = farther(b"node", word, far);
    let far = farther(b"path", word, far);
    let far = farther(b"data", word, far);
    let far = farther(b"dir", word, far);
    farther(b"fs", word, far)
}

pub fn form_at(line: &[u8], at: usize) -> Result<(ReplyForm, usize), TextFault>
    requires { at ≤ length line.now }
    ensures step { Gives (λ x. x) result (name_at reply_name reply_forms line.now at) }
    ensures within { IfOk result (λ x. x.1 ≤ length line.now) }
{
    let word = word_at(line, at);
    match ReplyForm::named(word) {
        None => Err(TextFault::Grammar(at + far_along(word))),
        Some(form) => Ok((form, at + word.len())),
    }
}

/// The status of this number.
fn status_named(word: &[u8]) -> Option<Status>
    ensures { result ≡ value_named status_word statuses word.now }
{
    if is_name(word, b"1") {
        return Some(Status::Perm);
    }
    if is_name(word, b"2") {
        return Some(Status::NoEnt);
    }
    if is_name(word, b"5") {
        return Some(Status::Io);
    }
    if is_name(word, b"6") {
        return Some(Status::NxIo);
    }
    if is_name(word, b"13") {
        return Some(Status::Acces);
    }
    if is_name(word, b"17") {
        return Some(Status::Exist);
    }
    status_named_behind(word)
}

/// The status of this number among those behind the first six.
fn status_named_behind(word: &[u8]) -> Option<Status>
    ensures { result ≡ value_named status_word (drop 6 statuses) word.now }
{
    if is_name(word, b"20") {
        return Some(Status::NotDir);
    }
    if is_name(word, b"21") {
        return Some(Status::IsDir);
    }
    if is_name(word, b"27") {
        return Some(Status::FBig);
    }
    if is_name(word, b"28") {
        return Some(Status::NoSpc);
    }
    if is_name(word, b"63") {
        return Some(Status::NameTooLong);
    }
    if is_name(word, b"66") {
        return Some(Status::NotEmpty);
    }
    if is_name(word, b"70") {
        return Some(Status::Stale);
    }
    None
}

/// How far a word goes along with the number of a status.
fn far_along_statuses(word: &[u8]) -> usize
    ensures value { result ≡ farthest (map status_word statuses) word.now 0 }
    ensures within { result ≤ length word.now }
{
    let far = farther(b"1", word, 0);
    let far = farther(b"2", word, far);
    let far = farther(b"5", word, far);
    let far = farther(b"6", word, far);
    let far = farther(b"13", word, far);
    let far = farther(b"17", word, far);
    let far = farther(b"20", word, far);
    let far = farther(b"21", word, far);
    let far = farther(b"27", word, far);
    let far = farther(b"28", word, far);
    let far = farther(b"63", word, far);
    let far = farther(b"66", word, far);
    farther(b"70", word, far)
}

/// The number of a status.
pub fn status_at(line: &[u8], at: usize) -> Result<(Status, usize), TextFault>
    requires { at ≤ length line.now }
    ensures { Gives (λ x. x) result (status_at line.now at) }
{
    let word = word_at(line, at);
    match status_named(word) {
        None => Err(TextFault::Grammar(at + far_along_statuses(word))),
        Some(status) => Ok((status, at + word.len())),
    }
}

fn page_end_named(word: &[u8]) -> Option<bool>
    ensures { result ≡ value_named page_end page_ends word.now }
{
    if is_name(word, b"eof") {
        return Some(true);
    }
    if is_name(word, b"more") {
        return Some(false);
    }
    None
}

/// Whether a page is the last one.
pub fn page_end_at(line: &[u8], at: usize) -> Result<(bool, usize), TextFault>
    requires { at ≤ length line.now }
    ensures { Gives (λ x. x) result (page_end_at line.now at) }
{
    let word = word_at(line, at);
    match page_end_named(word) {
        None => {
            let far = farther(b"more", word, farther(b"eof", word, 0));
            Err(TextFault::Grammar(at + far))
        }
        Some(eof) => Ok((eof, at + word.len())),
    }
}
