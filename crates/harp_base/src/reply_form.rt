//! The forms of a reply, by their numbers.

ghost use Rattle.std.specs.Prelude.{◌≡◌, ◌≤◌, length, IfOk};
ghost use Rattle.harp_types.specs.Numbered.{value_with_number};
ghost use Rattle.harp_base.specs.Fields.{tag_at};
ghost use Rattle.harp_base.specs.Replies.{form_of, form_number, forms};

use crate::field::{Misread, byte_at};
use harp_types::Reply;

#[derive(Clone, Copy, PartialEq, Eq)]
pub(crate) enum ReplyForm {
    Refused,
    Done,
    Attr,
    Node,
    Path,
    Bytes,
    Page,
    Space,
}

impl ReplyForm {
    fn of(number: u8) -> Option<ReplyForm>
        ensures { result ≡ value_with_number form_number forms number }
    {
        match number {
            0 => Some(ReplyForm::Refused),
            1 => Some(ReplyForm::Done),
            2 => Some(ReplyForm::Attr),
            3 => Some(ReplyForm::Node),
            4 => Some(ReplyForm::Path),
            5 => Some(ReplyForm::Bytes),
            6 => Some(ReplyForm::Page),
            7 => Some(ReplyForm::Space),
            _ => None,
        }
    }
}

pub(crate) fn form_at(bytes: &[u8], at: usize) -> Result<(ReplyForm, usize), Misread>
    requires { at ≤ length bytes.now }
    ensures step { result ≡ tag_at form_number forms bytes.now at }
    ensures within { IfOk result (λ x. x.1 ≤ length bytes.now) }
{
    let (number, next) = byte_at(bytes, at)?;
    match ReplyForm::of(number) {
        Some(form) => Ok((form, next)),
        None => Err(Misread::BadTag(at)),
    }
}

pub(crate) fn form_number(reply: &Reply) -> u8
    ensures { result ≡ form_number (form_of reply.now) }
{
    match reply {
        Reply::Refused { .. } => 0,
        Reply::Done => 1,
        Reply::Attr { .. } => 2,
        Reply::Node { .. } => 3,
        Reply::Path { .. } => 4,
        Reply::Bytes { .. } => 5,
        Reply::Page { .. } => 6,
        Reply::Space { .. } => 7,
    }
}
