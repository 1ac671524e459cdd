//! The forms of messages and the reasons of refusals, by their numbers in bytes.

ghost use Rattle.std.specs.Prelude.{◌≡◌, ◌≤◌, length, IfOk};
ghost use Rattle.harp_types.specs.Numbered.{value_with_number};
ghost use Rattle.harp_base.specs.Fields.{tag_at};
ghost use Rattle.wire.specs.Parts.{reason_of, reason_number, reasons};
ghost use Rattle.wire.specs.Messages.{form_of, form_number, forms};

use crate::message::Message;
use harp_base::Misread;
use harp_base::fields::byte_at;
use harp_types::Cause;

#[derive(Clone, Copy, PartialEq, Eq)]
pub(crate) enum Form {
    Invite,
    Join,
    Form,
    Fetch,
    Give,
    Formed,
    Event,
    Beat,
    Ack,
    Demote,
    Ask,
    Answer,
    CannotServe,
}

/// A cause without its hint.
#[derive(Clone, Copy, PartialEq, Eq)]
pub(crate) enum Reason {
    NotLeader,
    NotYetOpen,
    NoPromise,
    LogFull,
    Old,
    BadClient,
}

impl Form {
    fn of(number: u8) -> Option<Form>
        ensures { result ≡ value_with_number form_number forms number }
    {
        match number {
            1 => Some(Form::Invite),
            2 => Some(Form::Join),
            3 => Some(Form::Form),
            4 => Some(Form::Fetch),
            6 => Some(Form::Formed),
            8 => Some(Form::Beat),
            9 => Some(Form::Ack),
            10 => Some(Form::Demote),
            12 => Some(Form::Answer),
            13 => Some(Form::CannotServe),
            21 => Some(Form::Give),
            23 => Some(Form::Event),
            27 => Some(Form::Ask),
            _ => None,
        }
    }
}

impl Reason {
    fn of(number: u8) -> Option<Reason>
        ensures { result ≡ value_with_number reason_number reasons number }
    {
        match number {
            1 => Some(Reason::NotLeader),
            2 => Some(Reason::NotYetOpen),
            3 => Some(Reason::NoPromise),
            4 => Some(Reason::LogFull),
            5 => Some(Reason::Old),
            6 => Some(Reason::BadClient),
            _ => None,
        }
    }
}

pub(crate) fn form_at(bytes: &[u8], at: usize) -> Result<(Form, usize), Misread>
    requires { at ≤ length bytes.now }
    ensures step { result ≡ tag_at form_number forms bytes.now at }
    ensures within { IfOk result (λ x. x.1 ≤ length bytes.now) }
{
    let (number, next) = byte_at(bytes, at)?;
    match Form::of(number) {
        Some(form) => Ok((form, next)),
        None => Err(Misread::BadTag(at)),
    }
}

pub(crate) fn reason_at(bytes: &[u8], at: usize) -> Result<(Reason, usize), Misread>
    requires { at ≤ length bytes.now }
    ensures step { result ≡ tag_at reason_number reasons bytes.now at }
    ensures within { IfOk result (λ x. x.1 ≤ length bytes.now) }
{
    let (number, next) = byte_at(bytes, at)?;
    match Reason::of(number) {
        Some(reason) => Ok((reason, next)),
        None => Err(Misread::BadTag(at)),
    }
}

/// The number of a message's form.
pub(crate) fn form_number(message: &Message) -> u8
    ensures { result ≡ form_number (form_of message.now) }
{
    match message {
        Message::Invite { .. } => 1,
        Message::Join { .. } => 2,
        Message::Form { .. } => 3,
        Message::Fetch { .. } => 4,
        Message::Formed { .. } => 6,
        Message::Beat { .. } => 8,
        Message::Ack { .. } => 9,
        Message::Demote { .. } => 10,
        Message::Answer { .. } => 12,
        Message::CannotServe { .. } => 13,
        Message::Give { .. } => 21,
        Message::Event { .. } => 23,
        Message::Ask { .. } => 27,
    }
}

/// The number of a cause.
pub(crate) fn reason_number(cause: Cause) -> u8
    ensures { result ≡ reason_number (reason_of cause) }
{
    match cause {
        Cause::NotLeader { .. } => 1,
        Cause::NotYetOpen => 2,
        Cause::NoPromise => 3,
        Cause::LogFull => 4,
        Cause::Old => 5,
        Cause::BadClient => 6,
    }
}
