//! Messages that are read.

ghost use Rattle.std.specs.Prelude.{◌≡◌, ◌≤◌, length, IfOk, Ok};
ghost use Rattle.harp_base.specs.Fields.{Gives};
ghost use Rattle.wire.specs.declared.forms.Form.TheVariants as form;
ghost use Rattle.wire.specs.declared.message.Message.{Message};
ghost use Rattle.wire.specs.Messages.{message_bytes, MessageFits, message_fields_at, message_at, fault_of, whole, decoded, Decodes};

use crate::forms::{Form, form_at};
use crate::message::Message;
use crate::parts::{cause_at, deadline_at, held_at, records_at, storers_at};
use event_record::fields::item_at;
use harp_base::Misread;
use harp_base::fields::{call_at, cred_at, reply_at, server_at, u32_at, u64_at, view_at};
use std::alloc::Global;

/// Why bytes are no message, with the place of the first fault.
#[derive(Clone, Copy, PartialEq, Eq)]
pub enum DecodeFault {
    /// The bytes end within the message; the place is their number.
    Short(usize),
    /// No value has this number; the place is that of the number.
    BadTag(usize),
    /// Bytes stand after the message; the place is that of the first of them.
    Trailing(usize),
    /// A length above its field's limit, or a field that would pass a record's limit; the place is
    /// that of the length, or of the field.
    TooLong(usize),
    /// Memory ran out.
    NoMemory,
}

impl DecodeFault {
    /// The fault of reading, in so many bytes.
    fn of(misread: Misread, length: usize) -> DecodeFault
        ensures { result ≡ fault_of length misread }
    {
        match misread {
            Misread::Ends { .. } => DecodeFault::Short(length),
            Misread::BadTag(at) => DecodeFault::BadTag(at),
            Misread::TooLong(at) => DecodeFault::TooLong(at),
            Misread::NoMemory => DecodeFault::NoMemory,
        }
    }
}

#[tactic(auto, unfolding(crate::specs::Messages::message_fields_at))]
fn invite_at(bytes: &[u8], at: usize) -> Result<(Message, usize), Misread>
    requires { at ≤ length bytes.now }
    ensures { result ≡ message_fields_at form.Invite bytes.now at }
{
    let (view, at) = view_at(bytes, at)?;
    Ok((Message::Invite { view }, at))
}

#[tactic(auto, unfolding(crate::specs::Messages::message_fields_at))]
fn join_at(bytes: &[u8], at: usize) -> Result<(Message, usize), Misread>
    requires { at ≤ length bytes.now }
    ensures { result ≡ message_fields_at form.Join bytes.now at }
{
    let (view, at) = view_at(bytes, at)?;
    let (held, at) = held_at(bytes, at)?;
    let (accepted, at) = view_at(bytes, at)?;
    let (base, at) = u64_at(bytes, at)?;
    let (lb, at) = u64_at(bytes, at)?;
    let (cp, at) = u64_at(bytes, at)?;
    let (top, at) = u64_at(bytes, at)?;
    let (horizon, at) = deadline_at(bytes, at)?;
    let join = Message::Join {
        view,
        held,
        accepted,
        base,
        lb,
        cp,
        top,
        horizon,
    };
    Ok((join, at))
}

#[tactic(auto, unfolding(crate::specs::Messages::message_fields_at))]
fn choice_at(bytes: &[u8], at: usize) -> Result<(Message, usize), Misread>
    requires { at ≤ length bytes.now }
    ensures { result ≡ message_fields_at form.Form bytes.now at }
{
    let (view, at) = view_at(bytes, at)?;
    let (storers, at) = storers_at(bytes, at)?;
    let (source, at) = server_at(bytes, at)?;
    let (base, at) = u64_at(bytes, at)?;
    let (cp, at) = u64_at(bytes, at)?;
    let (start, at) = u64_at(bytes, at)?;
    let (horizon, at) = deadline_at(bytes, at)?;
    let choice = Message::Form {
        view,
        storers,
        source,
        base,
        cp,
        start,
        horizon,
    };
    Ok((choice, at))
}

#[tactic(auto, unfolding(crate::specs::Messages::message_fields_at))]
fn fetch_at(bytes: &[u8], at: usize) -> Result<(Message, usize), Misread>
    requires { at ≤ length bytes.now }
    ensures { result ≡ message_fields_at form.Fetch bytes.now at }
{
    let (view, at) = view_at(bytes, at)?;
    let (first, at) = u64_at(bytes, at)?;
    Ok((Message::Fetch { view, first }, at))
}

#[tactic(auto, unfolding(crate::specs::Messages::message_fields_at))]
fn give_at(alloc: Global, bytes: &[u8], at: usize) -> Result<(Message, usize), Misread>
    requires { at ≤ length bytes.now }
    ensures { Gives result (message_fields_at form.Give bytes.now at) }
{
    let (view, at) = view_at(bytes, at)?;
    let (first, at) = u64_at(bytes, at)?;
    let (records, at) = records_at(alloc, bytes, at)?;
    let give = Message::Give {
        view,
        first,
        records,
    };
    Ok((give, at))
}

#[tactic(auto, unfolding(crate::specs::Messages::message_fields_at))]
fn formed_at(bytes: &[u8], at: usize) -> Result<(Message, usize), Misread>
    requires { at ≤ length bytes.now }
    ensures { result ≡ message_fields_at form.Formed bytes.now at }
{
    let (view, at) = view_at(bytes, at)?;
    let (lb, at) = u64_at(bytes, at)?;
    Ok((Message::Formed { view, lb }, at))
}

#[tactic(auto, unfolding(crate::specs::Messages::message_fields_at))]
fn event_at(alloc: Global, bytes: &[u8], at: usize) -> Result<(Message, usize), Misread>
    requires { at ≤ length bytes.now }
    ensures { Gives result (message_fields_at form.Event bytes.now at) }
{
    let (view, at) = view_at(bytes, at)?;
    let (cp, at) = u64_at(bytes, at)?;
    let (base, at) = u64_at(bytes, at)?;
    let (record, at) = item_at(alloc, bytes, at)?;
    let event = Message::Event {
        view,
        cp,
        base,
        record,
    };
    Ok((event, at))
}

#[tactic(auto, unfolding(crate::specs::Messages::message_fields_at))]
fn beat_at(bytes: &[u8], at: usize) -> Result<(Message, usize), Misread>
    requires { at ≤ length bytes.now }
    ensures { result ≡ message_fields_at form.Beat bytes.now at }
{
    let (view, at) = view_at(bytes, at)?;
    let (cp, at) = u64_at(bytes, at)?;
    let (base, at) = u64_at(bytes, at)?;
    Ok((Message::Beat { view, cp, base }, at))
}

#[tactic(auto, unfolding(crate::specs::Messages::message_fields_at))]
fn ack_at(bytes: &[u8], at: usize) -> Result<(Message, usize), Misread>
    requires { at ≤ length bytes.now }
    ensures { result ≡ message_fields_at form.Ack bytes.now at }
{
    let (view, at) = view_at(bytes, at)?;
    let (top, at) = u64_at(bytes, at)?;
    let (lb, at) = u64_at(bytes, at)?;
    let (until, at) = deadline_at(bytes, at)?;
    let ack = Message::Ack {
        view,
        top,
        lb,
        until,
    };
    Ok((ack, at))
}

#[tactic(auto, unfolding(crate::specs::Messages::message_fields_at))]
fn demote_at(bytes: &[u8], at: usize) -> Result<(Message, usize), Misread>
    requires { at ≤ length bytes.now }
    ensures { result ≡ message_fields_at form.Demote bytes.now at }
{
    let (view, at) = view_at(bytes, at)?;
    Ok((Message::Demote { view }, at))
}

#[tactic(auto, unfolding(crate::specs::Messages::message_fields_at))]
fn ask_at(alloc: Global, bytes: &[u8], at: usize) -> Result<(Message, usize), Misread>
    requires { at ≤ length bytes.now }
    ensures { Gives result (message_fields_at form.Ask bytes.now at) }
{
    let (client, at) = u32_at(bytes, at)?;
    let (number, at) = u64_at(bytes, at)?;
    let (cred, at) = cred_at(bytes, at)?;
    let (call, at) = call_at(alloc, bytes, at)?;
    let ask = Message::Ask {
        client,
        number,
        cred,
        call,
    };
    Ok((ask, at))
}

#[tactic(auto, unfolding(crate::specs::Messages::message_fields_at))]
fn answer_at(alloc: Global, bytes: &[u8], at: usize) -> Result<(Message, usize), Misread>
    requires { at ≤ length bytes.now }
    ensures { Gives result (message_fields_at form.Answer bytes.now at) }
{
    let (client, at) = u32_at(bytes, at)?;
    let (number, at) = u64_at(bytes, at)?;
    let (index, at) = u64_at(bytes, at)?;
    let (reply, at) = reply_at(alloc, bytes, at)?;
    let answer = Message::Answer {
        client,
        number,
        index,
        reply,
    };
    Ok((answer, at))
}

#[tactic(auto, unfolding(crate::specs::Messages::message_fields_at))]
fn cannot_serve_at(bytes: &[u8], at: usize) -> Result<(Message, usize), Misread>
    requires { at ≤ length bytes.now }
    ensures { result ≡ message_fields_at form.CannotServe bytes.now at }
{
    let (client, at) = u32_at(bytes, at)?;
    let (number, at) = u64_at(bytes, at)?;
    let (cause, at) = cause_at(bytes, at)?;
    let refusal = Message::CannotServe {
        client,
        number,
        cause,
    };
    Ok((refusal, at))
}

#[tactic(auto, unfolding(crate::specs::Messages::message_fields_at))]
fn fields_at(
    alloc: Global,
    form: Form,
    bytes: &[u8],
    at: usize,
) -> Result<(Message, usize), Misread>
    requires { at ≤ length bytes.now }
    ensures { Gives result (message_fields_at form bytes.now at) }
{
    match form {
        Form::Invite => invite_at(bytes, at),
        Form::Join => join_at(bytes, at),
        Form::Form => choice_at(bytes, at),
        Form::Fetch => fetch_at(bytes, at),
        Form::Give => give_at(alloc, bytes, at),
        Form::Formed => formed_at(bytes, at),
        Form::Event => event_at(alloc, bytes, at),
        Form::Beat => beat_at(bytes, at),
        Form::Ack => ack_at(bytes, at),
        Form::Demote => demote_at(bytes, at),
        Form::Ask => ask_at(alloc, bytes, at),
        Form::Answer => answer_at(alloc, bytes, at),
        Form::CannotServe => cannot_serve_at(bytes, at),
    }
}

#[tactic(auto, unfolding(crate::specs::Messages::message_at))]
fn message_at(alloc: Global, bytes: &[u8], at: usize) -> Result<(Message, usize), Misread>
    requires { at ≤ length bytes.now }
    ensures { Gives result (message_at bytes.now at) }
{
    let (form, at) = form_at(bytes, at)?;
    fields_at(alloc, form, bytes, at)
}

/// What was read, where nothing is left of so many bytes.
fn whole(read: Result<(Message, usize), Misread>, length: usize) -> Result<Message, DecodeFault>
    ensures { result ≡ whole length read }
{
    match read {
        Ok((message, next)) => {
            if next == length {
                Ok(message)
            } else {
                Err(DecodeFault::Trailing(next))
            }
        }
        Err(misread) => Err(DecodeFault::of(misread, length)),
    }
}

/// The message that the bytes spell, all of them.
pub fn decode(alloc: Global, bytes: &[u8]) -> Result<Message, DecodeFault>
    // What is read is spelled so.
    ensures found { IfOk result (λ m. (bytes.now ≡ message_bytes m) × MessageFits m) }
    // What is spelled so is read, unless memory runs out.
    ensures only { (m : Message) → MessageFits m → bytes.now ≡ message_bytes m
        → Decodes result (Ok m) }
    // Which fault it is, and where.
    ensures exact { Decodes result (decoded bytes.now) }
{
    whole(message_at(alloc, bytes, 0), bytes.len())
}
