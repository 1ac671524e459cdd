//! Messages that are written.

ghost use Rattle.std.specs.Prelude.{◌≡◌, ◌++◌, IfOk, OnOk};
ghost use Rattle.wire.specs.declared.message.Message.TheVariants as message;
ghost use Rattle.wire.specs.Messages.{message_fields, message_bytes, MessageFits};

use crate::forms::form_number;
use crate::message::Message;
use crate::parts::{held_number, put_cause, put_records, put_storers};
use crate::storers::Storers;
use event_record::fields::put_item;
use harp_base::fields::{put_call, put_cred, put_reply, put_u32, put_u64, put_view};
use harp_types::{Bytes, Held, ServerId, ViewNo};
use promise::Deadline;
use std::alloc::{AllocError, Global};

/// Room for the bytes of most messages, taken at once. A longer message's bytes take more as they
/// come.
const USUAL_MESSAGE: usize = 512;

/// What a server that joins a view tells.
fn put_join(
    out: &mut Vec<u8>,
    view: ViewNo,
    held: Held,
    accepted: ViewNo,
    base: u64,
    lb: u64,
    cp: u64,
    top: u64,
    horizon: Deadline,
) -> Result<(), AllocError>
    ensures value { OnOk result (out.new.items
        ≡ out.old.items ++ message_fields
        (message.Join view held accepted base lb cp top horizon)) }
    ensures fits { OnOk result (MessageFits
        (message.Join view held accepted base lb cp top horizon)) }
{
    put_view(out, view)?;
    out.push(held_number(held))?;
    put_view(out, accepted)?;
    put_u64(out, base)?;
    put_u64(out, lb)?;
    put_u64(out, cp)?;
    put_u64(out, top)?;
    put_u64(out, horizon.get())
}

/// The choice of a view.
fn put_choice(
    out: &mut Vec<u8>,
    view: ViewNo,
    storers: Storers,
    source: ServerId,
    base: u64,
    cp: u64,
    start: u64,
    horizon: Deadline,
) -> Result<(), AllocError>
    ensures value { OnOk result (out.new.items
        ≡ out.old.items ++ message_fields
        (message.Form view storers source base cp start horizon)) }
    ensures fits { OnOk result (MessageFits
        (message.Form view storers source base cp start horizon)) }
{
    put_view(out, view)?;
    put_storers(out, storers)?;
    out.push(source.number())?;
    put_u64(out, base)?;
    put_u64(out, cp)?;
    put_u64(out, start)?;
    put_u64(out, horizon.get())
}

fn put_fields(out: &mut Vec<u8>, message: &Message) -> Result<(), AllocError>
    ensures value { OnOk result (out.new.items ≡ out.old.items ++ message_fields message.now) }
    ensures fits { OnOk result (MessageFits message.now) }
{
    match message {
        Message::Invite { view } => put_view(out, *view),
        Message::Join {
            view,
            held,
            accepted,
            base,
            lb,
            cp,
            top,
            horizon,
        } => {
            put_join(
                out, *view, *held, *accepted, *base, *lb, *cp, *top, *horizon,
            )
        }
        Message::Form {
            view,
            storers,
            source,
            base,
            cp,
            start,
            horizon,
        } => { put_choice(out, *view, *storers, *source, *base, *cp, *start, *horizon) }
        Message::Fetch { view, first } => {
            put_view(out, *view)?;
            put_u64(out, *first)
        }
        Message::Give {
            view,
            first,
            records,
        } => {
            put_view(out, *view)?;
            put_u64(out, *first)?;
            put_records(out, records)
        }
        Message::Formed { view, lb } => {
            put_view(out, *view)?;
            put_u64(out, *lb)
        }
        Message::Event {
            view,
            cp,
            base,
            record,
        } => {
            put_view(out, *view)?;
            put_u64(out, *cp)?;
            put_u64(out, *base)?;
            put_item(out, record)
        }
        Message::Beat { view, cp, base } => {
            put_view(out, *view)?;
            put_u64(out, *cp)?;
            put_u64(out, *base)
        }
        Message::Ack {
            view,
            top,
            lb,
            until,
        } => {
            put_view(out, *view)?;
            put_u64(out, *top)?;
            put_u64(out, *lb)?;
            put_u64(out, until.get())
        }
        Message::Demote { view } => put_view(out, *view),
        Message::Ask {
            client,
            number,
            cred,
            call,
        } => {
            put_u32(out, *client)?;
            put_u64(out, *number)?;
            put_cred(out, *cred)?;
            put_call(out, call)
        }
        Message::Answer {
            client,
            number,
            index,
            reply,
        } => {
            put_u32(out, *client)?;
            put_u64(out, *number)?;
            put_u64(out, *index)?;
            put_reply(out, reply)
        }
        Message::CannotServe {
            client,
            number,
            cause,
        } => {
            put_u32(out, *client)?;
            put_u64(out, *number)?;
            put_cause(out, *cause)
        }
    }
}

/// The one spelling of a message.
pub fn encode(alloc: Global, message: &Message) -> Result<Bytes, AllocError>
    ensures spelled { IfOk result (λ bytes. bytes ≡ message_bytes message.now) }
    ensures fits { OnOk result (MessageFits message.now) }
{
    let mut out = Vec::with_capacity(alloc, USUAL_MESSAGE)?;
    out.push(form_number(message))?;
    put_fields(&mut out, message)?;
    Ok(Bytes::from_vec(out))
}
