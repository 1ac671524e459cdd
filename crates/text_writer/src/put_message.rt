//! Messages that are written.

ghost use Rattle.std.specs.Prelude.{◌≡◌, ◌++◌, ◌∷◌, [], codes, decimal, OnOk};
ghost use Rattle.harp_types.specs.Server.{number_of};
ghost use Rattle.text_spelling.specs.Text.{spaced};
ghost use Rattle.text_spelling.specs.Lines.{view_text, held_text};
ghost use Rattle.text_spelling.specs.Steps.{server_text};
ghost use Rattle.text_spelling.specs.TraceLines.{message_text};
ghost use Rattle.trace_types.specs.declared.line.ShownMessage.TheVariants as messages;

use crate::{put_held, put_in_view, put_number, put_server, put_three, put_view};
use harp_types::{Held, ServerId, ViewNo};
use std::alloc::AllocError;
use trace_types::ShownMessage;

/// What a join tells of its sender's log, and the view that it accepted.
fn put_joined(
    out: &mut Vec<u8>,
    view: ViewNo,
    held: Held,
    accepted: ViewNo,
) -> Result<(), AllocError>
    ensures { OnOk result (out.new.items ≡ out.old.items ++ codes "join"
        ++ spaced (view_text view) ++ spaced (held_text held) ++ spaced (view_text accepted)) }
{
    put_in_view(out, b"join".as_slice(), view)?;
    put_held(out, held)?;
    put_view(out, accepted)
}

/// Five numbers.
fn put_five(
    out: &mut Vec<u8>,
    base: u64,
    lb: u64,
    cp: u64,
    top: u64,
    horizon: u64,
) -> Result<(), AllocError>
    ensures { OnOk result (out.new.items ≡ out.old.items
        ++ (spaced (decimal base) ++ spaced (decimal lb) ++ spaced (decimal cp)
        ++ spaced (decimal top) ++ spaced (decimal horizon))) }
{
    put_three(out, base, lb, cp)?;
    put_number(out, top)?;
    put_number(out, horizon)?;
    Ok(())
}

/// The view of a choice, and the three servers that it names.
fn put_formed(
    out: &mut Vec<u8>,
    view: ViewNo,
    leader: ServerId,
    partner: ServerId,
    source: ServerId,
) -> Result<(), AllocError>
    ensures { OnOk result (out.new.items ≡ out.old.items ++ codes "form"
        ++ spaced (view_text view) ++ server_text leader ++ server_text partner
        ++ server_text source) }
{
    put_in_view(out, b"form".as_slice(), view)?;
    put_server(out, leader)?;
    put_server(out, partner)?;
    put_server(out, source)
}

/// Four numbers.
fn put_four(
    out: &mut Vec<u8>,
    base: u64,
    cp: u64,
    start: u64,
    horizon: u64,
) -> Result<(), AllocError>
    ensures { OnOk result (out.new.items ≡ out.old.items
        ++ (spaced (decimal base) ++ spaced (decimal cp) ++ spaced (decimal start)
        ++ spaced (decimal horizon))) }
{
    put_three(out, base, cp, start)?;
    put_number(out, horizon)?;
    Ok(())
}

#[tactic(auto, unfolding(text_spelling::specs::TraceLines::message_text))]
fn put_message_text(out: &mut Vec<u8>, message: &ShownMessage) -> Result<(), AllocError>
    ensures { OnOk result (out.new.items ≡ out.old.items ++ message_text message.now) }
{
    match message {
        ShownMessage::Invite { view } => put_in_view(out, b"invite".as_slice(), *view),
        ShownMessage::Join {
            view,
            held,
            accepted,
            base,
            lb,
            cp,
            top,
            horizon,
        } => {
            put_joined(out, *view, *held, *accepted)?;
            put_five(out, *base, *lb, *cp, *top, *horizon)
        }
        ShownMessage::Form {
            view,
            leader,
            partner,
            source,
            base,
            cp,
            start,
            horizon,
        } => {
            put_formed(out, *view, *leader, *partner, *source)?;
            put_four(out, *base, *cp, *start, *horizon)
        }
        ShownMessage::Fetch { view, first } => {
            put_in_view(out, b"fetch".as_slice(), *view)?;
            put_number(out, *first)
        }
        ShownMessage::Give {
            view,
            first,
            records,
        } => {
            put_in_view(out, b"give".as_slice(), *view)?;
            put_number(out, *first)?;
            put_number(out, *records)
        }
        ShownMessage::Formed { view, lb } => {
            put_in_view(out, b"formed".as_slice(), *view)?;
            put_number(out, *lb)
        }
        ShownMessage::Event {
            view,
            index,
            cp,
            base,
            client,
            number,
        } => {
            put_in_view(out, b"event".as_slice(), *view)?;
            put_three(out, *index, *cp, *base)?;
            put_number(out, u64::from(*client))?;
            put_number(out, *number)
        }
        ShownMessage::Beat { view, cp, base } => {
            put_in_view(out, b"beat".as_slice(), *view)?;
            put_number(out, *cp)?;
            put_number(out, *base)
        }
        ShownMessage::Ack {
            view,
            top,
            lb,
            until,
        } => {
            put_in_view(out, b"ack".as_slice(), *view)?;
            put_three(out, *top, *lb, *until)
        }
        ShownMessage::Demote { view } => put_in_view(out, b"demote".as_slice(), *view),
    }
}

/// A message behind a space.
pub fn put_message(out: &mut Vec<u8>, message: &ShownMessage) -> Result<(), AllocError>
    ensures { OnOk result (out.new.items ≡ out.old.items ++ spaced (message_text message.now)) }
{
    out.push(b' ')?;
    put_message_text(out, message)?;
    Ok(())
}
