//! Lines of traces that are written.

ghost use Rattle.std.specs.Prelude.{◌≡◌, ◌++◌, ◌∷◌, [], codes, decimal, OnOk};
ghost use Rattle.harp_types.specs.Server.{number_of};
ghost use Rattle.text_spelling.specs.Text.{spaced, hex_text, attr_text, call_text, cred_text, reply_text};
ghost use Rattle.text_spelling.specs.Lines.{hint_text, cause_text, state_text};
ghost use Rattle.text_spelling.specs.Steps.{server_text, step_text};
ghost use Rattle.text_spelling.specs.TraceLines.{fault_text, message_text, entry_line, line_text};
ghost use Rattle.trace_types.specs.declared.line.Line.TheVariants as lines;

use crate::put_message::put_message;
use crate::put_step::put_step;
use crate::{
    put_at, put_attr, put_call, put_client, put_cred, put_name, put_named, put_number, put_reply,
    put_server, put_state, put_three,
};
use harp_types::{Attr, BookEntry, Bounded, Reply, ServerId};
use std::alloc::{AllocError, Global};
use trace_types::{Cause, Line, LineFault, ShownMessage, Step};

/// The server that leads, behind a space, or a dash for none.
fn put_hint(out: &mut Vec<u8>, hint: Option<ServerId>) -> Result<(), AllocError>
    ensures { OnOk result (out.new.items ≡ out.old.items ++ spaced (hint_text hint)) }
{
    match hint {
        None => out.extend_from_slice(b" -"),
        Some(server) => put_server(out, server),
    }
}

fn put_cause(out: &mut Vec<u8>, cause: Cause) -> Result<(), AllocError>
    ensures { OnOk result (out.new.items ≡ out.old.items ++ spaced (cause_text cause)) }
{
    match cause {
        Cause::BadClient => out.extend_from_slice(b" bad-client"),
        Cause::NotLeader { hint } => {
            out.extend_from_slice(b" not-leader")?;
            put_hint(out, hint)
        }
        Cause::NotYetOpen => out.extend_from_slice(b" not-yet-open"),
        Cause::NoPromise => out.extend_from_slice(b" no-promise"),
        Cause::LogFull => out.extend_from_slice(b" log-full"),
        Cause::Old => out.extend_from_slice(b" old"),
    }
}

fn put_fault(out: &mut Vec<u8>, fault: LineFault) -> Result<(), AllocError>
    ensures { OnOk result (out.new.items ≡ out.old.items ++ spaced (fault_text fault)) }
{
    match fault {
        LineFault::Grammar => out.extend_from_slice(b" grammar"),
        LineFault::TooLong => out.extend_from_slice(b" too-long"),
        LineFault::TooMany => out.extend_from_slice(b" too-many"),
        LineFault::NoPacket => out.extend_from_slice(b" no-packet"),
        LineFault::ServerDown => out.extend_from_slice(b" server-down"),
        LineFault::ServerUp => out.extend_from_slice(b" server-up"),
        LineFault::ClockBack => out.extend_from_slice(b" clock-back"),
        LineFault::ClockApart => out.extend_from_slice(b" clock-apart"),
        LineFault::NoiseIsMessage => out.extend_from_slice(b" noise-is-message"),
        LineFault::NetFull => out.extend_from_slice(b" net-full"),
    }
}

#[tactic(auto, unfolding(text_spelling::specs::TraceLines::entry_line))]
fn put_book_entry(alloc: Global, out: &mut Vec<u8>, entry: &BookEntry) -> Result<(), AllocError>
    ensures { OnOk result (out.new.items ≡ out.old.items ++ entry_line entry.now) }
{
    put_three(out, entry.index, u64::from(entry.client), entry.number)?;
    put_number(out, entry.stamp)?;
    put_cred(out, entry.cred)?;
    out.push(b' ')?;
    put_call(alloc, out, &entry.call)?;
    out.extend_from_slice(b" =")?;
    put_reply(alloc, out, &entry.reply)?;
    Ok(())
}

#[tactic(auto, unfolding(text_spelling::specs::TraceLines::line_text))]
fn put_event(alloc: Global, out: &mut Vec<u8>, step: &Step) -> Result<(), AllocError>
    ensures { OnOk result (out.new.items ≡ out.old.items ++ line_text (lines.Event step.now)) }
{
    out.extend_from_slice(b"> ")?;
    put_step(alloc, out, step)
}

#[tactic(auto, unfolding(text_spelling::specs::TraceLines::line_text))]
fn put_entered(
    alloc: Global,
    out: &mut Vec<u8>,
    place: u64,
    entry: &BookEntry,
) -> Result<(), AllocError>
    ensures { OnOk result (out.new.items ≡ out.old.items
        ++ line_text (lines.Entered place entry.now)) }
{
    put_named(out, b"entered".as_slice(), place)?;
    put_book_entry(alloc, out, entry)
}

#[tactic(auto, unfolding(text_spelling::specs::TraceLines::line_text))]
fn put_answered(
    alloc: Global,
    out: &mut Vec<u8>,
    server: ServerId,
    client: u32,
    number: u64,
    index: u64,
    reply: &Reply,
) -> Result<(), AllocError>
    ensures { OnOk result (out.new.items ≡ out.old.items
        ++ line_text (lines.Answered server client number index reply.now)) }
{
    put_client(out, b"answered".as_slice(), server, client, number)?;
    put_number(out, index)?;
    put_reply(alloc, out, reply)
}

#[tactic(auto, unfolding(text_spelling::specs::TraceLines::line_text))]
fn put_refused(
    out: &mut Vec<u8>,
    server: ServerId,
    client: u32,
    number: u64,
    cause: Cause,
) -> Result<(), AllocError>
    ensures { OnOk result (out.new.items ≡ out.old.items
        ++ line_text (lines.Refused server client number cause)) }
{
    put_client(out, b"refused".as_slice(), server, client, number)?;
    put_cause(out, cause)
}

#[tactic(auto, unfolding(text_spelling::specs::TraceLines::line_text))]
fn put_sent(
    out: &mut Vec<u8>,
    packet: u64,
    from: ServerId,
    to: ServerId,
    message: &ShownMessage,
) -> Result<(), AllocError>
    ensures { OnOk result (out.new.items ≡ out.old.items
        ++ line_text (lines.Sent packet from to message.now)) }
{
    put_named(out, b"send".as_slice(), packet)?;
    put_server(out, from)?;
    put_server(out, to)?;
    put_message(out, message)
}

#[tactic(auto, unfolding(text_spelling::specs::TraceLines::line_text))]
fn put_listed(out: &mut Vec<u8>, server: ServerId, cp: u64, objects: u64) -> Result<(), AllocError>
    ensures { OnOk result (out.new.items ≡ out.old.items
        ++ line_text (lines.Listed server cp objects)) }
{
    put_at(out, b"listed".as_slice(), server)?;
    put_number(out, cp)?;
    put_number(out, objects)
}

#[tactic(auto, unfolding(text_spelling::specs::TraceLines::line_text))]
fn put_object(alloc: Global, out: &mut Vec<u8>, attr: &Attr) -> Result<(), AllocError>
    ensures { OnOk result (out.new.items ≡ out.old.items ++ line_text (lines.Object attr.now)) }
{
    out.extend_from_slice(b"object")?;
    put_attr(out, attr)
}

#[tactic(auto, unfolding(text_spelling::specs::TraceLines::line_text))]
fn put_slot(
    alloc: Global,
    out: &mut Vec<u8>,
    dir: u32,
    slot: u32,
    number: u32,
    name: &Bounded<255>,
) -> Result<(), AllocError>
    ensures { OnOk result (out.new.items ≡ out.old.items
        ++ line_text (lines.Slot dir slot number name.now)) }
{
    out.extend_from_slice(b"slot")?;
    put_three(out, u64::from(dir), u64::from(slot), u64::from(number))?;
    put_name(alloc, out, name.as_slice())
}

#[tactic(auto, unfolding(text_spelling::specs::TraceLines::line_text))]
fn put_block(
    alloc: Global,
    out: &mut Vec<u8>,
    file: u32,
    block: u32,
    bytes: &Bounded<4096>,
) -> Result<(), AllocError>
    ensures { OnOk result (out.new.items ≡ out.old.items
        ++ line_text (lines.Block file block bytes.now)) }
{
    put_named(out, b"block".as_slice(), u64::from(file))?;
    put_number(out, u64::from(block))?;
    put_name(alloc, out, bytes.as_slice())
}

#[tactic(auto, unfolding(text_spelling::specs::TraceLines::line_text))]
fn put_text(
    alloc: Global,
    out: &mut Vec<u8>,
    link: u32,
    text: &Bounded<1024>,
) -> Result<(), AllocError>
    ensures { OnOk result (out.new.items ≡ out.old.items
        ++ line_text (lines.Text link text.now)) }
{
    put_named(out, b"text".as_slice(), u64::from(link))?;
    put_name(alloc, out, text.as_slice())
}

#[tactic(auto, unfolding(text_spelling::specs::TraceLines::line_text))]
pub fn put_line(alloc: Global, out: &mut Vec<u8>, line: &Line) -> Result<(), AllocError>
    ensures { OnOk result (out.new.items ≡ out.old.items ++ line_text line.now) }
{
    match line {
        Line::Event { step } => put_event(alloc, out, step),
        Line::Entered { place, entry } => put_entered(alloc, out, *place, entry),
        Line::Answered {
            server,
            client,
            number,
            index,
            reply,
        } => put_answered(alloc, out, *server, *client, *number, *index, reply),
        Line::Refused {
            server,
            client,
            number,
            cause,
        } => put_refused(out, *server, *client, *number, *cause),
        Line::Sent {
            packet,
            from,
            to,
            message,
        } => put_sent(out, *packet, *from, *to, message),
        Line::State { server, state } => {
            put_at(out, b"state".as_slice(), *server)?;
            put_state(out, state)
        }
        Line::Down { server } => {
            put_at(out, b"state".as_slice(), *server)?;
            out.extend_from_slice(b" down")
        }
        Line::Listed {
            server,
            cp,
            objects,
        } => put_listed(out, *server, *cp, *objects),
        Line::Unlisted { server } => put_at(out, b"unlisted".as_slice(), *server),
        Line::Object { attr } => put_object(alloc, out, attr),
        Line::Slot {
            dir,
            slot,
            number,
            name,
        } => put_slot(alloc, out, *dir, *slot, *number, name),
        Line::Block { file, block, bytes } => put_block(alloc, out, *file, *block, bytes),
        Line::Text { link, text } => put_text(alloc, out, *link, text),
        Line::Bad { line, fault } => {
            put_named(out, b"bad".as_slice(), *line)?;
            put_fault(out, *fault)
        }
        Line::End { entered } => put_named(out, b"end".as_slice(), *entered),
    }
}
