//! Steps of observed schedules and lines of observed traces, written at the end of a text.

ghost use Rattle.std.specs.Prelude.{◌≡◌, ◌++◌, ◌∷◌, [], codes, decimal, OnOk, OnErr};
ghost use Rattle.text_spelling.specs.Lines.{IsOneLine};
ghost use Rattle.text_spelling.specs.Text.{spaced};
ghost use Rattle.observed_text.specs.declared.line.ObservedLine.{ObservedLine};
ghost use Rattle.observed_text.specs.declared.line.ObservedLine.TheVariants as lines;
ghost use Rattle.observed_text.specs.declared.step.ObservedStep.{ObservedStep};
ghost use Rattle.observed_text.specs.Spelling.{act_text, observed_line, observed_text, shown_text};

use crate::line::{ObservedLine, ShownNumbers};
use crate::step::{Act, ObservedStep};
use harp_types::{Bytes, Reply, ServerId};
use std::alloc::{AllocError, Global};
use text_writer::{
    append_line, put_at, put_call, put_named, put_number, put_reply, put_server, write_step,
};

#[tactic(auto, unfolding(crate::specs::Spelling::act_text))]
fn put_act(alloc: Global, out: &mut Vec<u8>, act: &Act) -> Result<(), AllocError>
    ensures { OnOk result (out.new.items ≡ out.old.items ++ act_text act.now) }
{
    match act {
        Act::Copy => out.extend_from_slice(b"copy"),
        Act::Want { server } => put_at(out, b"want".as_slice(), *server),
        Act::Take { packet } => put_named(out, b"take".as_slice(), *packet),
        Act::Drain { server, count } => {
            put_at(out, b"drain".as_slice(), *server)?;
            put_number(out, u64::from(*count))
        }
        Act::Peek { call } => {
            out.extend_from_slice(b"peek ")?;
            put_call(alloc, out, call)
        }
    }
}

/// What is told of what is shown, behind a space.
fn put_numbers(out: &mut Vec<u8>, shown: ShownNumbers) -> Result<(), AllocError>
    ensures { OnOk result (out.new.items ≡ out.old.items ++ spaced (shown_text shown)) }
{
    match shown {
        ShownNumbers::Cell { cp } => put_named(out, b" cell".as_slice(), cp),
        ShownNumbers::Records { first, records } => {
            put_named(out, b" records".as_slice(), first)?;
            put_number(out, records)
        }
        ShownNumbers::Gone { base } => put_named(out, b" gone".as_slice(), base),
    }
}

#[tactic(auto, unfolding(crate::specs::Spelling::observed_line))]
fn put_shown(
    out: &mut Vec<u8>,
    packet: u64,
    server: ServerId,
    shown: ShownNumbers,
) -> Result<(), AllocError>
    ensures { OnOk result (out.new.items ≡ out.old.items
        ++ observed_line (lines.Shown packet server shown)) }
{
    put_named(out, b"shown".as_slice(), packet)?;
    put_server(out, server)?;
    put_numbers(out, shown)
}

#[tactic(auto, unfolding(crate::specs::Spelling::observed_line))]
fn put_peeked(
    alloc: Global,
    out: &mut Vec<u8>,
    updates: u64,
    reply: &Reply,
) -> Result<(), AllocError>
    ensures { OnOk result (out.new.items ≡ out.old.items
        ++ observed_line (lines.Peeked updates reply.now)) }
{
    put_named(out, b"peeked".as_slice(), updates)?;
    put_reply(alloc, out, reply)
}

/// Appends the one spelling of a line of an observed trace, without its line end. Where memory runs
/// out a first part of it may stand.
#[tactic(auto, unfolding(crate::specs::Spelling::observed_line))]
pub fn append_observed(
    alloc: Global,
    line: &ObservedLine,
    into: &mut Vec<u8>,
) -> Result<(), AllocError>
    ensures { OnOk result (into.new.items ≡ into.old.items ++ observed_line line.now) }
{
    match line {
        ObservedLine::Traced { line } => append_line(alloc, line, into),
        ObservedLine::Event { act } => {
            into.extend_from_slice(b"> ")?;
            put_act(alloc, into, act)
        }
        ObservedLine::Shown {
            packet,
            server,
            shown,
        } => put_shown(into, *packet, *server, *shown),
        ObservedLine::Unshown { server } => put_at(into, b"unshown".as_slice(), *server),
        ObservedLine::Observer { top } => put_named(into, b"observer".as_slice(), *top),
        ObservedLine::Peeked { updates, reply } => put_peeked(alloc, into, *updates, reply),
        ObservedLine::Blind => into.extend_from_slice(b"blind"),
    }
}

/// Appends the one spelling of a line of an observed trace, without its line end, whole or not at
/// all.
pub fn write_observed(
    alloc: Global,
    line: &ObservedLine,
    into: &mut Bytes,
) -> Result<(), AllocError>
    ensures ok { OnOk result (into.new ≡ into.old ++ observed_line line.now) }
    ensures err { OnErr result (into.new ≡ into.old) }
{
    let mut text = Vec::new(alloc);
    append_observed(alloc, line, &mut text)?;
    into.extend(&text)
}

/// Appends the one spelling of an act, whole or not at all.
fn write_act(alloc: Global, act: &Act, into: &mut Bytes) -> Result<(), AllocError>
    ensures ok { OnOk result (into.new ≡ into.old ++ act_text act.now) }
    ensures err { OnErr result (into.new ≡ into.old) }
{
    let mut text = Vec::new(alloc);
    put_act(alloc, &mut text, act)?;
    into.extend(&text)
}

/// Appends the one spelling of a step of an observed schedule, without a line end, whole or not at
/// all.
pub fn write_observed_step(
    alloc: Global,
    step: &ObservedStep,
    into: &mut Bytes,
) -> Result<(), AllocError>
    ensures ok { OnOk result (into.new ≡ into.old ++ observed_text step.now) }
    ensures err { OnErr result (into.new ≡ into.old) }
{
    match step {
        ObservedStep::Played { step } => write_step(alloc, step, into),
        ObservedStep::Acted { act } => write_act(alloc, act, into),
    }
}

/// Texts have no line ends, so the lines that are written are the lines that are read.
pub fn observed_texts_are_lines()
    ensures step { (s : ObservedStep) → IsOneLine (observed_text s) }
    ensures line { (l : ObservedLine) → IsOneLine (observed_line l) }
{}
