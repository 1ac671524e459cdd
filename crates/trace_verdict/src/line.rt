//! A verdict as a line.

ghost use Rattle.std.specs.Prelude.{◌≡◌, ◌≤◌, ◌++◌, IfOk, OnOk, OnErr, Err};
ghost use Rattle.std.specs.Io.KnownBytes.{Appends};
ghost use Rattle.harp_types.specs.Streams.{GrewByPart, Rose};
ghost use Rattle.trace_verdict.specs.Texts.{breach_word, found_text, unread_word, verdict_line};
ghost use Rattle.trace_verdict.specs.Texts.{verdict_text};

use crate::{Unread, Verdict};
use harp_types::{Sink, SinkFault, write_all};
use std::alloc::{AllocError, Global};
use text_writer::put_named;
use trace_check::Breach;

fn breach_word(breach: Breach) -> &'static [u8]
    ensures { result.now ≡ breach_word breach }
{
    match breach {
        Breach::Book => b"book",
        Breach::Order => b"order",
        Breach::Answer => b"answer",
        Breach::Ack => b"ack",
        Breach::Promise => b"promise",
    }
}

fn unread_word(unread: Unread) -> &'static [u8]
    ensures { result.now ≡ unread_word unread }
{
    match unread {
        Unread::Grammar => b"grammar",
        Unread::TooLong => b"too-long",
        Unread::TooMany => b"too-many",
        Unread::Unfinished => b"unfinished",
    }
}

/// A word, and behind it the number of a line and what is found there.
fn put_found(out: &mut Vec<u8>, word: &[u8], number: u64, cause: &[u8]) -> Result<(), AllocError>
    ensures { OnOk result (out.new.items ≡ out.old.items ++ found_text word.now number cause.now) }
{
    put_named(out, word, number)?;
    out.push(b' ')?;
    out.extend_from_slice(cause)
}

#[tactic(auto, unfolding(crate::specs::Texts::verdict_text))]
fn put_verdict(out: &mut Vec<u8>, verdict: Verdict) -> Result<(), AllocError>
    ensures { OnOk result (out.new.items ≡ out.old.items ++ verdict_text verdict) }
{
    match verdict {
        Verdict::Yes => out.extend_from_slice(b"yes"),
        Verdict::No(number, breach) => put_found(out, b"no", number, breach_word(breach)),
        Verdict::Bad(number, unread) => put_found(out, b"bad", number, unread_word(unread)),
    }
}

fn line_of(alloc: Global, verdict: Verdict) -> Result<Vec<u8>, AllocError>
    ensures { IfOk result (λ line. line.items ≡ verdict_line verdict) }
{
    let mut line = Vec::new(alloc);
    put_verdict(&mut line, verdict)?;
    line.push(b'\n')?;
    Ok(line)
}

/// Writes the line that tells a verdict; after a fault a first part of it was written.
pub fn write_verdict<K: Sink>(
    alloc: Global,
    verdict: Verdict,
    sink: &mut K,
) -> Result<(), SinkFault>
    ensures all { OnOk result (Appends (K.written sink.old) (K.written sink.new)
        (verdict_line verdict)) }
    ensures part { OnErr result (GrewByPart (K.written sink.old) (K.written sink.new)
        (verdict_line verdict)) }
    ensures rose { result ≡ Err SinkFault.Failed → Rose (K.faults sink.old) (K.faults sink.new) }
    ensures count { K.faults sink.old ≤ K.faults sink.new }
{
    let line = line_of(alloc, verdict)?;
    write_all(sink, line.as_slice())
}
