//! The lines of an act as text.

ghost use Rattle.std.specs.Prelude.{◌≡◌, ◌≤◌, ◌++◌, ◌∷◌, [], Err, IfOk, OnErr, OnOk};
ghost use Rattle.std.specs.Io.KnownBytes.{Appends};
ghost use Rattle.harp_types.specs.Streams.{GrewByPart, Rose};
ghost use Rattle.observe_play.specs.Watch.{as_lines};
ghost use Rattle.observe_laws.specs.Trace.{observed_trace_text};
ghost use Rattle.observed_text.specs.declared.line.ObservedLine.TheVariants as lines;

use harp_types::{Sink, write_all};
use observed_text::{Act, ObservedLine, append_observed};
use schedule_play::Stop;
use std::alloc::{AllocError, Global};

/// Appends a line with its line feed.
fn append_one(alloc: Global, line: &ObservedLine, out: &mut Vec<u8>) -> Result<(), AllocError>
    ensures { OnOk result (out.new.items
        ≡ out.old.items ++ observed_trace_text (line.now ∷ [])) }
{
    append_observed(alloc, line, out)?;
    out.push(b'\n')?;
    Ok(())
}

/// Appends the event line of an act.
fn append_event(alloc: Global, act: Act, out: &mut Vec<u8>) -> Result<(), AllocError>
    ensures { OnOk result (out.new.items
        ≡ out.old.items ++ observed_trace_text (lines.Event act ∷ [])) }
{
    let event = ObservedLine::Event { act };
    append_one(alloc, &event, out)
}

/// Appends the line that an act gave, where it gave one.
fn append_given(
    alloc: Global,
    given: Option<ObservedLine>,
    out: &mut Vec<u8>,
) -> Result<(), AllocError>
    ensures { OnOk result (out.new.items
        ≡ out.old.items ++ observed_trace_text (as_lines given)) }
{
    match given {
        Some(line) => append_one(alloc, &line, out),
        None => Ok(()),
    }
}

/// The event line of an act, and the line that it gave, where it gave one.
fn text_of(alloc: Global, act: Act, given: Option<ObservedLine>) -> Result<Vec<u8>, AllocError>
    ensures { IfOk result (λ out. out.items
        ≡ observed_trace_text (lines.Event act ∷ as_lines given)) }
{
    let mut out = Vec::new(alloc);
    append_event(alloc, act, &mut out)?;
    append_given(alloc, given, &mut out)?;
    Ok(out)
}

/// Writes the event line of an act, and the line that it gave, where it gave one; after a stop a
/// first part of them was written.
pub fn write_act<K: Sink>(
    alloc: Global,
    act: Act,
    given: Option<ObservedLine>,
    sink: &mut K,
) -> Result<(), Stop>
    ensures all { OnOk result (Appends (K.written sink.old) (K.written sink.new)
        (observed_trace_text (lines.Event act ∷ as_lines given))) }
    ensures part { OnErr result (GrewByPart (K.written sink.old) (K.written sink.new)
        (observed_trace_text (lines.Event act ∷ as_lines given))) }
    ensures rose { result ≡ Err Stop.SinkFailed → Rose (K.faults sink.old) (K.faults sink.new) }
    ensures count { K.faults sink.old ≤ K.faults sink.new }
    ensures own { result ≡ Err Stop.SourceFailed → ⊥ }
{
    let text = text_of(alloc, act, given)?;
    write_all(sink, text.as_slice())?;
    Ok(())
}
