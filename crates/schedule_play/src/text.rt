//! Lines of a trace as text.

ghost use Rattle.std.specs.Prelude.{◌≡◌, ◌≤◌, ◌∷◌, [], ◌++◌, OnOk, OnErr, Err};
ghost use Rattle.std.specs.Io.KnownBytes.{Appends};
ghost use Rattle.harp_types.specs.Streams.{GrewByPart, Rose};
ghost use Rattle.text_spelling.specs.Steps.{step_text};
ghost use Rattle.trace_types.specs.declared.step.Step.TheVariants as steps;
ghost use Rattle.schedule_play.specs.Trace.{trace_text};

use crate::exit::Stop;
use harp_types::{Sink, write_all};
use std::alloc::{AllocError, Global};
use text_writer::{append_line, put_named};
use trace_types::{Line, Step};

/// Room for what a step gives, which the next one uses anew.
#[derive(Drop)]
pub struct Room {
    /// The text of its lines.
    pub text: Vec<u8>,
    /// Its lines behind its event line.
    pub lines: Vec<Line>,
}

impl Room {
    /// No text and no lines.
    pub fn new(alloc: Global) -> Room
        ensures text { result.text.items ≡ [] }
        ensures lines { result.lines.items ≡ [] }
    {
        Room {
            text: Vec::new(alloc),
            lines: Vec::new(alloc),
        }
    }
}

/// Begins a text anew, with the event line of the step that a line spells: the line is its one
/// spelling.
pub fn begin_with_line(line: &[u8], out: &mut Vec<u8>) -> Result<(), AllocError>
    ensures { OnOk result ((step : Step) → line.now ≡ step_text step
        → out.new.items ≡ trace_text (Line.Event step ∷ [])) }
{
    out.clear();
    out.extend_from_slice(b"> ")?;
    out.extend_from_slice(line)?;
    out.push(b'\n')?;
    Ok(())
}

/// Begins a text anew, with the event line of a delivery.
pub fn begin_with_delivery(alloc: Global, packet: u64, out: &mut Vec<u8>) -> Result<(), AllocError>
    ensures { OnOk result (out.new.items
        ≡ trace_text (Line.Event (steps.Deliver packet) ∷ [])) }
{
    out.clear();
    put_named(out, b"> deliver", packet)?;
    out.push(b'\n')?;
    Ok(())
}

/// Appends these lines, each with its line feed.
fn append_lines(alloc: Global, lines: &[Line], out: &mut Vec<u8>) -> Result<(), AllocError>
    ensures { OnOk result (out.new.items ≡ out.old.items ++ trace_text lines.now) }
{
    for line in lines {
        append_line(alloc, line, out)?;
        out.push(b'\n')?;
    }
    Ok(())
}

/// Appends these lines to the text that was begun and writes it; after a stop a first part of it
/// was written.
pub fn write_with_lines<K: Sink>(
    alloc: Global,
    out: &mut Vec<u8>,
    lines: &[Line],
    sink: &mut K,
) -> Result<(), Stop>
    ensures all { OnOk result (Appends (K.written sink.old) (K.written sink.new)
        (out.old.items ++ trace_text lines.now)) }
    ensures part { OnErr result (GrewByPart (K.written sink.old) (K.written sink.new)
        (out.old.items ++ trace_text lines.now)) }
    ensures rose { result ≡ Err Stop.SinkFailed → Rose (K.faults sink.old) (K.faults sink.new) }
    ensures count { K.faults sink.old ≤ K.faults sink.new }
    ensures own { result ≡ Err Stop.SourceFailed → ⊥ }
{
    append_lines(alloc, lines, out)?;
    write_all(sink, out.as_slice())?;
    Ok(())
}

/// Writes the last line.
pub fn write_last<K: Sink>(alloc: Global, last: Line, sink: &mut K) -> Result<(), Stop>
    ensures all { OnOk result (Appends (K.written sink.old) (K.written sink.new)
        (trace_text (last ∷ []))) }
    ensures part { OnErr result (GrewByPart (K.written sink.old) (K.written sink.new)
        (trace_text (last ∷ []))) }
    ensures rose { result ≡ Err Stop.SinkFailed → Rose (K.faults sink.old) (K.faults sink.new) }
    ensures count { K.faults sink.old ≤ K.faults sink.new }
    ensures own { result ≡ Err Stop.SourceFailed → ⊥ }
{
    let mut out = Vec::new(alloc);
    write_with_lines(alloc, &mut out, &[last], sink)
}
