//! Generated schedules as text.

ghost use Rattle.std.specs.Prelude.{◌≡◌, ◌≤◌, ◌++◌, ◌∷◌, [], IfOk, OnOk, OnErr, Err};
ghost use Rattle.std.specs.Io.KnownBytes.{Appends};
ghost use Rattle.harp_types.specs.Streams.{GrewByPart, Rose};
ghost use Rattle.text_spelling.specs.Steps.{step_text};
ghost use Rattle.sweep.specs.Lines.{generated};
ghost use Rattle.sweep.specs.Texts.{schedule_text};

use crate::schedule::Schedule;
use harp_types::{Sink, SinkFault, write_all};
use std::alloc::{AllocError, Global};
use text_writer::append_step;
use trace_types::Step;

/// Appends the line of a step, which is let go.
fn append_line(alloc: Global, step: Step, text: &mut Vec<u8>) -> Result<(), AllocError>
    ensures { OnOk result (text.new.items ≡ text.old.items ++ step_text step ++ 10 ∷ []) }
{
    append_step(alloc, &step, text)?;
    Ok(text.push(b'\n')?)
}

/// The text of the schedule of a seed with so many drawn lines.
fn text_of(alloc: Global, seed: u64, lines: u32) -> Result<Vec<u8>, AllocError>
    ensures { IfOk result (λ text. text.items ≡ schedule_text (generated seed lines)) }
{
    let mut text = Vec::new(alloc);
    let mut steps = Schedule::of(seed, lines);
    while let Some(step) = steps.next(alloc)? {
        append_line(alloc, step, &mut text)?;
    }
    Ok(text)
}

/// Writes the schedule of a seed with so many drawn lines; after a fault a first part of its text
/// was written.
pub fn write_schedule<K: Sink>(
    alloc: Global,
    seed: u64,
    lines: u32,
    sink: &mut K,
) -> Result<(), SinkFault>
    ensures all { OnOk result (Appends (K.written sink.old) (K.written sink.new)
        (schedule_text (generated seed lines))) }
    ensures part { OnErr result (GrewByPart (K.written sink.old) (K.written sink.new)
        (schedule_text (generated seed lines))) }
    ensures rose { result ≡ Err SinkFault.Failed → Rose (K.faults sink.old) (K.faults sink.new) }
    ensures count { K.faults sink.old ≤ K.faults sink.new }
{
    let text = text_of(alloc, seed, lines)?;
    write_all(sink, text.as_slice())
}
