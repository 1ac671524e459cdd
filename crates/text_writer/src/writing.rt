//! Steps and lines, written at the end of a text.

ghost use Rattle.std.specs.Prelude.{◌≡◌, ◌++◌, OnOk, OnErr};
ghost use Rattle.text_spelling.specs.Lines.{IsOneLine};
ghost use Rattle.text_spelling.specs.Steps.{step_text};
ghost use Rattle.text_spelling.specs.TraceLines.{line_text};
ghost use Rattle.trace_types.specs.declared.step.Step.{Step};
ghost use Rattle.trace_types.specs.declared.line.Line.{Line};

use crate::put_line::put_line;
use crate::put_step::put_step;
use harp_types::Bytes;
use std::alloc::{AllocError, Global};
use trace_types::{Line, Step};

/// Appends the one spelling of a step, without a line end, whole or not at all.
pub fn write_step(alloc: Global, step: &Step, into: &mut Bytes) -> Result<(), AllocError>
    ensures ok { OnOk result (into.new ≡ into.old ++ step_text step.now) }
    ensures err { OnErr result (into.new ≡ into.old) }
{
    let mut text = Vec::new(alloc);
    put_step(alloc, &mut text, step)?;
    into.extend(&text)
}

/// Appends the one spelling of a step, without a line end. Where memory runs out a first part of it
/// may stand.
pub fn append_step(alloc: Global, step: &Step, into: &mut Vec<u8>) -> Result<(), AllocError>
    ensures { OnOk result (into.new.items ≡ into.old.items ++ step_text step.now) }
{
    put_step(alloc, into, step)
}

/// Appends the one spelling of a line of a trace, without its line end. Where memory runs out a first
/// part of it may stand.
pub fn append_line(alloc: Global, line: &Line, into: &mut Vec<u8>) -> Result<(), AllocError>
    ensures { OnOk result (into.new.items ≡ into.old.items ++ line_text line.now) }
{
    put_line(alloc, into, line)
}

/// Appends the one spelling of a line of a trace, without its line end, whole or not at all.
pub fn write_line(alloc: Global, line: &Line, into: &mut Bytes) -> Result<(), AllocError>
    ensures ok { OnOk result (into.new ≡ into.old ++ line_text line.now) }
    ensures err { OnErr result (into.new ≡ into.old) }
{
    let mut text = Vec::new(alloc);
    put_line(alloc, &mut text, line)?;
    into.extend(&text)
}

/// Texts have no line ends, so the lines that are written are the lines that are read.
pub fn texts_are_lines()
    ensures step { (s : Step) → IsOneLine (step_text s) }
    ensures line { (l : Line) → IsOneLine (line_text l) }
{}
