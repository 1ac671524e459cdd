//! Checking a trace: the verdict on what is read is written as one line.

ghost use Rattle.std.specs.Prelude.{◌≡◌, ℕ, List, Some};
ghost use Rattle.harp_types.specs.Streams.{Rose};
ghost use Rattle.harp_cli.specs.Check.{CheckEnds, EndsCheck, exit_after};

use harp_types::{Sink, SinkFault, Source};
use line_reader::ReadFault;
use play_commands::Exit;
use std::alloc::Global;
use trace_verdict::{Verdict, judge_text, write_verdict};

/// How a check ends after this verdict.
fn exit_after(verdict: Verdict) -> Exit
    ensures { result ≡ exit_after verdict }
{
    match verdict {
        Verdict::Yes => Exit::Done,
        Verdict::No(..) => Exit::SaysNo,
        Verdict::Bad(..) => Exit::RefusedLine,
    }
}

/// Checks the trace of a source, and writes the verdict to a sink.
pub fn check<S: Source, K: Sink>(alloc: Global, source: &mut S, sink: &mut K) -> Exit
    ensures ends { (text : List ℕ) → S.left source.old ≡ Some text
        → CheckEnds text (S.left source.new) (K.written sink.old) (K.written sink.new) result }
    ensures kind { EndsCheck result }
    ensures source_rose { result ≡ Exit.SourceFailed
        → Rose (S.faults source.old) (S.faults source.new) }
    ensures sink_rose { result ≡ Exit.SinkFailed → Rose (K.faults sink.old) (K.faults sink.new) }
{
    let verdict = match judge_text(alloc, source) {
        Ok(verdict) => verdict,
        Err(ReadFault::Failed) => return Exit::SourceFailed,
        Err(ReadFault::NoMemory) => return Exit::NoMemory,
    };
    match write_verdict(alloc, verdict, sink) {
        Ok(()) => exit_after(verdict),
        Err(SinkFault::Failed) => Exit::SinkFailed,
        Err(SinkFault::NoMemory) => Exit::NoMemory,
    }
}
