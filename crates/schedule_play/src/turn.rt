//! What a line leads to, and the last lines of a trace.

ghost use Rattle.std.specs.Prelude.{◌≡◌, ◌≤◌, ℕ, List, [], ◌∷◌, Option, None, IfOk, OnOk, OnErr};
ghost use Rattle.std.specs.Prelude.{MatchResult, Err};
ghost use Rattle.std.specs.Io.KnownBytes.{Appends};
ghost use Rattle.harp_types.specs.Streams.{GrewByPart, Rose};
ghost use Rattle.schedule_play.specs.Ends.{EndsWhole};
ghost use Rattle.schedule_play.specs.OnTheWay.{HasCome, StopGives};
ghost use Rattle.schedule_play.specs.Reading.{Reading, all_read};
ghost use Rattle.schedule_play.specs.Trace.{trace_text};

use crate::exit::Stop;
use crate::stage::Stage;
use crate::text::write_last;
use harp_types::Sink;
use std::alloc::Global;
use trace_types::{Line, LineFault};

/// What a line led to.
#[derive(Clone, Copy, PartialEq, Eq)]
pub enum Turn {
    /// The next line is to be read.
    GoesOn,
    /// The last line was written, at the end of the input.
    Ended,
    /// The last line was written, of a line that is refused.
    Refused,
}

/// Writes the last line at the end of the input.
pub fn end<W: Stage, K: Sink>(alloc: Global, world: &W, sink: &mut K) -> Result<(), Stop>
    ensures ends { (all : Reading) (before : Option (List ℕ))
        → HasCome W.spellings all (λ w. all_read) before (K.written sink.old) (W.stands world.now)
        → MatchResult result (λ _. (all.refused ≡ None)
        × EndsWhole W.spellings all before (K.written sink.new) (W.stands world.now))
        (StopGives W.spellings all before (K.written sink.new) (W.stands world.now)) }
    ensures rose { result ≡ Err Stop.SinkFailed → Rose (K.faults sink.old) (K.faults sink.new) }
    ensures count { K.faults sink.old ≤ K.faults sink.new }
    ensures own { result ≡ Err Stop.SourceFailed → ⊥ }
{
    let last = Line::End {
        entered: world.entered(),
    };
    match write_last(alloc, last, sink) {
        Ok(()) => Ok(()),
        Err(stop) => Err(stop),
    }
}

/// Writes the last line, of the line with this number, which is refused.
pub fn refuse<K: Sink>(
    alloc: Global,
    number: u64,
    fault: LineFault,
    sink: &mut K,
) -> Result<Turn, Stop>
    ensures refused { IfOk result (λ turn. turn ≡ Turn.Refused) }
    ensures wrote { OnOk result (Appends (K.written sink.old) (K.written sink.new)
        (trace_text (Line.Bad number fault ∷ []))) }
    ensures part { OnErr result (GrewByPart (K.written sink.old) (K.written sink.new)
        (trace_text (Line.Bad number fault ∷ []))) }
    ensures rose { result ≡ Err Stop.SinkFailed → Rose (K.faults sink.old) (K.faults sink.new) }
    ensures count { K.faults sink.old ≤ K.faults sink.new }
    ensures own { result ≡ Err Stop.SourceFailed → ⊥ }
{
    let last = Line::Bad {
        line: number,
        fault,
    };
    match write_last(alloc, last, sink) {
        Ok(()) => Ok(Turn::Refused),
        Err(stop) => Err(stop),
    }
}
