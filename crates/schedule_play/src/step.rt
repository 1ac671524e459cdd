//! Taking the steps of a line: each step's lines are written before the next step is taken.

ghost use Rattle.std.specs.Prelude.{◌≡◌, ◌≤◌, ◌∷◌, ℕ, List, [], Option, Some, MatchResult, true};
ghost use Rattle.std.specs.Prelude.{Ok, Err};
ghost use Rattle.harp_types.specs.Streams.{Rose};
ghost use Rattle.text_spelling.specs.Steps.{step_text};
ghost use Rattle.trace_types.specs.declared.step.Step.TheVariants as steps;
ghost use Rattle.group_trace.specs.DiskCalls.{measures_of};
ghost use Rattle.group_trace.specs.Pump.{most_deliveries};
ghost use Rattle.group_trace.specs.Run.{is_elementary};
ghost use Rattle.group_trace.specs.Scene.{Scene};
ghost use Rattle.schedule_play.specs.OnTheWay.{HasCome, StopGives, TurnGives, with_pump};
ghost use Rattle.schedule_play.specs.Reading.{Reading, with_given, with_step};
ghost use Rattle.schedule_play.specs.Stage.{AreReadings, clocks_after};
ghost use Rattle.schedule_play.specs.Trace.{trace_text};

use crate::exit::Stop;
use crate::stage::Stage;
use crate::text::{Room, begin_with_delivery, begin_with_line, write_with_lines};
use crate::turn::{Turn, refuse};
use harp_types::{ServerId, Sink};
use std::alloc::Global;
use trace_types::{Line, Step};

/// More deliveries than any pump needs.
const MOST_DELIVERIES: u64 = 1 << 40;

/// Takes a step of one server, of the clocks or of the group's delta, and writes its lines. The
/// text was begun with its event line. It goes into its callers, since a step is large, and each
/// call that hands it on moves it.
#[inline(always)]
fn take_elementary<W: Stage, K: Sink>(
    alloc: Global,
    number: u64,
    step: Step,
    room: &mut Room,
    world: &mut W,
    sink: &mut K,
) -> Result<Turn, Stop>
    requires elementary { is_elementary step ≡ true }
    requires begun { room.old.text.items ≡ trace_text (Line.Event step ∷ []) }
    requires readings { AreReadings (clocks_after (W.clocks world.old) step) }
    requires now { AreReadings (W.clocks world.old) }
    ensures ends { (all : Reading) (rest : Scene → Reading) (before : Option (List ℕ))
        → HasCome W.spellings all (with_step (measures_of W.spellings) number step rest) before
        (K.written sink.old) (W.stands world.old)
        → MatchResult result
        (TurnGives W.spellings all rest before (K.written sink.new) (W.stands world.new))
        (StopGives W.spellings all before (K.written sink.new) (W.stands world.new)) }
    ensures clocks { result ≡ Ok Turn.GoesOn → W.clocks world.new
        ≡ clocks_after (W.clocks world.old) step }
    ensures rose { result ≡ Err Stop.SinkFailed → Rose (K.faults sink.old) (K.faults sink.new) }
    ensures count { K.faults sink.old ≤ K.faults sink.new }
    ensures own { result ≡ Err Stop.SourceFailed → ⊥ }
{
    room.lines.clear();
    match world.step(alloc, step, &mut room.lines) {
        Ok(()) => match write_with_lines(alloc, &mut room.text, room.lines.as_slice(), sink) {
            Ok(()) => Ok(Turn::GoesOn),
            Err(stop) => Err(stop),
        },
        Err(refusal) => match refusal.fault() {
            Some(fault) => refuse(alloc, number, fault, sink),
            None => Err(Stop::NoMemory),
        },
    }
}

/// Delivers a packet, and writes the lines of its delivery.
fn deliver<W: Stage, K: Sink>(
    alloc: Global,
    number: u64,
    packet: u64,
    room: &mut Room,
    world: &mut W,
    sink: &mut K,
) -> Result<Turn, Stop>
    requires { AreReadings (W.clocks world.old) }
    ensures ends { (all : Reading) (rest : Scene → Reading) (before : Option (List ℕ))
        → HasCome W.spellings all
        (with_step (measures_of W.spellings) number (steps.Deliver packet) rest) before
        (K.written sink.old) (W.stands world.old)
        → MatchResult result
        (TurnGives W.spellings all rest before (K.written sink.new) (W.stands world.new))
        (StopGives W.spellings all before (K.written sink.new) (W.stands world.new)) }
    ensures clocks { result ≡ Ok Turn.GoesOn → W.clocks world.new ≡ W.clocks world.old }
    ensures rose { result ≡ Err Stop.SinkFailed → Rose (K.faults sink.old) (K.faults sink.new) }
    ensures count { K.faults sink.old ≤ K.faults sink.new }
    ensures own { result ≡ Err Stop.SourceFailed → ⊥ }
{
    match begin_with_delivery(alloc, packet, &mut room.text) {
        Ok(()) => take_elementary(alloc, number, Step::Deliver { packet }, room, world, sink),
        Err(_) => Err(Stop::NoMemory),
    }
}

/// Delivers the packets that were never delivered, in the order of their numbers, those sent
/// meanwhile too.
fn pump<W: Stage, K: Sink>(
    alloc: Global,
    number: u64,
    among: Option<(ServerId, ServerId)>,
    room: &mut Room,
    world: &mut W,
    sink: &mut K,
) -> Result<Turn, Stop>
    requires { AreReadings (W.clocks world.old) }
    ensures ends { (all : Reading) (rest : Scene → Reading) (before : Option (List ℕ))
        → HasCome W.spellings all
        (with_pump (measures_of W.spellings) number most_deliveries among rest) before
        (K.written sink.old) (W.stands world.old)
        → MatchResult result
        (TurnGives W.spellings all rest before (K.written sink.new) (W.stands world.new))
        (StopGives W.spellings all before (K.written sink.new) (W.stands world.new)) }
    ensures clocks { result ≡ Ok Turn.GoesOn → W.clocks world.new ≡ W.clocks world.old }
    ensures rose { result ≡ Err Stop.SinkFailed → Rose (K.faults sink.old) (K.faults sink.new) }
    ensures count { K.faults sink.old ≤ K.faults sink.new }
    ensures own { result ≡ Err Stop.SourceFailed → ⊥ }
{
    for _ in 0..MOST_DELIVERIES {
        let Some(packet) = world.next(among) else {
            return Ok(Turn::GoesOn);
        };
        match deliver(alloc, number, packet, room, world, sink) {
            Ok(Turn::GoesOn) => {}
            Ok(Turn::Ended) => return Ok(Turn::Ended),
            Ok(Turn::Refused) => return Ok(Turn::Refused),
            Err(stop) => return Err(stop),
        }
    }
    Ok(Turn::GoesOn)
}

/// Takes the step that the line with this number spells, and writes its lines. They are made
/// in the room, whatever that held.
pub fn take_step<W: Stage, K: Sink>(
    alloc: Global,
    number: u64,
    line: &[u8],
    step: Step,
    room: &mut Room,
    world: &mut W,
    sink: &mut K,
) -> Result<Turn, Stop>
    requires spelled { line.now ≡ step_text step }
    requires readings { AreReadings (clocks_after (W.clocks world.old) step) }
    requires now { AreReadings (W.clocks world.old) }
    ensures ends { (all : Reading) (rest : Scene → Reading) (before : Option (List ℕ))
        → HasCome W.spellings all
        (with_given (measures_of W.spellings) number (Ok (Some step)) rest) before
        (K.written sink.old) (W.stands world.old)
        → MatchResult result
        (TurnGives W.spellings all rest before (K.written sink.new) (W.stands world.new))
        (StopGives W.spellings all before (K.written sink.new) (W.stands world.new)) }
    ensures clocks { result ≡ Ok Turn.GoesOn → W.clocks world.new
        ≡ clocks_after (W.clocks world.old) step }
    ensures rose { result ≡ Err Stop.SinkFailed → Rose (K.faults sink.old) (K.faults sink.new) }
    ensures count { K.faults sink.old ≤ K.faults sink.new }
    ensures own { result ≡ Err Stop.SourceFailed → ⊥ }
{
    match step {
        Step::Pump { among } => pump(alloc, number, among, room, world, sink),
        step => match begin_with_line(line, &mut room.text) {
            Ok(()) => take_elementary(alloc, number, step, room, world, sink),
            Err(_) => Err(Stop::NoMemory),
        },
    }
}
