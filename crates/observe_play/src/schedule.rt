//! Playing an observed schedule: its steps are taken one after the other, and each step's lines are
//! written before the next step is taken.

ghost use Rattle.std.specs.Prelude.{◌≡◌, ◌≢◌, ◌⊎◌, ◌<◌, ◌≤◌, ◌+◌, ℕ, List, Option, length, IfOk};
ghost use Rattle.std.specs.Prelude.{MatchResult, None, Some, Ok, Err};
ghost use Rattle.harp_types.specs.Limits.{longest_line, most_lines};
ghost use Rattle.harp_types.specs.Streams.{Rose};
ghost use Rattle.line_reader.specs.Reading.{text_left};
ghost use Rattle.group_trace.specs.DiskCalls.{measures_of};
ghost use Rattle.group_trace.specs.DiskRun.{first_disk_scene};
ghost use Rattle.observed_text.specs.Grammar.{ExplainsObserved};
ghost use Rattle.observed_text.specs.Reading.{observed_meaning};
ghost use Rattle.schedule_play.specs.Exit.{exit_of, whole_exit};
ghost use Rattle.schedule_play.specs.OnTheWay.{AreBelow};
ghost use Rattle.observe_laws.specs.Reading.{ObservedReading, all_observed, observed_by, observed_reading};
ghost use Rattle.observe_laws.specs.Reading.{with_observed_given};
ghost use Rattle.observe_laws.specs.Scene.{ObservedScene};
ghost use Rattle.observe_play.specs.Ends.{EndsObserved, ObserveEnds};
ghost use Rattle.observe_play.specs.OnTheWay.{HasObserved, LeadsOn, ObservedLineGives, ObservedStop};
ghost use Rattle.observe_play.specs.OnTheWay.{ObservesOn};
ghost use Rattle.observe_play.specs.Watch.{WatchValue};

use crate::acting::take_act;
use crate::stage::ShowingStage;
use crate::stepping::take_step;
use crate::watch::Watch;
use harp_types::{MOST_LINES, Sink, Source};
use line_reader::{LineReader, Next, ReadFault};
use observed_text::{ObservedStep, TextFault, read_observed};
use schedule_play::{
    Exit, Room, Stage, Stop, Turn, exit_after, fault_of_long_line, refuse, write_last,
};
use std::alloc::Global;
use trace_types::{Line, LineFault};

/// What a play keeps from line to line, beside its world.
#[derive(Drop)]
struct Kept {
    reader: LineReader,
    room: Room,
    watch: Watch,
}

/// Writes the last line at the end of the input.
fn end<W: Stage, K: Sink>(alloc: Global, world: &W, sink: &mut K) -> Result<Turn, Stop>
    ensures ends { (all : ObservedReading) (before : Option (List ℕ)) (x : WatchValue)
        → HasObserved W.spellings all (λ w. all_observed) before (K.written sink.old)
        (W.stands world.now) x
        → MatchResult result (λ _. (all.refused ≡ None)
        × EndsObserved W.spellings all before (K.written sink.new) (W.stands world.now))
        (ObservedStop W.spellings all before (K.written sink.new) (W.stands world.now)) }
    ensures ended { IfOk result (λ turn. turn ≡ Turn.Ended) }
    ensures rose { result ≡ Err Stop.SinkFailed → Rose (K.faults sink.old) (K.faults sink.new) }
    ensures count { K.faults sink.old ≤ K.faults sink.new }
    ensures own { result ≡ Err Stop.SourceFailed → ⊥ }
{
    let last = Line::End {
        entered: world.entered(),
    };
    match write_last(alloc, last, sink) {
        Ok(()) => Ok(Turn::Ended),
        Err(stop) => Err(stop),
    }
}

/// Deals with a line that isn't too long.
fn take_line<W: ShowingStage, K: Sink>(
    alloc: Global,
    number: u64,
    line: &[u8],
    room: &mut Room,
    watch: &mut Watch,
    world: &mut W,
    sink: &mut K,
) -> Result<Turn, Stop>
    requires short { length line.now ≤ longest_line }
    requires below { AreBelow number (W.clocks world.old) }
    ensures ends { LeadsOn W.spellings
        (λ rest. with_observed_given (measures_of W.spellings) number (observed_by number line.now)
        rest)
        (W.stands world.old) (W.stands world.new) (K.written sink.old) (K.written sink.new)
        watch.old watch.new result }
    ensures below { result ≡ Ok Turn.GoesOn → AreBelow (number + 1) (W.clocks world.new) }
    ensures rose { result ≡ Err Stop.SinkFailed → Rose (K.faults sink.old) (K.faults sink.new) }
    ensures count { K.faults sink.old ≤ K.faults sink.new }
    ensures own { result ≡ Err Stop.SourceFailed → ⊥ }
    ensures last { most_lines < number → IfOk result (λ turn. turn ≢ Turn.GoesOn) }
{
    if number > MOST_LINES {
        return refuse(alloc, number, LineFault::TooMany, sink);
    }
    match read_observed(alloc, line) {
        Ok(None) => Ok(Turn::GoesOn),
        Ok(Some(ObservedStep::Played { step })) => {
            take_step(alloc, number, line, step, room, world, sink)
        }
        Ok(Some(ObservedStep::Acted { act })) => {
            take_act(alloc, number, act, watch, world, sink)
        }
        Err(TextFault::Grammar(_)) => refuse(alloc, number, LineFault::Grammar, sink),
        Err(TextFault::NoMemory) => Err(Stop::NoMemory),
    }
}

/// Reads the line with this number and deals with it. A line past the limit is refused.
fn play_line<W: ShowingStage, S: Source, K: Sink>(
    alloc: Global,
    number: u64,
    kept: &mut Kept,
    world: &mut W,
    source: &mut S,
    sink: &mut K,
) -> Result<Turn, Stop>
    requires { AreBelow number (W.clocks world.old) }
    ensures ends { (text : List ℕ) (before : Option (List ℕ))
        → ObservesOn W.spellings text number (text_left kept.old.reader (S.left source.old)) before
        (K.written sink.old) (W.stands world.old) kept.old.watch
        → MatchResult result
        (ObservedLineGives W.spellings text number (S.left source.new)
        (text_left kept.new.reader (S.left source.new)) before (K.written sink.new)
        (W.stands world.new) kept.new.watch)
        (λ stop. ObserveEnds W.spellings text (S.left source.new) before (K.written sink.new)
        (W.stands world.new) (exit_of stop)) }
    ensures last { most_lines < number → IfOk result (λ turn. turn ≢ Turn.GoesOn) }
    ensures below { result ≡ Ok Turn.GoesOn → AreBelow (number + 1) (W.clocks world.new) }
    ensures source_rose { result ≡ Err Stop.SourceFailed
        → Rose (S.faults source.old) (S.faults source.new) }
    ensures sink_rose { result ≡ Err Stop.SinkFailed
        → Rose (K.faults sink.old) (K.faults sink.new) }
    ensures source_count { S.faults source.old ≤ S.faults source.new }
    ensures sink_count { K.faults sink.old ≤ K.faults sink.new }
{
    match kept.reader.next(alloc, source) {
        Ok(Next::End) => end(alloc, world, sink),
        Ok(Next::TooLong) => refuse(alloc, number, fault_of_long_line(number), sink),
        Ok(Next::Line(line)) => {
            let turn = take_line(
                alloc,
                number,
                line.as_slice(),
                &mut kept.room,
                &mut kept.watch,
                world,
                sink,
            );
            kept.reader.take_back(line);
            turn
        }
        Err(ReadFault::Failed) => Err(Stop::SourceFailed),
        Err(ReadFault::NoMemory) => Err(Stop::NoMemory),
    }
}

/// Plays the lines of a source, one after the other.
fn play_lines<W: ShowingStage, S: Source, K: Sink>(
    alloc: Global,
    world: &mut W,
    source: &mut S,
    sink: &mut K,
) -> Result<Exit, Stop>
    requires { W.stands world.old first_disk_scene }
    ensures ends { (text : List ℕ) → S.left source.old ≡ Some text
        → MatchResult result (ObserveEnds W.spellings text (S.left source.new) (K.written sink.old)
        (K.written sink.new) (W.stands world.new))
        (λ stop. ObserveEnds W.spellings text (S.left source.new) (K.written sink.old)
        (K.written sink.new) (W.stands world.new) (exit_of stop)) }
    ensures whole { IfOk result (λ exit. (exit ≡ Exit.Done) ⊎ (exit ≡ Exit.RefusedLine)) }
    ensures source_rose { result ≡ Err Stop.SourceFailed
        → Rose (S.faults source.old) (S.faults source.new) }
    ensures sink_rose { result ≡ Err Stop.SinkFailed
        → Rose (K.faults sink.old) (K.faults sink.new) }
{
    let reader = match LineReader::new(alloc) {
        Ok(reader) => reader,
        Err(_) => return Err(Stop::NoMemory),
    };
    let mut kept = Kept {
        reader,
        room: Room::new(alloc),
        watch: Watch::new(alloc),
    };
    let mut number = 1;
    loop {
        match play_line(alloc, number, &mut kept, world, source, sink) {
            Ok(Turn::GoesOn) => number += 1,
            Ok(Turn::Ended) => return Ok(Exit::Done),
            Ok(Turn::Refused) => return Ok(Exit::RefusedLine),
            Err(stop) => return Err(stop),
        }
    }
}

/// Plays the observed schedule of a source in a world that stands at the first scene, with an
/// observer to which nothing was shown, and writes its observed trace to a sink: the lines of each
/// step before the next step is taken.
pub fn observe<W: ShowingStage, S: Source, K: Sink>(
    alloc: Global,
    world: &mut W,
    source: &mut S,
    sink: &mut K,
) -> Exit
    requires { W.stands world.old first_disk_scene }
    // What was written, what the source has left, and which world is left.
    ensures ends { (text : List ℕ) → S.left source.old ≡ Some text
        → ObserveEnds W.spellings text (S.left source.new) (K.written sink.old)
        (K.written sink.new) (W.stands world.new) result }
    // Where neither the source nor the sink failed, the whole observed trace was written unless
    // memory ran out.
    ensures complete { (text : List ℕ) → S.left source.old ≡ Some text
        → (Rose (S.faults source.old) (S.faults source.new) → ⊥)
        → (Rose (K.faults sink.old) (K.faults sink.new) → ⊥)
        → (result ≡ whole_exit (observed_reading (measures_of W.spellings) text).refused)
        ⊎ (result ≡ Exit.NoMemory) }
    // The causes that hold of a source that tells no bytes too.
    ensures source_rose { result ≡ Exit.SourceFailed
        → Rose (S.faults source.old) (S.faults source.new) }
    ensures sink_rose { result ≡ Exit.SinkFailed → Rose (K.faults sink.old) (K.faults sink.new) }
    // What each line of a text means, by the grammar of observed schedules.
    ensures meaning { (line : List ℕ) → ExplainsObserved line (observed_meaning line) }
{
    exit_after(play_lines(alloc, world, source, sink))
}
