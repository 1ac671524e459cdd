//! Playing a schedule: its steps are taken one after the other, and each step's lines are written
//! before the next step is taken.

ghost use Rattle.std.specs.Prelude.{◌≡◌, ◌≢◌, ◌⊎◌, ◌<◌, ◌≤◌, ◌+◌, ℕ, List, Option, length, IfOk};
ghost use Rattle.std.specs.Prelude.{MatchResult, Some, Ok, Err};
ghost use Rattle.harp_types.specs.Limits.{longest_line, most_lines};
ghost use Rattle.harp_types.specs.Streams.{Rose};
ghost use Rattle.line_reader.specs.Reading.{text_left};
ghost use Rattle.trace_laws.specs.DiskLaws.{DiskRunIsRight};
ghost use Rattle.group_trace.specs.DiskCalls.{measures_of};
ghost use Rattle.group_trace.specs.DiskRun.{first_disk_scene};
ghost use Rattle.group_trace.specs.Run.{AreTaken};
ghost use Rattle.group_trace.specs.Scene.{Scene, first_scene};
ghost use Rattle.schedule_text.specs.Grammar.{Explains};
ghost use Rattle.schedule_text.specs.Reading.{meaning_of};
ghost use Rattle.trace_claims.specs.Right.{IsRight};
ghost use Rattle.trace_claims.specs.Trace.{AtEachPlace, entries, steps};
ghost use Rattle.trace_laws.specs.FirstParts.{FirstPartsAreRight};
ghost use Rattle.trace_laws.specs.Laws.{StandsInGroup};
ghost use Rattle.schedule_play.specs.Ends.{PlayEnds};
ghost use Rattle.schedule_play.specs.Exit.{exit_of, whole_exit};
ghost use Rattle.schedule_play.specs.OnTheWay.{AreBelow, GoesOn, HasCome, LineGives, StopGives};
ghost use Rattle.schedule_play.specs.OnTheWay.{TurnGives};
ghost use Rattle.schedule_play.specs.Reading.{Reading, given_by, reading, with_given};
ghost use Rattle.schedule_play.specs.Trace.{group_left, trace_of};

use crate::exit::{Exit, Stop, exit_after};
use crate::stage::Stage;
use crate::step::take_step;
use crate::text::Room;
use crate::turn::{Turn, end, refuse};
use harp_types::{MOST_LINES, Sink, Source};
use line_reader::{LineReader, Next, ReadFault};
use schedule_text::{TextFault, read_step};
use std::alloc::Global;
use trace_types::LineFault;

/// Why a line with this number is refused that is too long: past the limit no line is looked at.
pub fn fault_of_long_line(number: u64) -> LineFault
    ensures { (line : List ℕ) → longest_line < length line → given_by number line ≡ Err result }
{
    if number > MOST_LINES {
        LineFault::TooMany
    } else {
        LineFault::TooLong
    }
}

/// Deals with a line that isn't too long.
fn take_line<W: Stage, K: Sink>(
    alloc: Global,
    number: u64,
    line: &[u8],
    room: &mut Room,
    world: &mut W,
    sink: &mut K,
) -> Result<Turn, Stop>
    requires short { length line.now ≤ longest_line }
    requires below { AreBelow number (W.clocks world.old) }
    ensures ends { (all : Reading) (rest : Scene → Reading) (before : Option (List ℕ))
        → HasCome W.spellings all
        (with_given (measures_of W.spellings) number (given_by number line.now) rest) before
        (K.written sink.old) (W.stands world.old)
        → MatchResult result
        (TurnGives W.spellings all rest before (K.written sink.new) (W.stands world.new))
        (StopGives W.spellings all before (K.written sink.new) (W.stands world.new)) }
    ensures below { result ≡ Ok Turn.GoesOn → AreBelow (number + 1) (W.clocks world.new) }
    ensures rose { result ≡ Err Stop.SinkFailed → Rose (K.faults sink.old) (K.faults sink.new) }
    ensures count { K.faults sink.old ≤ K.faults sink.new }
    ensures own { result ≡ Err Stop.SourceFailed → ⊥ }
    ensures last { most_lines < number → IfOk result (λ turn. turn ≢ Turn.GoesOn) }
{
    if number > MOST_LINES {
        return refuse(alloc, number, LineFault::TooMany, sink);
    }
    match read_step(alloc, line) {
        Ok(None) => Ok(Turn::GoesOn),
        Ok(Some(step)) => take_step(alloc, number, line, step, room, world, sink),
        Err(TextFault::Grammar(_)) => refuse(alloc, number, LineFault::Grammar, sink),
        Err(TextFault::NoMemory) => Err(Stop::NoMemory),
    }
}

/// Reads the line with this number and deals with it. A line past the limit is refused.
fn play_line<W: Stage, S: Source, K: Sink>(
    alloc: Global,
    number: u64,
    reader: &mut LineReader,
    room: &mut Room,
    world: &mut W,
    source: &mut S,
    sink: &mut K,
) -> Result<Turn, Stop>
    requires { AreBelow number (W.clocks world.old) }
    ensures ends { (text : List ℕ) (before : Option (List ℕ))
        → GoesOn W.spellings text number (text_left reader.old (S.left source.old)) before
        (K.written sink.old) (W.stands world.old)
        → MatchResult result
        (LineGives W.spellings text number (S.left source.new)
        (text_left reader.new (S.left source.new)) before (K.written sink.new)
        (W.stands world.new))
        (λ stop. PlayEnds W.spellings text (S.left source.new) before (K.written sink.new)
        (W.stands world.new) (exit_of stop)) }
    ensures last { most_lines < number → IfOk result (λ turn. turn ≢ Turn.GoesOn) }
    ensures below { result ≡ Ok Turn.GoesOn → AreBelow (number + 1) (W.clocks world.new) }
    ensures source_rose { result ≡ Err Stop.SourceFailed
        → Rose (S.faults source.old) (S.faults source.new) }
    ensures sink_rose { result ≡ Err Stop.SinkFailed
        → Rose (K.faults sink.old) (K.faults sink.new) }
    ensures source_count { S.faults source.old ≤ S.faults source.new }
    ensures sink_count { K.faults sink.old ≤ K.faults sink.new }
{
    match reader.next(alloc, source) {
        Ok(Next::End) => match end(alloc, world, sink) {
            Ok(()) => Ok(Turn::Ended),
            Err(stop) => Err(stop),
        },
        Ok(Next::TooLong) => refuse(alloc, number, fault_of_long_line(number), sink),
        Ok(Next::Line(line)) => {
            let turn = take_line(alloc, number, line.as_slice(), room, world, sink);
            reader.take_back(line);
            turn
        }
        Err(ReadFault::Failed) => Err(Stop::SourceFailed),
        Err(ReadFault::NoMemory) => Err(Stop::NoMemory),
    }
}

/// Plays the lines of a source, one after the other.
fn play_lines<W: Stage, S: Source, K: Sink>(
    alloc: Global,
    world: &mut W,
    source: &mut S,
    sink: &mut K,
) -> Result<Exit, Stop>
    requires { W.stands world.old first_disk_scene }
    ensures ends { (text : List ℕ) → S.left source.old ≡ Some text
        → MatchResult result (PlayEnds W.spellings text (S.left source.new) (K.written sink.old)
        (K.written sink.new) (W.stands world.new))
        (λ stop. PlayEnds W.spellings text (S.left source.new) (K.written sink.old)
        (K.written sink.new) (W.stands world.new) (exit_of stop)) }
    ensures whole { IfOk result (λ exit. (exit ≡ Exit.Done) ⊎ (exit ≡ Exit.RefusedLine)) }
    ensures source_rose { result ≡ Err Stop.SourceFailed
        → Rose (S.faults source.old) (S.faults source.new) }
    ensures sink_rose { result ≡ Err Stop.SinkFailed
        → Rose (K.faults sink.old) (K.faults sink.new) }
{
    let mut reader = match LineReader::new(alloc) {
        Ok(reader) => reader,
        Err(_) => return Err(Stop::NoMemory),
    };
    let mut room = Room::new(alloc);
    let mut number = 1;
    loop {
        match play_line(alloc, number, &mut reader, &mut room, world, source, sink) {
            Ok(Turn::GoesOn) => number += 1,
            Ok(Turn::Ended) => return Ok(Exit::Done),
            Ok(Turn::Refused) => return Ok(Exit::RefusedLine),
            Err(stop) => return Err(stop),
        }
    }
}

/// Plays the schedule of a source in a world that stands at the first scene, and writes its trace
/// to a sink: the lines of each step before the next step is taken.
///
/// It ends as done at the end of the source, or with the first line that is refused, with a last
/// line each time; and without one where the source or the sink fails, or without memory. A line
/// past the 50,000th and one of more than 20,000 bytes are refused. Nothing is said of the bytes of
/// a source or a sink that doesn't tell them.
pub fn play<W: Stage, S: Source, K: Sink>(
    alloc: Global,
    world: &mut W,
    source: &mut S,
    sink: &mut K,
) -> Exit
    requires { W.stands world.old first_disk_scene }
    // What was written, what the source has left, and which world is left.
    ensures ends { (text : List ℕ) → S.left source.old ≡ Some text
        → PlayEnds W.spellings text (S.left source.new) (K.written sink.old)
        (K.written sink.new) (W.stands world.new) result }
    // Where neither the source nor the sink failed, the whole trace was written unless memory ran
    // out.
    ensures complete { (text : List ℕ) → S.left source.old ≡ Some text
        → (Rose (S.faults source.old) (S.faults source.new) → ⊥)
        → (Rose (K.faults sink.old) (K.faults sink.new) → ⊥)
        → (result ≡ whole_exit (reading (measures_of W.spellings) text).refused)
        ⊎ (result ≡ Exit.NoMemory) }
    // The causes that hold of a source that tells no bytes too.
    ensures source_rose { result ≡ Exit.SourceFailed
        → Rose (S.faults source.old) (S.faults source.new) }
    ensures sink_rose { result ≡ Exit.SinkFailed → Rose (K.faults sink.old) (K.faults sink.new) }
    // What each line of a text means, by the grammar of steps.
    ensures meaning { (line : List ℕ) → Explains line (meaning_of line) }
    // The steps that are read of a text: none is refused.
    ensures taken { (text : List ℕ) → AreTaken (measures_of W.spellings) first_scene
        (reading (measures_of W.spellings) text).steps }
    // What the trace of a text is: closed, faithful, acknowledged, answered at once, and the rest.
    ensures right { (text : List ℕ) → IsRight (trace_of (measures_of W.spellings) text) }
    ensures events { (text : List ℕ) → steps (trace_of (measures_of W.spellings) text)
        ≡ (reading (measures_of W.spellings) text).steps }
    // What the group is that the steps of a text leave.
    ensures book { (text : List ℕ) → entries (trace_of (measures_of W.spellings) text)
        ≡ (group_left (measures_of W.spellings) text).book }
    ensures views { (text : List ℕ)
        → AtEachPlace (StandsInGroup (group_left (measures_of W.spellings) text))
        (trace_of (measures_of W.spellings) text) }
    ensures disks { (text : List ℕ)
        → DiskRunIsRight W.spellings (reading (measures_of W.spellings) text).steps }
    // What each first part of its lines is.
    ensures parts { (text : List ℕ) → FirstPartsAreRight (measures_of W.spellings)
        (reading (measures_of W.spellings) text).steps }
{
    exit_after(play_lines(alloc, world, source, sink))
}
