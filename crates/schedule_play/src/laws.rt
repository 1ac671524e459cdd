//! What the trace of every schedule's text is.

ghost use Rattle.std.specs.Prelude.{◌≡◌, ℕ, List};
ghost use Rattle.trace_laws.specs.DiskLaws.{DiskRunIsRight};
ghost use Rattle.group_trace.specs.DiskCalls.{Spellings, measures_of};
ghost use Rattle.group_trace.specs.Run.{AreTaken};
ghost use Rattle.group_trace.specs.Scene.{Measures, first_scene};
ghost use Rattle.schedule_text.specs.Grammar.{Explains};
ghost use Rattle.schedule_text.specs.Reading.{meaning_of};
ghost use Rattle.trace_claims.specs.Right.{IsRight};
ghost use Rattle.trace_claims.specs.Trace.{AtEachPlace, entries, steps};
ghost use Rattle.trace_laws.specs.FirstParts.{FirstPartsAreRight};
ghost use Rattle.trace_laws.specs.Laws.{StandsInGroup};
ghost use Rattle.schedule_play.specs.Reading.{reading};
ghost use Rattle.schedule_play.specs.Trace.{group_left, trace_of};

/// Each line of a text means one thing, and of the steps that are read none is refused. The trace
/// of every text is right, whatever the bytes of records and messages: one closed trace of these
/// steps, whose entered lines are the book of the group that they leave. Each answered update
/// stands in every later view of that group, and its disks are right. Each first part of the lines
/// is right so far.
pub fn every_text()
    ensures meaning { (line : List ℕ) → Explains line (meaning_of line) }
    ensures taken { (m : Measures) (text : List ℕ)
        → AreTaken m first_scene (reading m text).steps }
    ensures right { (m : Measures) (text : List ℕ) → IsRight (trace_of m text) }
    ensures events { (m : Measures) (text : List ℕ)
        → steps (trace_of m text) ≡ (reading m text).steps }
    ensures book { (m : Measures) (text : List ℕ)
        → entries (trace_of m text) ≡ (group_left m text).book }
    ensures views { (m : Measures) (text : List ℕ)
        → AtEachPlace (StandsInGroup (group_left m text)) (trace_of m text) }
    ensures disks { (f : Spellings) (text : List ℕ)
        → DiskRunIsRight f (reading (measures_of f) text).steps }
    ensures parts { (m : Measures) (text : List ℕ)
        → FirstPartsAreRight m (reading m text).steps }
{}
