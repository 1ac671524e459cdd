//! What holds of every text, with the records and messages of these servers.

ghost use Rattle.std.specs.Prelude.{◌≡◌, ℕ, List};
ghost use Rattle.group_trace.specs.Run.{AreTaken};
ghost use Rattle.group_trace.specs.Scene.{first_scene};
ghost use Rattle.schedule_play.specs.Reading.{reading};
ghost use Rattle.schedule_play.specs.Trace.{group_left, trace_of};
ghost use Rattle.trace_claims.specs.Linearizable.{IsLinearizable};
ghost use Rattle.trace_claims.specs.Right.{IsRight};
ghost use Rattle.trace_claims.specs.Trace.{AtEachPlace, entries, steps};
ghost use Rattle.trace_laws.specs.FirstParts.{FirstPartsAreRight};
ghost use Rattle.trace_laws.specs.Laws.{StandsInGroup};
ghost use Rattle.play_commands.specs.Play.{sizes};

use schedule_play::every_text;
use trace_claims::faithful_is_linearizable;

/// None of the steps that are read of a text is refused. Its trace is right, has these steps as its
/// event lines, and the history of the group that they leave as its entered lines.
pub fn traced_texts()
    ensures taken { (text : List ℕ) → AreTaken sizes first_scene (reading sizes text).steps }
    ensures right { (text : List ℕ) → IsRight (trace_of sizes text) }
    ensures events { (text : List ℕ) → steps (trace_of sizes text) ≡ (reading sizes text).steps }
    ensures book { (text : List ℕ)
        → entries (trace_of sizes text) ≡ (group_left sizes text).book }
    ensures views { (text : List ℕ)
        → AtEachPlace (StandsInGroup (group_left sizes text)) (trace_of sizes text) }
    ensures parts { (text : List ℕ) → FirstPartsAreRight sizes (reading sizes text).steps }
{
    every_text();
}

/// The trace of every text is linearizable.
pub fn linearizable_texts()
    ensures { (text : List ℕ) → IsLinearizable (trace_of sizes text) }
{
    every_text();
    faithful_is_linearizable();
}
