//! What a play writes is what the checker accepts, and what its pumps leave.

ghost use Rattle.group_trace.specs.DiskCalls.{measures_of};
ghost use Rattle.world_rules.specs.Spellings.{spellings};
ghost use Rattle.accept_laws.specs.AcceptLaws.{PlaysAreAccepted};
ghost use Rattle.accept_laws.specs.PumpLaws.{PumpsLeaveNone};

/// The text of the trace of each schedule whose lines have at most 19,998 bytes is a right text:
/// each line of it can be read and is the spelling of the trace's line, and the trace is closed,
/// faithful and acknowledged, uses promises, and has at most 2^40 lines.
pub fn accepted_texts()
    ensures accepted { PlaysAreAccepted }
{}

/// Where lines of a schedule end with a pump, and none of them is refused, each packet among its
/// servers was delivered.
pub fn pumped_lines()
    ensures pumped { PumpsLeaveNone (measures_of spellings) }
{}
