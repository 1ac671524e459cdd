//! When the findings of an audit are empty, and what stands then.

ghost use Rattle.audit.specs.Laws.{NamedCellsStand, NothingIsFoundInATree, SoundWhereNothingIsFound};
ghost use Rattle.audit.specs.Laws.{WellCellsStandForOne, WholeTreesStand};

/// Nothing is found exactly in pictures that are sound; well-formed cells stand for a tree then,
/// and those that their picture names for the whole tree.
pub fn audit_laws()
    ensures sound { SoundWhereNothingIsFound }
    ensures nothing { NothingIsFoundInATree }
    ensures whole { WholeTreesStand }
    ensures one { WellCellsStandForOne }
    ensures named { NamedCellsStand }
{}
