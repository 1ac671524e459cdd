//! The lines of a listing are those of its tree.

ghost use Rattle.world_lines.specs.Laws.{CountIsLiving, LinesAreTheTrees};

/// The lines of a tree's listing are the lines of the tree, and it has as many objects as live.
pub fn listing_laws()
    ensures lines { LinesAreTheTrees }
    ensures count { CountIsLiving }
{}
