//! What holds of the changes of every update.

ghost use Rattle.cell_changes.specs.Laws.{UpdatesLead, OthersStay};

/// The changes of an update lead from cells that stand for a sound tree to cells that stand for the
/// tree of its outcome. Changes of cells of the tree leave those of clients and of saved logs.
pub fn update_laws()
    ensures lead { UpdatesLead }
    ensures others { OthersStay }
{}
