//! What holds of the cells of every tree.

ghost use Rattle.harp_cells.specs.Laws.{NoValuesAreFirst, CellsStand, BlocksEnd, SlotsEnd, DeadAreAbsent, ChangesAppend};

/// Without any value, cells stand for the first tree and no updates; the cells of a tree and its
/// updates stand for them; and a block past its file's end, a slot past the number of slots and the
/// cells of an object that isn't live are absent. Changes made after others are those of both in a
/// row.
pub fn cell_laws()
    ensures first { NoValuesAreFirst }
    ensures stand { CellsStand }
    ensures blocks { BlocksEnd }
    ensures slots { SlotsEnd }
    ensures dead { DeadAreAbsent }
    ensures appended { ChangesAppend }
{}
