//! What the records of a log make of one cell.

ghost use Rattle.std.specs.Prelude.{◌≡◌, ◌+◌, ◌≤◌, ◌∷◌, [], length, true, false};
ghost use Rattle.overlay.specs.Index.{IsIndexOf};
ghost use Rattle.overlay.specs.Overlay.{IsToldBy, Leaves, Sets, value_of, changes_upto};

use crate::index::CellIndex;
use harp_cells::{Cell, Change, ChangeLog};

// Whether a change sets a cell.
#[tactic(auto, unfolding(harp_cells::specs::Effect::sets))]
fn sets(change: &Change, cell: Cell) -> bool
    ensures leaves { result ≡ false → Leaves cell (change.now ∷ []) }
    ensures sets { result ≡ true → Sets cell (change.now ∷ []) (value_of change.now) }
{
    change.sets(cell)
}

// The changes from the last one on that sets the cell.
fn from_last(changes: &[Change], cell: Cell) -> &[Change]
    ensures { IsToldBy cell changes.now result.now }
{
    let mut at = changes.len();
    while at > 0 {
        at -= 1;
        if sets(&changes[at], cell) {
            return &changes[at..];
        }
    }
    &[]
}

/// The changes of a record from the last one on that sets the cell, in the last record up to an
/// index that does; none where none does. Of the records only those are looked at that may set the
/// cell, from the last one down.
pub fn last_set<'a, L: ChangeLog>(
    index: &CellIndex,
    log: &'a L,
    upto: u64,
    cell: Cell,
) -> &'a [Change]
    requires index { IsIndexOf index.now (L.base log.now) (L.records log.now) }
    requires to { upto ≤ L.base log.now + length (L.records log.now) }
    ensures { IsToldBy cell (changes_upto (L.base log.now) (L.records log.now) upto) result.now }
{
    let mut below = upto;
    while let Some(record) = index.last_for(cell, below) {
        let found = from_last(log.changes(record), cell);
        if !found.is_empty() {
            return found;
        }
        below = record - 1;
    }
    &[]
}
