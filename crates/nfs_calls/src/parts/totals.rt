//! What holds of the whole tree, read in its cell.

ghost use Rattle.std.specs.Prelude.{◌≡◌, ◌≤◌, Some, Err, IfOk, length};
ghost use Rattle.harp_types.specs.Streams.{Rose};
ghost use Rattle.harp_cells.specs.Effect.{Cells};
ghost use Rattle.file_tree.specs.Tree.{used_blocks};
ghost use Rattle.cell_changes.specs.TreeCells.{TreeCells};
ghost use Rattle.nfs_calls.specs.TreeCells.{totals_found};

use harp_cells::{Cell, CellFault, CellRead, Value};

/// The next object's number, and the used blocks of 4096 bytes.
#[derive(Clone, Copy)]
pub struct Totals {
    pub next: u32,
    pub used: u32,
}

fn totals_in(value: &Value) -> Totals
    ensures { result ≡ totals_found (Some value.now) }
{
    match value {
        Value::Meta { next, used, .. } => Totals {
            next: *next,
            used: *used,
        },
        Value::Object { .. }
        | Value::Block { .. }
        | Value::Slot { .. }
        | Value::Client { .. }
        | Value::Unformed { .. }
        | Value::Saved { .. }
        | Value::SavedCred { .. } => Totals { next: 2, used: 0 },
    }
}

fn totals_found<R: CellRead>(cells: &R) -> Totals
    ensures { result ≡ totals_found (R.found cells.now) }
{
    match cells.value() {
        Some(value) => totals_in(value),
        None => Totals { next: 2, used: 0 },
    }
}

/// What holds of the whole tree.
#[tactic(auto, using(crate::proofs::Inodes::totals_read))]
pub fn read_totals<R: CellRead>(cells: &mut R) -> Result<Totals, CellFault>
    ensures totals { (t : TreeCells) → R.cells cells.old ≡ Some t.cells
        → IfOk result (λ m. m ≡ record { next = length t.tree; used = used_blocks t.tree }) }
    ensures kept { R.cells cells.new ≡ R.cells cells.old }
    ensures left { R.left cells.new ≡ R.left cells.old }
    ensures rose { result ≡ Err CellFault.StoreFailed
        → Rose (R.faults cells.old) (R.faults cells.new) }
    ensures count { R.faults cells.old ≤ R.faults cells.new }
{
    cells.fetch(Cell::Meta)?;
    Ok(totals_found(cells))
}
