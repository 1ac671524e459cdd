//! The answer to a read.

ghost use Rattle.std.specs.Prelude.{◌≡◌, ◌≤◌, ℕ, Some, Err, IfOk, false};
ghost use Rattle.nfs_calls.specs.Forms.{IsReplyTo, form, form_given};
ghost use Rattle.harp_types.specs.Streams.{Rose};
ghost use Rattle.harp_types.specs.Update.{is_update};
ghost use Rattle.harp_types.specs.declared.attr.Time.{Time};
ghost use Rattle.file_tree.specs.Calls.{answered, outcome};
ghost use Rattle.cell_changes.specs.TreeCells.{TreeCells};
ghost use Rattle.nfs_calls.specs.Gives.{Gives};

use crate::error::CallError;
use crate::reads::calls::{get_attr, lookup, read, read_dir, read_link, stat_fs};
use harp_cells::{CellFault, CellRead};
use harp_types::{Call, Cred, Reply};
use std::alloc::Global;

/// The reply to a read, or its refusal.
fn answered<R: CellRead>(
    alloc: Global,
    cells: &mut R,
    cred: Cred,
    call: &Call,
) -> Result<Reply, CallError>
    requires { is_update call.now ≡ false }
    ensures reply { (t : TreeCells) (now : Time) → R.cells cells.old ≡ Some t.cells
        → Gives (λ r. (r, t.tree)) result (answered t.tree cred call.now now) }
    ensures form { IfOk result (λ r. form r ≡ form_given call.now) }
    ensures kept { R.cells cells.new ≡ R.cells cells.old }
    ensures left { R.left cells.new ≡ R.left cells.old }
    ensures rose { result ≡ Err (CallError.Fault CellFault.StoreFailed)
        → Rose (R.faults cells.old) (R.faults cells.new) }
    ensures count { R.faults cells.old ≤ R.faults cells.new }
{
    match call {
        Call::Null => Ok(Reply::Done),
        Call::GetAttr { handle } => get_attr(cells, *handle),
        Call::Lookup { dir, name } => lookup(cells, cred, *dir, name.as_slice()),
        Call::ReadLink { handle } => read_link(alloc, cells, *handle),
        Call::Read {
            handle,
            offset,
            count,
        } => read(alloc, cells, cred, *handle, *offset, *count),
        Call::ReadDir { dir, cookie, count } => read_dir(alloc, cells, cred, *dir, *cookie, *count),
        Call::StatFs { handle } => stat_fs(cells, *handle),
        _ => unreachable!(),
    }
}

/// The reply to a caller's read over cells that stand for a sound tree: that of its outcome, which
/// no stamp changes. A status of NFS is a reply. It reads no more cells than the call needs: of a
/// directory's slots those up to the entry that is looked up or that ends the page, and of a file
/// the blocks that are read.
pub fn answer<R: CellRead>(
    alloc: Global,
    cells: &mut R,
    cred: Cred,
    call: &Call,
) -> Result<Reply, CellFault>
    requires { is_update call.now ≡ false }
    ensures reply { (t : TreeCells) (stamp : ℕ) → R.cells cells.old ≡ Some t.cells
        → IfOk result (λ reply. reply ≡ (outcome t.tree cred call.now stamp).0) }
    // Over any cells: a refusal, or what the call gives.
    ensures form { IfOk result (IsReplyTo call.now) }
    ensures kept { R.cells cells.new ≡ R.cells cells.old }
    ensures left { R.left cells.new ≡ R.left cells.old }
    ensures rose { result ≡ Err CellFault.StoreFailed
        → Rose (R.faults cells.old) (R.faults cells.new) }
    ensures count { R.faults cells.old ≤ R.faults cells.new }
{
    match answered(alloc, cells, cred, call) {
        Ok(reply) => Ok(reply),
        Err(CallError::Status(status)) => Ok(Reply::Refused { status }),
        Err(CallError::Fault(fault)) => Err(fault),
    }
}
