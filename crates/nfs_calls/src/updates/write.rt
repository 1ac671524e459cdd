//! Bytes that are written.

ghost use Rattle.std.specs.Prelude.{◌≡◌, ◌≤◌, ◌+◌, Some, Err, IfOk, length};
ghost use Rattle.harp_types.specs.Limits.{largest_file, longest_transfer};
ghost use Rattle.harp_types.specs.Streams.{Rose};
ghost use Rattle.harp_types.specs.declared.call.Call.TheVariants as call;
ghost use Rattle.file_tree.specs.Outcome.{write};
ghost use Rattle.harp_cells.specs.Effect.{Cells};
ghost use Rattle.inode_blocks.specs.Changes.{puts};
ghost use Rattle.cell_changes.specs.Short.{AreShort};
ghost use Rattle.cell_changes.specs.TreeCells.{TreeCells};
ghost use Rattle.nfs_calls.specs.Plans.{plan_view, planned, totals_of};
ghost use Rattle.nfs_calls.specs.Gives.{Gives};
ghost use Rattle.nfs_calls.specs.Forms.{attr_form, form};

use crate::error::CallError;
use crate::parts::file::bytes_in;
use crate::parts::inode::{attr_by, live};
use crate::parts::names::refuse;
use crate::parts::permissions::allowed;
use crate::parts::pushes::put_object;
use crate::parts::space::replaced;
use crate::parts::totals::Totals;
use crate::updates::planned::Planned;
use file_tree::TO_WRITE;
use harp_cells::{CellFault, CellRead, Change, Inode};
use harp_types::{Cred, LARGEST_FILE, Reply, Status, Time};
use inode_blocks::write_bytes;
use std::alloc::Global;

/// The changes that place bytes in a file of a size.

fn place<R: CellRead>(
    alloc: Global,
    cells: &mut R,
    handle: u32,
    size: u32,
    offset: u32,
    bytes: &[u8],
) -> Result<Vec<Change>, CellFault>
    requires { offset + length bytes.now ≤ largest_file }
    ensures changes { (held : Cells) → R.cells cells.old ≡ Some held
        → IfOk result (λ changes. changes.items ≡ puts held handle size offset bytes.now) }
    ensures short { length bytes.now ≤ longest_transfer
        → IfOk result (λ changes. AreShort 3 changes.items) }
    ensures kept { R.cells cells.new ≡ R.cells cells.old }
    ensures left { R.left cells.new ≡ R.left cells.old }
    ensures rose { result ≡ Err CellFault.StoreFailed
        → Rose (R.faults cells.old) (R.faults cells.new) }
    ensures count { R.faults cells.old ≤ R.faults cells.new }
{
    let mut changes = Vec::new(alloc);
    write_bytes(alloc, cells, handle, size, offset, bytes, &mut changes)?;
    Ok(changes)
}

/// WRITE (RFC 1094, section 2.2.9): a gap is filled with zeros, and no bytes change nothing.
#[tactic(auto, unfolding(file_tree::specs::Outcome::write))]
pub fn write<R: CellRead>(
    alloc: Global,
    cells: &mut R,
    totals: Totals,
    cred: Cred,
    handle: u32,
    offset: u32,
    bytes: &[u8],
    now: Time,
) -> Result<Planned, CallError>
    ensures plan { (t : TreeCells) → R.cells cells.old ≡ Some t.cells → totals ≡ totals_of t.tree
        → Gives plan_view result
        (planned t.cells t.tree (call.Write handle offset bytes.now)
        (write t.tree cred handle offset bytes.now now)) }
    ensures short { length bytes.now ≤ longest_transfer
        → IfOk result (λ p. AreShort 13 p.changes.items) }
    ensures form { IfOk result (λ p. form p.reply ≡ attr_form) }
    ensures kept { R.cells cells.new ≡ R.cells cells.old }
    ensures left { R.left cells.new ≡ R.left cells.old }
    ensures rose { result ≡ Err (CallError.Fault CellFault.StoreFailed)
        → Rose (R.faults cells.old) (R.faults cells.new) }
    ensures count { R.faults cells.old ≤ R.faults cells.new }
{
    let inode = live(cells, handle)?;
    bytes_in(inode.kind)?;
    allowed(cred, &inode, TO_WRITE)?;
    let end = u64::from(offset) + bytes.len() as u64;
    refuse(Status::FBig, end > LARGEST_FILE as u64)?;
    if bytes.is_empty() {
        return Ok(Planned {
            reply: Reply::Attr {
                attr: attr_by(handle, &inode),
            },
            changes: Vec::new(alloc),
            totals,
        });
    }
    let size = inode.size.max(end as u32);
    let used = replaced(u64::from(totals.used), inode.size, u64::from(size))?;
    let mut changes = place(alloc, cells, handle, inode.size, offset, bytes)?;
    let new = Inode {
        size,
        mtime: now,
        ctime: now,
        ..inode
    };
    put_object(alloc, &mut changes, handle, &new)?;
    Ok(Planned {
        reply: Reply::Attr {
            attr: attr_by(handle, &new),
        },
        changes,
        totals: Totals {
            next: totals.next,
            used,
        },
    })
}
