//! The verdict on cells.

ghost use Rattle.std.specs.Prelude.{◌≡◌, ◌≤◌, Err, IfOk, Some};
ghost use Rattle.audit.specs.Entries.{AreByNumber};
ghost use Rattle.audit.specs.Pictures.{picture_of};
ghost use Rattle.harp_cells.specs.Effect.{Cells};
ghost use Rattle.harp_types.specs.Streams.{Rose};
ghost use Rattle.audit_verdict.specs.Verdicts.{AreOfTree, IsVerdictOn};

use crate::verdict::Verdict;
use audit::{Named, Picture, audit_laws, audit_many, gather};
use harp_cells::{CellFault, CellRead};
use std::alloc::Global;
use std::thread::Threads;
use tree_listing::{Listed, Listing, Row, list_tree};

/// The objects of the tree that cells stand for, of which this is the picture.
fn objects_of<C: CellRead>(
    alloc: Global,
    cells: &mut C,
    picture: &Picture,
) -> Result<Row<Listed>, CellFault>
    requires { AreByNumber picture.now.objects }
    ensures objects { (held : Cells) → C.cells cells.old ≡ Some held
        → picture.now ≡ picture_of held → IfOk result (AreOfTree held) }
    ensures left { C.left cells.new ≡ C.left cells.old }
    ensures rose { result ≡ Err CellFault.StoreFailed
        → Rose (C.faults cells.old) (C.faults cells.new) }
    ensures count { C.faults cells.old ≤ C.faults cells.new }
{
    audit_laws();
    let mut named = Named::new(cells, picture.objects.as_slice());
    list_tree(alloc, &mut named)
}

/// The verdict on the cells after so many updates.
pub(crate) fn judge<R: Threads + Sync, C: CellRead>(
    rt: &R,
    alloc: Global,
    cp: u64,
    cells: &mut C,
) -> Result<Verdict, CellFault>
    ensures verdict { (held : Cells) → C.cells cells.old ≡ Some held
        → IfOk result (IsVerdictOn cp held) }
    ensures left { C.left cells.new ≡ C.left cells.old }
    ensures rose { result ≡ Err CellFault.StoreFailed
        → Rose (C.faults cells.old) (C.faults cells.new) }
    ensures count { C.faults cells.old ≤ C.faults cells.new }
{
    let picture = gather(alloc, cells)?;
    let findings = audit_many(rt, alloc, &picture)?;
    if !findings.is_empty() {
        return Ok(Verdict::Unsound { findings });
    }
    let objects = objects_of(alloc, cells, &picture)?;
    Ok(Verdict::Sound {
        listing: Listing { cp, objects },
    })
}
