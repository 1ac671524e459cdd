//! Files that are created.

ghost use Rattle.std.specs.Prelude.{◌≡◌, ◌≢◌, ◌≤◌, ℕ, Some, None, Ok, Err, IfOk};
ghost use Rattle.harp_types.specs.Streams.{Rose};
ghost use Rattle.harp_types.specs.declared.call.Call.TheVariants as call;
ghost use Rattle.file_tree.specs.declared.object.Body.{Body};
ghost use Rattle.file_tree.specs.Tree.{place, slots_of, entry, free_from, kind_of};
ghost use Rattle.file_tree.specs.Tries.{entry_name};
ghost use Rattle.file_tree.specs.Outcome.{create, create_again, create_new, is_regular, is_regular_at};
ghost use Rattle.harp_cells.specs.Effect.{Cells};
ghost use Rattle.cell_changes.specs.Short.{AreShort};
ghost use Rattle.cell_changes.specs.TreeCells.{TreeCells};
ghost use Rattle.nfs_calls.specs.TreeCells.{IsDirectory};
ghost use Rattle.nfs_calls.specs.Plans.{plan_view, planned, totals_of};
ghost use Rattle.nfs_calls.specs.Attributes.{sets_planned};
ghost use Rattle.nfs_calls.specs.NewEntries.{FitsName};
ghost use Rattle.nfs_calls.specs.Gives.{Gives};
ghost use Rattle.nfs_calls.specs.Forms.{form, node_form};

use crate::error::CallError;
use crate::parts::inode::{attr_by, inode_at};
use crate::parts::names::{entry_name, refuse};
use crate::parts::new_entry::{entered, entry_or_slot};
use crate::parts::permissions::{may_make, searched};
use crate::parts::totals::Totals;
use crate::updates::make::{Entering, made, make, name_of, room_for};
use crate::updates::planned::Planned;
use crate::updates::set_attr::{given, set_found};
use file_tree::heeded;
use harp_cells::{CellFault, CellRead, Inode};
use harp_types::{Cred, Kind, LARGEST_FILE, Reply, SetAttr, Status, Time};
use inode_dirs::Sought;
use std::alloc::Global;

fn is_regular(kind: Kind) -> bool
    ensures { (body : Body) → kind_of body ≡ kind → result ≡ is_regular body }
{
    match kind {
        Kind::Regular => true,
        Kind::Directory => false,
        Kind::Link => false,
    }
}

/// A file that is there already, with its attributes set.
#[tactic(auto, unfolding(file_tree::specs::Outcome::create_again))]
fn create_again<R: CellRead>(
    alloc: Global,
    cells: &mut R,
    totals: Totals,
    cred: Cred,
    number: u32,
    attr: &SetAttr,
    now: Time,
) -> Result<Planned, CallError>
    ensures plan { (t : TreeCells) → R.cells cells.old ≡ Some t.cells → totals ≡ totals_of t.tree
        → Gives plan_view result
        (sets_planned t.cells t.tree number attr.now.size
        (create_again t.tree cred number attr.now now)) }
    ensures short { IfOk result (λ p. AreShort 13 p.changes.items) }
    ensures form { IfOk result (λ p. form p.reply ≡ node_form) }
    ensures kept { R.cells cells.new ≡ R.cells cells.old }
    ensures left { R.left cells.new ≡ R.left cells.old }
    ensures rose { result ≡ Err (CallError.Fault CellFault.StoreFailed)
        → Rose (R.faults cells.old) (R.faults cells.new) }
    ensures count { R.faults cells.old ≤ R.faults cells.new }
{
    let Some(inode) = inode_at(cells, number)? else {
        return Err(CallError::Status(Status::Exist));
    };
    refuse(Status::Exist, !is_regular(inode.kind))?;
    let heeded = heeded(cred, inode.uid, attr);
    let set = set_found(alloc, cells, totals, cred, number, &inode, &heeded, now)?;
    Ok(Planned {
        reply: Reply::Node {
            handle: number,
            attr: attr_by(number, &set.inode),
        },
        changes: set.changes,
        totals: set.totals,
    })
}

/// A file of zeros with a new entry in the first free slot.
#[tactic(auto, unfolding(file_tree::specs::Outcome::create_new))]
fn create_new(
    alloc: Global,
    totals: Totals,
    cred: Cred,
    dir: u32,
    inode: &Inode,
    slot: u32,
    name: &[u8],
    attr: &SetAttr,
    now: Time,
) -> Result<Planned, CallError>
    requires { FitsName name.now }
    ensures plan { (t : TreeCells) → totals ≡ totals_of t.tree
        → IsDirectory t.tree dir inode.now → slot ≡ free_from 0 (slots_of (place t.tree dir))
        → entry_name name.now ≡ Ok tt → entry (slots_of (place t.tree dir)) name.now ≡ None
        → Gives plan_view result (planned t.cells t.tree (call.Create dir name.now attr.now)
        (create_new t.tree cred dir (slots_of (place t.tree dir)) name.now attr.now now)) }
    ensures short { IfOk result (λ p. AreShort 13 p.changes.items) }
    ensures form { IfOk result (λ p. form p.reply ≡ node_form) }
    ensures store { result ≢ Err (CallError.Fault CellFault.StoreFailed) }
{
    may_make(cred, inode, attr)?;
    let size = given(attr.size, 0);
    refuse(Status::FBig, size > LARGEST_FILE)?;
    let room = room_for(totals, slot, inode, size)?;
    let made = made(cred, attr, Kind::Regular, 1, 0, size, now);
    let entering = Entering {
        dir,
        inode: entered(inode, room.slots, 0, now),
        slot: room.slot,
        name: name_of(alloc, name)?,
    };
    let number = totals.next;
    let changes = make(alloc, entering, number, &made, b"")?;
    Ok(Planned {
        reply: Reply::Node {
            handle: number,
            attr: attr_by(number, &made),
        },
        changes,
        totals: Totals {
            next: number + 1,
            used: room.used,
        },
    })
}

/// CREATE (RFC 1094, section 2.2.10): a file that is there gets the attributes.
#[tactic(auto, unfolding(file_tree::specs::Outcome::create))]
pub fn create<R: CellRead>(
    alloc: Global,
    cells: &mut R,
    totals: Totals,
    cred: Cred,
    dir: u32,
    name: &[u8],
    attr: &SetAttr,
    now: Time,
) -> Result<Planned, CallError>
    ensures plan { (t : TreeCells) → R.cells cells.old ≡ Some t.cells → totals ≡ totals_of t.tree
        → Gives plan_view result
        (planned t.cells t.tree (call.Create dir name.now attr.now)
        (create t.tree cred dir name.now attr.now now)) }
    ensures short { IfOk result (λ p. AreShort 13 p.changes.items) }
    ensures form { IfOk result (λ p. form p.reply ≡ node_form) }
    ensures kept { R.cells cells.new ≡ R.cells cells.old }
    ensures left { R.left cells.new ≡ R.left cells.old }
    ensures rose { result ≡ Err (CallError.Fault CellFault.StoreFailed)
        → Rose (R.faults cells.old) (R.faults cells.new) }
    ensures count { R.faults cells.old ≤ R.faults cells.new }
{
    let inode = searched(cells, cred, dir)?;
    entry_name(name)?;
    match entry_or_slot(cells, dir, &inode, name)? {
        Sought::Entry { object, .. } => {
            create_again(alloc, cells, totals, cred, object, attr, now)
        }
        Sought::Free { slot } => {
            create_new(alloc, totals, cred, dir, &inode, slot, name, attr, now)
        }
    }
}
