//! The plan of an update.

ghost use Rattle.std.specs.Prelude.{◌≡◌, ◌≤◌, ◌∷◌, ◌++◌, [], Some, Err, IfOk, OnOk, true};
ghost use Rattle.nfs_calls.specs.Forms.{EndsWithTotals, IsReplyTo, form, form_given};
ghost use Rattle.harp_types.specs.Streams.{Rose};
ghost use Rattle.harp_types.specs.Update.{is_update, changes_entries};
ghost use Rattle.file_tree.specs.Calls.{answered, outcome};
ghost use Rattle.harp_cells.specs.declared.cell.Cell.TheVariants as cell;
ghost use Rattle.harp_cells.specs.declared.change.Change.TheVariants as change;
ghost use Rattle.harp_cells.specs.declared.value.Value.TheVariants as value;
ghost use Rattle.harp_cells.specs.CellsOfTree.{StandForTree};
ghost use Rattle.harp_cells.specs.Effect.{Cells, after};
ghost use Rattle.cell_changes.specs.Short.{AreShort};
ghost use Rattle.cell_changes.specs.Table.{update_changes};
ghost use Rattle.cell_changes.specs.TreeCells.{TreeCells};
ghost use Rattle.nfs_calls.specs.Plans.{plan_view, planned, settled_plan, totals_of};
ghost use Rattle.nfs_calls.specs.Gives.{Gives};

use crate::error::CallError;
use crate::parts::totals::{Totals, read_totals};
use crate::updates::create::create;
use crate::updates::link::link;
use crate::updates::make::{make_dir, make_link};
use crate::updates::planned::Planned;
use crate::updates::remove::{remove, remove_dir};
use crate::updates::rename::rename;
use crate::updates::set_attr::set_attr;
use crate::updates::write::write;
use harp_cells::{Cell, CellFault, CellRead, Change, Moment, Value};
use harp_types::{Call, Cred, Reply, Time, time_of};
use std::alloc::{AllocError, Global};

/// The reply to an update, and its changes of the tree's cells, in their order.
#[derive(Drop)]
pub struct Prepared {
    pub reply: Reply,
    pub changes: Vec<Change>,
}

/// The plan of an update of entries, or its refusal.
fn plan_entry<R: CellRead>(
    alloc: Global,
    cells: &mut R,
    totals: Totals,
    cred: Cred,
    call: &Call,
    now: Time,
) -> Result<Planned, CallError>
    requires { changes_entries call.now ≡ true }
    ensures plan { (t : TreeCells) → R.cells cells.old ≡ Some t.cells → totals ≡ totals_of t.tree
        → Gives plan_view result (planned t.cells t.tree call.now
        (answered t.tree cred call.now now)) }
    ensures short { IfOk result (λ p. AreShort 13 p.changes.items) }
    ensures form { IfOk result (λ p. form p.reply ≡ form_given call.now) }
    ensures kept { R.cells cells.new ≡ R.cells cells.old }
    ensures left { R.left cells.new ≡ R.left cells.old }
    ensures rose { result ≡ Err (CallError.Fault CellFault.StoreFailed)
        → Rose (R.faults cells.old) (R.faults cells.new) }
    ensures count { R.faults cells.old ≤ R.faults cells.new }
{
    match call {
        Call::Remove { dir, name } => {
            remove(alloc, cells, totals, cred, *dir, name.as_slice(), now)
        }
        Call::RmDir { dir, name } => {
            let name = name.as_slice();
            remove_dir(alloc, cells, totals, cred, *dir, name, now)
        }
        Call::Link { handle, dir, name } => {
            let name = name.as_slice();
            link(alloc, cells, totals, cred, *handle, *dir, name, now)
        }
        Call::Rename {
            dir,
            name,
            to_dir,
            to_name,
        } => {
            let (name, to_name) = (name.as_slice(), to_name.as_slice());
            rename(
                alloc, cells, totals, cred, *dir, name, *to_dir, to_name, now,
            )
        }
        _ => unreachable!(),
    }
}

/// The plan of an update, or its refusal.
fn plan_update<R: CellRead>(
    alloc: Global,
    cells: &mut R,
    totals: Totals,
    cred: Cred,
    call: &Call,
    now: Time,
) -> Result<Planned, CallError>
    requires { is_update call.now ≡ true }
    ensures plan { (t : TreeCells) → R.cells cells.old ≡ Some t.cells → totals ≡ totals_of t.tree
        → Gives plan_view result (planned t.cells t.tree call.now
        (answered t.tree cred call.now now)) }
    ensures short { IfOk result (λ p. AreShort 13 p.changes.items) }
    ensures form { IfOk result (λ p. form p.reply ≡ form_given call.now) }
    ensures kept { R.cells cells.new ≡ R.cells cells.old }
    ensures left { R.left cells.new ≡ R.left cells.old }
    ensures rose { result ≡ Err (CallError.Fault CellFault.StoreFailed)
        → Rose (R.faults cells.old) (R.faults cells.new) }
    ensures count { R.faults cells.old ≤ R.faults cells.new }
{
    match call {
        Call::SetAttr { handle, attr } => set_attr(alloc, cells, totals, cred, *handle, attr, now),
        Call::Write {
            handle,
            offset,
            bytes,
        } => {
            let bytes = bytes.as_slice();
            write(alloc, cells, totals, cred, *handle, *offset, bytes, now)
        }
        Call::Create { dir, name, attr } => {
            create(alloc, cells, totals, cred, *dir, name.as_slice(), attr, now)
        }
        Call::MkDir { dir, name, attr } => {
            make_dir(alloc, cells, totals, cred, *dir, name.as_slice(), attr, now)
        }
        Call::SymLink {
            dir,
            name,
            text,
            attr,
        } => {
            let (name, text) = (name.as_slice(), text.as_slice());
            make_link(alloc, cells, totals, cred, *dir, name, text, attr, now)
        }
        Call::Remove { .. } | Call::Rename { .. } | Call::Link { .. } | Call::RmDir { .. } => {
            plan_entry(alloc, cells, totals, cred, call, now)
        }
        _ => unreachable!(),
    }
}

/// The plan of an update; a refusal is the reply of one that changes nothing.
fn settled<R: CellRead>(
    alloc: Global,
    cells: &mut R,
    totals: Totals,
    cred: Cred,
    call: &Call,
    now: Time,
) -> Result<Planned, CellFault>
    requires { is_update call.now ≡ true }
    ensures plan { (t : TreeCells) → R.cells cells.old ≡ Some t.cells → totals ≡ totals_of t.tree
        → IfOk result (λ p. plan_view p
        ≡ settled_plan t.cells t.tree call.now (answered t.tree cred call.now now)) }
    ensures short { IfOk result (λ p. AreShort 13 p.changes.items) }
    ensures form { IfOk result (λ p. IsReplyTo call.now p.reply) }
    ensures kept { R.cells cells.new ≡ R.cells cells.old }
    ensures left { R.left cells.new ≡ R.left cells.old }
    ensures rose { result ≡ Err CellFault.StoreFailed
        → Rose (R.faults cells.old) (R.faults cells.new) }
    ensures count { R.faults cells.old ≤ R.faults cells.new }
{
    match plan_update(alloc, cells, totals, cred, call, now) {
        Ok(plan) => Ok(plan),
        Err(CallError::Status(status)) => Ok(Planned {
            reply: Reply::Refused { status },
            changes: Vec::new(alloc),
            totals,
        }),
        Err(CallError::Fault(fault)) => Err(fault),
    }
}

/// The whole tree gets totals and the stamp of its last update.
fn put_totals(
    alloc: Global,
    changes: &mut Vec<Change>,
    totals: Totals,
    stamp: Moment,
) -> Result<(), AllocError>
    ensures { IfOk result (λ _. changes.new.items
        ≡ changes.old.items ++ change.Put cell.Meta (value.Meta totals.next totals.used stamp)
        ∷ []) }
{
    let value = Value::Meta {
        next: totals.next,
        used: totals.used,
        stamp,
    };
    changes.push(Change::put(alloc, Cell::Meta, value)?)?;
    Ok(())
}

/// The reply to a caller's update at a stamp in milliseconds, and the changes of cells that it
/// makes: from cells that stand for a sound tree they lead to cells that stand for the tree of the
/// outcome. A status of NFS is a reply, and changes nothing but the stamp. At most 15 changes are
/// made, all of cells of the tree, which get values of their kinds, and at most three put a block;
/// the last one puts the totals. The reply is a refusal or of the call's form.
pub fn prepare<R: CellRead>(
    alloc: Global,
    cells: &mut R,
    cred: Cred,
    call: &Call,
    stamp: Moment,
) -> Result<Prepared, CellFault>
    requires { is_update call.now ≡ true }
    ensures reply { (t : TreeCells) → R.cells cells.old ≡ Some t.cells
        → IfOk result (λ p. p.reply ≡ (outcome t.tree cred call.now stamp).0) }
    ensures changes { (t : TreeCells) → R.cells cells.old ≡ Some t.cells
        → IfOk result (λ p. p.changes.items ≡ update_changes t.cells t.tree cred call.now stamp) }
    ensures leads { (t : TreeCells) → R.cells cells.old ≡ Some t.cells
        → IfOk result (λ p. StandForTree (after p.changes.items t.cells)
        (outcome t.tree cred call.now stamp).1 stamp) }
    ensures short { IfOk result (λ p. AreShort 15 p.changes.items) }
    // Over any cells: a refusal or what the call gives, and the totals last.
    ensures form { IfOk result (λ p. IsReplyTo call.now p.reply) }
    ensures totals { IfOk result (λ p. EndsWithTotals stamp p.changes.items) }
    ensures kept { R.cells cells.new ≡ R.cells cells.old }
    ensures left { R.left cells.new ≡ R.left cells.old }
    ensures rose { result ≡ Err CellFault.StoreFailed
        → Rose (R.faults cells.old) (R.faults cells.new) }
    ensures count { R.faults cells.old ≤ R.faults cells.new }
{
    let totals = read_totals(cells)?;
    let now = time_of(stamp.get());
    let mut plan = settled(alloc, cells, totals, cred, call, now)?;
    put_totals(alloc, &mut plan.changes, plan.totals, stamp)?;
    Ok(Prepared {
        reply: plan.reply,
        changes: plan.changes,
    })
}
