//! The record of a new update.

ghost use Rattle.std.specs.Prelude.{◌≡◌, ◌≤◌, ◌∷◌, ◌++◌, [], List, Some, Err, IfOk, length, true};
ghost use Rattle.harp_types.specs.Streams.{Rose};
ghost use Rattle.harp_types.specs.Update.{is_update};
ghost use Rattle.file_tree.specs.Book.{Entry};
ghost use Rattle.harp_cells.specs.declared.cell.Cell.TheVariants as cell;
ghost use Rattle.harp_cells.specs.declared.change.Change.TheVariants as change;
ghost use Rattle.harp_cells.specs.declared.value.Value.TheVariants as value;
ghost use Rattle.harp_cells.specs.Effect.{Cells};
ghost use Rattle.event_record.specs.Bytes.{record_bytes};
ghost use Rattle.fuzzy_cells.specs.Fuzzy.{AreAlike};
ghost use Rattle.record_changes.specs.Records.{AreUpdates};
ghost use Rattle.tree_log.specs.Records.{cells_of, entry_after, record_of};
ghost use Rattle.tree_log.specs.Sizes.{HasShortParts, longest_made};

use crate::parts::parts_are_short;
use dedup::keep;
use event_record::{Changes, Index, Moment, Record, RecordFields};
use harp_cells::{CellFault, CellRead};
use harp_types::{Call, Cred, ViewNo};
use nfs_calls::{Prepared, prepare};
use std::alloc::{AllocError, Global};
use std::rc::Rc;

/// The fields of a record with a plan. Behind the plan's changes comes the client's Put.
fn with_plan(
    alloc: Global,
    stamped: ViewNo,
    index: Index,
    client: u32,
    number: u64,
    cred: Cred,
    call: &Call,
    stamp: Moment,
    plan: Prepared,
) -> Result<Rc<RecordFields>, AllocError>
    requires { length plan.changes.items ≤ 15 }
    ensures { IfOk result (λ r. r.value ≡ record {
      stamped = stamped;
      index = index;
      client = client;
      number = number;
      cred = cred;
      call = call.now;
      stamp = stamp;
      reply = plan.reply;
      changes = plan.changes.items
          ++ change.Put (cell.Client client) (value.Client number index plan.reply) ∷ [];
    }) }
{
    let Prepared { reply, mut changes } = plan;
    changes.push(keep(alloc, client, number, index.get(), &reply)?)?;
    let fields = RecordFields {
        stamped,
        index,
        client,
        number,
        cred,
        call: call.copy(alloc)?,
        stamp,
        reply,
        changes: Changes::new(changes),
    };
    Ok(Rc::new(alloc, fields)?)
}

/// The record of fields that are short as their parts are.
fn short_record(fields: Rc<RecordFields>) -> Record
    requires { HasShortParts fields.value → length (record_bytes fields.value) ≤ longest_made }
    ensures value { result ≡ fields.value }
    ensures bytes { length (record_bytes result) ≤ longest_made }
{
    parts_are_short(&fields);
    Record::new(fields)
}

/// The record of a caller's new update, appended in the view `stamped`: it is planned on the cells
/// at top, and behind its changes of the tree it puts its client's cell. Where the cells are those
/// after updates, but for the cells of saved logs, the record is the one of this entry after them.
/// It has at most 24,000 bytes, whatever the cells hold.
pub fn new_record<R: CellRead>(
    alloc: Global,
    cells: &mut R,
    stamped: ViewNo,
    index: Index,
    client: u32,
    number: u64,
    cred: Cred,
    call: &Call,
    stamp: Moment,
) -> Result<Record, CellFault>
    requires { is_update call.now ≡ true }
    ensures record { (entries : List Entry) (held : Cells) → AreUpdates entries
        → R.cells cells.old ≡ Some held → AreAlike held (cells_of entries)
        → IfOk result (λ r. r ≡ record_of stamped entries
        (entry_after entries index client number cred call.now stamp)) }
    // Over any cells: all that is given stands in it.
    ensures given { IfOk result (λ r. r ≡ record r {
      stamped = stamped;
      index = index;
      client = client;
      number = number;
      cred = cred;
      call = call.now;
      stamp = stamp;
    }) }
    ensures bytes { IfOk result (λ r. length (record_bytes r) ≤ longest_made) }
    ensures kept { R.cells cells.new ≡ R.cells cells.old }
    ensures left { R.left cells.new ≡ R.left cells.old }
    ensures rose { result ≡ Err CellFault.StoreFailed
        → Rose (R.faults cells.old) (R.faults cells.new) }
    ensures count { R.faults cells.old ≤ R.faults cells.new }
{
    let plan = prepare(alloc, cells, cred, call, stamp)?;
    let fields = with_plan(
        alloc, stamped, index, client, number, cred, call, stamp, plan,
    )?;
    Ok(short_record(fields))
}
