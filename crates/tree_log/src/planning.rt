//! The record of a new update, planned on the tree after the whole log.

ghost use Rattle.std.specs.Prelude.{◌≡◌, ◌+◌, ◌<◌, ◌≤◌, ◌^◌, List, length, max, IfOk, Err, Some, true};
ghost use Rattle.std.specs.Option.{option_copied};
ghost use Rattle.cell_cache.specs.Entries.{AreOf};
ghost use Rattle.file_tree.specs.Book.{Entry, last_stamp};
ghost use Rattle.fuzzy_cells.specs.Fuzzy.{AreAlike};
ghost use Rattle.harp_types.specs.Streams.{Rose};
ghost use Rattle.harp_types.specs.Update.{is_update};
ghost use Rattle.harp_cells.specs.declared.cell.Cell.TheVariants as cell;
ghost use Rattle.harp_cells.specs.Effect.{Cells};
ghost use Rattle.harp_store.specs.Disk.{cells_told};
ghost use Rattle.tree_log.specs.Records.{cells_of, entry_after, record_of};
ghost use Rattle.overlay.specs.Index.{IsIndexOf};
ghost use Rattle.overlay.specs.Overlay.{told_over};
ghost use Rattle.record_changes.specs.Records.{AreUpdates};
ghost use Rattle.tree_log.specs.Planning.{next_record, stamp_found};
ghost use Rattle.tree_log.specs.Reading.{HoldsTree};
ghost use Rattle.tree_log.specs.TreeLog.{changes_in};
ghost use Rattle.volatile_log.specs.Log.{top};

use crate::new_record;
use crate::tree_log::{TreeLog, follow};
use cell_cache::Cached;
use event_record::{Index, Moment, Record};
use harp_cells::{Cell, CellFault, CellRead, Value};
use harp_store::Store;
use harp_types::{Call, Cred, ViewNo};
use overlay::{At, CellIndex};
use std::alloc::Global;
use volatile_log::ActiveLog;

fn stamp_in(value: &Value) -> Moment
    ensures { result ≡ stamp_found (Some value.now) }
{
    match value {
        Value::Meta { stamp, .. } => *stamp,
        Value::Object { .. }
        | Value::Unformed { .. }
        | Value::Block { .. }
        | Value::Slot { .. }
        | Value::Client { .. }
        | Value::Saved { .. }
        | Value::SavedCred { .. } => Moment::new(0),
    }
}

fn stamp_found<R: CellRead>(cells: &R) -> Moment
    ensures { result ≡ stamp_found (R.found cells.now) }
{
    match cells.value() {
        Some(value) => stamp_in(value),
        None => Moment::new(0),
    }
}

// The stamp of the last update, as the cell of the whole tree has it.
fn read_stamp<R: CellRead>(cells: &mut R) -> Result<Moment, CellFault>
    ensures stamp { (held : Cells) → R.cells cells.old ≡ Some held
        → IfOk result (λ m. m ≡ stamp_found (held cell.Meta)) }
    ensures kept { R.cells cells.new ≡ R.cells cells.old }
    ensures left { R.left cells.new ≡ R.left cells.old }
    ensures rose { result ≡ Err CellFault.StoreFailed
        → Rose (R.faults cells.old) (R.faults cells.new) }
    ensures count { R.faults cells.old ≤ R.faults cells.new }
{
    cells.fetch(Cell::Meta)?;
    Ok(stamp_found(cells))
}

// The record of an update on the cells at top, over other cells.
fn record_over<U: CellRead>(
    alloc: Global,
    under: &mut U,
    index: &CellIndex,
    log: &ActiveLog,
    stamped: ViewNo,
    client: u32,
    number: u64,
    cred: Cred,
    call: &Call,
    now: u64,
) -> Result<Record, CellFault>
    requires index { IsIndexOf index.now log.now.base (changes_in log.now.records) }
    requires update { is_update call.now ≡ true }
    requires room { top log.now + 1 < 2 ^ 62 }
    requires now { now < 2 ^ 62 }
    ensures record { (list : List Entry) (held : Cells) → AreUpdates list
        → told_over log.now.base (changes_in log.now.records) (top log.now) (U.cells under.old)
        ≡ Some held → AreAlike held (cells_of list)
        → IfOk result (λ r. r ≡ record_of stamped list (entry_after list (top log.now + 1)
        client number cred call.now (max now (stamp_found (held cell.Meta))))) }
    ensures given { IfOk result (λ r. r ≡ record r {
      stamped = stamped;
      index = top log.now + 1;
      client = client;
      number = number;
      cred = cred;
      call = call.now;
    }) }
    ensures left { U.left under.new ≡ U.left under.old }
    ensures rose { result ≡ Err CellFault.StoreFailed
        → Rose (U.faults under.old) (U.faults under.new) }
    ensures count { U.faults under.old ≤ U.faults under.new }
{
    let mut at = At::new(under, index, log, log.top());
    let last = read_stamp(&mut at)?;
    let stamp = Moment::new(now.max(last.get()));
    let next = Index::new(log.top() + 1);
    new_record(
        alloc, &mut at, stamped, next, client, number, cred, call, stamp,
    )
}

impl TreeLog {
    /// The record of a new update, stamped with a view: its index is the one after the top, its
    /// stamp the larger of the clock's reading in milliseconds and the last update's, and its
    /// reply and changes are those of its outcome on the tree after the whole log. It isn't
    /// appended.
    pub fn next_record<D: Store>(
        &mut self,
        alloc: Global,
        store: &mut D,
        stamped: ViewNo,
        client: u32,
        number: u64,
        cred: Cred,
        call: &Call,
        now: u64,
    ) -> Result<Record, CellFault>
        requires cached { AreOf (cells_told (D.told store.old)) self.old.cached }
        requires update { is_update call.now ≡ true }
        requires room { top self.old.log + 1 < 2 ^ 62 }
        requires now { now < 2 ^ 62 }
        ensures record { (list : List Entry)
            → HoldsTree list (top self.old.log) self.old.log (D.told store.old)
            → IfOk result (λ r. r ≡ next_record stamped now list client number cred call.now) }
        ensures given { IfOk result (λ r. r ≡ record r {
          stamped = stamped;
          index = top self.old.log + 1;
          client = client;
          number = number;
          cred = cred;
          call = call.now;
        }) }
        ensures log { self.new.log ≡ self.old.log }
        ensures cached { AreOf (cells_told (D.told store.new)) self.new.cached }
        ensures kept { D.told store.new ≡ D.told store.old }
        ensures rose { result ≡ Err CellFault.StoreFailed
            → Rose (D.faults store.old) (D.faults store.new) }
        ensures count { D.faults store.old ≤ D.faults store.new }
    {
        let _ = self.log.top();
        follow(&mut self.index, &mut self.indexed, &self.log)?;
        let mut cached = Cached::new(alloc, store, &mut self.cache);
        record_over(
            alloc,
            &mut cached,
            &self.index,
            &self.log,
            stamped,
            client,
            number,
            cred,
            call,
            now,
        )
    }
}
