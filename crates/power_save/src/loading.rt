//! Loading a log.

ghost use Rattle.std.specs.Prelude.{◌≡◌, ℕ, ◌≤◌, ◌+◌, ◌<◌, length, false, Some, IfOk, Err};
ghost use Rattle.event_record.specs.declared.record.RecordFields.{RecordFields};
ghost use Rattle.file_tree.specs.Book.{Entry};
ghost use Rattle.group_rules.specs.State.{Saved as SavedLog};
ghost use Rattle.harp_types.specs.Streams.{Rose};
ghost use Rattle.harp_cells.specs.Effect.{Cells};
ghost use Rattle.harp_store.specs.Disk.{cells_told};
ghost use Rattle.power_save.specs.declared.fault.SaveFault.TheVariants.{StoreFailed, NotSaved};
ghost use Rattle.power_save.specs.Entries.{HoldEntries, LoadsEntries};
ghost use Rattle.power_save.specs.Saved.{HasNumbers, HoldRecords, IsSavedAs, LoadsRecords, fits_log};
ghost use Rattle.volatile_log.specs.Log.{AreNumberedAfter, IsLog};

use crate::fault::SaveFault;
use crate::record::record_of;
use crate::seen::SeenRecords;
use event_record::Record;
use harp_cells::Cell;
use harp_store::{Mark, Saved, Store};
use harp_types::LOG_ROOM;
use std::alloc::Global;
use volatile_log::FrozenLog;

// Reads the record of an index.
fn read_record<D: Store>(
    alloc: Global,
    ring: u32,
    index: u64,
    store: &mut D,
    seen: &mut SeenRecords,
) -> Result<Record, SaveFault>
    requires { 0 < ring }
    ensures item { (cells : Cells) → cells_told (D.told store.old) ≡ Some cells
        → IfOk result (λ r. IsSavedAs ring cells index r) }
    ensures index { IfOk result (λ r. r.index ≡ index) }
    ensures none { (cells : Cells) → cells_told (D.told store.old) ≡ Some cells → result
        ≡ Err NotSaved → (r : RecordFields) → IsSavedAs ring cells index r → ⊥ }
    ensures kept { D.told store.new ≡ D.told store.old }
    ensures rose { result ≡ Err StoreFailed → Rose (D.faults store.old) (D.faults store.new) }
    ensures count { D.faults store.old ≤ D.faults store.new }
{
    let place = (index % u64::from(ring)) as u32;
    let value = store.read(alloc, Cell::Saved { place })?;
    match record_of(alloc, &value, index, seen)? {
        Some(record) => Ok(record),
        None => Err(SaveFault::NotSaved),
    }
}

// Reads the records of the indices behind one, up to another.
fn read_records<D: Store>(
    alloc: Global,
    ring: u32,
    base: u64,
    top: u64,
    store: &mut D,
    seen: &mut SeenRecords,
) -> Result<Vec<Record>, SaveFault>
    requires order { base ≤ top }
    requires ring { 0 < ring }
    ensures records { (cells : Cells) → cells_told (D.told store.old) ≡ Some cells
        → IfOk result (λ records. HoldRecords ring cells base records.items) }
    ensures length { IfOk result (λ records. base + length records.items ≡ top) }
    ensures indices { IfOk result (λ records. AreNumberedAfter base records.items) }
    ensures lacks { (cells : Cells) → cells_told (D.told store.old) ≡ Some cells → result
        ≡ Err NotSaved
        → (index : ℕ) × (base < index) × (index ≤ top) × ((r : RecordFields)
        → IsSavedAs ring cells index r → ⊥) }
    ensures kept { D.told store.new ≡ D.told store.old }
    ensures rose { result ≡ Err StoreFailed → Rose (D.faults store.old) (D.faults store.new) }
    ensures count { D.faults store.old ≤ D.faults store.new }
{
    let mut records = Vec::with_capacity(alloc, (top - base) as usize)?;
    let mut index = base;
    while index < top {
        let record = read_record::<D>(alloc, ring, index + 1, store, seen)?;
        records.push(record)?;
        index += 1;
    }
    Ok(records)
}

// Whether these are the numbers of a log.
fn fits_log(lb: u64, saved: Saved) -> bool
    ensures { result ≡ fits_log lb (Some saved) }
{
    saved.base() <= lb
        && lb <= saved.cp()
        && saved.cp() <= saved.top()
        && saved.top() - saved.base() <= LOG_ROOM as u64
}

/// The log that was saved by this mark, with AP = LB. NotSaved comes where the mark hasn't the
/// numbers of a log, or a cell isn't the record of its index. Records are read in their old form
/// too, and from the ring of the mark; those that were seen before are shared. Where the cells and
/// the mark have the log that the group's machine saved, it is this log, and NotSaved comes only
/// where the machine doesn't take it.
pub fn load<D: Store>(
    alloc: Global,
    mark: &Mark,
    store: &mut D,
    seen: &mut SeenRecords,
) -> Result<FrozenLog, SaveFault>
    ensures log { IfOk result (λ log. IsLog log × HasNumbers log mark.now) }
    ensures records { (cells : Cells) → cells_told (D.told store.old) ≡ Some cells
        → LoadsRecords cells mark.now result }
    ensures entries { (cells : Cells) (saved : SavedLog Entry)
        → cells_told (D.told store.old) ≡ Some cells → HoldEntries cells mark.now saved
        → LoadsEntries cells mark.now result saved }
    ensures misfit { fits_log mark.now.lb mark.now.saved ≡ false → result ≡ Err NotSaved }
    ensures kept { D.told store.new ≡ D.told store.old }
    ensures rose { result ≡ Err StoreFailed → Rose (D.faults store.old) (D.faults store.new) }
    ensures count { D.faults store.old ≤ D.faults store.new }
{
    let Some(saved) = mark.saved() else {
        return Err(SaveFault::NotSaved);
    };
    let lb = mark.lb();
    if !fits_log(lb, saved) {
        return Err(SaveFault::NotSaved);
    }
    let records = read_records::<D>(alloc, saved.ring(), saved.base(), saved.top(), store, seen)?;
    Ok(FrozenLog::of(saved.base(), lb, lb, saved.cp(), records))
}
