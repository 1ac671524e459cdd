//! Saving a log.

ghost use Rattle.std.specs.Prelude.{◌≡◌, ◌≤◌, ◌+◌, ◌<◌, ◌^◌, length, slice_index_or, Option, Some, None, IfOk, OnOk, OnErr, Err};
ghost use Rattle.event_record.specs.Bytes.{RecordFits};
ghost use Rattle.harp_types.specs.Streams.{Rose};
ghost use Rattle.harp_store.specs.Disk.{AfterPart, AtEachMoment, Moments, MayHaveMade, Now, after_changes, after_step, changed_by};
ghost use Rattle.power_save.specs.declared.fault.SaveFault.TheVariants.{StoreFailed, NotSaved};
ghost use Rattle.power_save.specs.Entries.{HasSaved, saved_entries};
ghost use Rattle.power_save.specs.Saved.{AllFit, IsUnsaved, IsUnsavedOrSaved, SavedOn, SavesLog, put_of, puts_of};
ghost use Rattle.volatile_log.specs.Log.{room, top};

use crate::fault::SaveFault;
use crate::record::value_of;
use event_record::Record;
use harp_cells::{Cell, SharedValue};
use harp_store::{Mark, RING, Saved, Store};
use std::alloc::Global;
use volatile_log::FrozenLog;

// Puts a record in its cell.
fn put_record<D: Store>(alloc: Global, item: &Record, store: &mut D) -> Result<(), SaveFault>
    ensures done { OnOk result (D.told store.new
        ≡ after_step (changed_by (put_of item.now)) (D.told store.old)) }
    ensures fits { OnOk result (RecordFits item.now) }
    ensures part { OnErr result (MayHaveMade (changed_by (put_of item.now))
        (D.told store.old) (D.told store.new)) }
    ensures rose { result ≡ Err StoreFailed → Rose (D.faults store.old) (D.faults store.new) }
    ensures never { result ≡ Err NotSaved → ⊥ }
    ensures count { D.faults store.old ≤ D.faults store.new }
{
    // The copy has no room to spare.
    let value = SharedValue::of(alloc, &value_of(alloc, item)?)?;
    let place = (item.index().get() % u64::from(RING)) as u32;
    store.put(alloc, Cell::Saved { place }, &value)?;
    Ok(())
}

// The record behind the first n of a log.
fn record_behind(log: &FrozenLog, n: u64) -> &Record
    requires { n < length log.now.records }
    ensures { result.now ≡ slice_index_or log.now.records n result.now }
{
    match log.item(log.base() + n + 1) {
        Some(item) => item,
        None => unreachable!(),
    }
}

// Puts the records of a log in their cells, one after the other.
fn put_records<D: Store>(alloc: Global, log: &FrozenLog, store: &mut D) -> Result<(), SaveFault>
    ensures done { OnOk result (D.told store.new
        ≡ after_changes (puts_of log.now.records) (D.told store.old)) }
    ensures fits { OnOk result (AllFit log.now.records) }
    ensures part { OnErr result (AfterPart (puts_of log.now.records)
        (D.told store.old) (D.told store.new)) }
    ensures rose { result ≡ Err StoreFailed → Rose (D.faults store.old) (D.faults store.new) }
    ensures never { result ≡ Err NotSaved → ⊥ }
    ensures count { D.faults store.old ≤ D.faults store.new }
{
    let count = log.top() - log.base();
    let mut n = 0;
    while n < count {
        put_record::<D>(alloc, record_behind(log, n), store)?;
        n += 1;
    }
    Ok(())
}

/// Saves a log: puts its records in their cells, syncs, and then writes the mark with LB = AP and
/// the numbers of the log. At each moment the store's mark has no saved log, or the whole log is
/// synced. The log that is saved is the one that the group's machine saves. Where it fails, a first
/// part of these calls is made. NotSaved never comes.
pub fn save<D: Store>(
    alloc: Global,
    log: &FrozenLog,
    mark: &mut Mark,
    store: &mut D,
) -> Result<(), SaveFault>
    requires unsaved { mark.old.saved ≡ None }
    ensures saves { SavesLog result log.now mark.old mark.new (D.told store.old)
        (D.told store.new) }
    ensures saved { OnOk result (Now (SavedOn log.now) (D.told store.new)) }
    ensures entries { OnOk result (Now (HasSaved (saved_entries log.now)) (D.told store.new)) }
    ensures moments { (h : Moments) → D.told store.old ≡ Some h → IsUnsaved h.now.mark
        → AtEachMoment (IsUnsavedOrSaved log.now) (D.told store.old) (D.told store.new) }
    ensures rose { result ≡ Err StoreFailed → Rose (D.faults store.old) (D.faults store.new) }
    ensures never { result ≡ Err NotSaved → ⊥ }
    ensures count { D.faults store.old ≤ D.faults store.new }
{
    put_records::<D>(alloc, log, store)?;
    store.sync(alloc)?;
    let saved = Saved::new(log.base(), log.cp(), log.top());
    let marked = mark.with_lb(log.ap()).with_saved(Some(saved));
    store.write_mark(alloc, &marked)?;
    *mark = marked;
    Ok(())
}
