//! The words of saved logs.

use crate::disks::cells::value;
use crate::disks::disk::{Disk, read_mark, unsaved};
use crate::disks::records::{four, spelled};
use crate::disks::words::{Answer, passed, told};
use event_record::Record;
use harp_cells::{Cell, NonEmpty, SharedValue, Value};
use harp_store::{Mark, Saved, Store, StoreFault};
use harp_types::Call;
use power_save::{SaveFault, SeenRecords, load, save};
use std::alloc::Global;
use volatile_log::FrozenLog;

/// Why nothing was saved or loaded.
fn fault(fault: SaveFault) -> Answer {
    match fault {
        SaveFault::StoreFailed => Answer::Says("store failed"),
        SaveFault::NotSaved => Answer::Says("not saved"),
        SaveFault::NoMemory => Answer::Says("no memory"),
    }
}

/// A value with these bytes, in the old form or not.
fn holding(bytes: Vec<u8>, is_old: bool) -> Option<Value> {
    if is_old {
        let bytes = NonEmpty::of(bytes)?;
        return Some(Value::Saved { bytes });
    }
    let bytes = NonEmpty::of(bytes)?;
    Some(Value::SavedCred { bytes })
}

/// The value with the bytes of an update of an index, with a credential or not, and with a zero
/// more or a byte less, in a value of the old form or not.
fn value_of(alloc: Global, numbers: [u32; 7]) -> Option<Value> {
    let [_, index, cred, more, less, old, ..] = numbers;
    let mut bytes = spelled(alloc, index, cred > 0)?;
    if more > 0 {
        bytes.push(0).ok()?;
    }
    if less > 0 {
        let _ = bytes.pop();
    }
    holding(bytes, old > 0)
}

/// Tells its numbers: base, LB, AP, CP and top.
fn tell_numbers(log: &FrozenLog, text: &mut String) -> Option<Answer> {
    let numbers = [log.base(), log.lb(), log.ap(), log.cp(), log.top()];
    told(write!(text, "{numbers:?}"))
}

/// Tells a record that removes: its user, group, index, client, number and stamp, and the name's
/// bytes.
fn tell_record(record: &Record, text: &mut String) -> Option<Answer> {
    let fields = record.fields();
    let Call::Remove { name, .. } = &fields.call else {
        return None;
    };
    let cred = [fields.cred.uid, fields.cred.gid, fields.client];
    let numbers = [fields.index.get(), fields.number, fields.stamp.get()];
    let name = name.as_slice();
    told(write!(text, "{cred:?}{numbers:?}{name:?}"))
}

/// The log that was saved by a mark.
fn loaded<D: Store>(alloc: Global, mark: &Mark, store: &mut D) -> Result<FrozenLog, SaveFault> {
    load(alloc, mark, store, &mut SeenRecords::new(alloc))
}

/// Saves a log, and gives the mark then, and what failed.
fn saved<D: Store>(
    alloc: Global,
    log: &FrozenLog,
    before: Mark,
    store: &mut D,
) -> (Mark, Result<(), SaveFault>) {
    let mut mark = before.with_saved(None);
    let outcome = save(alloc, log, &mut mark, store);
    (mark, outcome)
}

/// Puts a value in the cell of a saved record.
fn put<D: Store>(alloc: Global, store: &mut D, place: u32, value: Value) -> Option<Answer> {
    let value = SharedValue::new(alloc, value).ok()?;
    Some(passed(store.put(alloc, Cell::Saved { place }, &value)))
}

/// What the cell of a saved record holds.
fn read<D: Store>(
    alloc: Global,
    store: &mut D,
    place: u32,
) -> Result<Option<SharedValue>, StoreFault> {
    store.read(alloc, Cell::Saved { place })
}

/// Tells the bytes of a record's value.
fn tell_bytes(value: &Value, text: &mut String) -> Option<Answer> {
    let Value::SavedCred { bytes } = value else {
        return Some(Answer::Says("another value"));
    };
    let bytes = bytes.as_slice();
    told(write!(text, "{bytes:?}"))
}

impl Disk {
    /// A log with base 1, LB 2, AP 3, CP 4 and top 5 that is `saved`; the mark in memory that is
    /// `taken` from the disk, or that `marks` an LB, a base, CP, top and ring; the cell where one
    /// `keeps` a record's value, or a `number`; what it `loads`, also the `item` of an index; and
    /// the `bytes` of a cell.
    pub(crate) fn save(
        &mut self,
        alloc: Global,
        name: &str,
        numbers: [u32; 7],
        text: &mut String,
    ) -> Option<Answer> {
        let [place, ..] = numbers;
        match name {
            "saved" => self.save_four(alloc, text),
            "taken" => self.take_mark(alloc, text),
            "marks" => self.set_mark(numbers),
            "keeps" => self.keep(alloc, numbers),
            "number" => put(alloc, &mut self.store, place, value(3)),
            "loads" => self.load(alloc, text),
            "item" => self.item(alloc, place, text),
            "bytes" => self.bytes(alloc, place, text),
            _ => None,
        }
    }

    fn load(&mut self, alloc: Global, text: &mut String) -> Option<Answer> {
        match loaded(alloc, &self.mark, &mut self.store) {
            Ok(log) => tell_numbers(&log, text),
            Err(why) => Some(fault(why)),
        }
    }

    fn item(&mut self, alloc: Global, index: u32, text: &mut String) -> Option<Answer> {
        let log = loaded(alloc, &self.mark, &mut self.store).ok()?;
        tell_record(log.item(u64::from(index))?, text)
    }

    /// Saves, and tells the LB of the mark then, and what failed.
    fn save_four(&mut self, alloc: Global, text: &mut String) -> Option<Answer> {
        let log = four(alloc)?;
        let (mark, outcome) = saved(alloc, &log, self.mark, &mut self.store);
        self.mark = mark;
        let lb = mark.lb();
        match outcome {
            Ok(()) => told(write!(text, "{lb}")),
            Err(SaveFault::StoreFailed) => told(write!(text, "{lb} store failed")),
            Err(why) => Some(fault(why)),
        }
    }

    fn take_mark(&mut self, alloc: Global, text: &mut String) -> Option<Answer> {
        self.mark = read_mark(alloc, &mut self.store).ok()??;
        let (lb, is_saved) = (self.mark.lb(), self.mark.saved().is_some());
        told(write!(text, "{lb},{is_saved}"))
    }

    fn set_mark(&mut self, numbers: [u32; 7]) -> Option<Answer> {
        let [lb, base, cp, top, ring, ..] = numbers;
        let saved = Saved::of(u64::from(base), u64::from(cp), u64::from(top), ring)?;
        self.mark = unsaved(u64::from(lb))?.with_saved(Some(saved));
        Some(Answer::Says(""))
    }

    fn keep(&mut self, alloc: Global, numbers: [u32; 7]) -> Option<Answer> {
        let value = value_of(alloc, numbers)?;
        put(alloc, &mut self.store, numbers[0], value)
    }

    fn bytes(&mut self, alloc: Global, place: u32, text: &mut String) -> Option<Answer> {
        match read(alloc, &mut self.store, place).ok()? {
            Some(shared) => tell_bytes(shared.get(), text),
            None => Some(Answer::Says("-")),
        }
    }
}
