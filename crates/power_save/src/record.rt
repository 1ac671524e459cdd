//! Records as values of cells.

ghost use Rattle.std.specs.Prelude.{◌≡◌, ◌≤◌, length, Option, Some, None, IfOk, IfSome, OnOk};
ghost use Rattle.event_record.specs.Bytes.{OldRecordFits, RecordFits, old_record_bytes, record_bytes};
ghost use Rattle.event_record.specs.declared.record.RecordFields.{RecordFields};
ghost use Rattle.harp_cells.specs.declared.value.Value.TheVariants.{SavedCred};
ghost use Rattle.power_save.specs.Saved.{HasRecord};

use crate::seen::SeenRecords;
use event_record::fields::{USUAL_RECORD, put_item};
use event_record::{Record, read_item, read_old_item};
use harp_base::FieldFault;
use harp_cells::{NonEmpty, SharedValue, Value};
use std::alloc::{AllocError, Global};
use std::rc::Rc;

/// The bytes of a record. They are written only where the record doesn't keep them.
fn bytes_of(alloc: Global, item: &Record) -> Result<Vec<u8>, AllocError>
    ensures value { IfOk result (λ bytes. bytes.items ≡ record_bytes item.now) }
    ensures fits { OnOk result (RecordFits item.now) }
{
    match item.bytes() {
        Some(bytes) => Ok(Vec::from_slice(alloc, bytes)?),
        None => {
            let mut bytes = Vec::with_capacity(alloc, USUAL_RECORD)?;
            put_item(&mut bytes, item)?;
            Ok(bytes)
        }
    }
}

/// The value that is written for a record: its bytes.
pub(crate) fn value_of(alloc: Global, item: &Record) -> Result<Value, AllocError>
    ensures value { IfOk result (λ value. value ≡ SavedCred (record_bytes item.now)) }
    ensures fits { OnOk result (RecordFits item.now) }
{
    let bytes = bytes_of(alloc, item)?;
    let _ = item.fields();
    Ok(Value::SavedCred {
        bytes: NonEmpty::new(bytes),
    })
}

/// The record that these bytes are, None where they aren't exactly one.
pub fn whole_record(alloc: Global, bytes: &[u8]) -> Result<Option<Record>, AllocError>
    ensures found { IfOk result (λ item. IfSome item
        (λ r. (bytes.now ≡ record_bytes r) × RecordFits r)) }
    ensures none { IfOk result (λ item. item ≡ None → (r : RecordFields)
        → bytes.now ≡ record_bytes r → RecordFits r → ⊥) }
{
    match read_item(alloc, bytes) {
        Ok((record, length)) => {
            if length == bytes.len() {
                Ok(Some(record))
            } else {
                Ok(None)
            }
        }
        Err(FieldFault::NoMemory) => Err(AllocError),
        Err(FieldFault::Short(_)) => Ok(None),
        Err(FieldFault::BadTag(_)) => Ok(None),
        Err(FieldFault::TooLong(_)) => Ok(None),
    }
}

/// The record of the old form that these bytes are, None where they aren't exactly one.
pub fn whole_old_record(alloc: Global, bytes: &[u8]) -> Result<Option<Record>, AllocError>
    ensures found { IfOk result (λ item. IfSome item
        (λ r. (bytes.now ≡ old_record_bytes r) × OldRecordFits r)) }
    ensures none { IfOk result (λ item. item ≡ None → (r : RecordFields)
        → bytes.now ≡ old_record_bytes r → OldRecordFits r → ⊥) }
{
    match read_old_item(alloc, bytes) {
        Ok((record, end)) => {
            if end == bytes.len() {
                Ok(Some(record))
            } else {
                Ok(None)
            }
        }
        Err(FieldFault::NoMemory) => Err(AllocError),
        Err(FieldFault::Short(_)) => Ok(None),
        Err(FieldFault::BadTag(_)) => Ok(None),
        Err(FieldFault::TooLong(_)) => Ok(None),
    }
}

/// The same record, which keeps these bytes.
fn with_bytes(alloc: Global, bytes: &[u8], record: &Record) -> Result<Record, AllocError>
    requires bytes { bytes.now ≡ record_bytes record.now }
    requires fits { RecordFits record.now }
    ensures { IfOk result (λ same. same ≡ record.now) }
{
    let kept = Rc::new(alloc, Vec::from_slice(alloc, bytes)?)?;
    record.with_bytes(kept)
}

/// The record that these bytes are, where it may have been seen before. One with few bytes keeps
/// them; one with more does so only if it was seen, so that a log doesn't take twice the room.
#[inline(always)]
fn seen_record(
    alloc: Global,
    bytes: &[u8],
    index: u64,
    seen: &mut SeenRecords,
) -> Result<Option<Record>, AllocError>
    ensures found { IfOk result (λ item. IfSome item
        (λ r. (bytes.now ≡ record_bytes r) × RecordFits r)) }
    ensures none { IfOk result (λ item. item ≡ None → (r : RecordFields)
        → bytes.now ≡ record_bytes r → RecordFits r → ⊥) }
{
    if let Some(record) = seen.record_of(alloc, index, bytes)? {
        return Ok(Some(record));
    }
    let Some(record) = whole_record(alloc, bytes)? else {
        return Ok(None);
    };
    let kept = with_bytes(alloc, bytes, &record)?;
    seen.note(kept.copy(alloc)?)?;
    if bytes.len() <= USUAL_RECORD {
        Ok(Some(kept))
    } else {
        Ok(Some(record))
    }
}

/// The record that a cell has, None where it has none. It is that of the index, if it was seen
/// before. As the two beside it, it goes into its callers: a record is handed on by each, and each
/// call that gives it moves it.
#[inline(always)]
fn record_in(
    alloc: Global,
    value: &Option<SharedValue>,
    index: u64,
    seen: &mut SeenRecords,
) -> Result<Option<Record>, AllocError>
    ensures found { IfOk result (λ item. IfSome item (λ r. HasRecord value.now r)) }
    ensures none { IfOk result (λ item. item ≡ None → (r : RecordFields)
        → HasRecord value.now r → ⊥) }
{
    let Some(value) = value else {
        return Ok(None);
    };
    match value.get() {
        Value::SavedCred { bytes } => seen_record(alloc, bytes.as_slice(), index, seen),
        Value::Saved { bytes } => whole_old_record(alloc, bytes.as_slice()),
        Value::Meta { .. }
        | Value::Object { .. }
        | Value::Unformed { .. }
        | Value::Block { .. }
        | Value::Slot { .. }
        | Value::Client { .. } => Ok(None),
    }
}

/// The record of an index that a cell has, None where it hasn't one of this index.
#[inline(always)]
pub(crate) fn record_of(
    alloc: Global,
    value: &Option<SharedValue>,
    index: u64,
    seen: &mut SeenRecords,
) -> Result<Option<Record>, AllocError>
    ensures found { IfOk result (λ item. IfSome item
        (λ r. HasRecord value.now r × (r.index ≡ index))) }
    ensures none { IfOk result (λ item. item ≡ None → (r : RecordFields)
        → HasRecord value.now r → r.index ≡ index → ⊥) }
{
    let Some(record) = record_in(alloc, value, index, seen)? else {
        return Ok(None);
    };
    if record.index().get() == index {
        Ok(Some(record))
    } else {
        Ok(None)
    }
}
