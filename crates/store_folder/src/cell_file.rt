//! The file of a cell.

ghost use Rattle.std.specs.Prelude.{◌≡◌, ◌↔◌, IfOk, IsTrue};
ghost use Rattle.harp_cells.specs.declared.value.Value.{Value as Held};
ghost use Rattle.harp_cells.specs.ValueBytes.{ValueFits, value_bytes};
ghost use Rattle.store_folder.specs.CellFile.{IsWhole, ReadsFile, whole_file};

use harp_base::FieldFault;
use harp_cells::{Value, read_value, write_value};
use harp_store::StoreFault;
use harp_types::Bytes;
use power_save::{whole_old_record, whole_record};
use std::alloc::{AllocError, Global};

/// No file of a cell is longer: the longest would be a reply of 65,535 entries of a directory,
/// with names of 255 bytes.
pub const LONGEST_FILE: usize = 1 << 25;

/// The bytes of a cell's file: the one spelling of its value.
pub fn write_cell_file(alloc: Global, value: &Value) -> Result<Bytes, AllocError>
    ensures value { IfOk result (λ bytes. bytes ≡ value_bytes value.now) }
    ensures fits { IfOk result (λ bytes. ValueFits value.now) }
{
    let mut bytes = Bytes::new(alloc);
    write_value(alloc, value, &mut bytes)?;
    Ok(bytes)
}

// The value that was read of a file of this length, where it is the whole file.
fn whole(read: Result<(Value, usize), FieldFault>, length: usize) -> Result<Value, StoreFault>
    ensures { result ≡ whole_file length read }
{
    match read {
        Ok((value, end)) => {
            if end == length {
                Ok(value)
            } else {
                Err(StoreFault::Failed)
            }
        }
        Err(FieldFault::NoMemory) => Err(StoreFault::NoMemory),
        Err(FieldFault::Short(_)) => Err(StoreFault::Failed),
        Err(FieldFault::BadTag(_)) => Err(StoreFault::Failed),
        Err(FieldFault::TooLong(_)) => Err(StoreFault::Failed),
    }
}

/// The value that is spelled by all these bytes.
fn read_spelled(alloc: Global, bytes: &[u8]) -> Result<Value, StoreFault>
    ensures found { IfOk result (λ v. (bytes.now ≡ value_bytes v) × ValueFits v) }
    ensures only { (v : Held) → ValueFits v → bytes.now ≡ value_bytes v → ReadsFile v result }
{
    whole(read_value(alloc, bytes), bytes.len())
}

/// Whether a saved record is a whole one. Any other value is whole as it is.
fn is_whole(alloc: Global, value: &Value) -> Result<bool, AllocError>
    ensures { IfOk result (λ whole. IsTrue whole ↔ IsWhole value.now) }
{
    match value {
        Value::SavedCred { bytes } => Ok(whole_record(alloc, bytes.as_slice())?.is_some()),
        Value::Saved { bytes } => Ok(whole_old_record(alloc, bytes.as_slice())?.is_some()),
        Value::Meta { .. }
        | Value::Object { .. }
        | Value::Unformed { .. }
        | Value::Block { .. }
        | Value::Slot { .. }
        | Value::Client { .. } => Ok(true),
    }
}

/// The value that a cell's file holds. Bytes that aren't the spelling of a value, whole and with
/// nothing behind it, are a failure of the disk, and so is a saved record that isn't exactly one of
/// its form.
pub fn read_cell_file(alloc: Global, bytes: &[u8]) -> Result<Value, StoreFault>
    // What is read is spelled so.
    ensures found { IfOk result
        (λ v. (bytes.now ≡ value_bytes v) × ValueFits v × IsWhole v) }
    // What is spelled so is read, unless memory runs out.
    ensures only { (v : Held) → ValueFits v → IsWhole v → bytes.now ≡ value_bytes v
        → ReadsFile v result }
{
    let value = read_spelled(alloc, bytes)?;
    if is_whole(alloc, &value)? {
        Ok(value)
    } else {
        Err(StoreFault::Failed)
    }
}
