//! How many bytes records have. They are counted, and not spelled.

ghost use Rattle.std.specs.Prelude.{◌≡◌, ◌<◌, ◌≤◌, ◌^◌, length};
ghost use Rattle.event_record.specs.Bytes.{record_bytes};
ghost use Rattle.harp_base.specs.Calls.{call_bytes};
ghost use Rattle.harp_base.specs.Fields.{many_bytes};
ghost use Rattle.harp_base.specs.Replies.{entry_bytes, reply_bytes};
ghost use Rattle.harp_cells.specs.CellBytes.{cell_bytes, change_bytes};
ghost use Rattle.harp_cells.specs.ValueBytes.{value_bytes};

use crate::record::Record;
use harp_cells::{Cell, Change, Value};
use harp_types::{Call, DirEntry, Reply};

/// How many bytes a call has.
#[tactic(auto, using(crate::proofs::Sizes::fields))]
pub fn call_size(call: &Call) -> usize
    ensures value { result ≡ length (call_bytes call.now) }
    ensures bound { result ≤ 9000 }
{
    match call {
        Call::Null => 1,
        Call::GetAttr { .. } | Call::ReadLink { .. } | Call::StatFs { .. } => 5,
        Call::Read { .. } | Call::ReadDir { .. } => 13,
        Call::SetAttr { .. } => 37,
        Call::Lookup { name, .. } | Call::Remove { name, .. } | Call::RmDir { name, .. } => {
            7 + name.len()
        }
        Call::Link { name, .. } => 11 + name.len(),
        Call::Write { bytes, .. } => 11 + bytes.len(),
        Call::Rename { name, to_name, .. } => 13 + name.len() + to_name.len(),
        Call::Create { name, .. } | Call::MkDir { name, .. } => 39 + name.len(),
        Call::SymLink { name, text, .. } => 41 + name.len() + text.len(),
    }
}

/// How many bytes an entry of a page has.
#[tactic(auto, using(crate::proofs::Sizes::fields))]
fn entry_size(entry: &DirEntry) -> usize
    ensures value { result ≡ length (entry_bytes entry.now) }
    ensures bound { result ≤ 265 }
{
    10 + entry.name.len()
}

/// How many bytes entries of a page have, behind their number.
fn entries_size(entries: &[DirEntry]) -> usize
    requires { length entries.now < 2 ^ 16 }
    ensures value { result ≡ length (many_bytes entry_bytes entries.now) }
    ensures bound { result ≤ 2 ^ 25 }
{
    let mut size = 0;
    for entry in entries {
        size += entry_size(entry);
    }
    size
}

/// How many bytes a reply has.
#[tactic(auto, using(crate::proofs::Sizes::fields))]
pub fn reply_size(reply: &Reply) -> usize
    ensures value { result ≡ length (reply_bytes reply.now) }
    ensures bound { result ≤ 2 ^ 26 }
{
    match reply {
        Reply::Done => 1,
        Reply::Refused { .. } => 2,
        Reply::Path { text } => 3 + text.len(),
        Reply::Space { .. } => 21,
        Reply::Attr { .. } => 52,
        Reply::Bytes { bytes, .. } => 54 + bytes.len(),
        Reply::Node { .. } => 56,
        Reply::Page { entries, .. } => 4 + entries_size(entries.as_slice()),
    }
}

/// How many bytes a cell has.
#[tactic(auto, using(crate::proofs::Sizes::fields))]
fn cell_size(cell: Cell) -> usize
    ensures value { result ≡ length (cell_bytes cell) }
    ensures bound { result ≤ 9 }
{
    match cell {
        Cell::Meta => 1,
        Cell::Object { .. } | Cell::Client { .. } | Cell::Saved { .. } => 5,
        Cell::Block { .. } | Cell::Slot { .. } => 9,
    }
}

/// How many bytes a value has.
#[tactic(auto, using(crate::proofs::Sizes::fields))]
fn value_size(value: &Value) -> usize
    ensures value { result ≡ length (value_bytes value.now) }
    ensures bound { result ≤ 2 ^ 27 }
{
    match value {
        Value::Meta { .. } => 17,
        Value::Object { .. } | Value::Unformed { .. } => 52,
        Value::Block { bytes } => 3 + bytes.as_slice().len(),
        Value::Slot { name, .. } => 7 + name.as_slice().len(),
        Value::Client { reply, .. } => 17 + reply_size(reply),
        Value::Saved { bytes } => 3 + bytes.as_slice().len(),
        Value::SavedCred { bytes } => 3 + bytes.as_slice().len(),
    }
}

/// How many bytes a change has.
#[tactic(auto, using(crate::proofs::Sizes::fields))]
fn change_size(change: &Change) -> usize
    ensures value { result ≡ length (change_bytes change.now) }
    ensures bound { result ≤ 2 ^ 28 }
{
    match change {
        Change::Put { cell, value } => 1 + cell_size(*cell) + value_size(value.get()),
        Change::Erase { cell } => 1 + cell_size(*cell),
        Change::EraseFrom { .. } => 9,
    }
}

/// How many bytes changes have, behind their number.
fn changes_size(changes: &[Change]) -> usize
    requires { length changes.now ≤ 16 }
    ensures value { result ≡ length (many_bytes change_bytes changes.now) }
    ensures bound { result ≤ 2 ^ 32 }
{
    let mut size = 0;
    for change in changes {
        size += change_size(change);
    }
    size
}

/// How many bytes a record has.
#[tactic(auto, using(crate::proofs::Sizes::record_size))]
pub fn record_size(record: &Record) -> usize
    ensures value { result ≡ length (record_bytes record.now) }
    ensures bound { result ≤ 60008 }
{
    let fields = record.fields();
    let changes = changes_size(fields.changes.as_slice());
    47 + call_size(&fields.call) + reply_size(&fields.reply) + changes
}

/// How many bytes records have, behind their number.
pub fn records_size(records: &[Record]) -> usize
    requires { length records.now < 2 ^ 16 }
    ensures value { result ≡ length (many_bytes record_bytes records.now) }
    ensures bound { result ≤ 2 ^ 32 }
{
    let mut size = 0;
    for record in records {
        size += record_size(record);
    }
    size
}
