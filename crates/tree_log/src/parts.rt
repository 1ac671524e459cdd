//! Bounds that the types of a record's parts keep. They are learned by a look at the parts, so that
//! no record is spelled only to be counted.

ghost use Rattle.std.specs.Prelude.{◌≡◌, ◌≤◌, length};
ghost use Rattle.harp_base.specs.Calls.{call_bytes};
ghost use Rattle.harp_base.specs.Fields.{AllFit};
ghost use Rattle.tree_log.specs.Sizes.{HasShortParts, IsShortChange, IsShortValue, longest_call};

use event_record::RecordFields;
use harp_cells::{Change, Value};
use harp_types::Call;

/// A call has at most 8,233 bytes.
#[tactic(auto, using(crate::proofs::Lengths::sizes))]
fn call_is_short(call: &Call)
    ensures { length (call_bytes call.now) ≤ longest_call }
{
    match call {
        Call::Lookup { name, .. }
        | Call::Create { name, .. }
        | Call::Remove { name, .. }
        | Call::Link { name, .. }
        | Call::MkDir { name, .. }
        | Call::RmDir { name, .. } => {
            let _ = name.len();
        }
        Call::Write { bytes, .. } => {
            let _ = bytes.len();
        }
        Call::Rename { name, to_name, .. } => {
            let _ = name.len();
            let _ = to_name.len();
        }
        Call::SymLink { name, text, .. } => {
            let _ = name.len();
            let _ = text.len();
        }
        Call::Null
        | Call::GetAttr { .. }
        | Call::SetAttr { .. }
        | Call::ReadLink { .. }
        | Call::Read { .. }
        | Call::ReadDir { .. }
        | Call::StatFs { .. } => {}
    }
}

/// A block has at most 4,096 bytes, and a name in a directory at most 255.
fn value_is_short(value: &Value)
    ensures { IsShortValue value.now }
{
    match value {
        Value::Block { bytes } => {
            let _ = bytes.as_slice();
        }
        Value::Slot { name, .. } => {
            let _ = name.as_slice();
        }
        Value::Meta { .. }
        | Value::Object { .. }
        | Value::Unformed { .. }
        | Value::Client { .. }
        | Value::Saved { .. }
        | Value::SavedCred { .. } => {}
    }
}

fn change_is_short(change: &Change)
    ensures { IsShortChange change.now }
{
    match change {
        Change::Put { value, .. } => value_is_short(value.get()),
        Change::Erase { .. } | Change::EraseFrom { .. } => {}
    }
}

fn changes_are_short(changes: &[Change])
    ensures { AllFit IsShortChange changes.now }
{
    for change in changes {
        change_is_short(change);
    }
}

/// Whatever the fields hold, the types of their parts keep the bounds. Nothing is made or copied.
pub(crate) fn parts_are_short(fields: &RecordFields)
    ensures { HasShortParts fields.now }
{
    call_is_short(&fields.call);
    changes_are_short(fields.changes.as_slice());
}
