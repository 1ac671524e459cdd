//! Records that are written.

ghost use Rattle.std.specs.Prelude.{◌≡◌, ◌++◌, ◌≤◌, length, OnOk, OnErr};
ghost use Rattle.harp_base.specs.Fields.{AllFit, many_bytes};
ghost use Rattle.harp_cells.specs.CellBytes.{ChangeFits, change_bytes};
ghost use Rattle.event_record.specs.Bytes.{ChangesFit, FieldsFit, HeadFits, RecordFits, TailFits, changes_bytes, head_bytes, head_of, record_bytes, tail_bytes, tail_of};

use crate::changes::Changes;
use crate::record::{Record, RecordFields};
use harp_base::fields::{put_call, put_cred, put_reply, put_u16, put_u32, put_u64, put_view};
use harp_cells::Change;
use harp_cells::fields::put_change;
use harp_types::Bytes;
use std::alloc::{AllocError, Global};

/// Room for the bytes of most records, taken at once. A longer record's bytes take more as they
/// come.
pub const USUAL_RECORD: usize = 512;

#[tactic(auto, unfolding(harp_base::specs::Fields::many_bytes))]
fn put_each(out: &mut Vec<u8>, changes: &[Change]) -> Result<(), AllocError>
    ensures value { OnOk result (out.new.items
        ≡ out.old.items ++ many_bytes change_bytes changes.now) }
    ensures fits { OnOk result (AllFit ChangeFits changes.now) }
{
    for change in changes {
        put_change(out, change)?;
    }
    Ok(())
}

#[tactic(auto, unfolding(crate::specs::Bytes::changes_bytes))]
fn put_changes(out: &mut Vec<u8>, changes: &Changes) -> Result<(), AllocError>
    ensures value { OnOk result (out.new.items ≡ out.old.items ++ changes_bytes changes.now) }
    ensures fits { OnOk result (ChangesFit changes.now) }
{
    let changes = changes.as_slice();
    put_u16(out, changes.len() as u16)?;
    put_each(out, changes)?;
    Ok(())
}

/// What stands before the credential.
#[tactic(auto, unfolding(crate::specs::Bytes::head_bytes))]
fn put_head(out: &mut Vec<u8>, fields: &RecordFields) -> Result<(), AllocError>
    ensures value { OnOk result (out.new.items
        ≡ out.old.items ++ head_bytes (head_of fields.now)) }
    ensures fits { OnOk result (HeadFits (head_of fields.now)) }
{
    put_view(out, fields.stamped)?;
    put_u64(out, fields.index.get())?;
    put_u32(out, fields.client)?;
    put_u64(out, fields.number)?;
    Ok(())
}

/// What stands behind the credential.
#[tactic(auto, unfolding(crate::specs::Bytes::tail_bytes))]
fn put_tail(out: &mut Vec<u8>, fields: &RecordFields) -> Result<(), AllocError>
    ensures value { OnOk result (out.new.items
        ≡ out.old.items ++ tail_bytes (tail_of fields.now)) }
    ensures fits { OnOk result (TailFits (tail_of fields.now)) }
{
    put_call(out, &fields.call)?;
    put_u64(out, fields.stamp.get())?;
    put_reply(out, &fields.reply)?;
    put_changes(out, &fields.changes)?;
    Ok(())
}

/// Appends the one spelling of fields. Where memory runs out, any bytes may have been appended.
pub(crate) fn put_fields(out: &mut Vec<u8>, fields: &RecordFields) -> Result<(), AllocError>
    ensures value { OnOk result (out.new.items ≡ out.old.items ++ record_bytes fields.now) }
    ensures fits { OnOk result (FieldsFit fields.now) }
{
    put_head(out, fields)?;
    put_cred(out, fields.cred)?;
    put_tail(out, fields)?;
    Ok(())
}

/// Appends the one spelling of a record. Where memory runs out, any bytes may have been appended.
pub fn put_item(out: &mut Vec<u8>, item: &Record) -> Result<(), AllocError>
    ensures value { OnOk result (out.new.items ≡ out.old.items ++ record_bytes item.now) }
    ensures fits { OnOk result (RecordFits item.now) }
{
    put_fields(out, item.fields())
}

/// Appends the one spelling of a record. Where memory runs out, nothing is appended.
pub fn write_item(alloc: Global, item: &Record, into: &mut Bytes) -> Result<(), AllocError>
    ensures appended { OnOk result (into.new ≡ into.old ++ record_bytes item.now) }
    ensures fits { OnOk result (RecordFits item.now) }
    ensures kept { OnErr result (into.new ≡ into.old) }
{
    let mut spelled = Vec::with_capacity(alloc, USUAL_RECORD)?;
    put_item(&mut spelled, item)?;
    into.extend(&spelled)
}
