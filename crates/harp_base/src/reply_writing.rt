//! Replies that are written.

ghost use Rattle.std.specs.Prelude.{◌≡◌, ◌++◌, ◌<◌, ◌^◌, length, OnOk, OnErr, IfOk};
ghost use Rattle.harp_base.specs.Fields.{many_bytes, AllFit};
ghost use Rattle.harp_base.specs.Replies.{entry_bytes, entries_bytes, EntryFits, EntriesFit, reply_fields_of, reply_bytes, ReplyFits};

use crate::attr_fields::put_attr;
use crate::field::{put_bytes, put_u16, put_u32};
use crate::reply_form::form_number;
use harp_types::{Bytes, DirEntry, Entries, Reply};
use std::alloc::{AllocError, Global};

#[tactic(auto, unfolding(crate::specs::Replies::entry_bytes))]
fn put_entry(out: &mut Vec<u8>, entry: &DirEntry) -> Result<(), AllocError>
    ensures value { OnOk result (out.new.items ≡ out.old.items ++ entry_bytes entry.now) }
    ensures fits { OnOk result (EntryFits entry.now) }
{
    put_u32(out, entry.fileid)?;
    put_bytes(out, &entry.name)?;
    put_u32(out, entry.cookie)?;
    Ok(())
}

#[tactic(auto, unfolding(crate::specs::Fields::many_bytes))]
fn put_each(out: &mut Vec<u8>, entries: &[DirEntry]) -> Result<(), AllocError>
    ensures value { OnOk result (out.new.items ≡ out.old.items ++ many_bytes entry_bytes entries.now) }
    ensures fits { OnOk result (AllFit EntryFits entries.now) }
{
    for entry in entries {
        put_entry(out, entry)?;
    }
    Ok(())
}

#[tactic(auto, unfolding(crate::specs::Replies::entries_bytes))]
fn put_entries(out: &mut Vec<u8>, entries: &Entries) -> Result<(), AllocError>
    ensures value { OnOk result (out.new.items ≡ out.old.items ++ entries_bytes entries.now) }
    ensures fits { OnOk result (EntriesFit entries.now) }
{
    let entries = entries.as_slice();
    put_u16(out, entries.len() as u16)?;
    put_each(out, entries)?;
    Ok(())
}

fn put_fields(out: &mut Vec<u8>, reply: &Reply) -> Result<(), AllocError>
    ensures value { OnOk result (out.new.items ≡ out.old.items ++ reply_fields_of reply.now) }
    ensures fits { OnOk result (ReplyFits reply.now) }
{
    match reply {
        Reply::Refused { status } => out.push(status.number())?,
        Reply::Done => {}
        Reply::Attr { attr } => put_attr(out, attr)?,
        Reply::Node { handle, attr } => {
            put_u32(out, *handle)?;
            put_attr(out, attr)?;
        }
        Reply::Path { text } => put_bytes(out, text)?,
        Reply::Bytes { attr, bytes } => {
            put_attr(out, attr)?;
            put_bytes(out, bytes)?;
        }
        Reply::Page { entries, eof } => {
            put_entries(out, entries)?;
            out.push(u8::from(*eof))?;
        }
        Reply::Space {
            transfer,
            block,
            blocks,
            free,
            available,
        } => {
            put_u32(out, *transfer)?;
            put_u32(out, *block)?;
            put_u32(out, *blocks)?;
            put_u32(out, *free)?;
            put_u32(out, *available)?;
        }
    }
    Ok(())
}

/// Appends the one spelling of a reply. Where memory runs out, any bytes may have been appended.
pub fn put_reply(out: &mut Vec<u8>, reply: &Reply) -> Result<(), AllocError>
    ensures value { OnOk result (out.new.items ≡ out.old.items ++ reply_bytes reply.now) }
    ensures fits { OnOk result (ReplyFits reply.now) }
{
    out.push(form_number(reply))?;
    put_fields(out, reply)
}

/// Appends the one spelling of a reply. Where memory runs out, nothing is appended.
pub fn write_reply(alloc: Global, reply: &Reply, into: &mut Bytes) -> Result<(), AllocError>
    ensures appended { OnOk result (into.new ≡ into.old ++ reply_bytes reply.now) }
    ensures fits { OnOk result (ReplyFits reply.now) }
    ensures kept { OnErr result (into.new ≡ into.old) }
{
    let mut spelled = Vec::new(alloc);
    put_reply(&mut spelled, reply)?;
    into.extend(&spelled)
}
