//! Replies as answers.

ghost use Rattle.std.specs.Prelude.{◌≡◌, ◌≤◌, ◌++◌, true, IfOk, OnErr, OnOk};
ghost use Rattle.std.specs.List.{flat_map};
ghost use Rattle.harp_types.specs.Procedures.{procedure_of};
ghost use Rattle.rpc_door.specs.Results.{answer_bytes, can_be_refused, entry_bytes, fattr_bytes, form_for, is_reply_to, result_of, result_to, type_bits};

use crate::xdr::{put_handle, put_opaque, put_words};
use harp_base::fields::{put_time, put_u32};
use harp_types::{Attr, Bytes, Call, DirEntry, Kind, Procedure, Reply};
use std::alloc::{AllocError, Global};

/// The number of the form of the reply that a call gets where it isn't refused: 1 for nothing, 2
/// for attributes, 3 for an object, 4 for a path, 5 for bytes, 6 for a page, 7 for space.
fn form_for(procedure: Procedure) -> u8
    ensures { result ≡ form_for procedure }
{
    match procedure {
        Procedure::Null => 1,
        Procedure::GetAttr => 2,
        Procedure::SetAttr => 2,
        Procedure::Lookup => 3,
        Procedure::ReadLink => 4,
        Procedure::Read => 5,
        Procedure::Write => 2,
        Procedure::Create => 3,
        Procedure::Remove => 1,
        Procedure::Rename => 1,
        Procedure::Link => 1,
        Procedure::SymLink => 1,
        Procedure::MkDir => 3,
        Procedure::RmDir => 1,
        Procedure::ReadDir => 6,
        Procedure::StatFs => 7,
    }
}

/// Whether a call of this procedure can be refused.
fn can_be_refused(procedure: Procedure) -> bool
    ensures { result ≡ can_be_refused procedure }
{
    match procedure {
        Procedure::Null => false,
        Procedure::GetAttr => true,
        Procedure::SetAttr => true,
        Procedure::Lookup => true,
        Procedure::ReadLink => true,
        Procedure::Read => true,
        Procedure::Write => true,
        Procedure::Create => true,
        Procedure::Remove => true,
        Procedure::Rename => true,
        Procedure::Link => true,
        Procedure::SymLink => true,
        Procedure::MkDir => true,
        Procedure::RmDir => true,
        Procedure::ReadDir => true,
        Procedure::StatFs => true,
    }
}

/// Whether a reply has a form that a call can get.
pub fn is_reply_to(call: &Call, reply: &Reply) -> bool
    ensures { result ≡ is_reply_to call.now reply.now }
{
    let procedure = Procedure::of(call);
    match reply {
        Reply::Refused { .. } => can_be_refused(procedure),
        Reply::Done => form_for(procedure) == 1,
        Reply::Attr { .. } => form_for(procedure) == 2,
        Reply::Node { .. } => form_for(procedure) == 3,
        Reply::Path { .. } => form_for(procedure) == 4,
        Reply::Bytes { .. } => form_for(procedure) == 5,
        Reply::Page { .. } => form_for(procedure) == 6,
        Reply::Space { .. } => form_for(procedure) == 7,
    }
}

/// The bits of a mode that tell the kind.
fn type_bits(kind: Kind) -> u32
    ensures value { result ≡ type_bits kind }
    ensures bound { result ≤ 40960 }
{
    match kind {
        Kind::Regular => 0o100000,
        Kind::Directory => 0o40000,
        Kind::Link => 0o120000,
    }
}

/// Appends attributes (`fattr`, RFC 1094, section 2.3.5).
#[tactic(auto, unfolding(crate::specs::Results::fattr_bytes))]
fn put_fattr(out: &mut Vec<u8>, attr: &Attr) -> Result<(), AllocError>
    ensures { OnOk result (out.new.items ≡ out.old.items ++ fattr_bytes attr.now) }
{
    let kind = u32::from(attr.kind.number());
    let mode = type_bits(attr.kind) + u32::from(attr.mode % 4096);
    put_words(out, &[kind, mode, attr.links, attr.uid, attr.gid])?;
    put_words(out, &[attr.size, 4096, 0, attr.blocks, 1, attr.fileid])?;
    put_time(out, &attr.atime)?;
    put_time(out, &attr.mtime)?;
    put_time(out, &attr.ctime)?;
    Ok(())
}

/// Appends an entry of a page.
#[tactic(auto, unfolding(crate::specs::Results::entry_bytes))]
fn put_entry(out: &mut Vec<u8>, entry: &DirEntry) -> Result<(), AllocError>
    ensures { OnOk result (out.new.items ≡ out.old.items ++ entry_bytes entry.now) }
{
    put_words(out, &[1, entry.fileid])?;
    put_opaque(out, entry.name.as_slice())?;
    put_u32(out, entry.cookie)?;
    Ok(())
}

/// Appends the entries of a page.
fn put_entries(out: &mut Vec<u8>, entries: &[DirEntry]) -> Result<(), AllocError>
    ensures { OnOk result (out.new.items
        ≡ out.old.items ++ flat_map entry_bytes entries.now) }
{
    for entry in entries {
        put_entry(out, entry)?;
    }
    Ok(())
}

/// Appends the status and what a call gives.
fn put_result(out: &mut Vec<u8>, reply: &Reply) -> Result<(), AllocError>
    ensures { OnOk result (out.new.items ≡ out.old.items ++ result_of reply.now) }
{
    match reply {
        Reply::Refused { status } => put_u32(out, u32::from(status.number()))?,
        Reply::Done => put_u32(out, 0)?,
        Reply::Attr { attr } => {
            put_u32(out, 0)?;
            put_fattr(out, attr)?;
        }
        Reply::Node { handle, attr } => {
            put_u32(out, 0)?;
            put_handle(out, *handle)?;
            put_fattr(out, attr)?;
        }
        Reply::Path { text } => {
            put_u32(out, 0)?;
            put_opaque(out, text.as_slice())?;
        }
        Reply::Bytes { attr, bytes } => {
            put_u32(out, 0)?;
            put_fattr(out, attr)?;
            put_opaque(out, bytes.as_slice())?;
        }
        Reply::Page { entries, eof } => {
            put_u32(out, 0)?;
            put_entries(out, entries.as_slice())?;
            put_words(out, &[0, u32::from(*eof)])?;
        }
        Reply::Space {
            transfer,
            block,
            blocks,
            free,
            available,
        } => {
            put_u32(out, 0)?;
            put_words(out, &[*transfer, *block, *blocks, *free, *available])?;
        }
    }
    Ok(())
}

/// Appends the result of a call: nothing for a NULL.
fn put_result_to(out: &mut Vec<u8>, call: &Call, reply: &Reply) -> Result<(), AllocError>
    ensures { OnOk result (out.new.items
        ≡ out.old.items ++ result_to (procedure_of call.now) reply.now) }
{
    match Procedure::of(call) {
        Procedure::Null => Ok(()),
        Procedure::GetAttr => put_result(out, reply),
        Procedure::SetAttr => put_result(out, reply),
        Procedure::Lookup => put_result(out, reply),
        Procedure::ReadLink => put_result(out, reply),
        Procedure::Read => put_result(out, reply),
        Procedure::Write => put_result(out, reply),
        Procedure::Create => put_result(out, reply),
        Procedure::Remove => put_result(out, reply),
        Procedure::Rename => put_result(out, reply),
        Procedure::Link => put_result(out, reply),
        Procedure::SymLink => put_result(out, reply),
        Procedure::MkDir => put_result(out, reply),
        Procedure::RmDir => put_result(out, reply),
        Procedure::ReadDir => put_result(out, reply),
        Procedure::StatFs => put_result(out, reply),
    }
}

/// Appends the answer to a call with this xid. Where memory runs out, any bytes may have been
/// appended.
#[tactic(auto, unfolding(crate::specs::Results::answer_bytes))]
pub fn put_answer(out: &mut Vec<u8>, xid: u32, call: &Call, reply: &Reply) -> Result<(), AllocError>
    ensures { OnOk result (out.new.items
        ≡ out.old.items ++ answer_bytes xid call.now reply.now) }
{
    put_words(out, &[xid, 1, 0, 0, 0, 0])?;
    put_result_to(out, call, reply)
}

/// Appends the answer to a call with this xid, by a reply of a form that the call can get. Where
/// memory runs out, nothing is appended.
pub fn write_rpc(
    alloc: Global,
    xid: u32,
    call: &Call,
    reply: &Reply,
    into: &mut Bytes,
) -> Result<(), AllocError>
    requires { is_reply_to call.now reply.now ≡ true }
    ensures appended { OnOk result (into.new
        ≡ into.old ++ answer_bytes xid call.now reply.now) }
    ensures kept { OnErr result (into.new ≡ into.old) }
{
    let mut spelled = Vec::new(alloc);
    put_answer(&mut spelled, xid, call, reply)?;
    into.extend(&spelled)
}
