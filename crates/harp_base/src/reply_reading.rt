//! Replies that are read.

ghost use Rattle.std.specs.Prelude.{◌≡◌, ◌≤◌, ◌<◌, ◌++◌, ℕ, List, length, IfOk, Ok};
ghost use Rattle.harp_types.specs.declared.reply.Reply.{Reply};
ghost use Rattle.harp_base.specs.declared.reply_form.ReplyForm.TheVariants as form;
ghost use Rattle.harp_base.specs.Fields.{Gives, GivesAs, Spells, Tells, at_front, tag_at, many_at};
ghost use Rattle.harp_types.specs.Statuses.{status_number, statuses};
ghost use Rattle.harp_base.specs.Replies.{flag_number, flags, entry_at, entries_at, reply_fields_at, reply_at, reply_bytes, ReplyFits};

use crate::attr_fields::attr_at;
use crate::field::{FieldFault, Misread, byte_at, bytes_at, told, u16_at, u32_at};
use crate::reply_form::{ReplyForm, form_at};
use harp_types::{DirEntry, Entries, Reply, Status};
use std::alloc::Global;

fn status_at(bytes: &[u8], at: usize) -> Result<(Status, usize), Misread>
    requires { at ≤ length bytes.now }
    ensures { result ≡ tag_at status_number statuses bytes.now at }
{
    let (number, next) = byte_at(bytes, at)?;
    match Status::of(number) {
        Some(status) => Ok((status, next)),
        None => Err(Misread::BadTag(at)),
    }
}

fn flag_at(bytes: &[u8], at: usize) -> Result<(bool, usize), Misread>
    requires { at ≤ length bytes.now }
    ensures { result ≡ tag_at flag_number flags bytes.now at }
{
    let (number, next) = byte_at(bytes, at)?;
    match number {
        0 => Ok((false, next)),
        1 => Ok((true, next)),
        _ => Err(Misread::BadTag(at)),
    }
}

#[tactic(auto, unfolding(crate::specs::Replies::entry_at))]
fn entry_at(alloc: Global, bytes: &[u8], at: usize) -> Result<(DirEntry, usize), Misread>
    requires { at ≤ length bytes.now }
    ensures step { Gives result (entry_at bytes.now at) }
    ensures within { IfOk result (λ x. x.1 ≤ length bytes.now) }
{
    let (fileid, at) = u32_at(bytes, at)?;
    let (name, at) = bytes_at(alloc, bytes, at)?;
    let (cookie, at) = u32_at(bytes, at)?;
    let entry = DirEntry {
        fileid,
        name,
        cookie,
    };
    Ok((entry, at))
}

#[tactic(auto, unfolding(crate::specs::Fields::many_at))]
fn each_at(
    alloc: Global,
    count: u16,
    bytes: &[u8],
    from: usize,
) -> Result<(Vec<DirEntry>, usize), Misread>
    requires { from ≤ length bytes.now }
    ensures step { GivesAs (λ x. (x.0.items, x.1)) result (many_at entry_at count bytes.now from) }
    ensures count { IfOk result (λ x. length x.0.items ≡ count) }
    ensures within { IfOk result (λ x. x.1 ≤ length bytes.now) }
{
    let mut entries = Vec::new(alloc);
    let mut at = from;
    for _ in 0..count {
        let (entry, next) = entry_at(alloc, bytes, at)?;
        entries.push(entry)?;
        at = next;
    }
    Ok((entries, at))
}

#[tactic(auto, unfolding(crate::specs::Replies::entries_at))]
fn entries_at(alloc: Global, bytes: &[u8], at: usize) -> Result<(Entries, usize), Misread>
    requires { at ≤ length bytes.now }
    ensures step { Gives result (entries_at bytes.now at) }
    ensures within { IfOk result (λ x. x.1 ≤ length bytes.now) }
{
    let (count, at) = u16_at(bytes, at)?;
    let (entries, at) = each_at(alloc, count, bytes, at)?;
    Ok((Entries::new(entries), at))
}

#[tactic(auto, unfolding(crate::specs::Replies::reply_fields_at))]
fn page_reply(alloc: Global, bytes: &[u8], at: usize) -> Result<(Reply, usize), Misread>
    requires { at ≤ length bytes.now }
    ensures { Gives result (reply_fields_at form.Page bytes.now at) }
{
    let (entries, at) = entries_at(alloc, bytes, at)?;
    let (eof, at) = flag_at(bytes, at)?;
    Ok((Reply::Page { entries, eof }, at))
}

#[tactic(auto, unfolding(crate::specs::Replies::reply_fields_at))]
fn refused_reply(bytes: &[u8], at: usize) -> Result<(Reply, usize), Misread>
    requires { at ≤ length bytes.now }
    ensures { result ≡ reply_fields_at form.Refused bytes.now at }
{
    let (status, at) = status_at(bytes, at)?;
    Ok((Reply::Refused { status }, at))
}

#[tactic(auto, unfolding(crate::specs::Replies::reply_fields_at))]
fn attr_reply(bytes: &[u8], at: usize) -> Result<(Reply, usize), Misread>
    requires { at ≤ length bytes.now }
    ensures { result ≡ reply_fields_at form.Attr bytes.now at }
{
    let (attr, at) = attr_at(bytes, at)?;
    Ok((Reply::Attr { attr }, at))
}

#[tactic(auto, unfolding(crate::specs::Replies::reply_fields_at))]
fn node_reply(bytes: &[u8], at: usize) -> Result<(Reply, usize), Misread>
    requires { at ≤ length bytes.now }
    ensures { result ≡ reply_fields_at form.Node bytes.now at }
{
    let (handle, at) = u32_at(bytes, at)?;
    let (attr, at) = attr_at(bytes, at)?;
    Ok((Reply::Node { handle, attr }, at))
}

#[tactic(auto, unfolding(crate::specs::Replies::reply_fields_at))]
fn path_reply(alloc: Global, bytes: &[u8], at: usize) -> Result<(Reply, usize), Misread>
    requires { at ≤ length bytes.now }
    ensures { Gives result (reply_fields_at form.Path bytes.now at) }
{
    let (text, at) = bytes_at(alloc, bytes, at)?;
    Ok((Reply::Path { text }, at))
}

#[tactic(auto, unfolding(crate::specs::Replies::reply_fields_at))]
fn bytes_reply(alloc: Global, bytes: &[u8], at: usize) -> Result<(Reply, usize), Misread>
    requires { at ≤ length bytes.now }
    ensures { Gives result (reply_fields_at form.Bytes bytes.now at) }
{
    let (attr, at) = attr_at(bytes, at)?;
    let (read, at) = bytes_at(alloc, bytes, at)?;
    Ok((Reply::Bytes { attr, bytes: read }, at))
}

#[tactic(auto, unfolding(crate::specs::Replies::reply_fields_at))]
fn space_reply(bytes: &[u8], at: usize) -> Result<(Reply, usize), Misread>
    requires { at ≤ length bytes.now }
    ensures { result ≡ reply_fields_at form.Space bytes.now at }
{
    let (transfer, at) = u32_at(bytes, at)?;
    let (block, at) = u32_at(bytes, at)?;
    let (blocks, at) = u32_at(bytes, at)?;
    let (free, at) = u32_at(bytes, at)?;
    let (available, at) = u32_at(bytes, at)?;
    let space = Reply::Space {
        transfer,
        block,
        blocks,
        free,
        available,
    };
    Ok((space, at))
}

#[tactic(auto, unfolding(crate::specs::Replies::reply_fields_at))]
fn fields_at(
    alloc: Global,
    form: ReplyForm,
    bytes: &[u8],
    at: usize,
) -> Result<(Reply, usize), Misread>
    requires { at ≤ length bytes.now }
    ensures { Gives result (reply_fields_at form bytes.now at) }
{
    match form {
        ReplyForm::Refused => refused_reply(bytes, at),
        ReplyForm::Done => Ok((Reply::Done, at)),
        ReplyForm::Attr => attr_reply(bytes, at),
        ReplyForm::Node => node_reply(bytes, at),
        ReplyForm::Path => path_reply(alloc, bytes, at),
        ReplyForm::Bytes => bytes_reply(alloc, bytes, at),
        ReplyForm::Page => page_reply(alloc, bytes, at),
        ReplyForm::Space => space_reply(bytes, at),
    }
}

/// A reply that begins at a place, and the place after it.
#[tactic(auto, unfolding(crate::specs::Replies::reply_at))]
pub fn reply_at(alloc: Global, bytes: &[u8], at: usize) -> Result<(Reply, usize), Misread>
    requires { at ≤ length bytes.now }
    ensures step { Gives result (reply_at bytes.now at) }
    ensures within { IfOk result (λ x. x.1 ≤ length bytes.now) }
{
    let (form, at) = form_at(bytes, at)?;
    fields_at(alloc, form, bytes, at)
}

/// The reply at the front of the bytes, and its length.
pub fn read_reply(alloc: Global, bytes: &[u8]) -> Result<(Reply, usize), FieldFault>
    // What is read is spelled so.
    ensures found { IfOk result (λ x. Spells bytes.now 0 (reply_bytes x.0) x.1 × ReplyFits x.0) }
    // What is spelled so is read, whatever follows, unless memory runs out.
    ensures only { (r : Reply) (rest : List ℕ) → ReplyFits r → bytes.now ≡ reply_bytes r ++ rest
        → Tells result (Ok (r, length (reply_bytes r))) }
    // Which fault it is, and where.
    ensures exact { Tells result (at_front reply_at bytes.now) }
{
    told(reply_at(alloc, bytes, 0), bytes.len())
}
