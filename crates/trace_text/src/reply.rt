//! Replies that are read.

ghost use Rattle.std.specs.Prelude.{◌≡◌, ◌≤◌, ◌<◌, ◌+◌, ◌^◌, length, nat_le, ◌&&◌, slice_index, IfOk, IsTrue};
ghost use Rattle.schedule_text.specs.Fields.{Gives, spaced_at};
ghost use Rattle.schedule_text.specs.Reading.{is_digit_at};
ghost use Rattle.trace_text.specs.declared.reply_form.ReplyForm.TheVariants as forms;
ghost use Rattle.trace_text.specs.Replies.{entry_at, entries_at, page_end_at, reply_fields_at, reply_at};

use crate::attr::spaced_attr_at;
use crate::field::{sign_at, spaced_hex_at};
use crate::reply_form::{ReplyForm, form_at, page_end_at, status_at};
use harp_types::{DirEntry, Entries, Reply};
use schedule_text::{TextFault, hex_at, peek, space_at, spaced_u32_at, u32_at};
use std::alloc::Global;

/// An object's number, its name and its cookie, behind a space.
#[tactic(auto, unfolding(crate::specs::Replies::entry_at))]
fn spaced_entry_at(alloc: Global, line: &[u8], at: usize) -> Result<(DirEntry, usize), TextFault>
    ensures step { Gives (λ x. x) result (spaced_at entry_at line.now at) }
    ensures within { IfOk result (λ x. x.1 ≤ length line.now) }
{
    let at = space_at(line, at)?;
    let (fileid, at) = u32_at(line, at)?;
    let at = sign_at(line, b':', at)?;
    let (name, at) = hex_at(alloc, line, at)?;
    let at = sign_at(line, b':', at)?;
    let (cookie, at) = u32_at(line, at)?;
    let entry = DirEntry {
        fileid,
        name,
        cookie,
    };
    Ok((entry, at))
}

fn is_digit_at(line: &[u8], at: usize) -> bool
    ensures { result ≡ is_digit_at line.now at }
{
    let b = peek(line, at);
    48 <= b && b <= 57
}

/// The entries of a page, fewer than 2^16.
#[tactic(auto, unfolding(crate::specs::Replies::entries_at))]
fn entries_at(alloc: Global, line: &[u8], from: usize) -> Result<(Vec<DirEntry>, usize), TextFault>
    requires { from ≤ length line.now }
    ensures step { Gives (λ x. (x.0.items, x.1)) result (entries_at 65535 line.now from) }
    ensures count { IfOk result (λ x. length x.0.items ≤ 65535) }
    ensures within { IfOk result (λ x. x.1 ≤ length line.now) }
{
    let mut entries = Vec::new(alloc);
    let mut at = from;
    for _k in 0..65535usize {
        if !is_digit_at(line, at + 1) {
            return Ok((entries, at));
        }
        let (entry, next) = spaced_entry_at(alloc, line, at)?;
        entries.push(entry)?;
        at = next;
    }
    Ok((entries, at))
}

#[tactic(auto, unfolding(crate::specs::Replies::reply_fields_at))]
fn page_at(alloc: Global, line: &[u8], at: usize) -> Result<(Reply, usize), TextFault>
    requires { at ≤ length line.now }
    ensures { Gives (λ x. x) result (reply_fields_at forms.Page line.now at) }
{
    let (entries, at) = entries_at(alloc, line, at)?;
    let at = space_at(line, at)?;
    let (eof, at) = page_end_at(line, at)?;
    let entries = Entries::new(entries);
    Ok((Reply::Page { entries, eof }, at))
}

#[tactic(auto, unfolding(crate::specs::Replies::reply_fields_at))]
fn refused_at(line: &[u8], at: usize) -> Result<(Reply, usize), TextFault>
    ensures { Gives (λ x. x) result (reply_fields_at forms.Refused line.now at) }
{
    let at = space_at(line, at)?;
    let (status, at) = status_at(line, at)?;
    Ok((Reply::Refused { status }, at))
}

#[tactic(auto, unfolding(crate::specs::Replies::reply_fields_at))]
fn attr_at(line: &[u8], at: usize) -> Result<(Reply, usize), TextFault>
    ensures { Gives (λ x. x) result (reply_fields_at forms.Attr line.now at) }
{
    let (attr, at) = spaced_attr_at(line, at)?;
    Ok((Reply::Attr { attr }, at))
}

#[tactic(auto, unfolding(crate::specs::Replies::reply_fields_at))]
fn node_at(line: &[u8], at: usize) -> Result<(Reply, usize), TextFault>
    ensures { Gives (λ x. x) result (reply_fields_at forms.Node line.now at) }
{
    let (handle, at) = spaced_u32_at(line, at)?;
    let (attr, at) = spaced_attr_at(line, at)?;
    Ok((Reply::Node { handle, attr }, at))
}

#[tactic(auto, unfolding(crate::specs::Replies::reply_fields_at))]
fn path_at(alloc: Global, line: &[u8], at: usize) -> Result<(Reply, usize), TextFault>
    ensures { Gives (λ x. x) result (reply_fields_at forms.Path line.now at) }
{
    let (text, at) = spaced_hex_at(alloc, line, at)?;
    Ok((Reply::Path { text }, at))
}

#[tactic(auto, unfolding(crate::specs::Replies::reply_fields_at))]
fn bytes_at(alloc: Global, line: &[u8], at: usize) -> Result<(Reply, usize), TextFault>
    ensures { Gives (λ x. x) result (reply_fields_at forms.Bytes line.now at) }
{
    let (attr, at) = spaced_attr_at(line, at)?;
    let (bytes, at) = spaced_hex_at(alloc, line, at)?;
    Ok((Reply::Bytes { attr, bytes }, at))
}

#[tactic(auto, unfolding(crate::specs::Replies::reply_fields_at))]
fn space_fields_at(line: &[u8], at: usize) -> Result<(Reply, usize), TextFault>
    ensures { Gives (λ x. x) result (reply_fields_at forms.Space line.now at) }
{
    let (transfer, at) = spaced_u32_at(line, at)?;
    let (block, at) = spaced_u32_at(line, at)?;
    let (blocks, at) = spaced_u32_at(line, at)?;
    let (free, at) = spaced_u32_at(line, at)?;
    let (available, at) = spaced_u32_at(line, at)?;
    let space = Reply::Space {
        transfer,
        block,
        blocks,
        free,
        available,
    };
    Ok((space, at))
}

#[tactic(auto, unfolding(crate::specs::Replies::reply_fields_at))]
fn fields_at(
    alloc: Global,
    form: ReplyForm,
    line: &[u8],
    at: usize,
) -> Result<(Reply, usize), TextFault>
    requires { at ≤ length line.now }
    ensures { Gives (λ x. x) result (reply_fields_at form line.now at) }
{
    match form {
        ReplyForm::Refused => refused_at(line, at),
        ReplyForm::Done => Ok((Reply::Done, at)),
        ReplyForm::Attr => attr_at(line, at),
        ReplyForm::Node => node_at(line, at),
        ReplyForm::Path => path_at(alloc, line, at),
        ReplyForm::Bytes => bytes_at(alloc, line, at),
        ReplyForm::Page => page_at(alloc, line, at),
        ReplyForm::Space => space_fields_at(line, at),
    }
}

/// A reply behind a space.
#[tactic(auto, unfolding(crate::specs::Replies::reply_at))]
pub fn spaced_reply_at(alloc: Global, line: &[u8], at: usize) -> Result<(Reply, usize), TextFault>
    ensures { Gives (λ x. x) result (spaced_at reply_at line.now at) }
{
    let at = space_at(line, at)?;
    let (form, at) = form_at(line, at)?;
    fields_at(alloc, form, line, at)
}
