//! Replies that are written.

ghost use Rattle.std.specs.Prelude.{◌≡◌, ◌++◌, ◌∷◌, [], codes, decimal, OnOk};
ghost use Rattle.std.specs.List.{flat_map};
ghost use Rattle.harp_types.specs.declared.reply.Reply.TheVariants as replies;
ghost use Rattle.text_spelling.specs.Text.{spaced, hex_text, status_number, entry_text, page_end, reply_text};

use crate::digits::{put_hex, put_name};
use crate::put::{put_behind, put_named, put_number, put_three};
use crate::write_attr::put_attr;
use harp_types::{DirEntry, Reply, Status};
use std::alloc::{AllocError, Global};

fn status_number(status: Status) -> u64
    ensures { result ≡ status_number status }
{
    match status {
        Status::Perm => 1,
        Status::NoEnt => 2,
        Status::Io => 5,
        Status::NxIo => 6,
        Status::Acces => 13,
        Status::Exist => 17,
        Status::NotDir => 20,
        Status::IsDir => 21,
        Status::FBig => 27,
        Status::NoSpc => 28,
        Status::NameTooLong => 63,
        Status::NotEmpty => 66,
        Status::Stale => 70,
    }
}

/// An entry of a directory, behind a space.
#[tactic(auto, unfolding(text_spelling::specs::Text::entry_text))]
fn put_dir_entry(alloc: Global, out: &mut Vec<u8>, entry: &DirEntry) -> Result<(), AllocError>
    ensures { OnOk result (out.new.items ≡ out.old.items ++ spaced (entry_text entry.now)) }
{
    put_number(out, u64::from(entry.fileid))?;
    out.push(b':')?;
    put_hex(alloc, out, entry.name.as_slice())?;
    put_behind(out, b':', u64::from(entry.cookie))
}

fn put_entries(alloc: Global, out: &mut Vec<u8>, entries: &[DirEntry]) -> Result<(), AllocError>
    ensures { OnOk result (out.new.items ≡ out.old.items
        ++ flat_map (λ e. spaced (entry_text e)) entries.now) }
{
    for entry in entries {
        put_dir_entry(alloc, out, entry)?;
    }
    Ok(())
}

/// Whether a page is the last one, behind a space.
fn put_page_end(out: &mut Vec<u8>, eof: bool) -> Result<(), AllocError>
    ensures { OnOk result (out.new.items ≡ out.old.items ++ spaced (page_end eof)) }
{
    if eof {
        out.extend_from_slice(b" eof")
    } else {
        out.extend_from_slice(b" more")
    }
}

/// The sizes of the space for files: for a transfer and a block, then the numbers of blocks.
#[tactic(auto, unfolding(text_spelling::specs::Text::reply_text))]
fn put_space(
    out: &mut Vec<u8>,
    transfer: u32,
    block: u32,
    blocks: u32,
    free: u32,
    available: u32,
) -> Result<(), AllocError>
    ensures { OnOk result (out.new.items ≡ out.old.items
        ++ reply_text (replies.Space transfer block blocks free available)) }
{
    put_named(out, b"fs".as_slice(), u64::from(transfer))?;
    put_number(out, u64::from(block))?;
    put_three(
        out,
        u64::from(blocks),
        u64::from(free),
        u64::from(available),
    )
}

#[tactic(auto, unfolding(text_spelling::specs::Text::reply_text))]
fn put_reply_text(alloc: Global, out: &mut Vec<u8>, reply: &Reply) -> Result<(), AllocError>
    ensures { OnOk result (out.new.items ≡ out.old.items ++ reply_text reply.now) }
{
    match reply {
        Reply::Refused { status } => put_named(out, b"no".as_slice(), status_number(*status)),
        Reply::Done => out.extend_from_slice(b"done"),
        Reply::Attr { attr } => {
            out.extend_from_slice(b"attr")?;
            put_attr(out, attr)
        }
        Reply::Node { handle, attr } => {
            put_named(out, b"node".as_slice(), u64::from(*handle))?;
            put_attr(out, attr)
        }
        Reply::Path { text } => {
            out.extend_from_slice(b"path")?;
            put_name(alloc, out, text.as_slice())
        }
        Reply::Bytes { attr, bytes } => {
            out.extend_from_slice(b"data")?;
            put_attr(out, attr)?;
            put_name(alloc, out, bytes.as_slice())
        }
        Reply::Page { entries, eof } => {
            out.extend_from_slice(b"dir")?;
            put_entries(alloc, out, entries.as_slice())?;
            put_page_end(out, *eof)
        }
        Reply::Space {
            transfer,
            block,
            blocks,
            free,
            available,
        } => put_space(out, *transfer, *block, *blocks, *free, *available),
    }
}

/// A reply behind a space.
pub fn put_reply(alloc: Global, out: &mut Vec<u8>, reply: &Reply) -> Result<(), AllocError>
    ensures { OnOk result (out.new.items ≡ out.old.items ++ spaced (reply_text reply.now)) }
{
    out.push(b' ')?;
    put_reply_text(alloc, out, reply)?;
    Ok(())
}
