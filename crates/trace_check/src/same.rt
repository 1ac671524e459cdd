//! Whether two calls, or two replies, are the same.

ghost use Rattle.std.specs.Prelude.{◌≡◌, ◌↔◌, IfOk, OnOk, IsTrue};
ghost use Rattle.harp_base.specs.Calls.{CallFits, call_bytes};
ghost use Rattle.harp_base.specs.Replies.{ReplyFits, reply_bytes};
ghost use Rattle.harp_types.specs.declared.reply.Reply.TheVariants as reply;

use harp_base::fields::{put_call, put_reply};
use harp_types::{Attr, Call, Reply, Status};
use std::alloc::{AllocError, Global};

/// How many bytes there is room for at first, so that most values are spelled without more.
const ROOM: usize = 128;

fn same_bytes(one: &[u8], other: &[u8]) -> bool
    ensures { IsTrue result ↔ (one.now ≡ other.now) }
{
    one == other
}

fn same_attr(one: &Attr, other: &Attr) -> bool
    ensures { IsTrue result ↔ (one.now ≡ other.now) }
{
    *one == *other
}

fn is_refused(found: &Reply, status: Status) -> bool
    ensures { IsTrue result ↔ (found.now ≡ reply.Refused status) }
{
    match found {
        Reply::Refused { status: other } => *other == status,
        _ => false,
    }
}

fn is_done(found: &Reply) -> bool
    ensures { IsTrue result ↔ (found.now ≡ reply.Done) }
{
    match found {
        Reply::Done => true,
        _ => false,
    }
}

fn is_attr(found: &Reply, attr: &Attr) -> bool
    ensures { IsTrue result ↔ (found.now ≡ reply.Attr attr.now) }
{
    match found {
        Reply::Attr { attr: other } => same_attr(other, attr),
        _ => false,
    }
}

fn is_node(found: &Reply, handle: u32, attr: &Attr) -> bool
    ensures { IsTrue result ↔ (found.now ≡ reply.Node handle attr.now) }
{
    match found {
        Reply::Node {
            handle: other,
            attr: seen,
        } => *other == handle && same_attr(seen, attr),
        _ => false,
    }
}

fn is_path(found: &Reply, text: &[u8]) -> bool
    ensures { IsTrue result ↔ (found.now ≡ reply.Path text.now) }
{
    match found {
        Reply::Path { text: other } => same_bytes(other.as_slice(), text),
        _ => false,
    }
}

fn is_bytes(found: &Reply, attr: &Attr, bytes: &[u8]) -> bool
    ensures { IsTrue result ↔ (found.now ≡ reply.Bytes attr.now bytes.now) }
{
    match found {
        Reply::Bytes {
            attr: seen,
            bytes: other,
        } => same_attr(seen, attr) && same_bytes(other.as_slice(), bytes),
        _ => false,
    }
}

/// The one spelling of a reply.
fn bytes_of_reply(alloc: Global, reply: &Reply) -> Result<Vec<u8>, AllocError>
    ensures value { IfOk result (λ bytes. bytes.items ≡ reply_bytes reply.now) }
    ensures fits { OnOk result (ReplyFits reply.now) }
{
    let mut bytes = Vec::with_capacity(alloc, ROOM)?;
    put_reply(&mut bytes, reply)?;
    Ok(bytes)
}

/// The one spelling of a call.
fn bytes_of_call(alloc: Global, call: &Call) -> Result<Vec<u8>, AllocError>
    ensures value { IfOk result (λ bytes. bytes.items ≡ call_bytes call.now) }
    ensures fits { OnOk result (CallFits call.now) }
{
    let mut bytes = Vec::with_capacity(alloc, ROOM)?;
    put_call(&mut bytes, call)?;
    Ok(bytes)
}

// Whether the two are one reply, by their one spelling.
fn same_spelling(alloc: Global, one: &Reply, other: &Reply) -> Result<bool, AllocError>
    ensures { IfOk result (λ same. IsTrue same ↔ (one.now ≡ other.now)) }
{
    let first = bytes_of_reply(alloc, one)?;
    let second = bytes_of_reply(alloc, other)?;
    Ok(first.as_slice() == second.as_slice())
}

/// Whether the two are one reply. Those that are seldom seen are spelled.
pub fn same_reply(alloc: Global, one: &Reply, other: &Reply) -> Result<bool, AllocError>
    ensures { IfOk result (λ same. IsTrue same ↔ (one.now ≡ other.now)) }
{
    match other {
        Reply::Refused { status } => Ok(is_refused(one, *status)),
        Reply::Done => Ok(is_done(one)),
        Reply::Attr { attr } => Ok(is_attr(one, attr)),
        Reply::Node { handle, attr } => Ok(is_node(one, *handle, attr)),
        Reply::Path { text } => Ok(is_path(one, text.as_slice())),
        Reply::Bytes { attr, bytes } => Ok(is_bytes(one, attr, bytes.as_slice())),
        Reply::Page { .. } | Reply::Space { .. } => same_spelling(alloc, one, other),
    }
}

/// Whether the two are one call, by their one spelling.
pub fn same_call(alloc: Global, one: &Call, other: &Call) -> Result<bool, AllocError>
    ensures { IfOk result (λ same. IsTrue same ↔ (one.now ≡ other.now)) }
{
    let first = bytes_of_call(alloc, one)?;
    let second = bytes_of_call(alloc, other)?;
    Ok(first.as_slice() == second.as_slice())
}
