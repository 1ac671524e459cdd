//! Records that are read, and answers that are written.

use crate::digits::bytes_of;
use crate::door::words::{call_of, put_bytes, put_call, reply_of};
use harp_types::{Bytes, Call, Reply};
use rpc_door::{RpcIn, is_reply_to, read_rpc, write_rpc};
use std::alloc::{AllocError, Global};

/// A call that a record asks.
fn put_ask(alloc: Global, out: &mut String, xid: u32, call: &Call) -> Result<(), AllocError> {
    out.push_str(format!(in alloc; "ask {xid} ")?.as_str())?;
    put_call(alloc, out, call)
}

/// What a record means.
pub(crate) fn put_meaning(alloc: Global, out: &mut String, digits: &str) -> Result<(), AllocError> {
    let Some(bytes) = bytes_of(alloc, digits) else {
        return out.push_str("not hexadecimal\n");
    };
    match read_rpc(alloc, bytes.as_slice())? {
        RpcIn::Silent => out.push_str("silent\n"),
        RpcIn::Fixed(answer) => {
            out.push_str("fixed ")?;
            put_bytes(alloc, out, answer.as_slice())
        }
        RpcIn::Ask { xid, call } => put_ask(alloc, out, xid, &call),
    }
}

/// An xid, a call and its reply. None where these words are none.
fn exchange_of(alloc: Global, words: &str) -> Option<(u32, Call, Reply)> {
    let (xid, words) = words.split_once(' ')?;
    let (call, reply) = words.split_once(' ')?;
    let xid = xid.parse::<u32>().ok()?;
    let call = call_of(alloc, call)?;
    let reply = reply_of(alloc, reply)?;
    Some((xid, call, reply))
}

/// The answer to a call, nothing by a reply that it can't get.
fn answer_of(alloc: Global, xid: u32, call: &Call, reply: &Reply) -> Result<Bytes, AllocError> {
    let mut answer = Bytes::new(alloc);
    if is_reply_to(call, reply) {
        write_rpc(alloc, xid, call, reply, &mut answer)?;
    }
    Ok(answer)
}

/// The answer to a call by a reply.
pub(crate) fn put_answer(alloc: Global, out: &mut String, words: &str) -> Result<(), AllocError> {
    let Some((xid, call, reply)) = exchange_of(alloc, words) else {
        return out.push_str("no call and reply\n");
    };
    let answer = answer_of(alloc, xid, &call, &reply)?;
    put_bytes(alloc, out, answer.as_slice())
}
