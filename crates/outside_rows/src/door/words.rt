//! Words of rows, read and written.

use crate::digits::bytes_of;
use harp_base::{read_call, read_reply, write_call};
use harp_types::{Bytes, Call, Reply};
use std::alloc::{AllocError, Global};

/// The end of a line: bytes in hexadecimal, a dash for none.
pub(crate) fn put_bytes(alloc: Global, out: &mut String, bytes: &[u8]) -> Result<(), AllocError> {
    if bytes.is_empty() {
        return out.push_str("-\n");
    }
    out.push_str(hex::encode(alloc, bytes)?.as_str())?;
    out.push_str("\n")
}

/// The end of a line: a call, spelled.
pub(crate) fn put_call(alloc: Global, out: &mut String, call: &Call) -> Result<(), AllocError> {
    let mut bytes = Bytes::new(alloc);
    write_call(alloc, call, &mut bytes)?;
    put_bytes(alloc, out, bytes.as_slice())
}

/// The call that is spelled so. None where no call is.
pub(crate) fn call_of(alloc: Global, digits: &str) -> Option<Call> {
    let bytes = bytes_of(alloc, digits)?;
    match read_call(alloc, bytes.as_slice()) {
        Ok((call, _)) => Some(call),
        Err(_) => None,
    }
}

/// The reply that is spelled so. None where no reply is.
pub(crate) fn reply_of(alloc: Global, digits: &str) -> Option<Reply> {
    let bytes = bytes_of(alloc, digits)?;
    match read_reply(alloc, bytes.as_slice()) {
        Ok((reply, _)) => Some(reply),
        Err(_) => None,
    }
}
