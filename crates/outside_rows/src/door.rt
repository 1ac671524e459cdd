//! Rows with doors, and with sources and sinks. CALL and REPLY are spelled as in the group's own
//! messages. A row begins with
//!
//! - `read HEX`: a record, of which is written what it means: `silent`, `fixed HEX` with the
//!   answer, or `ask XID CALL`;
//! - `write XID CALL REPLY`: a call and its reply, of which the answer is written;
//! - `steps WHO HEX REPLY..`: a record of a client of a file system in use, at 1000 seconds and 5
//!   microseconds, and the replies to its calls. WHO makes all calls, `UID:GID` or a dash for none.
//!   Of each step is written `silent`, `answer HEX` or `call UID GID CALL`;
//! - `input N HEX`: so many times, these are the next bytes of an input;
//! - `reply REPLY`: the next reply of a group, which fails where it has none that the call can get;
//! - `group N WHY`: its call with this number, from 1, is given up (`spent`), has no memory
//!   (`memory`), or fails (`failed`);
//! - `source N`, `sink N`: the call with this number, from 1, fails;
//! - `serve UID GID NAME`: the input is served for a user and a group. The name and how it ended
//!   are written, who asked the group which calls, and what was written to the sink;
//! - `from KIND N HEX`: a source of these bytes, of which four reads of two bytes are written. In
//!   `memory` its call N fails; a `reader` of std gives them; a `broken` one fails always;
//! - `into KIND N HEX`: a sink that is given nothing, and then each of these bytes. In `memory` its
//!   call N fails, and what was written is told; a `writer` of std takes them; a `broken` one takes
//!   nothing;
//! - `tcp STEP..`: connections over TCP, and clients 0, 1, .. in this program. Of
//!   each step is written what came of it: `dial`, and `send:N:HEX`, `receive:N`, `leave:N` are
//!   client N's; `seat:S` and `take:S` wait for somebody and for something at seat S, `nobody:S`
//!   and `look:S` don't; `give:S:HEX` and `close:S` are the connection's there.

mod group;
mod records;
mod steps;
mod stream;
mod streams;
mod tcp;
mod words;

use crate::door::records::{put_answer, put_meaning};
use crate::door::steps::put_steps;
pub(crate) use crate::door::stream::Stream;
use crate::door::streams::{put_sink, put_source};
use crate::door::tcp::put_tcp;
use std::alloc::AllocError;

/// What came of a row with this word: lines, or nothing.
pub(crate) fn outcome(
    rt: HostRuntime,
    stream: &mut Stream,
    word: &str,
    rest: &str,
) -> Result<String, AllocError> {
    let alloc = rt.alloc();
    let mut out = String::new(alloc);
    match word {
        "read" => put_meaning(alloc, &mut out, rest)?,
        "write" => put_answer(alloc, &mut out, rest)?,
        "serve" => stream.serve(alloc, &mut out, rest)?,
        "steps" => put_steps(alloc, &mut out, rest)?,
        "from" => put_source(alloc, &mut out, rest)?,
        "into" => put_sink(alloc, &mut out, rest)?,
        "tcp" => put_tcp(rt, alloc, &mut out, rest)?,
        _ => stream.take(alloc, word, rest)?,
    }
    Ok(out)
}
