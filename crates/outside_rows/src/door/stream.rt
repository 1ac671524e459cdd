//! Inputs that are served.

use crate::digits::bytes_of;
use crate::door::group::ToldGroup;
use crate::door::streams::fails;
use crate::door::words::{put_bytes, reply_of};
use harp_types::{Bytes, Cred, MemSink, MemSource};
use rpc_door::{DoorFault, GroupFault, serve_rpc};
use std::alloc::{AllocError, Global};
use std::mem;

/// What is given to a door.
#[derive(Drop)]
pub(crate) struct Stream {
    input: Bytes,
    group: ToldGroup,
    /// The number of the source's call that fails, from 1; 0 where none does.
    source: u64,
    /// The same of the sink's calls.
    sink: u64,
}

/// How a door ended.
fn text_of(alloc: Global, ended: Result<u64, DoorFault>) -> Result<String, AllocError> {
    match ended {
        Ok(records) => format!(in alloc; ": records {records}\n"),
        Err(DoorFault::BadRecord(number)) => format!(in alloc; ": bad record {number}\n"),
        Err(DoorFault::ReadFault) => String::from_str(alloc, ": read fault\n"),
        Err(DoorFault::WriteFault) => String::from_str(alloc, ": write fault\n"),
        Err(DoorFault::GroupFailed) => String::from_str(alloc, ": group failed\n"),
        Err(DoorFault::GroupSpent) => String::from_str(alloc, ": group spent\n"),
        Err(DoorFault::NoMemory) => String::from_str(alloc, ": no memory\n"),
    }
}

/// The number of a call, and why it comes to nothing.
fn fault_of(words: &str) -> Option<(usize, GroupFault)> {
    let (number, why) = words.split_once(' ')?;
    let number = number.parse::<usize>().ok()?;
    match why {
        "spent" => Some((number, GroupFault::Spent)),
        "memory" => Some((number, GroupFault::NoMemory)),
        _ => Some((number, GroupFault::Failed)),
    }
}

/// A user and a group, and the word behind them.
fn cred_of(words: &str) -> Option<(Cred, &str)> {
    let (uid, words) = words.split_once(' ')?;
    let (gid, name) = words.split_once(' ')?;
    let uid = uid.parse::<u32>().ok()?;
    let gid = gid.parse::<u32>().ok()?;
    Some((Cred { uid, gid }, name))
}

impl Stream {
    /// No bytes and no replies, and no call fails.
    pub(crate) fn new(alloc: Global) -> Stream {
        Stream {
            input: Bytes::new(alloc),
            group: ToldGroup::new(alloc),
            source: 0,
            sink: 0,
        }
    }

    /// Takes a row that gives something.
    pub(crate) fn take(&mut self, alloc: Global, word: &str, rest: &str) -> Result<(), AllocError> {
        match word {
            "input" => return self.add_bytes(alloc, rest),
            "reply" => return self.add_reply(alloc, rest),
            "group" => self.group.script.fault = fault_of(rest),
            "source" => self.source = rest.parse::<u64>().unwrap_or(0),
            "sink" => self.sink = rest.parse::<u64>().unwrap_or(0),
            _ => {}
        }
        Ok(())
    }

    fn add_bytes(&mut self, alloc: Global, words: &str) -> Result<(), AllocError> {
        let (times, digits) = words.split_once(' ').unwrap_or(("", ""));
        let Some(bytes) = bytes_of(alloc, digits) else {
            return Ok(());
        };
        for _ in 0..times.parse::<u32>().unwrap_or(0) {
            self.input.extend(bytes.as_slice())?;
        }
        Ok(())
    }

    fn add_reply(&mut self, alloc: Global, digits: &str) -> Result<(), AllocError> {
        if let Some(reply) = reply_of(alloc, digits) {
            self.group.script.replies.push(reply)?;
        }
        Ok(())
    }

    /// Serves the input. Nothing else stands here, since what `serve_rpc` promises is long.
    fn run(
        &mut self,
        alloc: Global,
        cred: Cred,
        source: &mut MemSource,
        sink: &mut MemSink,
    ) -> Result<u64, DoorFault> {
        serve_rpc(alloc, cred, source, sink, &mut self.group)
    }

    /// The input as a source; none is left.
    fn take_source(&mut self, alloc: Global) -> Result<MemSource, AllocError> {
        let input = mem::replace(&mut self.input, Bytes::new(alloc));
        Ok(MemSource::new(input, fails(alloc, self.source)?))
    }

    /// Serves the input, and tells how it ended and what was asked.
    fn put_end(
        &mut self,
        alloc: Global,
        out: &mut String,
        cred: Cred,
        sink: &mut MemSink,
    ) -> Result<(), AllocError> {
        let mut source = self.take_source(alloc)?;
        let ended = self.run(alloc, cred, &mut source, sink);
        out.push_str(text_of(alloc, ended)?.as_str())?;
        out.push_str(self.group.script.asked.as_str())
    }

    /// Serves the input, and goes on with an empty one.
    pub(crate) fn serve(
        &mut self,
        alloc: Global,
        out: &mut String,
        words: &str,
    ) -> Result<(), AllocError> {
        let Some((cred, name)) = cred_of(words) else {
            return out.push_str("nobody\n");
        };
        out.push_str(name)?;
        let mut sink = MemSink::new(alloc, fails(alloc, self.sink)?)?;
        self.put_end(alloc, out, cred, &mut sink)?;
        put_bytes(alloc, out, sink.written())?;
        *self = Stream::new(alloc);
        Ok(())
    }
}
