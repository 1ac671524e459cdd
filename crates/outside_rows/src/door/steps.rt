//! The steps for a record of a client of a file system in use.

use crate::digits::bytes_of;
use crate::door::words::{put_bytes, put_call, reply_of};
use harp_types::{Cred, Time};
use nfs_door::{Step, begin, go_on};
use std::alloc::{AllocError, Global};

/// The time at which all records come.
const NOW: Time = Time {
    seconds: 1000,
    micros: 5,
};

/// A user and a group. None for a dash.
fn who_of(word: &str) -> Option<Cred> {
    let (uid, gid) = word.split_once(':')?;
    let uid = uid.parse::<u32>().ok()?;
    let gid = gid.parse::<u32>().ok()?;
    Some(Cred { uid, gid })
}

fn put_step(alloc: Global, out: &mut String, step: &Step) -> Result<(), AllocError> {
    match step {
        Step::Silent => out.push_str("silent\n"),
        Step::Answer(answer) => {
            out.push_str("answer ")?;
            put_bytes(alloc, out, answer.as_slice())
        }
        Step::Call(errand) => {
            let Cred { uid, gid } = errand.cred;
            out.push_str(format!(in alloc; "call {uid} {gid} ")?.as_str())?;
            put_call(alloc, out, &errand.call)
        }
    }
}

/// The step after one that makes a call, by the reply of a word. None where there is no such one.
fn next_step(alloc: Global, step: &Step, word: &str) -> Result<Option<Step>, AllocError> {
    let Step::Call(errand) = step else {
        return Ok(None);
    };
    match reply_of(alloc, word) {
        Some(reply) => Ok(Some(go_on(alloc, errand, &reply)?)),
        None => Ok(None),
    }
}

/// Shows the step after the last one of these, where that makes a call and the word has a reply to
/// it, and puts it behind them. Whether there is one.
fn put_next(
    alloc: Global,
    out: &mut String,
    steps: &mut Vec<Step>,
    word: &str,
) -> Result<bool, AllocError> {
    let Some(last) = steps.last() else {
        return Ok(false);
    };
    let Some(next) = next_step(alloc, last, word)? else {
        return Ok(false);
    };
    put_step(alloc, out, &next)?;
    steps.push(next)?;
    Ok(true)
}

/// Shows the steps behind a first one, as long as they make calls that words have replies to. They
/// are kept in a list, since a loop that holds a step itself takes long to prove.
fn put_others(
    alloc: Global,
    out: &mut String,
    first: Step,
    replies: &str,
) -> Result<(), AllocError> {
    let mut steps = Vec::new(alloc);
    steps.push(first)?;
    for word in replies.split(' ') {
        if !put_next(alloc, out, &mut steps, word)? {
            return Ok(());
        }
    }
    Ok(())
}

/// Who makes all calls, a record, and the replies to its calls.
pub(crate) fn put_steps(alloc: Global, out: &mut String, words: &str) -> Result<(), AllocError> {
    let (who, words) = words.split_once(' ').unwrap_or((words, ""));
    let (digits, replies) = words.split_once(' ').unwrap_or((words, ""));
    let Some(record) = bytes_of(alloc, digits) else {
        return out.push_str("not hexadecimal\n");
    };
    let first = begin(alloc, who_of(who), NOW, record.as_slice())?;
    put_step(alloc, out, &first)?;
    put_others(alloc, out, first, replies)
}
