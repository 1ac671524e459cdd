//! Records, and the words of an active log.

ghost use Rattle.std.specs.Prelude.{◌≡◌, ◌+◌, ◌<◌, ◌^◌, IfSome};
ghost use Rattle.volatile_log.specs.Log.{top};

use crate::logs::words::Answer;
use event_record::{Changes, Index, Moment, Record, RecordFields};
use harp_cells::ChangeLog;
use harp_types::{Bounded, Call, Reply, SUPERUSER, ServerId, ViewNo};
use idle_log::serve_active;
use std::alloc::Global;
use volatile_log::ActiveLog;
use wire::Records;

/// A write of so many bytes.
fn write_of(alloc: Global, count: usize) -> Option<Call> {
    let zeros = vec![in alloc; 0; count].ok()?;
    Some(Call::Write {
        handle: 2,
        offset: 0,
        bytes: Bounded::of(zeros)?,
    })
}

/// An update with this index, of client 7.
fn fields(alloc: Global, index: Index, call: Call) -> RecordFields
    ensures { result.index ≡ index }
{
    RecordFields {
        stamped: ViewNo::new(1, ServerId::Zero),
        index,
        client: 7,
        number: 1,
        cred: SUPERUSER,
        call,
        stamp: Moment::new(2050),
        reply: Reply::Done,
        changes: Changes::new(Vec::new(alloc)),
    }
}

/// An update with this index, of client 7: a write of so many bytes.
pub(crate) fn record(alloc: Global, index: Index, bytes: usize) -> Option<Record>
    ensures { IfSome result (λ r. r.index ≡ index) }
{
    let call = write_of(alloc, bytes)?;
    Record::of(alloc, fields(alloc, index, call)).ok()?
}

/// Adds a record. Where the log is full, it gives the index of the record that comes back.
fn put(log: &mut ActiveLog, item: Record) -> Answer
    requires next { item.index ≡ top log.old + 1 }
    requires limit { item.index < 2 ^ 62 }
{
    match log.append(item) {
        Ok(()) => Answer::Nothing,
        Err((_, back)) => Answer::One(back.index().get()),
    }
}

/// Adds the next record, as `put` does.
fn append(alloc: Global, log: &mut ActiveLog, bytes: u64) -> Option<Answer> {
    let index = log.top() + 1;
    if index >= 1 << 62 {
        return None;
    }
    let item = record(alloc, Index::new(index), bytes as usize)?;
    Some(put(log, item))
}

/// Adds so many records, and tells what came of the last one.
fn append_all(alloc: Global, log: &mut ActiveLog, count: u64, bytes: u64) -> Option<Answer> {
    let mut answer = Answer::Nothing;
    for _ in 0..count {
        answer = append(alloc, log, bytes)?;
    }
    Some(answer)
}

/// Sets CP, where this is from CP to top.
fn commit(log: &mut ActiveLog, n: u64) -> bool {
    if n < log.cp() || log.top() < n {
        return false;
    }
    log.commit_to(n);
    true
}

/// Sets AP, where this is from AP to CP.
fn apply(log: &mut ActiveLog, n: u64) -> bool {
    if n < log.ap() || log.cp() < n {
        return false;
    }
    log.applied_to(n);
    true
}

/// Sets LB, where this is from LB to AP.
fn lower(log: &mut ActiveLog, n: u64) -> bool {
    if n < log.lb() || log.ap() < n {
        return false;
    }
    log.lower_to(n);
    true
}

/// Drops the records up to this index, where it is from the base to LB.
fn drop_front(log: &mut ActiveLog, n: u64) -> bool {
    if n < log.base() || log.lb() < n {
        return false;
    }
    log.drop_to(n);
    true
}

/// Sets one of the numbers, where it stands in its order.
fn set(log: &mut ActiveLog, name: &str, n: u64) -> Option<Answer> {
    let is_set = match name {
        "commits" => commit(log, n),
        "applies" => apply(log, n),
        "lowers" => lower(log, n),
        "drops" => drop_front(log, n),
        _ => false,
    };
    if is_set { Some(Answer::Nothing) } else { None }
}

/// How many records are served, and the index of the first one.
pub(crate) fn served(records: &Option<Records>) -> Answer {
    let Some(records) = records else {
        return Answer::Says("none");
    };
    match records.as_slice() {
        [first, ..] => Answer::Two([records.as_slice().len() as u64, first.index().get()]),
        [] => Answer::Says("no record"),
    }
}

/// What is served of an active log.
fn serve(alloc: Global, log: &ActiveLog, first: u64, last: u64) -> Option<Answer> {
    match serve_active(alloc, log, first, last) {
        Ok(records) => Some(served(&records)),
        Err(_) => None,
    }
}

/// Base, LB, AP, CP and top.
fn numbers_of(log: &ActiveLog) -> Answer {
    Answer::Five([log.base(), log.lb(), log.ap(), log.cp(), log.top()])
}

/// What comes of a word of an active log, which `appends` so many records of so many bytes,
/// `commits`, `applies`, `lowers` its LB, `drops` records, and `serves` those from an index on up
/// to another. Its `numbers` are base, LB, AP, CP and top, and its `ends` the first index and the
/// last.
pub(crate) fn active(
    alloc: Global,
    log: &mut ActiveLog,
    name: &str,
    numbers: [u64; 7],
) -> Option<Answer> {
    let [first, second, ..] = numbers;
    match name {
        "appends" => append_all(alloc, log, first, second),
        "numbers" => Some(numbers_of(log)),
        "ends" => Some(Answer::Two([log.first(), log.last()])),
        "serves" => serve(alloc, log, first, second),
        _ => set(log, name, first),
    }
}
