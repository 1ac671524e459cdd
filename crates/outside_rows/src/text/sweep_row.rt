//! Rows of sweeps. A row is
//!
//! - `SEED LINES`: the schedule of a seed
//! - `text SEED TIMES ENTERED ANSWERED REFUSED OPENED`: the text of so many runs with these counts
//! - `THREADS COUNTED SEED RUNS LINES`: a sweep by `one` thread or `many`, of which all `steps` are
//!   counted, or four `kinds` of them
//!
//! Before all but the schedules the row is repeated.

use crate::text::sweeps::swept;
use harp_types::{Sink, write_all};
use std::alloc::{AllocError, Global};
use std::thread::Threads;
use sweep::{Summary, write_schedule, write_summaries};

/// A seed and a number of lines.
fn numbers_of(line: &str) -> Option<(u64, u32)> {
    let (seed, lines) = line.split_once(' ')?;
    Some((seed.parse().ok()?, lines.parse().ok()?))
}

/// The numbers among these words.
fn all_numbers(alloc: Global, words: &str) -> Result<Vec<u64>, AllocError> {
    let mut all = Vec::new(alloc);
    for word in words.split(' ') {
        if let Ok(number) = word.parse::<u64>() {
            all.push(number)?;
        }
    }
    Ok(all)
}

/// A summary, so many times.
fn repeated(alloc: Global, times: u64, summary: Summary) -> Result<Vec<Summary>, AllocError> {
    let mut all = Vec::new(alloc);
    for _ in 0..times {
        all.push(summary)?;
    }
    Ok(all)
}

/// Writes the text of runs that are all alike, and says whether it did.
fn write_text<K: Sink>(alloc: Global, words: &str, sink: &mut K) -> Result<bool, AllocError> {
    let numbers = all_numbers(alloc, words)?;
    let [seed, times, entered, answered, refused, opened] = numbers.as_slice() else {
        return Ok(false);
    };
    let summary = Summary {
        entered: *entered,
        answered: *answered,
        refused: *refused,
        opened: *opened,
    };
    let all = repeated(alloc, *times, summary)?;
    let Some(_end) = seed.checked_add(all.len() as u64) else {
        return Ok(false);
    };
    Ok(write_summaries(alloc, *seed, all.as_slice(), sink).is_ok())
}

/// Writes what a row asks for, and says whether it did.
pub(crate) fn write_row<R: Threads + Sync, K: Sink>(
    rt: &R,
    alloc: Global,
    line: &str,
    sink: &mut K,
) -> Result<bool, AllocError> {
    if let Some((seed, lines)) = numbers_of(line) {
        return Ok(write_schedule(alloc, seed, lines, sink).is_ok());
    }
    let repeated = format!(in alloc; "{line}\n")?;
    if write_all(sink, repeated.as_bytes()).is_err() {
        return Ok(false);
    }
    if let Some(words) = line.strip_prefix("text ") {
        return write_text(alloc, words, sink);
    }
    match swept(rt, alloc, line)? {
        Some(text) => Ok(write_all(sink, text.as_bytes()).is_ok()),
        None => Ok(false),
    }
}
