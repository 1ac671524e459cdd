//! Sweeps over generated schedules.

use crate::text::players::{Kinds, Steps};
use std::alloc::{AllocError, Global};
use std::thread::Threads;
use sweep::{Player, Summary, sweep_many, sweep_one};

/// Which schedules are swept, and by how many threads.
#[derive(Clone, Copy)]
struct Range {
    is_many: bool,
    seed: u64,
    runs: u32,
    lines: u32,
}

/// The range of these words: `one` thread or `many`, a first seed, runs and lines.
fn range_of(threads: &str, words: &str) -> Option<Range> {
    let (seed, words) = words.split_once(' ')?;
    let (runs, lines) = words.split_once(' ')?;
    let seed = seed.parse::<u64>().ok()?;
    let runs = runs.parse::<u32>().ok()?;
    Some(Range {
        is_many: threads == "many",
        seed,
        runs,
        lines: lines.parse::<u32>().ok()?,
    })
}

fn summaries_by<R: Threads + Sync, P: Player + Sync>(
    rt: &R,
    alloc: Global,
    player: &P,
    range: Range,
) -> Result<Vec<Summary>, AllocError> {
    let Range {
        seed,
        runs,
        lines,
        ..
    } = range;
    let Some(_end) = seed.checked_add(u64::from(runs)) else {
        return Ok(Vec::new(alloc));
    };
    if range.is_many {
        return sweep_many(rt, alloc, player, seed, runs, lines);
    }
    sweep_one(alloc, player, seed, runs, lines)
}

/// A line for each run whose counts aren't those of the run before, and one with how many there
/// are.
fn text_of(alloc: Global, all: &[Summary]) -> Result<String, AllocError> {
    let mut text = String::new(alloc);
    let mut last = None;
    for (run, summary) in all.iter().enumerate() {
        if last != Some(*summary) {
            let Summary {
                entered,
                answered,
                refused,
                opened,
            } = summary;
            let line = format!(in alloc; "run {run}: {entered} {answered} {refused} {opened}\n")?;
            text.push_str(line.as_str())?;
        }
        last = Some(*summary);
    }
    let line = format!(in alloc; "{} runs\n", all.len())?;
    text.push_str(line.as_str())?;
    Ok(text)
}

/// What the sweep of a line comes to: `one` or `many` for its threads, `steps` or `kinds` for what
/// is counted, the first seed, the runs, and the lines of each. None where the line is no such one.
pub(crate) fn swept<R: Threads + Sync>(
    rt: &R,
    alloc: Global,
    line: &str,
) -> Result<Option<String>, AllocError> {
    let Some((threads, words)) = line.split_once(' ') else {
        return Ok(None);
    };
    let Some((counted, words)) = words.split_once(' ') else {
        return Ok(None);
    };
    let Some(range) = range_of(threads, words) else {
        return Ok(None);
    };
    let all = if counted == "kinds" {
        summaries_by(rt, alloc, &Kinds, range)?
    } else {
        summaries_by(rt, alloc, &Steps, range)?
    };
    Ok(Some(text_of(alloc, all.as_slice())?))
}
