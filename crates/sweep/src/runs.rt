//! Runs of the schedules of many seeds.

ghost use Rattle.std.specs.Prelude.{◌≡◌, ◌+◌, ◌<◌, ◌^◌, IfOk};
ghost use Rattle.sweep.specs.Lines.{generated};
ghost use Rattle.sweep.specs.Runs.{summaries};

use crate::player::Player;
use crate::schedule::Schedule;
use crate::summary::Summary;
use rayon::prelude::*;
use std::alloc::{AllocError, Global};
use std::thread::Threads;

/// Plays the schedule of a seed.
fn play_one<P: Player>(
    alloc: Global,
    player: &P,
    seed: u64,
    lines: u32,
) -> Result<Summary, AllocError>
    ensures { IfOk result (λ summary. summary ≡ P.summary_of player.now (generated seed lines)) }
{
    player.play(alloc, Schedule::of(seed, lines))
}

/// Plays the schedules of so many seeds from this one on, one after another. The summaries stand in
/// the order of the seeds.
pub fn sweep_one<P: Player>(
    alloc: Global,
    player: &P,
    seed: u64,
    runs: u32,
    lines: u32,
) -> Result<Vec<Summary>, AllocError>
    requires { seed + runs < 2 ^ 64 }
    ensures { IfOk result
        (λ all. all.items ≡ summaries (P.summary_of player.now) seed runs lines) }
{
    let mut all = Vec::new(alloc);
    for run in 0..runs {
        all.push(play_one(alloc, player, seed + u64::from(run), lines)?)?;
    }
    Ok(all)
}

/// The same, played by several threads.
pub fn sweep_many<R: Threads + Sync, P: Player + Sync>(
    rt: &R,
    alloc: Global,
    player: &P,
    seed: u64,
    runs: u32,
    lines: u32,
) -> Result<Vec<Summary>, AllocError>
    requires { seed + runs < 2 ^ 64 }
    ensures { IfOk result
        (λ all. all.items ≡ summaries (P.summary_of player.now) seed runs lines) }
{
    (0..runs)
        .into_par_iter()
        .with_min_len(1)
        .map(
            |run: u32| -> Result<Summary, AllocError>
                requires { seed + run < 2 ^ 64 }
                ensures { IfOk result (λ summary. summary
                    ≡ P.summary_of player.entry.now (generated (seed + run) lines)) }
            { play_one(alloc, player, seed + u64::from(run), lines) },
        )
        .collect::<Result<Vec<Summary>, AllocError>>(rt, alloc)?
}
