//! Playing the schedules of many seeds.

ghost use Rattle.std.specs.Prelude.{◌≡◌, ◌+◌, ◌<◌, ◌^◌};
ghost use Rattle.harp_types.specs.Streams.{Rose};
ghost use Rattle.harp_cli.specs.Sweep.{SweepEnds};

use harp_types::{Sink, SinkFault};
use play_commands::Exit;
use std::alloc::Global;
use std::thread::Threads;
use sweep::{Player, sweep_many, write_summaries};

/// Plays the schedules of so many seeds from this one on, with so many drawn lines each, by several
/// threads, and writes to a sink what each comes to.
pub fn sweep<R: Threads + Sync, P: Player + Sync, K: Sink>(
    rt: &R,
    alloc: Global,
    player: &P,
    seed: u64,
    runs: u32,
    lines: u32,
    sink: &mut K,
) -> Exit
    requires { seed + runs < 2 ^ 64 }
    ensures ends { SweepEnds (P.summary_of player.now) seed runs lines (K.written sink.old)
        (K.written sink.new) result }
    ensures rose { result ≡ Exit.SinkFailed → Rose (K.faults sink.old) (K.faults sink.new) }
{
    let Ok(all) = sweep_many(rt, alloc, player, seed, runs, lines) else {
        return Exit::NoMemory;
    };
    match write_summaries(alloc, seed, all.as_slice(), sink) {
        Ok(()) => Exit::Done,
        Err(SinkFault::Failed) => Exit::SinkFailed,
        Err(SinkFault::NoMemory) => Exit::NoMemory,
    }
}
