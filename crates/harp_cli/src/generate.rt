//! Writing the schedule of a seed.

ghost use Rattle.std.specs.Prelude.{◌≡◌, ◌≢◌};
ghost use Rattle.harp_types.specs.Streams.{Rose};
ghost use Rattle.harp_cli.specs.Gen.{GenEnds};

use harp_types::{Sink, SinkFault};
use play_commands::Exit;
use std::alloc::Global;
use sweep::write_schedule;

/// Writes the schedule of a seed with so many drawn lines to a sink.
pub fn generate<K: Sink>(alloc: Global, seed: u64, lines: u32, sink: &mut K) -> Exit
    ensures ends { GenEnds seed lines (K.written sink.old) (K.written sink.new) result }
    ensures rose { result ≡ Exit.SinkFailed → Rose (K.faults sink.old) (K.faults sink.new) }
{
    match write_schedule(alloc, seed, lines, sink) {
        Ok(()) => Exit::Done,
        Err(SinkFault::Failed) => Exit::SinkFailed,
        Err(SinkFault::NoMemory) => Exit::NoMemory,
    }
}
