//! Playing an observed schedule on three servers.

ghost use Rattle.std.specs.Prelude.{◌≡◌, ◌⊎◌, ℕ, List, Some};
ghost use Rattle.harp_types.specs.Streams.{Rose};
ghost use Rattle.group_trace.specs.DiskRun.{first_disk_scene};
ghost use Rattle.observe_laws.specs.Peeks.{IsObservedRightly};
ghost use Rattle.observe_laws.specs.Reading.{observed_reading};
ghost use Rattle.observed_text.specs.Grammar.{ExplainsObserved};
ghost use Rattle.observed_text.specs.Reading.{observed_meaning};
ghost use Rattle.schedule_play.specs.Exit.{whole_exit};
ghost use Rattle.world.specs.World.{IsWorld};
ghost use Rattle.play_commands.specs.Observe.{HasObserved};
ghost use Rattle.play_commands.specs.Play.{EndsPlay, exit_of_play, sizes};

use crate::exit::Exit;
use harp_types::{Sink, Source};
use observe_laws::every_observed_text;
use std::alloc::Global;
use world::World;

/// What each line of an observed schedule means, and what the observed trace of every text is here.
pub fn observed_texts()
    ensures meaning { (line : List ℕ) → ExplainsObserved line (observed_meaning line) }
    ensures right { (text : List ℕ) → IsObservedRightly sizes text }
{
    every_observed_text();
}

/// Plays the observed schedule of a source in a new world, and writes its trace to a sink.
pub fn observe<S: Source, K: Sink>(
    alloc: Global,
    world: &mut World,
    source: &mut S,
    sink: &mut K,
) -> Exit
    requires { IsWorld first_disk_scene world.old }
    ensures ends { (text : List ℕ) → S.left source.old ≡ Some text
        → HasObserved text (S.left source.new) (K.written sink.old) (K.written sink.new) world.new
        result }
    ensures complete { (text : List ℕ) → S.left source.old ≡ Some text
        → (Rose (S.faults source.old) (S.faults source.new) → ⊥)
        → (Rose (K.faults sink.old) (K.faults sink.new) → ⊥)
        → (result ≡ exit_of_play (whole_exit (observed_reading sizes text).refused))
        ⊎ (result ≡ Exit.NoMemory) }
    ensures kind { EndsPlay result }
    ensures source_rose { result ≡ Exit.SourceFailed
        → Rose (S.faults source.old) (S.faults source.new) }
    ensures sink_rose { result ≡ Exit.SinkFailed → Rose (K.faults sink.old) (K.faults sink.new) }
{
    Exit::from(observe_play::observe(alloc, world, source, sink))
}
