//! Playing a schedule on three servers.

ghost use Rattle.std.specs.Prelude.{◌≡◌, ◌⊎◌, ℕ, List, Some};
ghost use Rattle.harp_types.specs.Streams.{Rose};
ghost use Rattle.group_trace.specs.DiskRun.{first_disk_scene};
ghost use Rattle.schedule_play.specs.Exit.{whole_exit};
ghost use Rattle.schedule_play.specs.Reading.{reading};
ghost use Rattle.world.specs.World.{IsWorld};
ghost use Rattle.play_commands.specs.Play.{EndsPlay, HasPlayed, exit_of_play, sizes};

use crate::exit::Exit;
use harp_types::{Sink, Source};
use std::alloc::Global;
use world::World;

impl From<schedule_play::Exit> for Exit {
    ghost use Rattle.play_commands.specs.Play.{exit_of_play};

    ghost from_gives = { λ ended exit. exit ≡ exit_of_play ended };

    fn from(ended: schedule_play::Exit) -> Exit {
        match ended {
            schedule_play::Exit::Done => Exit::Done,
            schedule_play::Exit::RefusedLine => Exit::RefusedLine,
            schedule_play::Exit::SourceFailed => Exit::SourceFailed,
            schedule_play::Exit::SinkFailed => Exit::SinkFailed,
            schedule_play::Exit::NoMemory => Exit::NoMemory,
        }
    }
}

/// Plays the schedule of a source in a new world, and writes its trace to a sink.
pub fn play<S: Source, K: Sink>(
    alloc: Global,
    world: &mut World,
    source: &mut S,
    sink: &mut K,
) -> Exit
    requires { IsWorld first_disk_scene world.old }
    ensures ends { (text : List ℕ) → S.left source.old ≡ Some text
        → HasPlayed text (S.left source.new) (K.written sink.old) (K.written sink.new) world.new
        result }
    ensures complete { (text : List ℕ) → S.left source.old ≡ Some text
        → (Rose (S.faults source.old) (S.faults source.new) → ⊥)
        → (Rose (K.faults sink.old) (K.faults sink.new) → ⊥)
        → (result ≡ exit_of_play (whole_exit (reading sizes text).refused))
        ⊎ (result ≡ Exit.NoMemory) }
    ensures kind { EndsPlay result }
    ensures source_rose { result ≡ Exit.SourceFailed
        → Rose (S.faults source.old) (S.faults source.new) }
    ensures sink_rose { result ≡ Exit.SinkFailed → Rose (K.faults sink.old) (K.faults sink.new) }
{
    Exit::from(schedule_play::play(alloc, world, source, sink))
}
