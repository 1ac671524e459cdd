//! The player of a sweep.

use crate::playing::summary_over;
use std::alloc::{AllocError, Global};
use sweep::{Player, Schedule, Summary};
use world::World;

/// Plays each schedule in a new world of three servers.
#[derive(Clone, Copy, PartialEq, Eq)]
pub struct GroupPlayer;

impl Player for GroupPlayer {
    ghost use Rattle.group_trace.specs.DiskCalls.{measures_of};
    ghost use Rattle.world_rules.specs.Spellings.{spellings};
    ghost use Rattle.sweep_player.specs.Reading.{summary_of_steps};

    ghost summary_of = { λ player steps. summary_of_steps (measures_of spellings) steps };

    fn play(&self, alloc: Global, steps: Schedule) -> Result<Summary, AllocError> {
        let mut world = World::new(alloc)?;
        summary_over(alloc, &mut world, steps)
    }
}
