//! Servers that begin anew.

ghost use Rattle.std.specs.Prelude.{◌≡◌, OnOk, []};
ghost use Rattle.schedule_play.specs.Stage.{AreReadings};
ghost use Rattle.trace_types.specs.declared.step.Step.TheVariants as step;
ghost use Rattle.world.specs.Steps.{Takes};
ghost use Rattle.world.specs.World.{clocks_in};

use crate::world::World;
use harp_types::ServerId;
use std::alloc::{AllocError, Global};
use trace_types::Line;
use world_lines::show_state;

impl World {
    /// A server that is down begins anew.
    pub(crate) fn boot(
        &mut self,
        alloc: Global,
        server: ServerId,
        lines: &mut Vec<Line>,
    ) -> Result<(), AllocError>
        requires now { AreReadings (clocks_in self.old) }
        requires none { lines.old.items ≡ [] }
        ensures taken { OnOk result (Takes self.old self.new
            (step.Boot server) lines.new.items) }
        ensures clocks { OnOk result (self.new.clocks ≡ self.old.clocks) }
    {
        let before = self.state_line(server);
        self.spend_stop(server);
        self.boot_host(alloc, server)?;
        let after = self.state_line(server);
        show_state(server, &before, &after, lines)?;
        Ok(())
    }
}
