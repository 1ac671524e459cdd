//! Stops that are armed at servers.

ghost use Rattle.std.specs.Prelude.{◌≡◌, OnOk, []};
ghost use Rattle.trace_types.specs.declared.step.Step.TheVariants as step_is;
ghost use Rattle.world.specs.Steps.{Takes};

use crate::world::World;
use harp_types::ServerId;
use std::alloc::{AllocError, Global};
use trace_types::Pick;
use world_host::Stop;

impl World {
    /// A stop is armed at a server, in the place of one that is.
    pub(crate) fn arm_stop(
        &mut self,
        alloc: Global,
        server: ServerId,
        calls: u64,
        pick: &Pick,
    ) -> Result<(), AllocError>
        ensures taken { OnOk result (Takes self.old self.new
            (step_is.Stop server calls pick.now) []) }
        ensures clocks { OnOk result (self.new.clocks ≡ self.old.clocks) }
    {
        let stop = Stop {
            calls,
            pick: pick.copy(alloc)?,
        };
        *self.stops.get_mut(server) = Some(stop);
        Ok(())
    }
}
