//! Servers that come to be down.

ghost use Rattle.std.specs.Prelude.{◌≡◌, OnOk, []};
ghost use Rattle.trace_types.specs.declared.step.Step.TheVariants as step_is;
ghost use Rattle.world.specs.Steps.{Takes};
ghost use Rattle.world.specs.Turns.{PowerFails};

use crate::world::World;
use harp_types::ServerId;
use std::alloc::{AllocError, Global};
use trace_types::{Line, Pick};
use world_host::Stop;
use world_lines::show_state;

impl World {
    /// A server saves its log, and then it is down.
    pub(crate) fn power(
        &mut self,
        alloc: Global,
        server: ServerId,
        lines: &mut Vec<Line>,
    ) -> Result<(), AllocError>
        requires { lines.old.items ≡ [] }
        ensures taken { OnOk result (Takes self.old self.new
            (step_is.Power server) lines.new.items) }
        ensures clocks { OnOk result (self.new.clocks ≡ self.old.clocks) }
    {
        self.fail_power(alloc, server, None, lines)?;
        Ok(())
    }

    /// So many calls of a server's save pass, and then it is down.
    pub(crate) fn cut_power(
        &mut self,
        alloc: Global,
        server: ServerId,
        calls: u64,
        pick: &Pick,
        lines: &mut Vec<Line>,
    ) -> Result<(), AllocError>
        requires { lines.old.items ≡ [] }
        ensures taken { OnOk result (Takes self.old self.new
            (step_is.PowerCut server calls pick.now) lines.new.items) }
        ensures clocks { OnOk result (self.new.clocks ≡ self.old.clocks) }
    {
        let stop = Stop {
            calls,
            pick: pick.copy(alloc)?,
        };
        self.fail_power(alloc, server, Some(stop), lines)?;
        Ok(())
    }

    /// The power fails at a server that is up. A stop that was armed at it is spent.
    fn fail_power(
        &mut self,
        alloc: Global,
        server: ServerId,
        stop: Option<Stop>,
        lines: &mut Vec<Line>,
    ) -> Result<(), AllocError>
        ensures fails { OnOk result (PowerFails self.old self.new server stop
            lines.old.items lines.new.items) }
        ensures clocks { OnOk result (self.new.clocks ≡ self.old.clocks) }
    {
        let before = self.state_line(server);
        self.spend_stop(server);
        self.fail_host(alloc, server, stop)?;
        let after = self.state_line(server);
        show_state(server, &before, &after, lines)?;
        Ok(())
    }

    /// A server is down without a save. A stop that was armed at it is spent.
    pub(crate) fn crash(
        &mut self,
        alloc: Global,
        server: ServerId,
        pick: &Pick,
        lines: &mut Vec<Line>,
    ) -> Result<(), AllocError>
        requires { lines.old.items ≡ [] }
        ensures taken { OnOk result (Takes self.old self.new
            (step_is.Crash server pick.now) lines.new.items) }
        ensures clocks { OnOk result (self.new.clocks ≡ self.old.clocks) }
    {
        let before = self.state_line(server);
        self.spend_stop(server);
        self.crash_host(server, pick);
        let after = self.state_line(server);
        show_state(server, &before, &after, lines)?;
        Ok(())
    }
}
