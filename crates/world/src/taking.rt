//! What a step does that isn't refused.

ghost use Rattle.std.specs.Prelude.{◌≡◌, OnOk, []};
ghost use Rattle.schedule_play.specs.Stage.{AreReadings, clocks_after};
ghost use Rattle.world.specs.Steps.{IsReady, Takes};
ghost use Rattle.world.specs.World.{clocks_in};

use crate::world::World;
use std::alloc::{AllocError, Global};
use trace_types::{Line, Step};

impl World {
    /// Takes a step that isn't refused. It goes into its caller, since a step is large, and handing
    /// it on moves it.
    #[inline(always)]
    pub(crate) fn take(
        &mut self,
        alloc: Global,
        step: Step,
        lines: &mut Vec<Line>,
    ) -> Result<(), AllocError>
        requires ready { IsReady self.old step }
        requires readings { AreReadings (clocks_after (clocks_in self.old) step) }
        requires now { AreReadings (clocks_in self.old) }
        requires none { lines.old.items ≡ [] }
        ensures taken { OnOk result (Takes self.old self.new step lines.new.items) }
        ensures clocks { OnOk result (clocks_in self.new
            ≡ clocks_after (clocks_in self.old) step) }
    {
        match step {
            Step::Ask {
                server,
                client,
                number,
                cred,
                call,
            } => self.ask(alloc, server, client, number, cred, call, lines),
            Step::Deliver { packet } => self.deliver(alloc, packet, lines),
            Step::Pump { .. } => unreachable!(),
            Step::Tick { server } => self.tick(alloc, server, lines),
            Step::Suspect { server } => self.suspect(alloc, server, lines),
            Step::Apply { server, most } => self.apply(alloc, server, most, lines),
            Step::Flush { server } => self.flush(alloc, server, lines),
            Step::List { server } => self.list(alloc, server, lines),
            Step::Boot { server } => self.boot(alloc, server, lines),
            Step::Power { server } => self.power(alloc, server, lines),
            Step::PowerCut {
                server,
                calls,
                pick,
            } => self.cut_power(alloc, server, calls, &pick, lines),
            Step::Crash { server, pick } => self.crash(alloc, server, &pick, lines),
            Step::Stop {
                server,
                calls,
                pick,
            } => self.arm_stop(alloc, server, calls, &pick),
            Step::Noise { .. } => Ok(()),
            Step::Clock { server, reading } => {
                self.set_clock(server, reading);
                Ok(())
            }
            Step::Advance { millis } => {
                self.advance(millis);
                Ok(())
            }
            Step::Delta { millis } => {
                self.set_delta(millis);
                Ok(())
            }
        }
    }
}
