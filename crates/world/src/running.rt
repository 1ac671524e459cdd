//! What a server is told to do.

ghost use Rattle.std.specs.Prelude.{◌≡◌, OnOk, []};
ghost use Rattle.schedule_play.specs.Stage.{AreReadings};
ghost use Rattle.trace_types.specs.declared.step.Step.TheVariants as step;
ghost use Rattle.world.specs.Steps.{Takes};
ghost use Rattle.world.specs.World.{clocks_in};

use crate::world::World;
use harp_types::ServerId;
use node::Input;
use std::alloc::{AllocError, Global};
use trace_types::Line;
use world_lines::show_listing;

impl World {
    /// A server does what is due.
    pub(crate) fn tick(
        &mut self,
        alloc: Global,
        server: ServerId,
        lines: &mut Vec<Line>,
    ) -> Result<(), AllocError>
        requires now { AreReadings (clocks_in self.old) }
        requires none { lines.old.items ≡ [] }
        ensures taken { OnOk result (Takes self.old self.new (step.Tick server)
            lines.new.items) }
        ensures clocks { OnOk result (self.new.clocks ≡ self.old.clocks) }
    {
        self.run(alloc, server, Input::Tick, lines)?;
        Ok(())
    }

    /// A server begins a view change.
    pub(crate) fn suspect(
        &mut self,
        alloc: Global,
        server: ServerId,
        lines: &mut Vec<Line>,
    ) -> Result<(), AllocError>
        requires now { AreReadings (clocks_in self.old) }
        requires none { lines.old.items ≡ [] }
        ensures taken { OnOk result (Takes self.old self.new (step.Suspect server)
            lines.new.items) }
        ensures clocks { OnOk result (self.new.clocks ≡ self.old.clocks) }
    {
        self.run(alloc, server, Input::Suspect, lines)?;
        Ok(())
    }

    /// A server puts the changes of at most so many records on its disk.
    pub(crate) fn apply(
        &mut self,
        alloc: Global,
        server: ServerId,
        most: u32,
        lines: &mut Vec<Line>,
    ) -> Result<(), AllocError>
        requires now { AreReadings (clocks_in self.old) }
        requires none { lines.old.items ≡ [] }
        ensures taken { OnOk result (Takes self.old self.new (step.Apply server most)
            lines.new.items) }
        ensures clocks { OnOk result (self.new.clocks ≡ self.old.clocks) }
    {
        self.run(alloc, server, Input::Apply { most }, lines)?;
        Ok(())
    }

    /// A server syncs its disk.
    pub(crate) fn flush(
        &mut self,
        alloc: Global,
        server: ServerId,
        lines: &mut Vec<Line>,
    ) -> Result<(), AllocError>
        requires now { AreReadings (clocks_in self.old) }
        requires none { lines.old.items ≡ [] }
        ensures taken { OnOk result (Takes self.old self.new (step.Flush server)
            lines.new.items) }
        ensures clocks { OnOk result (self.new.clocks ≡ self.old.clocks) }
    {
        self.run(alloc, server, Input::Flush, lines)?;
        Ok(())
    }

    /// A server lists its tree.
    pub(crate) fn list(
        &mut self,
        alloc: Global,
        server: ServerId,
        lines: &mut Vec<Line>,
    ) -> Result<(), AllocError>
        requires now { AreReadings (clocks_in self.old) }
        requires none { lines.old.items ≡ [] }
        ensures taken { OnOk result (Takes self.old self.new (step.List server)
            lines.new.items) }
        ensures clocks { OnOk result (self.new.clocks ≡ self.old.clocks) }
    {
        let listing = self.run(alloc, server, Input::List, lines)?;
        show_listing(alloc, server, listing, lines)?;
        Ok(())
    }
}
