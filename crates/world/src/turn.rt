//! The turn of a server: what its step gives.

ghost use Rattle.std.specs.Prelude.{◌≡◌, None, Some, IfOk, OnOk, if◌then◌else◌};
ghost use Rattle.schedule_play.specs.Stage.{AreReadings};
ghost use Rattle.trace_types.specs.declared.line.Line.TheVariants as line;
ghost use Rattle.node_outputs.specs.Said.{nothing, said};
ghost use Rattle.world.specs.Given.{Gives};
ghost use Rattle.world.specs.Turns.{Turns};
ghost use Rattle.world.specs.World.{clocks_in};

use crate::world::World;
use harp_types::ServerId;
use node::Input;
use node_outputs::Outputs;
use std::alloc::{AllocError, Global};
use trace_types::Line;
use tree_listing::Listing;
use world_lines::{give, show_state};

impl World {
    /// A server that is up steps, until its stop where one is armed, which is spent then. What the
    /// step gives comes into the book, among the packets and into lines, and then the server's
    /// state, where it isn't the one before. The tree that it listed is given back.
    pub(crate) fn run(
        &mut self,
        alloc: Global,
        server: ServerId,
        input: Input,
        lines: &mut Vec<Line>,
    ) -> Result<Option<Listing>, AllocError>
        requires { AreReadings (clocks_in self.old) }
        ensures turns { IfOk result (λ listing. Turns self.old self.new server input
            lines.old.items lines.new.items listing) }
        ensures clocks { OnOk result (self.new.clocks ≡ self.old.clocks) }
    {
        let mut outs = self.take_room(alloc)?;
        let listing = self.run_into(alloc, server, input, &mut *outs, lines)?;
        self.keep_room(outs);
        Ok(listing)
    }

    /// The same. What the step gives comes into this room, where none is yet, and out of it.
    fn run_into(
        &mut self,
        alloc: Global,
        server: ServerId,
        input: Input,
        outs: &mut Outputs,
        lines: &mut Vec<Line>,
    ) -> Result<Option<Listing>, AllocError>
        requires readings { AreReadings (clocks_in self.old) }
        requires none { said outs.old ≡ nothing }
        ensures turns { IfOk result (λ listing. Turns self.old self.new server input
            lines.old.items lines.new.items listing) }
        ensures clocks { OnOk result (self.new.clocks ≡ self.old.clocks) }
    {
        let before = self.state_line(server);
        let stop = self.spend_stop(server);
        let gives = self.step_host(alloc, server, input, stop, outs)?;
        let listing = self.give(alloc, server, gives, outs, lines)?;
        let after = self.state_line(server);
        show_state(server, &before, &after, lines)?;
        Ok(listing)
    }

    /// The room for outputs that was kept, or a new one, with none yet.
    fn take_room(&mut self, alloc: Global) -> Result<Box<Outputs>, AllocError>
        ensures none { IfOk result (λ outs. said outs.value ≡ nothing) }
        ensures still { self.new ≡ self.old }
    {
        match self.outs.take() {
            Some(kept) => {
                let mut outs = kept;
                outs.clear();
                Ok(outs)
            }
            None => Ok(Box::new(alloc, Outputs::new(alloc))?),
        }
    }

    /// Keeps the room for the next step.
    fn keep_room(&mut self, outs: Box<Outputs>)
        ensures { self.new ≡ self.old }
    {
        self.outs = Some(outs);
    }

    /// What a step gives comes into the book, among the packets and into lines; one that was cut
    /// gives nothing.
    fn give(
        &mut self,
        alloc: Global,
        server: ServerId,
        gives: bool,
        outs: &mut Outputs,
        lines: &mut Vec<Line>,
    ) -> Result<Option<Listing>, AllocError>
        ensures { IfOk result (λ listing. Gives self.old self.new server
            (if gives then Some outs.old else None) lines.old.items lines.new.items listing) }
    {
        if !gives {
            return Ok(None);
        }
        let (book, packets) = (&mut self.book, &mut self.packets);
        give(alloc, server, outs, book, packets, lines)
    }
}
