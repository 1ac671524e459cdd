//! Clients' calls.

ghost use Rattle.std.specs.Prelude.{◌≡◌, OnOk, []};
ghost use Rattle.schedule_play.specs.Stage.{AreReadings};
ghost use Rattle.trace_types.specs.declared.step.Step.TheVariants as step;
ghost use Rattle.world.specs.Steps.{Takes};
ghost use Rattle.world.specs.World.{clocks_in};

use crate::world::World;
use harp_types::{Call, Cred, Peer, ServerId};
use node::Input;
use std::alloc::{AllocError, Global};
use trace_types::Line;

/// The peer that all asks of a schedule come from.
const CLIENT: Peer = Peer::Other {
    address: 0,
    port: 0,
};

impl World {
    /// A client asks a server.
    pub(crate) fn ask(
        &mut self,
        alloc: Global,
        server: ServerId,
        client: u32,
        number: u64,
        cred: Cred,
        call: Call,
        lines: &mut Vec<Line>,
    ) -> Result<(), AllocError>
        requires now { AreReadings (clocks_in self.old) }
        requires none { lines.old.items ≡ [] }
        ensures taken { OnOk result (Takes self.old self.new
            (step.Ask server client number cred call) lines.new.items) }
        ensures clocks { OnOk result (self.new.clocks ≡ self.old.clocks) }
    {
        let input = Input::Ask {
            peer: CLIENT,
            client,
            number,
            cred,
            call,
        };
        self.run(alloc, server, input, lines)?;
        Ok(())
    }
}
