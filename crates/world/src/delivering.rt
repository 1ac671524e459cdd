//! Packets that reach their servers.

ghost use Rattle.std.specs.Prelude.{◌≡◌, ◌<◌, length, slice_get, Some, IfOk, OnOk, []};
ghost use Rattle.std.specs.Option.{option_map};
ghost use Rattle.schedule_play.specs.Stage.{AreReadings};
ghost use Rattle.world_lines.specs.Posted.{Posted, delivered_at};
ghost use Rattle.trace_types.specs.declared.step.Step.TheVariants as step;
ghost use Rattle.world.specs.Deliveries.{Arrives};
ghost use Rattle.world.specs.Steps.{Takes};
ghost use Rattle.world.specs.World.{clocks_in};

use crate::world::World;
use node::Input;
use std::alloc::{AllocError, Global};
use trace_types::Line;
use world_lines::Packet;

impl World {
    /// A packet reaches its server.
    pub(crate) fn deliver(
        &mut self,
        alloc: Global,
        packet: u64,
        lines: &mut Vec<Line>,
    ) -> Result<(), AllocError>
        requires sent { packet < length self.old.packets }
        requires now { AreReadings (clocks_in self.old) }
        requires none { lines.old.items ≡ [] }
        ensures taken { OnOk result (Takes self.old self.new
            (step.Deliver packet) lines.new.items) }
        ensures clocks { OnOk result (self.new.clocks ≡ self.old.clocks) }
    {
        let opened = self.open(alloc, packet)?;
        self.arrive(alloc, opened, lines)?;
        self.count(packet);
        Ok(())
    }

    /// A packet that was sent, with its message as a value.
    fn open(&self, alloc: Global, packet: u64) -> Result<Packet, AllocError>
        requires { packet < length self.now.packets }
        ensures { IfOk result (λ opened. option_map (λ (p : Posted). p.packet)
            (slice_get self.now.packets packet) ≡ Some opened) }
    {
        match self.packets.open(alloc, packet)? {
            Some(opened) => Ok(opened),
            None => unreachable!(),
        }
    }

    /// A packet counts as delivered.
    fn count(&mut self, packet: u64)
        ensures { self.new ≡ record self.old { packets = delivered_at self.old.packets packet } }
    {
        self.packets.deliver(packet);
    }

    /// A server deals with a packet's message; at one that is down the packet is lost.
    fn arrive(
        &mut self,
        alloc: Global,
        packet: Packet,
        lines: &mut Vec<Line>,
    ) -> Result<(), AllocError>
        requires { AreReadings (clocks_in self.old) }
        ensures arrives { OnOk result (Arrives self.old self.new packet
            lines.old.items lines.new.items) }
        ensures clocks { OnOk result (self.new.clocks ≡ self.old.clocks) }
    {
        let Packet { from, to, message } = packet;
        if !self.is_up(to) {
            return Ok(());
        }
        self.run(alloc, to, Input::Message { from, message }, lines)?;
        Ok(())
    }
}
