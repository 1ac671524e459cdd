//! What a host does, beside the rest of the world.

ghost use Rattle.std.specs.Prelude.{◌≡◌, ◌<◌, ◌^◌, None, Some, IfOk, OnOk, if◌then◌else◌};
ghost use Rattle.group_trace.specs.DiskRun.{DiskScene};
ghost use Rattle.group_rules.specs.Names.{place_of};
ghost use Rattle.group_trace.specs.Shown.{shown_of};
ghost use Rattle.harp_types.specs.Trio.{value_of, with_value};
ghost use Rattle.node_outputs.specs.Said.{nothing, said};
ghost use Rattle.world_rules.specs.Steps.{HostBoots, HostFails, HostFalls, HostTakes};
ghost use Rattle.world.specs.World.{IsWorld};
ghost use Rattle.world.specs.Hosts.{HasHost};

use crate::world::World;
use harp_store::Pick;
use harp_types::{ServerId, StateLine};
use node::Input;
use node_outputs::Outputs;
use std::alloc::{AllocError, Global};
use world_host::Stop;

impl World {
    /// What a trace shows of a server.
    pub(crate) fn state_line(&self, server: ServerId) -> Option<StateLine>
        ensures { (w : DiskScene) → IsWorld w self.now
            → result ≡ shown_of (w.scene.group.server (place_of server)) }
    {
        self.hosts.get(server).state_line()
    }

    /// Whether a server is up.
    pub fn is_up(&self, server: ServerId) -> bool
        ensures { (w : DiskScene) → IsWorld w self.now
            → result ≡ (w.scene.group.server (place_of server)).up }
    {
        self.hosts.get(server).is_up()
    }

    /// The stop that is armed at a server, which is spent now.
    pub(crate) fn spend_stop(&mut self, server: ServerId) -> Option<Stop>
        ensures stop { result ≡ value_of self.old.stops server }
        ensures world { self.new ≡ record self.old {
          stops = with_value self.old.stops server None;
        } }
    {
        self.stops.get_mut(server).take()
    }

    /// A step of a server's host by its clock. Its outputs come where none are yet, and the result
    /// tells whether it gave them. It goes into its caller, since an input is large, and handing it
    /// on moves it.
    #[inline(always)]
    pub(crate) fn step_host(
        &mut self,
        alloc: Global,
        server: ServerId,
        input: Input,
        stop: Option<Stop>,
        outs: &mut Outputs,
    ) -> Result<bool, AllocError>
        requires now { value_of self.old.clocks server < 2 ^ 62 }
        requires none { said outs.old ≡ nothing }
        ensures world { HasHost self.old self.new server }
        ensures takes { IfOk result (λ gives. HostTakes (value_of self.old.hosts server)
            (value_of self.new.hosts server) input (value_of self.old.clocks server) stop
            (if gives then Some outs.new else None)) }
    {
        let now = *self.clocks.get(server);
        self.hosts
            .get_mut(server)
            .take(alloc, input, now, stop, outs)
    }

    /// A power failure of a server's host.
    pub(crate) fn fail_host(
        &mut self,
        alloc: Global,
        server: ServerId,
        stop: Option<Stop>,
    ) -> Result<(), AllocError>
        ensures world { HasHost self.old self.new server }
        ensures fails { OnOk result (HostFails (value_of self.old.hosts server)
            (value_of self.new.hosts server) stop) }
    {
        self.hosts.get_mut(server).power(alloc, stop)
    }

    /// A crash of a server's host.
    pub(crate) fn crash_host(&mut self, server: ServerId, kept: &Pick)
        ensures world { HasHost self.old self.new server }
        ensures falls { HostFalls (value_of self.old.hosts server)
            (value_of self.new.hosts server) kept.now }
    {
        self.hosts.get_mut(server).crash(kept);
    }

    /// A boot of a server's host by its clock, with the promises of later boots.
    pub(crate) fn boot_host(&mut self, alloc: Global, server: ServerId) -> Result<(), AllocError>
        requires { value_of self.old.clocks server < 2 ^ 62 }
        ensures world { HasHost self.old self.new server }
        ensures boots { OnOk result (HostBoots (value_of self.old.hosts server)
            (value_of self.new.hosts server) (value_of self.old.clocks server) self.old.delta) }
    {
        let now = *self.clocks.get(server);
        self.hosts.get_mut(server).boot(alloc, now, self.delta)
    }
}
