//! What a server shows of what is wanted of it.

ghost use Rattle.std.specs.Prelude.{◌≡◌, ◌↔◌, Err, IfOk, IfSome, OnOk, false, option_map};
ghost use Rattle.group_trace.specs.DiskCalls.{measures_of};
ghost use Rattle.group_trace.specs.DiskRun.{DiskScene};
ghost use Rattle.group_rules.specs.Names.{place_of};
ghost use Rattle.harp_types.specs.Trio.{value_of};
ghost use Rattle.record_changes.specs.Records.{history_of};
ghost use Rattle.schedule_play.specs.Stage.{IsReached};
ghost use Rattle.shown.specs.Rule.{outline_of, shown_by};
ghost use Rattle.shown.specs.Truth.{IsLowShown, IsShownOf};
ghost use Rattle.world.specs.Shows.{HasStill, LeavesWorld};
ghost use Rattle.world.specs.World.{IsWorld};
ghost use Rattle.world_host.specs.Shows.{HostShows};
ghost use Rattle.world_rules.specs.Spellings.{spellings};

use crate::world::World;
use harp_types::ServerId;
use schedule_play::Refusal;
use shown::{Shown, Want};
use std::alloc::{AllocError, Global};

impl World {
    /// Shows what is wanted of a server: a cell, at a settled data server, with its value at CP, or
    /// committed records, at a server that holds a log. It is refused where the server is down.
    /// Nothing changes but which cells its node keeps in memory. After want of memory the world
    /// may be anything.
    pub fn show(
        &mut self,
        alloc: Global,
        server: ServerId,
        want: &Want,
    ) -> Result<Option<Shown>, Refusal>
        ensures down { (w : DiskScene) → IsWorld w self.old → (result ≡ Err Refusal.ServerDown)
            ↔ ((w.scene.group.server (place_of server)).up ≡ false) }
        ensures shown { IfOk result (HostShows (value_of self.old.hosts server) want.now) }
        // In each world that a run of steps leaves it is what the group's numbers say, and true of
        // the book's updates.
        ensures rule { (w : DiskScene) → IsReached spellings w → IsWorld w self.old
            → IfOk result (λ o. option_map outline_of o
            ≡ shown_by (measures_of spellings).size w.scene.group (place_of server) want.now) }
        ensures truly { (w : DiskScene) → IsReached spellings w → IsWorld w self.old
            → IfOk result (λ o. IfSome o (IsShownOf (history_of w.scene.group.committed))) }
        ensures low { IfOk result (λ o. IfSome o IsLowShown) }
        ensures leaves { LeavesWorld result self.old self.new server }
        ensures stands { OnOk result ((w : DiskScene) → IsWorld w self.old → IsWorld w self.new) }
    {
        if !self.is_up(server) {
            return Err(Refusal::ServerDown);
        }
        match self.show_host(alloc, server, want) {
            Ok(shown) => Ok(shown),
            Err(_) => Err(Refusal::NoMemory),
        }
    }

    /// What a server's host shows.
    fn show_host(
        &mut self,
        alloc: Global,
        server: ServerId,
        want: &Want,
    ) -> Result<Option<Shown>, AllocError>
        ensures shown { IfOk result (HostShows (value_of self.old.hosts server) want.now) }
        ensures low { IfOk result (λ o. IfSome o IsLowShown) }
        ensures still { OnOk result (HasStill self.old self.new server) }
    {
        self.hosts.get_mut(server).show(alloc, want)
    }
}
