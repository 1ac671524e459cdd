//! Three servers that run in this process.

ghost use Rattle.std.specs.Prelude.{◌≡◌, ◌≤◌, ℕ, List, [], Option, None, Some, Err, OnErr, OnOk};
ghost use Rattle.node_loop.specs.Scene.{AreUp, Around, Scene, around, each, scene_of, with_heard};
ghost use Rattle.door_group.specs.Local.{AskBreaks, AskedAt, Basis, HasFailed, IsLater, IsLent};
ghost use Rattle.door_group.specs.Local.{TurnBreaks, Turned, all_faults, of_loop};

use crate::servers::{Servers, ServersFault};
use harp_store::Store;
use harp_types::{Call, Cred, ServerId, Trio};
use node_link::{Clock, Link};
use node_loop::{Heard, LoopFault, Three};
use std::alloc::Global;

/// What ended servers is kept: the fault of servers that this fault of their loop is.
fn end(ended: &mut Option<LoopFault>, fault: LoopFault) -> ServersFault
    ensures kept { ended.new ≡ Some fault }
    ensures fault { result ≡ of_loop fault }
{
    *ended = Some(fault);
    match fault {
        LoopFault::StoreFailed | LoopFault::LinkFailed => ServersFault::Failed,
        LoopFault::NoMemory => ServersFault::NoMemory,
    }
}

/// Three servers that run in this process, and what they run on, which are lent to them.
#[derive(Drop)]
pub struct LocalServers<'a, L: Link, D: Store, C: Clock> {
    three: &'a mut Three,
    link: &'a mut L,
    disks: &'a mut Trio<D>,
    clock: &'a mut C,
    /// What ended them.
    ended: Option<LoopFault>,
}

impl<'a, L: Link, D: Store, C: Clock> LocalServers<'a, L, D, C> {
    /// Servers that were started on this link, these disks and this clock, and go on so.
    pub fn new(
        three: &'a mut Three,
        link: &'a mut L,
        disks: &'a mut Trio<D>,
        clock: &'a mut C,
    ) -> LocalServers<'a, L, D, C>
        ensures three { IsLent three.entry result.three }
        ensures link { IsLent link.entry result.link }
        ensures disks { IsLent disks.entry result.disks }
        ensures clock { IsLent clock.entry result.clock }
        ensures ended { result.ended ≡ None }
    {
        LocalServers {
            three,
            link,
            disks,
            clock,
            ended: None,
        }
    }

    /// What ended them, if a call failed.
    pub fn ended(&self) -> Option<LoopFault>
        ensures { result ≡ self.now.ended }
    {
        self.ended
    }
}

impl<L: Link, D: Store, C: Clock> Servers for LocalServers<'_, L, D, C> {
    ghost runs = { λ s. AreUp s.three.now.servers (each D.told s.disks.now) };

    ghost Scene = { Scene };

    // They are those of the scene, in which nothing was heard yet.
    ghost stands = { λ s w. w ≡ with_heard [] (scene_of s.three.now (each D.told s.disks.now)
        (L.told s.link.now) (C.told s.clock.now)) };

    ghost said = { λ s. s.three.now.ledger.heard.items };

    ghost turns = { Turned };

    ghost asks = { AskedAt };

    // What their disks, the link and the clock tell.
    ghost Trail = { Around };

    ghost trail = { λ s. around (each D.told s.disks.now) (L.told s.link.now)
        (C.told s.clock.now) };

    ghost turn_breaks = { TurnBreaks };

    ghost ask_breaks = { AskBreaks };

    ghost faults = { λ s. all_faults (L.faults s.link.now) (each D.faults s.disks.now) };

    ghost failed = { λ s. HasFailed s.ended };

    ghost Basis = { Basis };

    ghost on = { λ s old. IsLater s.ended old (record {
      three = s.three.ghost_name;
      link = s.link.ghost_name;
      disks = s.disks.ghost_name;
      clock = s.clock.ghost_name;
      link_faults = L.faults s.link.now;
      disk_faults = each D.faults s.disks.now;
    }) };

    fn turn(&mut self, alloc: Global) -> Result<(), ServersFault> {
        match self.three.turn(alloc, self.link, self.disks, self.clock) {
            Ok(()) => Ok(()),
            Err(fault) => Err(end(&mut self.ended, fault)),
        }
    }

    fn ask(
        &mut self,
        alloc: Global,
        place: ServerId,
        client: u32,
        number: u64,
        cred: Cred,
        call: &Call,
    ) -> Result<(), ServersFault> {
        match self.three.ask(
            alloc, place, client, number, cred, call, self.link, self.disks, self.clock,
        ) {
            Ok(()) => Ok(()),
            Err(fault) => Err(end(&mut self.ended, fault)),
        }
    }

    fn hear(&mut self) -> Option<Heard> {
        self.three.heard()
    }
}
