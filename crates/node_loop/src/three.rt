//! Three servers that run in one program.

ghost use Rattle.std.specs.Prelude.{◌≡◌, ◌≤◌, Option, IfOk, OnErr, OnOk, Err};
ghost use Rattle.harp_types.specs.Streams.{Rose};
ghost use Rattle.node_link.specs.Traffic.{Traffic, last_port};
ghost use Rattle.node_loop.specs.Chain.{Chain, Stops};
ghost use Rattle.node_loop.specs.Outgoing.{IsNext};
ghost use Rattle.node_loop.specs.Cut.{AsksAtInPart, BootsAtInPart, GivesAtInPart, IsUnstarted};
ghost use Rattle.node_loop.specs.Cut.{TurnsAtInPart};
ghost use Rattle.node_loop.specs.Run.{AsksAt, BootsAt, GivesAt, TakesTurns, TurnsAt, rounds};
ghost use Rattle.node_loop.specs.Scene.{AreUp, NoneFell, OneRose, all_places, around, each, scene};
ghost use Rattle.node_loop.specs.Scene.{scene_of, start};

use crate::binding::open_all;
use crate::booting::boot;
use crate::counts::Served;
use crate::fault::LoopFault;
use crate::habit::Habit;
use crate::heard::Heard;
use crate::ledger::Ledger;
use crate::rounds::{give_now, turn};
use crate::running::Running;
use harp_store::Store;
use harp_types::{Call, Cred, Peer, ServerId, Trio};
use node::Input;
use node_link::{Clock, Link};
use promise::Delta;
use std::alloc::Global;

/// How many milliseconds a server waits for a datagram, about.
const WAIT: u32 = 5;

/// Three servers that run in one program, over a link, their disks and a clock, which are passed to
/// each call. They take turns, the program can ask each of them, and it hears what they say to it.
/// After a fault they aren't used again.
#[derive(Drop)]
pub struct Three {
    servers: Trio<Running>,
    ledger: Ledger,
}

/// Boots the three servers, in the order of their places.
fn boot_all<D: Store, C: Clock>(
    alloc: Global,
    delta: Delta,
    stores: &mut Trio<D>,
    clock: &mut C,
) -> Result<Three, LoopFault>
    ensures boots { (link : Option Traffic) → IfOk result (λ three.
        Chain (BootsAt delta) all_places
        (start (each D.told stores.old) link (C.told clock.old))
        (scene_of three (each D.told stores.new) link (C.told clock.new))) }
    ensures part { (link : Option Traffic) → OnErr result (Stops (BootsAt delta)
        (BootsAtInPart delta) all_places
        (start (each D.told stores.old) link (C.told clock.old))
        (around (each D.told stores.new) link (C.told clock.new))) }
    ensures up { IfOk result (λ three. AreUp three.servers (each D.told stores.new)) }
    ensures disk_rose { result ≡ Err LoopFault.StoreFailed
        → OneRose (each D.faults stores.old) (each D.faults stores.new) }
    ensures disk_count { NoneFell (each D.faults stores.old) (each D.faults stores.new) }
    ensures link { result ≡ Err LoopFault.LinkFailed → ⊥ }
{
    let zero = boot(
        alloc,
        Habit::Plain,
        ServerId::Zero,
        delta,
        &mut stores.zero,
        clock,
    )?;
    let one = boot(
        alloc,
        Habit::Plain,
        ServerId::One,
        delta,
        &mut stores.one,
        clock,
    )?;
    let two = boot(
        alloc,
        Habit::Plain,
        ServerId::Two,
        delta,
        &mut stores.two,
        clock,
    )?;
    let ledger = Ledger::new(alloc);
    Ok(Three {
        servers: Trio { zero, one, two },
        ledger,
    })
}

/// A turn of each of the three servers.
fn round<L: Link, D: Store, C: Clock>(
    alloc: Global,
    servers: &mut Trio<Running>,
    link: &mut L,
    stores: &mut Trio<D>,
    clock: &mut C,
    ledger: &mut Ledger,
) -> Result<(), LoopFault>
    requires { AreUp servers.old (each D.told stores.old) }
    ensures turns { OnOk result (Chain TurnsAt all_places
        (scene servers.old (each D.told stores.old) (L.told link.old) (C.told clock.old) ledger.old)
        (scene servers.new (each D.told stores.new) (L.told link.new) (C.told clock.new)
        ledger.new)) }
    ensures part { OnErr result (Stops TurnsAt TurnsAtInPart all_places
        (scene servers.old (each D.told stores.old) (L.told link.old) (C.told clock.old) ledger.old)
        (around (each D.told stores.new) (L.told link.new) (C.told clock.new))) }
    ensures up { OnOk result (AreUp servers.new (each D.told stores.new)) }
    ensures link_rose { result ≡ Err LoopFault.LinkFailed
        → Rose (L.faults link.old) (L.faults link.new) }
    ensures link_count { L.faults link.old ≤ L.faults link.new }
    ensures disk_rose { result ≡ Err LoopFault.StoreFailed
        → OneRose (each D.faults stores.old) (each D.faults stores.new) }
    ensures disk_count { NoneFell (each D.faults stores.old) (each D.faults stores.new) }
{
    turn(
        alloc,
        ServerId::Zero,
        WAIT,
        &mut servers.zero,
        link,
        &mut stores.zero,
        clock,
        ledger,
    )?;
    turn(
        alloc,
        ServerId::One,
        WAIT,
        &mut servers.one,
        link,
        &mut stores.one,
        clock,
        ledger,
    )?;
    turn(
        alloc,
        ServerId::Two,
        WAIT,
        &mut servers.two,
        link,
        &mut stores.two,
        clock,
        ledger,
    )
}

/// Gives an input to the server of a place between turns, at a reading of its clock.
fn give_at<L: Link, D: Store, C: Clock>(
    alloc: Global,
    place: ServerId,
    input: Input,
    servers: &mut Trio<Running>,
    link: &mut L,
    stores: &mut Trio<D>,
    clock: &mut C,
    ledger: &mut Ledger,
) -> Result<(), LoopFault>
    requires { AreUp servers.old (each D.told stores.old) }
    ensures given { OnOk result (GivesAt place input
        (scene servers.old (each D.told stores.old) (L.told link.old) (C.told clock.old) ledger.old)
        (scene servers.new (each D.told stores.new) (L.told link.new) (C.told clock.new)
        ledger.new)) }
    ensures part { OnErr result (GivesAtInPart place input
        (scene servers.old (each D.told stores.old) (L.told link.old) (C.told clock.old) ledger.old)
        (around (each D.told stores.new) (L.told link.new) (C.told clock.new))) }
    ensures up { OnOk result (AreUp servers.new (each D.told stores.new)) }
    ensures link_rose { result ≡ Err LoopFault.LinkFailed
        → Rose (L.faults link.old) (L.faults link.new) }
    ensures link_count { L.faults link.old ≤ L.faults link.new }
    ensures disk_rose { result ≡ Err LoopFault.StoreFailed
        → OneRose (each D.faults stores.old) (each D.faults stores.new) }
    ensures disk_count { NoneFell (each D.faults stores.old) (each D.faults stores.new) }
{
    match place {
        ServerId::Zero => give_now(
            alloc,
            ServerId::Zero,
            input,
            &mut servers.zero,
            link,
            &mut stores.zero,
            clock,
            ledger,
        ),
        ServerId::One => give_now(
            alloc,
            ServerId::One,
            input,
            &mut servers.one,
            link,
            &mut stores.one,
            clock,
            ledger,
        ),
        ServerId::Two => give_now(
            alloc,
            ServerId::Two,
            input,
            &mut servers.two,
            link,
            &mut stores.two,
            clock,
            ledger,
        ),
    }
}

impl Three {
    /// Starts three servers: opens their places, from this port on, and boots them from their
    /// disks, in the order of their places. Nothing is taken or sent.
    pub fn start<L: Link, D: Store, C: Clock>(
        alloc: Global,
        port: u16,
        delta: Delta,
        link: &mut L,
        stores: &mut Trio<D>,
        clock: &mut C,
    ) -> Result<Three, LoopFault>
        requires { port ≤ last_port }
        ensures boots { IfOk result (λ three. Chain (BootsAt delta) all_places
            (start (each D.told stores.old) (L.told link.old) (C.told clock.old))
            (scene_of three (each D.told stores.new) (L.told link.new) (C.told clock.new))) }
        ensures up { IfOk result (λ three. AreUp three.servers (each D.told stores.new)) }
        ensures part { OnErr result (IsUnstarted delta all_places
            (start (each D.told stores.old) (L.told link.old) (C.told clock.old))
            (around (each D.told stores.new) (L.told link.new) (C.told clock.new))) }
        ensures link_rose { result ≡ Err LoopFault.LinkFailed
            → Rose (L.faults link.old) (L.faults link.new) }
        ensures link_count { L.faults link.old ≤ L.faults link.new }
        ensures disk_rose { result ≡ Err LoopFault.StoreFailed
            → OneRose (each D.faults stores.old) (each D.faults stores.new) }
        ensures disk_count { NoneFell (each D.faults stores.old) (each D.faults stores.new) }
    {
        open_all(port, link)?;
        boot_all(alloc, delta, stores, clock)
    }

    /// A turn of server 0, then one of server 1, and one of server 2.
    pub fn turn<L: Link, D: Store, C: Clock>(
        &mut self,
        alloc: Global,
        link: &mut L,
        stores: &mut Trio<D>,
        clock: &mut C,
    ) -> Result<(), LoopFault>
        requires { AreUp self.old.servers (each D.told stores.old) }
        ensures turns { OnOk result (Chain TurnsAt all_places
            (scene_of self.old (each D.told stores.old) (L.told link.old) (C.told clock.old))
            (scene_of self.new (each D.told stores.new) (L.told link.new) (C.told clock.new))) }
        ensures part { OnErr result (Stops TurnsAt TurnsAtInPart all_places
            (scene_of self.old (each D.told stores.old) (L.told link.old) (C.told clock.old))
            (around (each D.told stores.new) (L.told link.new) (C.told clock.new))) }
        ensures up { OnOk result (AreUp self.new.servers (each D.told stores.new)) }
        ensures link_rose { result ≡ Err LoopFault.LinkFailed
            → Rose (L.faults link.old) (L.faults link.new) }
        ensures link_count { L.faults link.old ≤ L.faults link.new }
        ensures disk_rose { result ≡ Err LoopFault.StoreFailed
            → OneRose (each D.faults stores.old) (each D.faults stores.new) }
        ensures disk_count { NoneFell (each D.faults stores.old) (each D.faults stores.new) }
    {
        round(
            alloc,
            &mut self.servers,
            link,
            stores,
            clock,
            &mut self.ledger,
        )
    }

    /// Asks the server of a place a call of a client, which numbers its calls, at a reading of its
    /// clock. What the server says to it is heard, now or after a turn.
    pub fn ask<L: Link, D: Store, C: Clock>(
        &mut self,
        alloc: Global,
        place: ServerId,
        client: u32,
        number: u64,
        cred: Cred,
        call: &Call,
        link: &mut L,
        stores: &mut Trio<D>,
        clock: &mut C,
    ) -> Result<(), LoopFault>
        requires { AreUp self.old.servers (each D.told stores.old) }
        ensures asks { OnOk result (AsksAt place
            (record { client = client; number = number; cred = cred; call = call.now })
            (scene_of self.old (each D.told stores.old) (L.told link.old) (C.told clock.old))
            (scene_of self.new (each D.told stores.new) (L.told link.new) (C.told clock.new))) }
        ensures part { OnErr result (AsksAtInPart place
            (record { client = client; number = number; cred = cred; call = call.now })
            (scene_of self.old (each D.told stores.old) (L.told link.old) (C.told clock.old))
            (around (each D.told stores.new) (L.told link.new) (C.told clock.new))) }
        ensures up { OnOk result (AreUp self.new.servers (each D.told stores.new)) }
        ensures link_rose { result ≡ Err LoopFault.LinkFailed
            → Rose (L.faults link.old) (L.faults link.new) }
        ensures link_count { L.faults link.old ≤ L.faults link.new }
        ensures disk_rose { result ≡ Err LoopFault.StoreFailed
            → OneRose (each D.faults stores.old) (each D.faults stores.new) }
        ensures disk_count { NoneFell (each D.faults stores.old) (each D.faults stores.new) }
    {
        let call = call.copy(alloc)?;
        let input = Input::Ask {
            peer: Peer::Local,
            client,
            number,
            cred,
            call,
        };
        give_at(
            alloc,
            place,
            input,
            &mut self.servers,
            link,
            stores,
            clock,
            &mut self.ledger,
        )
    }

    /// What the servers said to the program first, and it didn't take yet. Takes no memory.
    pub fn heard(&mut self) -> Option<Heard>
        ensures next { IsNext result self.old.ledger.heard.items self.new.ledger.heard.items }
        ensures servers { self.new.servers ≡ self.old.servers }
        ensures counts { self.new.ledger.counts ≡ self.old.ledger.counts }
    {
        self.ledger.heard.pop_front()
    }

    /// So many turns of each server. What they say to the program is dropped.
    pub(crate) fn take_turns<L: Link, D: Store, C: Clock>(
        &mut self,
        alloc: Global,
        turns: u64,
        link: &mut L,
        stores: &mut Trio<D>,
        clock: &mut C,
    ) -> Result<(), LoopFault>
        requires { AreUp self.old.servers (each D.told stores.old) }
        ensures turns { OnOk result (TakesTurns turns
            (scene_of self.old (each D.told stores.old) (L.told link.old) (C.told clock.old))
            (scene_of self.new (each D.told stores.new) (L.told link.new) (C.told clock.new))) }
        ensures part { OnErr result (Stops TurnsAt TurnsAtInPart (rounds turns all_places)
            (scene_of self.old (each D.told stores.old) (L.told link.old) (C.told clock.old))
            (around (each D.told stores.new) (L.told link.new) (C.told clock.new))) }
        ensures link_rose { result ≡ Err LoopFault.LinkFailed
            → Rose (L.faults link.old) (L.faults link.new) }
        ensures link_count { L.faults link.old ≤ L.faults link.new }
        ensures disk_rose { result ≡ Err LoopFault.StoreFailed
            → OneRose (each D.faults stores.old) (each D.faults stores.new) }
        ensures disk_count { NoneFell (each D.faults stores.old) (each D.faults stores.new) }
    {
        for _ in 0..turns {
            match self.turn(alloc, link, stores, clock) {
                Ok(()) => self.ledger.heard.clear(),
                Err(fault) => return Err(fault),
            }
        }
        Ok(())
    }

    /// What they did in so many turns.
    pub(crate) fn served(&self, turns: u64) -> Served
        ensures { result ≡ record {
          turns = turns;
          taken = self.now.ledger.counts.taken;
          sent = self.now.ledger.counts.sent;
        } }
    {
        Served {
            turns,
            taken: self.ledger.counts.taken,
            sent: self.ledger.counts.sent,
        }
    }
}
