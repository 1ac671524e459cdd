//! The world.

ghost use Rattle.std.specs.Prelude.{IfOk};
ghost use Rattle.group_trace.specs.DiskRun.{first_disk_scene};
ghost use Rattle.world.specs.World.{IsWorld};

use harp_types::{ServerId, Trio};
use node_outputs::Outputs;
use promise::Delta;
use schedule_play::{Refusal, Stage};
use std::alloc::{AllocError, Global};
use std::marker::Model;
use trace_types::{Line, Step};
use world_host::{Host, Stop};
use world_lines::{Book, Packets};

/// Three servers, their clocks in milliseconds, the length of the promises of servers that boot
/// later, the packets that were sent, the book, and the stops that are armed. Contracts see all of
/// it but the room.
#[derive(Drop)]
pub struct World {
    pub(crate) hosts: Trio<Host>,
    pub(crate) clocks: Trio<u64>,
    pub(crate) delta: Delta,
    pub(crate) packets: Packets,
    pub(crate) book: Book,
    pub(crate) stops: Trio<Option<Stop>>,
    /// Room for what a server's step gives, which the next one uses anew.
    pub(crate) outs: Option<Box<Outputs>>,
}

impl Model for World {
    ghost use Rattle.world.specs.World.{WorldValue};

    ghost Value = { WorldValue };

    ghost view = { λ w. record {
      hosts = w.hosts;
      clocks = w.clocks;
      delta = w.delta;
      packets = w.packets;
      book = w.book;
      stops = w.stops;
    } };
}

impl World {
    /// Three servers that booted on new disks: nothing was sent or entered, and each clock reads 0.
    pub fn new(alloc: Global) -> Result<World, AllocError>
        ensures { IfOk result (λ x. IsWorld first_disk_scene x) }
    {
        Ok(World {
            hosts: Trio {
                zero: Host::new(alloc, ServerId::Zero)?,
                one: Host::new(alloc, ServerId::One)?,
                two: Host::new(alloc, ServerId::Two)?,
            },
            clocks: Trio {
                zero: 0,
                one: 0,
                two: 0,
            },
            delta: Delta::first(),
            packets: Packets::new(alloc),
            book: Book::new(alloc),
            stops: Trio {
                zero: None,
                one: None,
                two: None,
            },
            outs: None,
        })
    }
}

impl Stage for World {
    ghost use Rattle.world_rules.specs.Spellings.{spellings as host_spellings};
    ghost use Rattle.world.specs.World.{IsWorld, clocks_are as scene_clocks, clocks_in};

    ghost spellings = { host_spellings };

    ghost clocks = { clocks_in };

    ghost stands = { λ x w. IsWorld w x };

    /// Takes a step, and gives its lines behind its event line. A step that is refused changes
    /// nothing. After want of memory the world may be anything. It goes into its callers, since a
    /// step is large, and handing it on moves it.
    #[inline(always)]
    fn step(&mut self, alloc: Global, step: Step, lines: &mut Vec<Line>) -> Result<(), Refusal> {
        if let Some(refusal) = self.refusal(alloc, &step) {
            return Err(refusal);
        }
        match self.take(alloc, step, lines) {
            Ok(()) => Ok(()),
            Err(_) => Err(Refusal::NoMemory),
        }
    }

    fn next(&self, among: Option<(ServerId, ServerId)>) -> Option<u64> {
        self.packets.next(among)
    }

    fn entered(&self) -> u64 {
        self.book.entries().len() as u64
    }

    ghost clocks_are = { scene_clocks };
}
