//! How a door serves its connections, turn by turn.

ghost use Rattle.std.specs.Prelude.{◌≡◌, ◌≤◌, ◌<◌, ◌^◌, IfOk, OnOk, OnErr};
ghost use Rattle.node_link.specs.Traffic.{last_port, with_sent_told};
ghost use Rattle.door_seats.specs.Doors.{IsCounted, IsNew, Serves, datagram_of, moment_of, tells_of};

use crate::connections::{Connections, Given, Taken};
use crate::door::{Door, Outside};
use crate::hall::{Hall, SEATS};
use crate::rule::{Moment, Rule};
use crate::seat::Ask;
use client_calls::first_number;
use harp_types::ServerId;
use node_link::{Clock, Link, LinkFault};
use std::alloc::{AllocError, Global};

/// So many datagrams are heard in a turn, at most.
const MOST_HEARD: u32 = 64;

/// After so many turns in which nothing came a door rests in each.
const TURNS_TO_REST: u32 = 2_000;

impl Door {
    /// A door with sixteen empty seats, of the client with this number and those behind it. The
    /// first call of each has the number `first`.
    fn new(alloc: Global, rule: Rule, client: u32, first: u64) -> Result<Door, AllocError>
        requires port { rule.port ≤ last_port }
        requires client { client < 2 ^ 31 }
        ensures { IfOk result (λ d. IsNew rule client first d) }
    {
        Ok(Door {
            rule,
            hall: Hall::new(alloc, client, first)?,
            reading: 0,
        })
    }

    /// The moment of its last reading.
    fn moment(&self) -> Moment
        ensures { result ≡ moment_of self.now }
    {
        Moment {
            rule: self.rule,
            now: self.reading,
        }
    }
}

impl<N: Connections, L: Link, C: Clock> Outside<N, L, C> {
    ghost use Rattle.std.specs.Prelude.{◌≡◌, ◌<◌, Ok};
    ghost use Rattle.door_seats.specs.Doors.{Goes, GoesWell, tells_of};

    /// Sends what is asked.
    fn send(&mut self, alloc: Global, ask: &Ask) -> Result<(), LinkFault>
        ensures sent { OnOk result (L.told self.new.link
            ≡ with_sent_told (datagram_of ask.now) (L.told self.old.link)) }
        ensures kept { OnErr result (L.told self.new.link ≡ L.told self.old.link) }
        ensures counted { IsCounted result (L.faults self.old.link) (L.faults self.new.link) }
        ensures others { (self.new.connections ≡ self.old.connections)
            × (self.new.clock ≡ self.old.clock) }
    {
        self.link
            .send(alloc, ServerId::Zero, ask.to, ask.bytes.as_slice())
    }

    /// Seats a connection that waits at a free seat, where one does.
    fn accept(&mut self, door: &mut Door, n: usize) -> bool
        requires { n < 16 }
        ensures { GoesWell (tells_of N.told L.told C.told L.faults) door.old self.old door.new self.new }
    {
        if !door.hall.is_free(n) || !self.connections.accept(n) {
            return false;
        }
        door.hall.arrive(n);
        true
    }

    /// Takes what came over a seat's connection, where its seat has room. Whether anything did.
    fn take(&mut self, alloc: Global, door: &mut Door, n: usize) -> Result<bool, LinkFault>
        requires { n < 16 }
        ensures { Goes (tells_of N.told L.told C.told L.faults) result door.old self.old door.new
            self.new }
    {
        if !door.hall.has_room(n) {
            return Ok(false);
        }
        match self.connections.take(alloc, n)? {
            Taken::Bytes(bytes) => {
                door.hall.come(n, bytes.as_slice())?;
                Ok(true)
            }
            Taken::Nothing => Ok(false),
            Taken::Over => {
                door.hall.end(n);
                Ok(true)
            }
        }
    }

    /// Begins a seat's next record, where it may. Whether a call is asked.
    fn begin(&mut self, alloc: Global, door: &mut Door, n: usize) -> Result<bool, LinkFault>
        requires { n < 16 }
        ensures { Goes (tells_of N.told L.told C.told L.faults) result door.old self.old door.new
            self.new }
    {
        let moment = door.moment();
        match door.hall.begin(alloc, moment, n)? {
            Some(ask) => {
                self.send(alloc, &ask)?;
                Ok(true)
            }
            None => Ok(false),
        }
    }

    /// Asks a seat's call again, where its pause is over.
    fn remind(&mut self, alloc: Global, door: &mut Door, n: usize) -> Result<(), LinkFault>
        requires { n < 16 }
        ensures { Goes (tells_of N.told L.told C.told L.faults) result door.old self.old door.new
            self.new }
    {
        let moment = door.moment();
        match door.hall.remind(alloc, moment, n)? {
            Some(ask) => self.send(alloc, &ask),
            None => Ok(()),
        }
    }

    /// Hands a seat's connection what it is to get.
    fn give(&mut self, door: &mut Door, n: usize)
        requires { n < 16 }
        ensures { GoesWell (tells_of N.told L.told C.told L.faults) door.old self.old door.new self.new }
    {
        let unsent = door.hall.unsent(n);
        if unsent.is_empty() {
            return;
        }
        match self.connections.give(n, unsent) {
            Given::Some(count) => door.hall.go(n, count),
            Given::Over => door.hall.lose(n),
        }
    }

    /// Ends a seat's connection, where it is over.
    fn end(&mut self, door: &mut Door, n: usize)
        requires { n < 16 }
        ensures { GoesWell (tells_of N.told L.told C.told L.faults) door.old self.old door.new self.new }
    {
        if door.hall.is_leaving(n) {
            self.connections.close(n);
            door.hall.leave(n);
        }
    }

    /// A turn of a seat with a connection. Whether anything was done.
    fn serve(&mut self, alloc: Global, door: &mut Door, n: usize) -> Result<bool, LinkFault>
        requires { n < 16 }
        ensures { Goes (tells_of N.told L.told C.told L.faults) result door.old self.old door.new
            self.new }
    {
        let came = self.take(alloc, door, n)?;
        let asked = self.begin(alloc, door, n)?;
        self.remind(alloc, door, n)?;
        self.give(door, n);
        self.end(door, n);
        Ok(came || asked)
    }

    /// Seats a connection that waits, where a seat is free. Whether one was seated.
    fn seat_next(&mut self, door: &mut Door) -> bool
        ensures { GoesWell (tells_of N.told L.told C.told L.faults) door.old self.old door.new self.new }
    {
        match door.hall.free_seat() {
            Some(n) => self.accept(door, n),
            None => false,
        }
    }

    /// A turn of all seats. Whether anything was done.
    fn serve_all(&mut self, alloc: Global, door: &mut Door) -> Result<bool, LinkFault>
        ensures { Goes (tells_of N.told L.told C.told L.faults) result door.old self.old door.new
            self.new }
    {
        let mut stirs = false;
        for n in 0..SEATS as usize {
            if self.serve(alloc, door, n)? {
                stirs = true;
            }
        }
        Ok(stirs)
    }

    /// Takes a datagram, where one waits. Whether one did.
    fn hear(&mut self, alloc: Global, door: &mut Door) -> Result<bool, LinkFault>
        ensures { Goes (tells_of N.told L.told C.told L.faults) result door.old self.old door.new
            self.new }
    {
        let Some(datagram) = self.link.receive(alloc, ServerId::Zero, 0)? else {
            return Ok(false);
        };
        let moment = door.moment();
        match door.hall.hear(alloc, moment, &datagram)? {
            Some(ask) => {
                self.send(alloc, &ask)?;
                Ok(true)
            }
            None => Ok(true),
        }
    }

    /// Takes the datagrams that wait, but no more than so many. Whether one did.
    fn hear_all(&mut self, alloc: Global, door: &mut Door) -> Result<bool, LinkFault>
        ensures { Goes (tells_of N.told L.told C.told L.faults) result door.old self.old door.new
            self.new }
    {
        let mut stirs = false;
        for _ in 0..MOST_HEARD {
            if !self.hear(alloc, door)? {
                return Ok(stirs);
            }
            stirs = true;
        }
        Ok(stirs)
    }

    /// A turn: the clock is read, a connection that waits is seated, each seat has its turn, and the
    /// datagrams that wait are heard. Whether anything was done.
    fn turn(&mut self, alloc: Global, door: &mut Door) -> Result<bool, LinkFault>
        ensures { Goes (tells_of N.told L.told C.told L.faults) result door.old self.old door.new
            self.new }
    {
        door.reading = self.clock.now(ServerId::Zero);
        let seated = self.seat_next(door);
        let served = self.serve_all(alloc, door)?;
        let heard = self.hear_all(alloc, door)?;
        Ok(seated || served || heard)
    }

    /// Behind so many turns in which nothing was done, and one in which something was or wasn't: how
    /// many there are then. It rests where there are many.
    fn pause(&mut self, stirs: bool, idle: u32) -> u32
        ensures told { N.told self.new.connections ≡ N.told self.old.connections }
        ensures others { (self.new.link ≡ self.old.link) × (self.new.clock ≡ self.old.clock) }
    {
        if stirs {
            return 0;
        }
        if idle < TURNS_TO_REST {
            return idle + 1;
        }
        self.connections.rest();
        idle
    }

    /// So many turns. Where nothing was done for some time, it rests.
    fn run(&mut self, alloc: Global, door: &mut Door, turns: u64) -> Result<(), LinkFault>
        ensures { Goes (tells_of N.told L.told C.told L.faults) result door.old self.old door.new
            self.new }
    {
        let mut idle: u32 = 0;
        for _ in 0..turns {
            let stirs = self.turn(alloc, door)?;
            idle = self.pause(stirs, idle);
        }
        Ok(())
    }
}

/// Serves connections, at sixteen seats of the client with this number and those behind it, by so
/// many turns. Each numbers its calls from where the clock's reading says, so that no number comes
/// again where the door is started anew.
pub fn serve<N: Connections, L: Link, C: Clock>(
    alloc: Global,
    rule: Rule,
    client: u32,
    turns: u64,
    outside: &mut Outside<N, L, C>,
) -> Result<(), LinkFault>
    requires port { rule.port ≤ last_port }
    requires client { client < 2 ^ 31 }
    ensures { Serves (tells_of N.told L.told C.told L.faults) rule client result outside.old
        outside.new }
{
    let first = first_number(outside.clock.now(ServerId::Zero));
    let mut door = Door::new(alloc, rule, client, first)?;
    outside.run(alloc, &mut door, turns)
}
