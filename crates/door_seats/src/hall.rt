//! All seats of a door, and what they do.

ghost use Rattle.std.specs.Prelude.{◌≡◌, ◌≤◌, ◌<◌, ◌^◌, ◌↔◌, IfOk, IfSome, OnOk, IsTrue, Option, option_map, drop, true, ⊤};
ghost use Rattle.std.specs.List.{list_any};
ghost use Rattle.door_seats.specs.Doors.{Heard, Shows};
ghost use Rattle.door_seats.specs.Events.{Begins, Changes, Does, IsAt, Reminds, first_seating, with_seat};
ghost use Rattle.door_seats.specs.Moving.{IsUsable, ask_of};
ghost use Rattle.door_seats.specs.Seats.{Sent, arrived, asks_for, come, gone, is_leaving, left, lost, over};
ghost use Rattle.door_seats.specs.Words.{IsSeatFor, IsSeatOf, IsWord, client_of};
ghost use Rattle.door_seats.specs.declared.seat.Line.TheVariants as line;
ghost use Rattle.door_seats.specs.declared.seat.Seat.{Seat as Seated};

use crate::framing::{Front, front_of};
use crate::kept::KeptAnswers;
use crate::rule::Moment;
use crate::seat::{Ask, Line, Seat};
use client_calls::server_of;
use harp_types::ServerId;
use node_link::Datagram;
use std::alloc::{AllocError, Global};
use std::marker::Model;
use wire::{DecodeFault, Message, decode};

/// So many connections are served at once.
pub const SEATS: u32 = 16;

/// The seats of a door, and the answers that it keeps.
#[derive(Drop)]
pub struct Hall {
    seats: Vec<Seat>,
    kept: KeptAnswers,
    /// The client of the first seat.
    client: u32,
}

impl Model for Hall {
    ghost use Rattle.door_seats.specs.Events.{Seating};
    ghost use Rattle.door_seats.specs.Events.{AreOf};

    ghost Value = { Seating };

    ghost view = { λ h. record { seats = h.seats.items; kept = h.kept } };

    ghost invariant = { λ h. AreOf h.client h.seats.items };
}

/// What a server says to a seat.
#[derive(Drop)]
struct Word {
    n: usize,
    by: ServerId,
    message: Message,
}

/// The client to which a message says something.
fn client_of(message: &Message) -> Option<u32>
    ensures { result ≡ client_of message.now }
{
    match message {
        Message::Answer { client, .. } => Some(*client),
        Message::CannotServe { client, .. } => Some(*client),
        _ => None,
    }
}

impl Hall {
    /// Sixteen empty seats, of this client and those behind it. The first call of each has the
    /// number `first`.
    pub fn new(alloc: Global, client: u32, first: u64) -> Result<Hall, AllocError>
        requires { client < 2 ^ 31 }
        ensures { IfOk result (λ h. h ≡ first_seating client first) }
    {
        let mut seats = Vec::new(alloc);
        for n in 0..SEATS {
            seats.push(Seat::new(alloc, client + n, first))?;
        }
        Ok(Hall {
            seats,
            kept: KeptAnswers::new(alloc)?,
            client,
        })
    }

    /// Whether a seat is free.
    pub fn is_free(&self, n: usize) -> bool
        requires { n < 16 }
        ensures { Shows n (λ s. IsTrue result ↔ (s.line ≡ line.Free)) self.now }
    {
        self.seats[n].line == Line::Free
    }

    /// The first seat that is free.
    pub fn free_seat(&self) -> Option<usize>
        ensures { IfSome result (λ n. n < 16) }
    {
        for n in 0..SEATS as usize {
            if self.is_free(n) {
                return Some(n);
            }
        }
        None
    }

    /// A connection takes a seat.
    pub fn arrive(&mut self, n: usize)
        requires { n < 16 }
        ensures { Changes n (λ s. ⊤) arrived self.old self.new }
    {
        self.seats[n].arrive();
    }

    /// Whether more bytes of a seat's connection are taken.
    pub fn has_room(&self, n: usize) -> bool
        requires { n < 16 }
        ensures { Shows n (λ s. result ≡ true → s.line ≡ line.Open) self.now }
    {
        self.seats[n].has_room()
    }

    /// Bytes came over a seat's connection.
    pub fn come(&mut self, n: usize, bytes: &[u8]) -> Result<(), AllocError>
        requires { n < 16 }
        ensures { OnOk result (Changes n (λ s. ⊤) (come bytes.now) self.old self.new) }
    {
        self.seats[n].come(bytes)
    }

    /// No more come.
    pub fn end(&mut self, n: usize)
        requires { n < 16 }
        ensures { Changes n (λ s. ⊤) over self.old self.new }
    {
        self.seats[n].end();
    }

    /// What a seat's connection is to get.
    pub fn unsent(&self, n: usize) -> &[u8]
        requires { n < 16 }
        ensures { Shows n (λ s. result.now ≡ s.unsent) self.now }
    {
        self.seats[n].unsent.as_slice()
    }

    /// A seat's connection took so many bytes.
    pub fn go(&mut self, n: usize, count: usize)
        requires { n < 16 }
        ensures { (s : Seated) × IsAt n s self.old
            × (self.new ≡ with_seat n (gone (drop count s.unsent) s) self.old) }
    {
        self.seats[n].go(count);
    }

    /// A seat's connection takes no more.
    pub fn lose(&mut self, n: usize)
        requires { n < 16 }
        ensures { Changes n (λ s. ⊤) lost self.old self.new }
    {
        self.seats[n].lose();
    }

    /// Whether a seat's connection is to be ended.
    pub fn is_leaving(&self, n: usize) -> bool
        requires { n < 16 }
        ensures { Shows n (λ s. result ≡ is_leaving s) self.now }
    {
        self.seats[n].is_leaving()
    }

    /// A seat's connection is ended.
    pub fn leave(&mut self, n: usize)
        requires { n < 16 }
        ensures { Changes n (λ s. ⊤) left self.old self.new }
    {
        self.seats[n].leave();
    }

    /// Whether a seat's call is for this record.
    fn is_asked(&self, request: &[u8]) -> bool
        ensures { result ≡ list_any (asks_for request.now) self.now.seats }
    {
        self.seats.iter().any(|seat| seat.asks_for(request))
    }

    /// Begins the next record of a seat.
    pub fn begin(
        &mut self,
        alloc: Global,
        moment: Moment,
        n: usize,
    ) -> Result<Option<Ask>, AllocError>
        requires moment { IsUsable moment }
        requires seat { n < 16 }
        ensures { IfOk result (λ ask. (sent : Option Sent) × (ask ≡ option_map ask_of sent)
            × Does moment.rule moment.now (Begins n sent) self.old self.new) }
    {
        if !self.seats[n].is_ready() {
            return Ok(None);
        }
        match front_of(alloc, self.seats[n].unread.as_slice())? {
            Front::Short => {
                self.seats[n].settle();
                Ok(None)
            }
            Front::Large => {
                self.seats[n].refuse();
                Ok(None)
            }
            Front::Whole { request, taken } => {
                if self.is_asked(request.as_slice()) {
                    return Ok(None);
                }
                self.seats[n].begin(alloc, moment, request, taken, &mut self.kept)
            }
        }
    }

    /// Asks a seat's call again, where its pause is over.
    pub fn remind(
        &mut self,
        alloc: Global,
        moment: Moment,
        n: usize,
    ) -> Result<Option<Ask>, AllocError>
        requires moment { IsUsable moment }
        requires seat { n < 16 }
        ensures { IfOk result (λ ask. (sent : Option Sent) × (ask ≡ option_map ask_of sent)
            × Does moment.rule moment.now (Reminds n sent) self.old self.new) }
    {
        self.seats[n].remind(alloc, moment)
    }

    /// The seat of a client.
    fn seat_of(&self, client: u32) -> Option<usize>
        ensures { IsSeatOf client self.now result }
    {
        if client < self.client || client - self.client >= SEATS {
            return None;
        }
        Some((client - self.client) as usize)
    }

    /// The seat to which a message says something.
    fn seat_for(&self, message: &Message) -> Option<usize>
        ensures { IsSeatFor message.now self.now result }
    {
        match client_of(message) {
            Some(client) => self.seat_of(client),
            None => None,
        }
    }

    /// What a datagram says to which seat.
    fn word(
        &self,
        alloc: Global,
        moment: Moment,
        datagram: &Datagram,
    ) -> Result<Option<Word>, AllocError>
        requires { IsUsable moment }
        ensures { IfOk result (IsWord moment datagram.now self.now) }
    {
        let Some(by) = server_of(moment.rule.port, datagram.from) else {
            return Ok(None);
        };
        let message = match decode(alloc, datagram.bytes.as_slice()) {
            Ok(message) => message,
            Err(DecodeFault::NoMemory) => return Err(AllocError),
            Err(_) => return Ok(None),
        };
        match self.seat_for(&message) {
            Some(n) => Ok(Some(Word { n, by, message })),
            None => {
                drop(message);
                Ok(None)
            }
        }
    }

    /// Takes a datagram, which may say something of a seat's call.
    pub fn hear(
        &mut self,
        alloc: Global,
        moment: Moment,
        datagram: &Datagram,
    ) -> Result<Option<Ask>, AllocError>
        requires { IsUsable moment }
        ensures { IfOk result (λ ask. Heard moment datagram.now ask self.old self.new) }
    {
        match self.word(alloc, moment, datagram)? {
            Some(Word { n, by, message }) => {
                self.seats[n].hear(alloc, moment, by, message, &mut self.kept)
            }
            None => Ok(None),
        }
    }
}
