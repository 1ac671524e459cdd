//! A clock in memory.

ghost use Rattle.std.specs.Prelude.{◌≡◌, ◌≤◌, ◌<◌, ◌^◌, ◌≢◌, ℕ, List, [], drop, true, Some, IfOk};
ghost use Rattle.std.specs.Option.{option_copied};
ghost use Rattle.harp_types.specs.declared.server.ServerId.{ServerId as Place};
ghost use Rattle.node_link.specs.Readings.{MayTell, Ticks, next_reading, rises_from, with_reading};
ghost use Rattle.node_link.specs.Told.{HasRoom, shown};

use crate::clock::{Clock, Reading};
use harp_types::ServerId;
use std::alloc::{AllocError, Global};
use std::marker::Model;

/// Whether readings never fall and are below 2^62.
pub fn readings_rise(readings: &[u64]) -> bool
    ensures { result ≡ rises_from 0 readings.now }
{
    let mut least = 0;
    for reading in readings {
        if *reading < least || *reading >= 1 << 62 {
            return false;
        }
        least = *reading;
    }
    true
}

/// The readings of a list, from a place in it on.
#[derive(Drop)]
struct Ahead {
    readings: Vec<u64>,
    at: usize,
    last: u64,
}

impl Model for Ahead {
    ghost use Rattle.std.specs.Prelude.{◌≡◌, ◌≤◌, ◌<◌, ◌^◌, drop, length, true};
    ghost use Rattle.node_link.specs.Readings.{Coming, rises_from};

    ghost Value = { Coming };

    ghost view = { λ a. record { ahead = drop a.at a.readings.items; last = a.last } };

    ghost invariant = { λ a. (a.at ≤ length a.readings.items) × (a.last < 2 ^ 62)
        × (rises_from a.last (drop a.at a.readings.items) ≡ true) };
}

impl Ahead {
    // The next reading of the list.
    fn step(&mut self) -> u64
        ensures value { result ≡ next_reading self.old.last self.old.ahead }
        ensures order { self.old.last ≤ result }
        ensures bound { result < 2 ^ 62 }
        ensures step { self.new ≡ record { ahead = drop 1 self.old.ahead; last = result } }
    {
        if self.at < self.readings.len() {
            self.last = self.readings[self.at];
            self.at += 1;
        }
        self.last
    }
}

/// A clock that gives the readings of a list, all places from the same one. Behind its end the last
/// reading is repeated; without any it is 0. It has room to tell each reading of the list.
#[derive(Drop)]
pub struct ListClock {
    list: Ahead,
    told: Option<Vec<Reading>>,
}

impl Model for ListClock {
    ghost use Rattle.std.specs.Prelude.{length};
    ghost use Rattle.std.specs.Option.{option_map};
    ghost use Rattle.node_link.specs.Readings.{Ticking};
    ghost use Rattle.node_link.specs.Told.{HasRoom};

    ghost Value = { Ticking };

    ghost view = { λ c. record {
      ahead = c.list.ahead;
      last = c.list.last;
      told = option_map (λ told. told.items) c.told;
    } };

    ghost invariant = { λ c. HasRoom c.list.ahead c.told };
}

// Keeps a reading. Only where there is no room for it, none is told any more.
fn keep(reading: Reading, told: &mut Option<Vec<Reading>>)
    ensures told { MayTell reading (shown told.old) (shown told.new) }
    ensures room { (ahead : List ℕ) → HasRoom ahead told.old → HasRoom (drop 1 ahead) told.new
        × (ahead ≢ [] → shown told.new ≡ with_reading reading (shown told.old)) }
{
    let kept = match told {
        Some(readings) => readings.push(reading).is_ok(),
        None => true,
    };
    if !kept {
        *told = None;
    }
}

impl ListClock {
    /// A clock that gives these readings, which never fall and are below 2^62.
    pub fn new(alloc: Global, readings: Vec<u64>) -> Result<ListClock, AllocError>
        requires { rises_from 0 readings.items ≡ true }
        ensures { IfOk result (λ c. c
            ≡ record { ahead = readings.items; last = 0; told = Some [] }) }
    {
        let told = Vec::with_capacity(alloc, readings.len())?;
        let list = Ahead {
            readings,
            at: 0,
            last: 0,
        };
        Ok(ListClock {
            list,
            told: Some(told),
        })
    }

    /// The readings given, in order; None once no memory was found to keep one behind the end of
    /// the list.
    pub fn told(&self) -> Option<&[Reading]>
        ensures { option_copied result ≡ self.now.told }
    {
        match &self.told {
            Some(told) => Some(told.as_slice()),
            None => None,
        }
    }
}

impl Clock for ListClock {
    ghost told = { λ c. c.told };

    ghost least = { λ c _. c.last };

    /// The next reading of the list, whatever the place. Where there is one, it is told.
    fn now(&mut self, place: ServerId) -> u64
        ensures bound { result < 2 ^ 62 }
        ensures order { self.old.last ≤ result }
        ensures least { result ≤ self.new.last }
        ensures others { (p : Place) → self.old.last ≤ self.new.last }
        ensures told { MayTell (record { place = place; millis = result }) self.old.told
            self.new.told }

        ensures ticks { Ticks place result self.old self.new }
    {
        let millis = self.list.step();
        keep(Reading { place, millis }, &mut self.told);
        millis
    }
}
