//! The clocks of the servers.

ghost use Rattle.std.specs.Prelude.{◌≡◌, ◌≤◌, ◌++◌, ◌∷◌, []};
ghost use Rattle.harp_types.specs.Trio.{value_of, with_value};
ghost use Rattle.trace_claims.specs.Trace.{Trace};
ghost use Rattle.trace_check.specs.ClocksRead.{last_moment, AreClocksOf, IsAdvanced};

use crate::readings::{ClockTold, clock_told};
use harp_types::{ServerId, Trio};
use trace_types::Line;

/// What each clock reads, in milliseconds; a clock that would pass 2^64 - 1 stays there.
#[derive(Drop)]
pub struct Clocks {
    readings: Trio<u64>,
}

impl Clocks {
    /// All clocks read 0.
    pub fn new() -> Clocks
        ensures { AreClocksOf result [] }
    {
        Clocks {
            readings: Trio {
                zero: 0,
                one: 0,
                two: 0,
            },
        }
    }

    fn set(&mut self, server: ServerId, reading: u64)
        ensures is_set { self.new
            ≡ record { readings = with_value self.old.readings server reading } }
        ensures within { reading ≤ last_moment }
    {
        match server {
            ServerId::Zero => self.readings.zero = reading,
            ServerId::One => self.readings.one = reading,
            ServerId::Two => self.readings.two = reading,
        }
    }

    fn advance(&mut self, millis: u64)
        ensures { IsAdvanced millis self.old self.new }
    {
        self.readings.zero = self.readings.zero.saturating_add(millis);
        self.readings.one = self.readings.one.saturating_add(millis);
        self.readings.two = self.readings.two.saturating_add(millis);
    }

    /// Takes up what a line tells.
    pub fn take(&mut self, line: &Line)
        ensures { (before : Trace) → AreClocksOf self.old before
            → AreClocksOf self.new (before ++ line.now ∷ []) }
    {
        match clock_told(line) {
            Some(ClockTold::Set { server, reading }) => self.set(server, reading),
            Some(ClockTold::Advanced { millis }) => self.advance(millis),
            None => {}
        }
    }

    /// What a server's clock reads.
    pub fn read(&self, server: ServerId) -> u64
        ensures { result ≡ value_of self.now.readings server }
    {
        *self.readings.get(server)
    }
}
