//! What time it is.

ghost use Rattle.std.specs.Prelude.{◌≤◌, ◌<◌, ◌^◌, ℕ, List, Option};
ghost use Rattle.harp_types.specs.declared.server.ServerId.{ServerId as Place};
ghost use Rattle.node_link.specs.declared.clock.Reading.{Reading as Read};
ghost use Rattle.node_link.specs.Readings.{MayTell};

use harp_types::ServerId;

/// What a clock gave at a place, in milliseconds.
#[derive(Clone, Copy, PartialEq, Eq)]
pub struct Reading {
    pub place: ServerId,
    pub millis: u64,
}

/// A clock for each place of a group. The readings of one place never fall, and are below 2^62.
pub trait Clock {
    // The readings given so far, in order, where the clock tells them.
    ghost told: { Self → Option (List Read) };

    // No reading of a place that is still to come is below this.
    ghost least: { Self → Place → ℕ };

    /// The clock's reading at a place, in milliseconds.
    fn now(&mut self, place: ServerId) -> u64
        ensures bound { result < 2 ^ 62 }
        ensures order { least self.old place ≤ result }
        ensures least { result ≤ least self.new place }
        ensures others { (p : Place) → least self.old p ≤ least self.new p }
        ensures told { MayTell (record { place = place; millis = result }) (told self.old)
            (told self.new) };
}
