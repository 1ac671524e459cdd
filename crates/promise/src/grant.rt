//! What a leader was promised.

ghost use Rattle.std.specs.Prelude.{◌≡◌, max, nat_lt};

use crate::deadline::Deadline;
use std::marker::Model;

/// The end of the latest promise that a leader's partner gave in its view; 0 before the first.
#[derive(Drop)]
pub struct Grant {
    until: Deadline,
}

impl Model for Grant {
    ghost use Rattle.std.specs.Prelude.{ℕ};

    ghost Value = { ℕ };

    ghost view = { λ g. g.until };
}

impl Grant {
    /// No promise.
    pub fn none() -> Grant
        ensures { result ≡ 0 }
    {
        Grant {
            until: Deadline::new(0),
        }
    }

    /// Takes a promise until this moment. The latest one counts.
    pub fn take(&mut self, until: Deadline)
        ensures { self.new ≡ max self.old until }
    {
        self.until = self.until.later(until);
    }

    /// Whether a promise still runs by this reading of the clock, so that the leader may answer a
    /// read by itself.
    pub fn allows(&self, now: u64) -> bool
        ensures { result ≡ nat_lt now self.now }
    {
        now < self.until.get()
    }
}
