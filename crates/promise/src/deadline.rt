//! The ends of promises.

ghost use Rattle.std.specs.Prelude.{◌≡◌, ◌<◌, ◌+◌, ◌^◌, ◌↔◌, max, IfSome, IsSome};

use std::marker::Model;

/// The end of a promise on the clocks, in milliseconds below 2^62 + 100,000: a reading is below
/// 2^62, and a promise lasts for at most 100,000 from one on.
#[derive(Clone, Copy, PartialEq, Eq, PartialOrd, Ord)]
pub struct Deadline {
    millis: u64,
}

impl Model for Deadline {
    ghost use Rattle.std.specs.Prelude.{ℕ, ◌+◌, ◌<◌, ◌^◌};

    ghost Value = { ℕ };

    ghost view = { λ d. d.millis };

    ghost invariant = { λ d. d.millis < 2 ^ 62 + 100000 };

    ghost inverse = { λ n. record { millis = n } };
}

impl Deadline {
    /// The deadline of a number below 2^62 + 100,000.
    pub fn of(millis: u64) -> Option<Deadline>
        ensures found { IsSome result ↔ (millis < 2 ^ 62 + 100000) }
        ensures value { IfSome result (λ d. d ≡ millis) }
    {
        if millis < (1 << 62) + 100_000 {
            Some(Deadline { millis })
        } else {
            None
        }
    }

    /// The deadline of a number that is known to be below 2^62 + 100,000.
    pub fn new(millis: u64) -> Deadline
        requires { millis < 2 ^ 62 + 100000 }
        ensures { result ≡ millis }
    {
        Deadline { millis }
    }

    /// The number, below 2^62 + 100,000.
    pub fn get(self) -> u64
        ensures value { result ≡ self }
        ensures bound { self < 2 ^ 62 + 100000 }
    {
        self.millis
    }

    /// The later of two deadlines.
    pub fn later(self, other: Deadline) -> Deadline
        ensures { result ≡ max self other }
    {
        Deadline::new(self.get().max(other.get()))
    }
}
