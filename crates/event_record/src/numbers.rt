//! Numbers that keep their bounds.

ghost use Rattle.std.specs.Prelude.{◌≡◌, ◌<◌, ◌≤◌, ◌+◌, ◌^◌, ◌↔◌, IsSome, IfSome};

use std::marker::Model;

/// The place of a record in the log, from 1 to 2^62 - 1.
#[derive(Clone, Copy, PartialEq, Eq, PartialOrd, Ord)]
pub struct Index {
    number: u64,
}

impl Model for Index {
    ghost use Rattle.std.specs.Prelude.{ℕ, ◌<◌, ◌≤◌, ◌^◌};

    ghost Value = { ℕ };

    ghost view = { λ i. i.number };

    ghost invariant = { λ i. (1 ≤ i.number) × (i.number < 2 ^ 62) };

    ghost inverse = { λ n. record { number = n } };
}

impl Index {
    /// The index of a number from 1 to 2^62 - 1.
    pub fn of(number: u64) -> Option<Index>
        ensures found { IsSome result ↔ ((1 ≤ number) × (number < 2 ^ 62)) }
        ensures value { IfSome result (λ i. i ≡ number) }
    {
        if 1 <= number && number < 1 << 62 {
            Some(Index { number })
        } else {
            None
        }
    }

    /// The index of a number that is known to be from 1 to 2^62 - 1.
    pub fn new(number: u64) -> Index
        requires { (1 ≤ number) × (number < 2 ^ 62) }
        ensures { result ≡ number }
    {
        Index { number }
    }

    /// The number, from 1 to 2^62 - 1.
    pub fn get(self) -> u64
        ensures value { result ≡ self }
        ensures bound { (1 ≤ self) × (self < 2 ^ 62) }
    {
        self.number
    }
}
