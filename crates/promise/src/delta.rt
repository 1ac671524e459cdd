//! How long promises last.

ghost use Rattle.std.specs.Prelude.{◌≡◌, ◌↔◌, max, IfSome, IsSome};
ghost use Rattle.harp_types.specs.Limits.{first_promise};
ghost use Rattle.promise.specs.Promise.{IsDelta};

use harp_types::FIRST_PROMISE;
use std::marker::Model;

/// How many milliseconds a promise lasts, from 500 to 100,000.
#[derive(Clone, Copy, PartialEq, Eq, PartialOrd, Ord)]
pub struct Delta {
    millis: u32,
}

impl Model for Delta {
    ghost use Rattle.std.specs.Prelude.{ℕ};
    ghost use Rattle.promise.specs.Promise.{IsDelta};

    ghost Value = { ℕ };

    ghost view = { λ d. d.millis };

    ghost invariant = { λ d. IsDelta d.millis };

    ghost inverse = { λ n. record { millis = n } };
}

impl Delta {
    /// The length of a number from 500 to 100,000.
    pub fn of(millis: u32) -> Option<Delta>
        ensures found { IsSome result ↔ IsDelta millis }
        ensures value { IfSome result (λ d. d ≡ millis) }
    {
        if 500 <= millis && millis <= 100_000 {
            Some(Delta { millis })
        } else {
            None
        }
    }

    /// The length of a number that is known to be from 500 to 100,000.
    pub fn new(millis: u32) -> Delta
        requires { IsDelta millis }
        ensures { result ≡ millis }
    {
        Delta { millis }
    }

    /// How long promises last where no boot said otherwise: 2000.
    pub fn first() -> Delta
        ensures { result ≡ first_promise }
    {
        Delta {
            millis: FIRST_PROMISE as u32,
        }
    }

    /// The number, from 500 to 100,000.
    pub fn get(self) -> u32
        ensures value { result ≡ self }
        ensures bound { IsDelta self }
    {
        self.millis
    }

    /// The longer of two lengths.
    pub fn longer(self, other: Delta) -> Delta
        ensures { result ≡ max self other }
    {
        Delta::new(self.get().max(other.get()))
    }
}
