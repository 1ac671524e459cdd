//! What a server promised.

ghost use Rattle.std.specs.Prelude.{◌≡◌, ◌+◌, ◌<◌, ◌≤◌, ◌^◌, max, nat_le};
ghost use Rattle.harp_types.specs.Limits.{clock_skew};

use crate::deadline::Deadline;
use crate::delta::Delta;
use harp_types::CLOCK_SKEW;
use std::marker::Model;

/// Up to when the promises of a server may run, and how long those of its boot last. The server
/// tells the horizon with each join, so that a new view opens only once all promises that its
/// servers gave in older ones are over. It never falls.
#[derive(Drop)]
pub struct Horizon {
    until: Deadline,
    delta: Delta,
}

impl Model for Horizon {
    ghost use Rattle.promise.specs.Promise.{HorizonValue};

    ghost Value = { HorizonValue };

    ghost view = { λ h. record { until = h.until; delta = h.delta } };
}

impl Horizon {
    /// The horizon of a server that boots at this reading of its clock, which is below 2^62. No boot
    /// of its disk promised for longer than `longest`, so what it promised before is over by then.
    /// The promises of this boot last for `delta`.
    pub fn boot(now: u64, longest: Delta, delta: Delta) -> Horizon
        requires now { now < 2 ^ 62 }
        requires longest { delta ≤ longest }
        ensures { result ≡ record { until = now + longest; delta = delta } }
    {
        Horizon {
            until: Deadline::new(now + longest.get() as u64),
            delta,
        }
    }

    /// Promises from this reading of the clock on, which is below 2^62, and gives the end of the
    /// promise. The horizon is no earlier.
    pub fn give(&mut self, now: u64) -> Deadline
        requires { now < 2 ^ 62 }
        ensures promise { result ≡ now + self.old.delta }
        ensures horizon { self.new ≡ record self.old { until = max self.old.until (now + self.old.delta) } }
    {
        let until = Deadline::new(now + self.delta.get() as u64);
        self.until = self.until.later(until);
        until
    }

    /// Up to when the promises given so far may run.
    pub fn until(&self) -> Deadline
        ensures { result ≡ self.now.until }
    {
        self.until
    }
}

/// Whether a view with this horizon may open by this reading of its leader's clock: by no clock of
/// the group a promise of an older view still runs.
pub fn may_open(now: u64, horizon: Deadline) -> bool
    ensures { result ≡ nat_le (horizon + clock_skew) now }
{
    horizon.get() + CLOCK_SKEW <= now
}
