//! The day's clock.

ghost use Rattle.std.specs.Prelude.{◌≡◌, ◌≤◌, ◌<◌, ◌^◌, None, IfSome};
ghost use Rattle.harp_types.specs.declared.server.ServerId.{ServerId as Place};
ghost use Rattle.node_link.specs.Readings.{MayTell};

use crate::clock::Clock;
use harp_types::ServerId;
use std::time;
use std::time::SystemTime;

/// Above each reading.
const END_OF_TIME: u64 = 1 << 62;

/// The milliseconds since 1970 by the day's clock, the same for all places. A reading is never
/// below the last one: where the day's clock is, as when it was set back, readings go on by the
/// time that passes on the monotonic clock. Where the day's clock can't be read or reads 2^62 or
/// more, which is counted, they do so too, from 0 at first. It tells no readings.
#[derive(Drop)]
pub struct WallClock<R> {
    rt: R,
    last: u64,
    /// The milliseconds of the monotonic clock when it was last read.
    steady: u64,
    faults: u64,
    ghost bound: { last < 2 ^ 62 },
}

impl<R> WallClock<R> {
    ghost use Rattle.node_link.specs.Adapters.{clock_faults, last_of};

    /// A clock that hasn't been read.
    pub fn new(rt: R) -> WallClock<R>
        ensures last { last_of result ≡ 0 }
        ensures faults { clock_faults result ≡ 0 }
    {
        WallClock {
            rt,
            last: 0,
            steady: 0,
            faults: 0,
        }
    }

    /// How many times the clock couldn't be read.
    pub fn faults(&self) -> u64
        ensures { result ≡ clock_faults self.now }
    {
        self.faults
    }
}

// The milliseconds since 1970, below 2^62.
fn millis_now<R: time::Clock>(rt: &R) -> Option<u64>
    ensures { IfSome result (λ millis. millis < 2 ^ 62) }
{
    let now = SystemTime::now(rt).ok()?;
    let millis = now.duration_since(SystemTime::UNIX_EPOCH).ok()?.as_millis();
    if millis < u128::from(END_OF_TIME) {
        Some(millis as u64)
    } else {
        None
    }
}

// The milliseconds of the monotonic clock.
pub(crate) fn steady_now<R: time::Clock>(rt: &R) -> Option<u64> {
    u64::try_from(rt.monotonic().ok()?.as_millis()).ok()
}

impl<R: time::Clock> WallClock<R> {
    ghost use Rattle.node_link.specs.Adapters.{clock_faults, last_of};

    // The milliseconds that passed since this was asked last, 0 where it wasn't or nobody knows.
    fn passed(&mut self) -> u64
        ensures last { last_of self.new ≡ last_of self.old }
        ensures faults { clock_faults self.new ≡ clock_faults self.old }
    {
        let Some(now) = steady_now(&self.rt) else {
            return 0;
        };
        let before = self.steady;
        self.steady = now;
        if before == 0 {
            0
        } else {
            now.saturating_sub(before)
        }
    }
}

impl<R: time::Clock> Clock for WallClock<R> {
    ghost use Rattle.node_link.specs.Adapters.{clock_faults, last_of};

    ghost told = { λ _. None };

    ghost least = { λ c _. last_of c };

    fn now(&mut self, place: ServerId) -> u64
        ensures bound { result < 2 ^ 62 }
        ensures order { last_of self.old ≤ result }
        ensures least { result ≤ last_of self.new }
        ensures others { (p : Place) → last_of self.old ≤ last_of self.new }

        ensures last { last_of self.new ≡ result }
        ensures count { clock_faults self.old ≤ clock_faults self.new }
    {
        let passed = self.passed();
        let gone_on = self.last.saturating_add(passed).min(END_OF_TIME - 1);
        match millis_now(&self.rt) {
            Some(millis) => self.last = gone_on.max(millis),
            None => {
                self.last = gone_on;
                self.faults = self.faults.saturating_add(1);
            }
        }
        self.last
    }
}
