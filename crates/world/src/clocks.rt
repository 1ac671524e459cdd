//! The clocks, and the length of promises.

ghost use Rattle.std.specs.Prelude.{◌≡◌, ◌<◌, ◌^◌, []};
ghost use Rattle.schedule_play.specs.Stage.{AreReadings, clocks_after};
ghost use Rattle.group_rules.specs.Names.{place_of};
ghost use Rattle.group_rules.specs.Places.{get, with_at};
ghost use Rattle.group_rules.specs.Step.{near};
ghost use Rattle.trace_types.specs.declared.step.Step.TheVariants as step;
ghost use Rattle.world.specs.Clocks.{delta_after};
ghost use Rattle.world.specs.Steps.{Takes};
ghost use Rattle.world.specs.World.{clocks_in};

use crate::world::World;
use harp_types::{CLOCK_SKEW, ServerId, Trio};
use promise::Delta;

impl World {
    /// A server's clock is set.
    pub(crate) fn set_clock(&mut self, server: ServerId, reading: u64)
        ensures taken { Takes self.old self.new (step.Clock server reading) [] }
        ensures clocks { clocks_in self.new
            ≡ clocks_after (clocks_in self.old) (step.Clock server reading) }
    {
        *self.clocks.get_mut(server) = reading;
    }

    /// All clocks go on.
    pub(crate) fn advance(&mut self, millis: u64)
        requires { AreReadings (clocks_after (clocks_in self.old) (step.Advance millis)) }
        ensures taken { Takes self.old self.new (step.Advance millis) [] }
        ensures clocks { clocks_in self.new
            ≡ clocks_after (clocks_in self.old) (step.Advance millis) }
    {
        self.clocks.zero += millis;
        self.clocks.one += millis;
        self.clocks.two += millis;
    }

    /// Promises of servers that boot later last so long, where that is a length of promises.
    pub(crate) fn set_delta(&mut self, millis: u32)
        ensures taken { Takes self.old self.new (step.Delta millis) [] }
        ensures clocks { self.new.clocks ≡ self.old.clocks }
    {
        self.delta = self.delta_after(millis);
    }

    /// The length of promises that is set, where it is one; else the one before stays.
    #[tactic(auto, unfolding(group_rules::specs::Places::all_of))]
    fn delta_after(&self, millis: u32) -> Delta
        ensures { result ≡ delta_after self.now.delta millis }
    {
        match Delta::of(millis) {
            Some(delta) => delta,
            None => self.delta,
        }
    }

    /// Whether a clock that is set to a reading is at most 50 milliseconds from each other one.
    pub(crate) fn stays_near(&self, server: ServerId, reading: u64) -> bool
        requires reading { reading < 2 ^ 62 }
        requires now { AreReadings (clocks_in self.now) }
        ensures { result
            ≡ near reading (λ q. get (with_at (clocks_in self.now) (place_of server) reading) q) }
    {
        let Trio { zero, one, two } = self.clocks;
        match server {
            ServerId::Zero => is_near(reading, reading, one, two),
            ServerId::One => is_near(reading, zero, reading, two),
            ServerId::Two => is_near(reading, zero, one, reading),
        }
    }
}

/// Whether each of three clocks is at most 50 milliseconds from a reading.
#[tactic(auto, unfolding(group_rules::specs::Places::all_of))]
fn is_near(reading: u64, zero: u64, one: u64, two: u64) -> bool
    requires reading { reading < 2 ^ 62 }
    requires zero { zero < 2 ^ 62 }
    requires one { one < 2 ^ 62 }
    requires two { two < 2 ^ 62 }
    ensures { result ≡ near reading (λ q. get (record {
      zero_th = zero;
      one_th = one;
      two_th = two;
    }) q) }
{
    reading <= zero + CLOCK_SKEW
        && zero <= reading + CLOCK_SKEW
        && reading <= one + CLOCK_SKEW
        && one <= reading + CLOCK_SKEW
        && reading <= two + CLOCK_SKEW
        && two <= reading + CLOCK_SKEW
}
