//! Where a client begins to number its calls.

ghost use Rattle.std.specs.Prelude.{◌≡◌, ◌≤◌, ◌<◌, ◌^◌};
ghost use Rattle.client_calls.specs.First.{first_number};

/// The number of a client's first call, by a reading of the clock in milliseconds: a reading leaves
/// room for 2^20 calls before the numbers of the next one begin, and only its low 43 bits count.
pub fn first_number(reading: u64) -> u64
    ensures { result ≡ first_number reading }
{
    (reading % (1 << 43)) * (1 << 20) + 1
}
