//! A door, and what it has around it.

ghost use Rattle.std.specs.Prelude.{◌≤◌, ◌<◌, ◌^◌};

use crate::hall::Hall;
use crate::rule::Rule;

/// What a door has around it: connections, a link to the servers, whose place 0 is open at a port
/// that isn't one of theirs, and a clock.
#[derive(Drop)]
pub struct Outside<N, L, C> {
    pub connections: N,
    pub link: L,
    pub clock: C,
}

/// A door: by what it answers, its seats, and the clock's last reading in milliseconds.
#[derive(Drop)]
pub struct Door {
    pub(crate) rule: Rule,
    pub(crate) hall: Hall,
    pub(crate) reading: u64,
    ghost fits: { (reading < 2 ^ 62) × (rule.port ≤ 65533) },
}
