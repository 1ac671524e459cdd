//! What a loop keeps of what its servers do.

ghost use Rattle.std.specs.Prelude.{◌≡◌, []};

use crate::counts::Counts;
use crate::heard::Heard;
use std::alloc::Global;
use std::collections::VecDeque;

/// What a loop keeps of what its servers do: what it counts, and what they sent to the program that
/// they run in and it didn't take yet, the first in front.
#[derive(Drop)]
pub struct Ledger {
    pub counts: Counts,
    pub heard: VecDeque<Heard>,
}

impl Ledger {
    /// Nothing was done yet.
    pub fn new(alloc: Global) -> Ledger
        ensures counts { result.counts ≡ record { taken = 0; sent = 0 } }
        ensures heard { result.heard.items ≡ [] }
    {
        Ledger {
            counts: Counts { taken: 0, sent: 0 },
            heard: VecDeque::new(alloc),
        }
    }
}
