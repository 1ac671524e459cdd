//! The lines of a running server's states.

ghost use Rattle.std.specs.Prelude.{◌≡◌, None};

use crate::texts::line_of_sight;
use harp_types::{Sink, write_all};
use node_loop::{Sight, Watcher};
use std::alloc::Global;

/// Writes what a server shows to a sink, a line for each sight. A line that can't be written is
/// lost, or its rest is, and counted up to 2^64 - 1: a full disk of a log ends no server.
#[derive(Drop)]
pub struct StateLines<K> {
    alloc: Global,
    sink: K,
    lost: u64,
}

impl<K> StateLines<K> {
    /// Nothing was written yet.
    pub fn new(alloc: Global, sink: K) -> StateLines<K>
        ensures sink { result.sink ≡ sink }
        ensures lost { result.lost ≡ 0 }
    {
        StateLines {
            alloc,
            sink,
            lost: 0,
        }
    }

    /// How many lines were lost.
    pub fn lost(&self) -> u64
        ensures { result ≡ self.now.lost }
    {
        self.lost
    }
}

impl<K: Sink> StateLines<K> {
    // Writes a line, and says whether it is written whole.
    fn write(&mut self, sight: &Sight) -> bool {
        match line_of_sight(self.alloc, sight) {
            Ok(line) => write_all(&mut self.sink, line.as_slice()).is_ok(),
            Err(_) => false,
        }
    }
}

impl<K: Sink> Watcher for StateLines<K> {
    ghost told = { λ _. None };

    fn see(&mut self, sight: Sight) {
        if !self.write(&sight) {
            self.lost = self.lost.saturating_add(1);
        }
    }
}
