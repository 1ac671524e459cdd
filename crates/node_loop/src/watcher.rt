//! Who watches a running server.

ghost use Rattle.std.specs.Prelude.{List, Option, ◌∷◌, []};
ghost use Rattle.node_loop.specs.declared.watcher.Sight.{Sight as Seen};
ghost use Rattle.node_loop.specs.Watch.{Showed};

use harp_types::{ServerId, StateLine};

/// What the server of a place shows, at a reading of its clock in milliseconds.
#[derive(Clone, Copy, PartialEq, Eq)]
pub struct Sight {
    pub place: ServerId,
    pub millis: u64,
    pub state: StateLine,
}

/// Who watches a running server. What can't be handed on is lost: it ends no server.
pub trait Watcher {
    // What was shown so far, in order, where it is told.
    ghost told: { Self → Option (List Seen) };

    /// A server shows itself.
    fn see(&mut self, sight: Sight)
        ensures { Showed (sight ∷ []) (told self.old) (told self.new) };
}
