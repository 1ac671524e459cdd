//! What a loop counts.

ghost use Rattle.std.specs.Prelude.{◌≡◌};
ghost use Rattle.harp_types.specs.Memory.{raised};
ghost use Rattle.node_loop.specs.Scene.{taken_after};

use node_link::Datagram;

/// The datagrams that were taken, dropped ones too, and those that were sent. Each is counted up to
/// 2^64 - 1.
#[derive(Clone, Copy, PartialEq, Eq)]
pub struct Counts {
    pub taken: u64,
    pub sent: u64,
}

/// What a loop did: its turns, the datagrams that it took, dropped ones too, and those that it
/// sent, each counted up to 2^64 - 1.
#[derive(Clone, Copy, PartialEq, Eq)]
pub struct Served {
    pub turns: u64,
    pub taken: u64,
    pub sent: u64,
}

/// What a server that stayed up did: its turns, the datagrams that it took, those that it sent, the
/// ones among those taken that gave it nothing, and the ones among those sent that the link couldn't
/// send, each counted up to 2^64 - 1.
#[derive(Clone, Copy, PartialEq, Eq)]
pub struct Stayed {
    pub turns: u64,
    pub taken: u64,
    pub sent: u64,
    pub dropped: u64,
    pub unsent: u64,
}

impl Counts {
    /// What a turn took.
    pub fn take(&mut self, taken: &Option<Datagram>)
        ensures { self.new
            ≡ record self.old { taken = taken_after taken.now self.old.taken } }
    {
        if taken.is_some() {
            self.taken = self.taken.saturating_add(1);
        }
    }

    /// A datagram was sent.
    pub fn send(&mut self)
        ensures { self.new ≡ record self.old { sent = raised self.old.sent } }
    {
        self.sent = self.sent.saturating_add(1);
    }
}
