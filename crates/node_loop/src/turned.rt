//! What a turn was.

ghost use Rattle.std.specs.Prelude.{◌≡◌};
ghost use Rattle.node_loop.specs.Turn.{is_dropped};

use node::Input;
use node_link::Datagram;

/// A turn at a place: the reading of the clock that it began with, the datagram that it took, the
/// last reading, and what it gives to the server at that reading, in order.
#[derive(Drop)]
pub struct Turned {
    pub began: u64,
    pub taken: Option<Datagram>,
    pub now: u64,
    pub inputs: Vec<Input>,
}

/// Whether a datagram that was taken gave nothing: its bytes are no message, or one that only
/// another peer may send.
pub(crate) fn is_dropped(taken: &Option<Datagram>, inputs: &[Input]) -> bool
    ensures { result ≡ is_dropped taken.now inputs.now }
{
    match taken {
        Some(_) => inputs.is_empty(),
        None => false,
    }
}

/// How a turn ended: its last reading of the clock, and whether the datagram that it took was
/// dropped.
#[derive(Clone, Copy, PartialEq, Eq)]
pub struct TurnEnd {
    pub now: u64,
    pub dropped: bool,
}
