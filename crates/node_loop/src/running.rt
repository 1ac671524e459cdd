//! A server that runs at a place.

use crate::pace::Pace;
use node::Node;

/// A server that runs at a place, and when it ticks.
#[derive(Drop)]
pub struct Running {
    pub node: Node,
    pub pace: Pace,
}
