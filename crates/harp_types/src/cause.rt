//! Why an ask is refused.

use crate::server::ServerId;

/// Why an ask is refused.
#[derive(Clone, Copy, PartialEq, Eq)]
pub enum Cause {
    /// The client's number is above 4095.
    BadClient,
    /// The server doesn't lead its view; the hint is the server that does.
    NotLeader { hint: Option<ServerId> },
    /// The server leads a view that isn't open.
    NotYetOpen,
    /// The partner's promise has run out, so a read can't be answered.
    NoPromise,
    /// The log has no room.
    LogFull,
    /// The client has asked an update with a greater number.
    Old,
}
