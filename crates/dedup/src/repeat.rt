//! What an update can be beside the last one of its client.

use harp_types::Reply;

/// What an update is beside the last one of its client.
#[derive(Drop)]
pub enum Seen {
    /// Its number is above the client's last, or the client has made no update.
    New,
    /// It is the client's last update, which is committed: its index and its reply.
    Kept { index: u64, reply: Reply },
    /// It is the client's last update, which isn't committed yet.
    Pending,
    /// Its number is below the client's last.
    Old,
}
