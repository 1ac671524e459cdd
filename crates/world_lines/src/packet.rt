//! One packet.

use harp_types::ServerId;
use wire::Message;

/// A message from one server to another.
#[derive(Drop)]
pub struct Packet {
    pub from: ServerId,
    pub to: ServerId,
    pub message: Message,
}
