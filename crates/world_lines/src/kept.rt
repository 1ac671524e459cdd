//! A packet as it is kept.

ghost use Rattle.std.specs.Prelude.{◌≡◌, ◌&&◌, length, not, IfOk};
ghost use Rattle.wire.specs.Messages.{message_bytes};
ghost use Rattle.world_lines.specs.Due.{goes};
ghost use Rattle.world_lines.specs.Posted.{arrived, bytes_of, posted};

use crate::packet::Packet;
use harp_types::ServerId;
use std::alloc::{AllocError, Global};
use std::marker::Model;
use wire::Message;

/// A packet with its message, whose records the logs share, and whether it was ever delivered.
#[derive(Drop)]
pub(crate) struct Kept {
    from: ServerId,
    to: ServerId,
    message: Message,
    /// How many bytes the message has.
    size: u64,
    delivered: bool,
}

impl Model for Kept {
    ghost use Rattle.std.specs.Prelude.{◌≡◌, length};
    ghost use Rattle.wire.specs.Messages.{message_bytes};
    ghost use Rattle.world_lines.specs.Posted.{Posted};

    ghost Value = { Posted };

    ghost view = { λ k. record {
      packet = record { from = k.from; to = k.to; message = k.message };
      delivered = k.delivered;
    } };

    ghost invariant = { λ k. k.size ≡ length (message_bytes k.message) };
}

impl Kept {
    /// A packet that was never delivered, with a message of so many bytes.
    pub fn new(from: ServerId, to: ServerId, message: Message, size: u64) -> Kept
        requires { size ≡ length (message_bytes message) }
        ensures { result ≡ posted from to message }
    {
        Kept {
            from,
            to,
            message,
            size,
            delivered: false,
        }
    }

    pub fn from(&self) -> ServerId
        ensures { result ≡ self.now.packet.from }
    {
        self.from
    }

    pub fn to(&self) -> ServerId
        ensures { result ≡ self.now.packet.to }
    {
        self.to
    }

    /// How many bytes its message has.
    pub fn size(&self) -> u64
        ensures { result ≡ bytes_of self.now }
    {
        let _ = &self.message;
        self.size
    }

    /// Whether it goes from one server to another, and was never delivered.
    pub fn waits(&self, from: ServerId, to: ServerId) -> bool
        ensures { result ≡ (goes from to self.now && not self.now.delivered) }
    {
        self.from == from && self.to == to && !self.delivered
    }

    /// The packet, with an equal message.
    pub fn open(&self, alloc: Global) -> Result<Packet, AllocError>
        ensures { IfOk result (λ packet. packet ≡ self.now.packet) }
    {
        Ok(Packet {
            from: self.from,
            to: self.to,
            message: self.message.copy(alloc)?,
        })
    }

    /// It counts as delivered.
    pub fn arrive(&mut self)
        ensures { self.new ≡ arrived self.old }
    {
        self.delivered = true;
    }
}
