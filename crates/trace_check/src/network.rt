//! The packets that were sent, and the acknowledgements among those that were delivered.

ghost use Rattle.std.specs.Prelude.{◌≡◌, ℕ, ◌↔◌, ◌+◌, ◌≤◌, ◌++◌, ◌∷◌, [], min, IsTrue, OnOk};
ghost use Rattle.trace_claims.specs.Trace.{Trace};
ghost use Rattle.trace_check.specs.ClocksRead.{last_moment};
ghost use Rattle.trace_check.specs.Keys.{way_key};
ghost use Rattle.trace_check.specs.Marks.{Reaches};
ghost use Rattle.trace_check.specs.Network.{AcksDelivered, IsNetworkOf, IsSent, told_ack};

use crate::marks::{Key, Marks};
use crate::packets::{Packets, SentAck};
use crate::readings::{PacketTold, packet_told};
use harp_types::{ServerId, ViewNo};
use std::alloc::{AllocError, Global};
use trace_types::{Line, ShownMessage};

/// The packets by number, and what delivered acknowledgements tell.
#[derive(Drop)]
pub struct Network {
    sent: Packets,
    /// The greatest top that was acknowledged between two servers in a view.
    tops: Marks,
    /// The latest moment that was promised between two servers in a view.
    moments: Marks,
}

fn way_key(from: ServerId, to: ServerId, view: ViewNo) -> Key
    ensures { result ≡ way_key from to view }
{
    (
        u64::from(from.number()),
        u64::from(to.number()),
        view.count(),
        u64::from(view.coordinator().number()),
    )
}

// What a message acknowledges, if anything.
fn told_ack(from: ServerId, to: ServerId, message: ShownMessage) -> Option<SentAck>
    ensures { result ≡ told_ack from to message }
{
    match message {
        ShownMessage::Ack {
            view,
            top,
            until,
            ..
        } => Some(SentAck {
            key: way_key(from, to, view),
            top,
            until,
        }),
        ShownMessage::Invite { .. }
        | ShownMessage::Join { .. }
        | ShownMessage::Form { .. }
        | ShownMessage::Fetch { .. }
        | ShownMessage::Give { .. }
        | ShownMessage::Formed { .. }
        | ShownMessage::Event { .. }
        | ShownMessage::Beat { .. }
        | ShownMessage::Demote { .. } => None,
    }
}

// Whether a moment is before another one. One past 64 bits is handed in as the last one.
fn is_before(moment: u64, until: u64) -> bool
    ensures { (exact : ℕ) → moment ≡ min exact last_moment → IsTrue result ↔ (exact + 1 ≤ until) }
{
    moment < until
}

impl Network {
    /// Nothing was sent.
    pub fn new(alloc: Global) -> Network
        ensures { IsNetworkOf result [] }
    {
        Network {
            sent: Packets::new(alloc),
            tops: Marks::new(alloc),
            moments: Marks::new(alloc),
        }
    }

    fn send(&mut self, number: u64, ack: Option<SentAck>) -> Result<(), AllocError>
        ensures { OnOk result (IsSent number ack self.old self.new) }
    {
        self.sent.note(number, ack)
    }

    fn deliver(&mut self, number: u64) -> Result<(), AllocError>
        ensures { OnOk result (AcksDelivered number self.old self.new) }
    {
        match self.sent.get(number) {
            Some(Some(ack)) => {
                self.tops.raise(ack.key, ack.top)?;
                self.moments.raise(ack.key, ack.until)
            }
            Some(None) => Ok(()),
            None => Ok(()),
        }
    }

    /// Takes up what a line tells.
    pub fn take(&mut self, line: &Line) -> Result<(), AllocError>
        ensures { (before : Trace) → IsNetworkOf self.old before
            → OnOk result (IsNetworkOf self.new (before ++ line.now ∷ [])) }
    {
        match packet_told(line) {
            Some(
                PacketTold::Sent {
                    packet,
                    from,
                    to,
                    message,
                },
            ) => self.send(packet, told_ack(from, to, message)),
            Some(PacketTold::Delivered { packet }) => self.deliver(packet),
            None => Ok(()),
        }
    }

    /// Whether an acknowledgement of a view with a top of at least this number was delivered.
    pub fn has_acked(&self, from: ServerId, to: ServerId, view: ViewNo, number: u64) -> bool
        ensures { IsTrue result ↔ Reaches self.now.tops (way_key from to view) number }
    {
        self.tops.reaches(way_key(from, to, view), number)
    }

    /// Whether an acknowledgement of a view that promises beyond a moment was delivered. A moment
    /// past 64 bits is handed in as the last one.
    pub fn has_promised(&self, from: ServerId, to: ServerId, view: ViewNo, moment: u64) -> bool
        ensures { (exact : ℕ) → moment ≡ min exact last_moment
            → IsTrue result ↔ Reaches self.now.moments (way_key from to view) (exact + 1) }
    {
        match self.moments.get(way_key(from, to, view)) {
            Some(until) => is_before(moment, until),
            None => false,
        }
    }
}
