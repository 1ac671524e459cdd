//! All packets that were sent.

ghost use Rattle.std.specs.Prelude.{◌≡◌, ◌<◌, ◌^◌, ◌-◌, ◌++◌, ◌∷◌, [], List, ℕ, length, min};
ghost use Rattle.std.specs.Prelude.{slice_get};
ghost use Rattle.std.specs.Prelude.{Some, IfOk, OnErr, OnOk};
ghost use Rattle.std.specs.Option.{option_map};
ghost use Rattle.file_tree.specs.Book.{Entry};
ghost use Rattle.group_rules.specs.Names.{place_of};
ghost use Rattle.group_rules.specs.State.{Message as Heard, Packet as Sent};
ghost use Rattle.group_rules.specs.Step.{numbered};
ghost use Rattle.group_trace.specs.Pump.{lowest_due};
ghost use Rattle.node_outputs.specs.Messages.{heard};
ghost use Rattle.world_lines.specs.Due.{first_due};
ghost use Rattle.world_lines.specs.Machine.{StandFor, opened_as, sent};
ghost use Rattle.world_lines.specs.Posted.{Posted, bytes_sent, delivered_at, posted};

use crate::due::{Ways, add_new, lower, lowest, take_due};
use crate::kept::Kept;
use crate::packet::Packet;
use crate::room::make_room;
use crate::size::message_size;
use harp_types::{ServerId, Trio};
use std::alloc::{AllocError, Global};
use std::marker::Model;
use wire::Message;

/// The packets that were sent, in their order: packet n is the one before which n were sent. They
/// only grow, and each may be delivered any number of times, or never.
#[derive(Drop)]
pub struct Packets {
    kept: Vec<Kept>,
    /// How many bytes they have together.
    bytes: u64,
    /// The first that are due.
    due: Ways,
}

impl Model for Packets {
    ghost use Rattle.std.specs.Prelude.{List};
    ghost use Rattle.world_lines.specs.Kept.{AreCounted};
    ghost use Rattle.world_lines.specs.Posted.{Posted};

    ghost Value = { List Posted };

    ghost view = { λ p. p.kept.items };

    ghost invariant = { λ p. AreCounted p.kept.items p.bytes p.due };
}

impl Packets {
    /// No packets.
    pub fn new(alloc: Global) -> Packets
        ensures none { result ≡ [] }
        ensures machine { StandFor result [] [] }
    {
        let none = Trio {
            zero: None,
            one: None,
            two: None,
        };
        Packets {
            kept: Vec::new(alloc),
            bytes: 0,
            due: Trio {
                zero: none,
                one: none,
                two: none,
            },
        }
    }

    /// Sends a message from one server to another. Where memory runs out, nothing is sent.
    pub fn send(&mut self, from: ServerId, to: ServerId, message: Message) -> Result<(), AllocError>
        ensures ok { OnOk result (self.new ≡ self.old ++ posted from to message ∷ []) }
        ensures err { OnErr result (self.new ≡ self.old) }
        // A message among servers is sent in the machine too.
        ensures machine { OnOk result
            ((packets : List (Sent Entry)) (numbers : List ℕ) (body : Heard Entry)
            → StandFor self.old packets numbers → heard message ≡ Some body
            → StandFor self.new (sent from to body ∷ packets) numbers) }
    {
        let size = message_size(&message);
        let kept = Kept::new(from, to, message, size);
        let n = self.kept.len() as u64;
        make_room(&mut self.kept)?;
        self.kept.push(kept)?;
        self.bytes = self.bytes.saturating_add(size);
        add_new(&mut self.due, from, to, n);
        Ok(())
    }

    /// How many were sent.
    pub fn count(&self) -> u64
        ensures value { result ≡ length self.now }
        // The machine has as many.
        ensures machine { (packets : List (Sent Entry)) (numbers : List ℕ)
            → StandFor self.now packets numbers → result ≡ length packets }
    {
        self.kept.len() as u64
    }

    /// How many bytes their messages have together, or the greatest number where that is more.
    pub fn bytes(&self) -> u64
        ensures { result ≡ min (bytes_sent self.now) (2 ^ 64 - 1) }
    {
        self.bytes
    }

    /// The server that sent packet n, where there is one.
    pub fn sender(&self, n: u64) -> Option<ServerId>
        ensures value { result ≡ option_map (λ (p : Posted). p.packet.from) (slice_get self.now n) }
        // So it is in the machine.
        ensures machine { (packets : List (Sent Entry)) (numbers : List ℕ)
            → StandFor self.now packets numbers
            → option_map place_of result
            ≡ option_map (λ (p : Sent Entry). p.from) (numbered packets n) }
    {
        let at = n as usize;
        if at >= self.kept.len() {
            return None;
        }
        let kept = &self.kept[at];
        Some(kept.from())
    }

    /// The server that packet n goes to, where there is one.
    pub fn target(&self, n: u64) -> Option<ServerId>
        ensures value { result ≡ option_map (λ (p : Posted). p.packet.to) (slice_get self.now n) }
        // So it is in the machine.
        ensures machine { (packets : List (Sent Entry)) (numbers : List ℕ)
            → StandFor self.now packets numbers
            → option_map place_of result
            ≡ option_map (λ (p : Sent Entry). p.to) (numbered packets n) }
    {
        let at = n as usize;
        if at >= self.kept.len() {
            return None;
        }
        let kept = &self.kept[at];
        Some(kept.to())
    }

    /// Packet n, with its message as a value. None comes exactly where there is none.
    pub fn open(&self, alloc: Global, n: u64) -> Result<Option<Packet>, AllocError>
        ensures opened { IfOk result
            (λ o. o ≡ option_map (λ (p : Posted). p.packet) (slice_get self.now n)) }
        // It is the machine's packet of this number.
        ensures machine { (packets : List (Sent Entry)) (numbers : List ℕ)
            → StandFor self.now packets numbers
            → IfOk result (λ o. opened_as o ≡ numbered packets n) }
    {
        let at = n as usize;
        if at >= self.kept.len() {
            return Ok(None);
        }
        let kept = &self.kept[at];
        let packet = kept.open(alloc)?;
        Ok(Some(packet))
    }

    /// Packet n counts as delivered. Where there is none, nothing changes.
    pub fn deliver(&mut self, n: u64)
        ensures value { self.new ≡ delivered_at self.old n }
        // So it does in the machine.
        ensures machine { (packets : List (Sent Entry)) (numbers : List ℕ)
            → StandFor self.old packets numbers → n < length packets
            → StandFor self.new packets (n ∷ numbers) }
    {
        let at = n as usize;
        if at >= self.kept.len() {
            return;
        }
        let kept = &mut self.kept[at];
        kept.arrive();
        take_due(&mut self.due, self.kept.as_slice(), at);
    }

    /// The lowest number of a packet that was never delivered, among two servers where they are
    /// given. None comes exactly where there is none.
    pub fn next(&self, among: Option<(ServerId, ServerId)>) -> Option<u64>
        ensures first { result ≡ first_due among self.now }
        // It is what a pump of the machine delivers next.
        ensures machine { (packets : List (Sent Entry)) (numbers : List ℕ)
            → StandFor self.now packets numbers → result ≡ lowest_due among numbers packets }
    {
        match among {
            None => lowest(&Trio {
                zero: lowest(&self.due.zero),
                one: lowest(&self.due.one),
                two: lowest(&self.due.two),
            }),
            Some((one, other)) => {
                lower(*self.due.get(one).get(other), *self.due.get(other).get(one))
            }
        }
    }
}
