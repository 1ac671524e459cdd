//! One server over its disk.

use crate::servers::disk::Disk;
use harp_store::MemStore;
use harp_types::{Peer, ServerId};
use node::{Input, Node, NodeFault};
use node_outputs::Outputs;
use power_save::SeenRecords;
use promise::Delta;
use std::alloc::{AllocError, Global};
use trace_types::{Line, Step};
use world_lines::{Book, Packets, give, show_listing};

/// A server, which is there once it has booted, over its disk, and what it has given.
#[derive(Drop)]
pub struct Server {
    me: ServerId,
    node: Option<Node>,
    pub disk: Disk,
    seen: SeenRecords,
    book: Book,
    packets: Packets,
}

impl Server {
    /// A server that is down, over a new disk.
    pub(crate) fn new(alloc: Global, me: ServerId) -> Server {
        Server {
            me,
            node: None,
            disk: Disk {
                store: MemStore::new(alloc),
            },
            seen: SeenRecords::new(alloc),
            book: Book::new(alloc),
            packets: Packets::new(alloc),
        }
    }

    /// Boots at a reading of its clock.
    pub(crate) fn boot(&mut self, alloc: Global, now: u64, delta: Delta) -> Result<(), NodeFault> {
        self.node = None;
        if now < 1 << 62 {
            let (me, disk, seen) = (self.me, &mut self.disk, &mut self.seen);
            self.node = Some(Node::boot::<Disk>(alloc, me, now, delta, disk, seen)?);
        }
        Ok(())
    }

    /// A step at a reading of its clock; nothing where it is down.
    fn step(
        &mut self,
        alloc: Global,
        input: Input,
        now: u64,
    ) -> Result<Option<Outputs>, NodeFault> {
        let Some(node) = &mut self.node else {
            return Ok(None);
        };
        if now >= 1 << 62 {
            return Ok(None);
        }
        let mut outs = Outputs::new(alloc);
        node.step_into::<Disk>(alloc, input, now, &mut self.disk, &mut outs)?;
        Ok(Some(outs))
    }

    /// The lines that a step gives, or its fault.
    pub(crate) fn take(
        &mut self,
        alloc: Global,
        input: Input,
        now: u64,
    ) -> Result<Result<Vec<Line>, NodeFault>, AllocError> {
        let mut lines = Vec::new(alloc);
        let mut outs = match self.step(alloc, input, now) {
            Ok(Some(outs)) => outs,
            Ok(None) => return Ok(Ok(lines)),
            Err(fault) => return Ok(Err(fault)),
        };
        let (book, packets) = (&mut self.book, &mut self.packets);
        let listing = give(alloc, self.me, &mut outs, book, packets, &mut lines)?;
        if let Some(listing) = listing {
            show_listing(alloc, self.me, Some(listing), &mut lines)?;
        }
        Ok(Ok(lines))
    }

    /// The line of what it shows: that it is down where it isn't booted, or a step failed.
    pub(crate) fn shown(&self) -> Line {
        let server = self.me;
        let Some(node) = &self.node else {
            return Line::Down { server };
        };
        if node.is_halted() {
            return Line::Down { server };
        }
        Line::State {
            server,
            state: node.state_line(),
        }
    }
}

/// What a step of a schedule gives to its server. None where it gives nothing.
pub(crate) fn input_of(step: Step) -> Option<Input> {
    match step {
        Step::Ask {
            client,
            number,
            cred,
            call,
            ..
        } => Some(Input::Ask {
            peer: Peer::Other {
                address: 1,
                port: 2,
            },
            client,
            number,
            cred,
            call,
        }),
        Step::Tick { .. } => Some(Input::Tick),
        Step::Suspect { .. } => Some(Input::Suspect),
        Step::Apply { most, .. } => Some(Input::Apply { most }),
        Step::Flush { .. } => Some(Input::Flush),
        Step::List { .. } => Some(Input::List),
        _ => None,
    }
}
