//! What a line of an observed trace says.

use crate::step::Act;
use harp_types::{Reply, ServerId};
use trace_types::Line;

/// What a trace tells of what is shown.
#[derive(Clone, Copy, PartialEq, Eq)]
pub enum ShownNumbers {
    /// A cell as it is after `cp` updates.
    Cell { cp: u64 },
    /// So many records, the first with this index.
    Records { first: u64, records: u64 },
    /// The records up to this index are dropped.
    Gone { base: u64 },
}

/// One line of an observed trace.
#[derive(Drop)]
pub enum ObservedLine {
    /// A line of a trace.
    Traced {
        line: Line,
    },
    /// An act of the observer begins. The lines up to the next event line are what it gave.
    Event {
        act: Act,
    },
    /// A server shows what is wanted, as the packet of the next number from 0.
    Shown {
        packet: u64,
        server: ServerId,
        shown: ShownNumbers,
    },
    /// Nothing is wanted, or the server has nothing to show.
    Unshown {
        server: ServerId,
    },
    /// The observer's finished copy has so many updates now.
    Observer {
        top: u64,
    },
    /// The observer's reply, after so many updates.
    Peeked {
        updates: u64,
        reply: Reply,
    },
    /// The observer has no finished copy.
    Blind,
}
