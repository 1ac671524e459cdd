//! What a line of an observed schedule asks for.

use harp_types::{Call, ServerId};
use trace_types::Step;

/// What is done with an observer.
#[derive(Drop)]
pub enum Act {
    /// It begins a new copy.
    Copy,
    /// A server shows what it wants.
    Want { server: ServerId },
    /// What was shown as the packet of this number, from 0, reaches it.
    Take { packet: u64 },
    /// A server shows what it wants, and that reaches it; up to so many times, until nothing is
    /// shown.
    Drain { server: ServerId, count: u32 },
    /// It answers a read.
    Peek { call: Call },
}

/// One step of an observed schedule.
#[derive(Drop)]
pub enum ObservedStep {
    /// A step of a schedule.
    Played { step: Step },
    /// An act of the observer.
    Acted { act: Act },
}
