//! What a server shows of its state.

ghost use Rattle.std.specs.Prelude.{◌≡◌, ◌↔◌, IsTrue};

use crate::server::{ServerId, ViewNo};

/// A server's part in the view that it accepted.
#[derive(Clone, Copy, PartialEq, Eq)]
pub enum Role {
    /// It leads the view, and this server is its partner.
    Leads(ServerId),
    /// It is the partner, and follows this server.
    Follows(ServerId),
    /// It is no storer of the view.
    Outside,
}

/// What a server has of the list of updates.
#[derive(Clone, Copy, PartialEq, Eq)]
pub enum Held {
    /// Nothing: it is the witness outside.
    Empty,
    /// A log.
    Held,
    /// Nothing, though it was a storer.
    Lost,
}

/// What a server that is up is at.
#[derive(Clone, Copy, PartialEq, Eq)]
pub enum Mode {
    /// It takes part in no view since its boot or its demotion.
    Rests,
    /// It coordinates a view change and hasn't chosen.
    Calls,
    /// It joined a view that it hasn't accepted.
    Joined,
    /// It fetches records for a view.
    Pulls,
    /// It accepted a view and isn't settled in it.
    Waits,
    /// It leads a view that is open.
    Open,
    /// It is the settled partner of a view.
    Live,
}

/// The fields of a state line. The five numbers count updates: dropped from the log, on disk,
/// applied, known committed, last held.
#[derive(Clone, Copy, PartialEq, Eq)]
pub struct StateLine {
    pub mode: Mode,
    pub promised: ViewNo,
    pub accepted: ViewNo,
    pub role: Role,
    pub held: Held,
    pub base: u64,
    pub lb: u64,
    pub ap: u64,
    pub cp: u64,
    pub top: u64,
}

impl StateLine {
    /// Whether the two are one state.
    pub fn is_same(&self, other: &StateLine) -> bool
        ensures { IsTrue result ↔ (self.now ≡ other.now) }
    {
        self.mode == other.mode
            && self.promised.is_same(other.promised)
            && self.accepted.is_same(other.accepted)
            && self.role == other.role
            && self.held == other.held
            && self.base == other.base
            && self.lb == other.lb
            && self.ap == other.ap
            && self.cp == other.cp
            && self.top == other.top
    }
}
