//! By what a door answers records.

use harp_types::Cred;

/// By what records are answered, and of which servers their calls are asked.
#[derive(Clone, Copy)]
pub struct Rule {
    /// As whom all calls are made; where it is none, each as its credential says.
    pub everyone: Option<Cred>,
    /// The port of the first server at 127.0.0.1; the others have the two behind it.
    pub port: u16,
}

/// A moment at which they are.
#[derive(Clone, Copy)]
pub struct Moment {
    pub rule: Rule,
    /// In milliseconds of the clock.
    pub now: u64,
}
