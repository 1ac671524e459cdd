//! What a run came to.

/// Counts of a run's lines: those of calls that entered history, of answers and of refusals, and
/// how often a server opened its view.
#[derive(Clone, Copy, PartialEq, Eq)]
pub struct Summary {
    pub entered: u64,
    pub answered: u64,
    pub refused: u64,
    pub opened: u64,
}
