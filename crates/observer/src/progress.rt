//! How far the copies of an observer are.

ghost use Rattle.std.specs.Prelude.{◌≡◌, ◌+◌, ◌<◌, ◌^◌, Some, None};
ghost use Rattle.observer.specs.Progress.{IsLow, after_cell, after_records, begun, follows};
ghost use Rattle.observer.specs.Progress.{is_ripe, want_of, wants_cell};

use crate::phase::Phase;
use harp_cells::{Cell, Value};
use shown::Want;

/// A copy that is under way: the greatest CP shown with its cells, and how many updates each of
/// them has at least, which is the least CP shown until records follow.
#[derive(Clone, Copy)]
pub struct Copied {
    pub phase: Phase,
    pub greatest: u64,
    pub top: u64,
}

/// How many updates the finished copy has, and how far a new one is.
#[derive(Clone, Copy)]
pub struct Progress {
    pub finished: Option<u64>,
    pub copy: Option<Copied>,
}

impl Copied {
    /// A copy of which nothing was shown.
    pub fn new() -> Copied
        ensures { result ≡ begun }
    {
        Copied {
            phase: Phase::Whole,
            greatest: 0,
            top: 0,
        }
    }

    /// Whether this cell is wanted.
    #[tactic(auto, unfolding(harp_cells::specs::Effect::is_cell))]
    pub fn wants_cell(&self, cell: Cell) -> bool
        ensures { result ≡ wants_cell self.now cell }
    {
        match self.phase.wanted() {
            Some(wanted) => wanted.key() == cell.key(),
            None => false,
        }
    }

    /// Whether records from this index on are wanted.
    pub fn wants_records(&self, first: u64) -> bool
        requires { self.now.top < 2 ^ 62 }
        ensures { result ≡ follows self.now first }
    {
        self.phase.has_cells() && first == self.top + 1
    }

    /// After the wanted cell was shown.
    pub fn after_cell(&self, value: &Option<Value>, cp: u64) -> Copied
        ensures { result ≡ after_cell self.now value.now cp }
    {
        let phase = self.phase.after(value);
        if self.phase.is_first() {
            Copied {
                phase,
                greatest: cp,
                top: cp,
            }
        } else {
            Copied {
                phase,
                greatest: self.greatest.max(cp),
                top: self.top.min(cp),
            }
        }
    }

    /// After so many records.
    pub fn after_records(&self, count: u64) -> Copied
        requires { self.now.top + count < 2 ^ 62 }
        ensures { result ≡ after_records self.now count }
    {
        Copied {
            phase: self.phase,
            greatest: self.greatest,
            top: self.top + count,
        }
    }
}

impl Progress {
    /// Whether the new copy is exact, and no older than the finished one.
    pub fn is_ripe(&self) -> bool
        ensures { result ≡ is_ripe self.now }
    {
        let Some(copy) = self.copy else {
            return false;
        };
        if !copy.phase.has_cells() || copy.top < copy.greatest {
            return false;
        }
        match self.finished {
            Some(top) => top <= copy.top,
            None => true,
        }
    }

    /// What is wanted.
    pub fn want(&self) -> Option<Want>
        requires { IsLow self.now }
        ensures { result ≡ want_of self.now }
    {
        match (self.copy, self.finished) {
            (Some(copy), _) => match copy.phase.wanted() {
                Some(cell) => Some(Want::Cell { cell }),
                None => Some(Want::Records {
                    first: copy.top + 1,
                }),
            },
            (None, Some(top)) => Some(Want::Records { first: top + 1 }),
            (None, None) => None,
        }
    }
}
