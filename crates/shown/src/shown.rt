//! What is wanted of a server, and what it shows.

ghost use Rattle.std.specs.Prelude.{◌≡◌, ◌↔◌, IfOk, IsTrue};
ghost use Rattle.shown.specs.Truth.{IsLowShown};

use harp_cells::{Cell, Value};
use std::alloc::{AllocError, Global};
use wire::Records;

/// What is wanted of a server.
#[derive(Clone, Copy, PartialEq, Eq)]
pub enum Want {
    /// What a cell holds after the committed updates.
    Cell { cell: Cell },
    /// The committed records from this index on.
    Records { first: u64 },
}

/// What a server shows.
#[derive(Drop)]
pub enum Shown {
    /// What a cell holds after `cp` updates.
    Cell {
        cell: Cell,
        value: Option<Value>,
        cp: u64,
    },
    /// Committed records, the first of which has this index.
    Records {
        first: u64,
        records: Records,
    },
    /// The records up to this index are dropped.
    Gone {
        base: u64,
    },
}

impl Shown {
    /// Whether a shown CP and each shown index are below 2^62.
    pub fn is_low(&self) -> bool
        ensures { IsTrue result ↔ IsLowShown self.now }
    {
        match self {
            Shown::Cell { cp, .. } => *cp < 1 << 62,
            Shown::Records { first, records } => {
                *first <= (1 << 62) - records.as_slice().len() as u64
            }
            Shown::Gone { .. } => true,
        }
    }

    /// An equal value.
    pub fn copy(&self, alloc: Global) -> Result<Shown, AllocError>
        ensures { IfOk result (λ copy. copy ≡ self.now) }
    {
        match self {
            Shown::Cell { cell, value, cp } => {
                let value = match value {
                    Some(value) => Some(value.copy(alloc)?),
                    None => None,
                };
                Ok(Shown::Cell {
                    cell: *cell,
                    value,
                    cp: *cp,
                })
            }
            Shown::Records { first, records } => Ok(Shown::Records {
                first: *first,
                records: records.copy(alloc)?,
            }),
            Shown::Gone { base } => Ok(Shown::Gone { base: *base }),
        }
    }
}
