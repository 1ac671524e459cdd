//! The groups that a user is in.

ghost use Rattle.std.specs.Prelude.{◌≡◌, ◌==◌, [], length, IfOk};
ghost use Rattle.nfs_door.specs.Allowances.{is_in};

use std::alloc::{AllocError, Global};
use std::marker::Model;

/// Groups, in the order of a credential.
#[derive(Drop)]
pub struct Groups {
    items: Vec<u32>,
}

impl Model for Groups {
    ghost use Rattle.std.specs.Prelude.{ℕ, List};

    ghost Value = { List ℕ };

    ghost view = { λ g. g.items.items };
}

impl Groups {
    /// The groups of a vector, which isn't copied.
    pub fn new(items: Vec<u32>) -> Groups
        ensures { result ≡ items.items }
    {
        Groups { items }
    }

    /// None.
    pub fn none(alloc: Global) -> Groups
        ensures { result ≡ [] }
    {
        Groups {
            items: Vec::new(alloc),
        }
    }

    /// Whether there is none.
    pub fn is_empty(&self) -> bool
        ensures { result ≡ (length self.now == 0) }
    {
        self.items.len() == 0
    }

    /// Whether this one is among them.
    pub fn has(&self, gid: u32) -> bool
        ensures { result ≡ is_in self.now gid }
    {
        self.items.iter().any(|group| *group == gid)
    }

    /// Equal groups.
    pub fn copy(&self, alloc: Global) -> Result<Groups, AllocError>
        ensures { IfOk result (λ copy. copy ≡ self.now) }
    {
        Ok(Groups {
            items: Vec::from_slice(alloc, self.items.as_slice())?,
        })
    }
}
