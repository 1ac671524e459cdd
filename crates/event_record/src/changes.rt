//! The changes of one update.

ghost use Rattle.std.specs.Prelude.{◌≡◌, ◌≤◌, ◌↔◌, length, IfOk, IfSome, IsSome};

use harp_cells::Change;
use std::alloc::{AllocError, Global};
use std::marker::Model;

/// How many changes an update makes at most.
pub(crate) const MOST_CHANGES: usize = 16;

/// The changes of cells that an update makes, in their order, at most 16.
#[derive(Drop)]
pub struct Changes {
    items: Vec<Change>,
}

impl Model for Changes {
    ghost use Rattle.std.specs.Prelude.{List, length, ◌≤◌};
    ghost use Rattle.harp_cells.specs.declared.change.Change.{Change};

    ghost Value = { List Change };

    ghost view = { λ c. c.items.items };

    ghost invariant = { λ c. length c.items.items ≤ 16 };
}

impl Changes {
    /// The changes of a vector that is known to have at most 16. It isn't copied.
    pub fn new(items: Vec<Change>) -> Changes
        requires { length items.items ≤ 16 }
        ensures { result ≡ items.items }
    {
        Changes { items }
    }

    /// The changes of a vector, where there are at most 16. It isn't copied.
    pub fn of(items: Vec<Change>) -> Option<Changes>
        ensures found { IsSome result ↔ (length items.items ≤ 16) }
        ensures value { IfSome result (λ c. c ≡ items.items) }
    {
        if items.len() <= MOST_CHANGES {
            Some(Changes { items })
        } else {
            None
        }
    }

    /// The changes as a slice.
    pub fn as_slice(&self) -> &[Change]
        ensures value { result.now ≡ self.now }
        ensures bound { length self.now ≤ 16 }
    {
        self.items.as_slice()
    }

    /// Equal changes.
    pub fn copy(&self, alloc: Global) -> Result<Changes, AllocError>
        ensures { IfOk result (λ copy. copy ≡ self.now) }
    {
        let mut items = Vec::new(alloc);
        for change in self.items.as_slice() {
            items.push(change.copy(alloc)?)?;
        }
        Ok(Changes { items })
    }
}
