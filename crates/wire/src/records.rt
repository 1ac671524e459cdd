//! The records of a message.

ghost use Rattle.std.specs.Prelude.{◌≡◌, ◌<◌, ◌≤◌, ◌^◌, ◌↔◌, length, IfOk, IfSome, IsSome};

use event_record::Record;
use std::alloc::{AllocError, Global};
use std::marker::Model;

/// From 1 to 65,535 records.
#[derive(Drop)]
pub struct Records {
    items: Vec<Record>,
}

impl Model for Records {
    ghost use Rattle.std.specs.Prelude.{List, length, ◌<◌, ◌≤◌, ◌^◌};
    ghost use Rattle.event_record.specs.declared.record.RecordFields.{RecordFields};

    ghost Value = { List RecordFields };

    ghost view = { λ r. r.items.items };

    ghost invariant = { λ r. (1 ≤ length r.items.items) × (length r.items.items < 2 ^ 16) };
}

impl Records {
    /// The records of a vector, where there are from 1 to 65,535. They aren't copied.
    pub fn of(items: Vec<Record>) -> Option<Records>
        ensures found { IsSome result ↔ ((1 ≤ length items.items) × (length items.items < 2 ^ 16)) }
        ensures value { IfSome result (λ r. r ≡ items.items) }
    {
        if items.is_empty() || items.len() > 65_535 {
            None
        } else {
            Some(Records { items })
        }
    }

    /// The records of a vector that is known to have from 1 to 65,535. They aren't copied.
    pub fn new(items: Vec<Record>) -> Records
        requires least { 1 ≤ length items.items }
        requires most { length items.items < 2 ^ 16 }
        ensures { result ≡ items.items }
    {
        Records { items }
    }

    /// The records as a slice.
    pub fn as_slice(&self) -> &[Record]
        ensures value { result.now ≡ self.now }
        ensures least { 1 ≤ length self.now }
        ensures most { length self.now < 2 ^ 16 }
    {
        self.items.as_slice()
    }

    /// The vector of the records, which aren't copied.
    pub fn into_vec(self) -> Vec<Record>
        ensures value { result.items ≡ self }
        ensures least { 1 ≤ length self }
        ensures most { length self < 2 ^ 16 }
    {
        self.items
    }

    /// Equal records.
    pub fn copy(&self, alloc: Global) -> Result<Records, AllocError>
        ensures { IfOk result (λ copy. copy ≡ self.now) }
    {
        let mut items = Vec::new(alloc);
        for item in self.items.as_slice() {
            items.push(item.copy(alloc)?)?;
        }
        Ok(Records { items })
    }
}
