//! The changes of a log's records.

ghost use Rattle.std.specs.Prelude.{map};

use crate::active::ActiveLog;
use crate::frozen::FrozenLog;
use harp_cells::{Change, ChangeLog};

impl ChangeLog for ActiveLog {
    ghost base = { λ l. l.base };

    ghost records = { λ l. map (λ r. r.changes) l.records };

    fn first(&self) -> u64 {
        self.base() + 1
    }

    fn last(&self) -> u64 {
        self.top()
    }

    fn changes(&self, index: u64) -> &[Change] {
        match self.item(index) {
            Some(item) => item.fields().changes.as_slice(),
            None => unreachable!(),
        }
    }
}

impl ChangeLog for FrozenLog {
    ghost base = { λ l. l.base };

    ghost records = { λ l. map (λ r. r.changes) l.records };

    fn first(&self) -> u64 {
        self.base() + 1
    }

    fn last(&self) -> u64 {
        self.top()
    }

    fn changes(&self, index: u64) -> &[Change] {
        match self.item(index) {
            Some(item) => item.fields().changes.as_slice(),
            None => unreachable!(),
        }
    }
}
