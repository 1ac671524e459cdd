//! A group as who watches it sees it: its cells at CP, and the records that it still holds.

use crate::asking::{Asker, recorded};
use crate::fault::Fault;
use event_record::{Index, Record};
use harp_cells::{Cell, CellRead, MemCells, Moment, Value};
use harp_types::{Call, is_update};
use shown::{Shown, Want};
use std::alloc::{AllocError, Global};
use wire::Records;

/// The cells after all updates, a record for each, the number of those that aren't held any more,
/// and what the clock reads.
#[derive(Drop)]
pub struct Group {
    cells: MemCells,
    records: Vec<Record>,
    pub base: u64,
    pub now: Moment,
}

impl Group {
    /// A group of which no update is committed, at time 0.
    pub(crate) fn new(alloc: Global) -> Group {
        Group {
            cells: MemCells::new(alloc),
            records: Vec::new(alloc),
            base: 0,
            now: Moment::new(0),
        }
    }

    /// Commits an update. A read changes nothing.
    pub(crate) fn commit(&mut self, alloc: Global, asker: Asker, call: &Call) -> Result<(), Fault> {
        if !is_update(call) {
            return Ok(());
        }
        let Some(index) = Index::of(self.cp().saturating_add(1)) else {
            return Err(Fault::Bounds);
        };
        let record = recorded(alloc, &mut self.cells, index, self.now, asker, call)?;
        Ok(self.append(alloc, record)?)
    }

    /// Makes a record's changes, and keeps it.
    fn append(&mut self, alloc: Global, record: Record) -> Result<(), AllocError> {
        let changes = record.fields().changes.as_slice();
        self.cells.apply(alloc, changes)?;
        self.records.push(record)?;
        Ok(())
    }

    /// How many updates are committed.
    fn cp(&self) -> u64 {
        self.records.len() as u64
    }

    /// The records from an index on.
    fn from(&self, alloc: Global, first: u64) -> Result<Vec<Record>, AllocError> {
        let mut found = Vec::new(alloc);
        for record in self.records.as_slice() {
            if record.index().get() >= first {
                found.push(record.copy(alloc)?)?;
            }
        }
        Ok(found)
    }

    /// A copy of what a cell holds.
    fn held(&mut self, alloc: Global, cell: Cell) -> Result<Option<Value>, Fault> {
        self.cells.fetch(cell)?;
        match self.cells.value() {
            Some(value) => Ok(Some(value.copy(alloc)?)),
            None => Ok(None),
        }
    }

    /// The records from an index on, where there are any.
    fn records(&self, alloc: Global, first: u64) -> Result<Option<Shown>, AllocError> {
        if first == 0 {
            return Ok(None);
        }
        if first <= self.base {
            return Ok(Some(Shown::Gone { base: self.base }));
        }
        let found = self.from(alloc, first)?;
        match Records::of(found) {
            Some(records) => Ok(Some(Shown::Records { first, records })),
            None => Ok(None),
        }
    }

    /// What is wanted, as a server would show it.
    pub(crate) fn show(&mut self, alloc: Global, want: Want) -> Result<Option<Shown>, Fault> {
        match want {
            Want::Cell { cell } => {
                let value = self.held(alloc, cell)?;
                let cp = self.cp();
                Ok(Some(Shown::Cell { cell, value, cp }))
            }
            Want::Records { first } => Ok(self.records(alloc, first)?),
        }
    }
}
