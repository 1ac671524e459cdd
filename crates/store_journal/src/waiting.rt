//! The changes that stand in the journal, and whose cells' files aren't brought up to them yet.

ghost use Rattle.std.specs.Prelude.{◌≡◌, ◌++◌, [], ◌∷◌, None, Some, IfOk, OnOk, OnErr, if◌then◌else◌};
ghost use Rattle.harp_cells.specs.declared.cell.Cell.{Cell as CellName};
ghost use Rattle.harp_cells.specs.Effect.{is_cell};
ghost use Rattle.store_journal.specs.Waiting.{Adds, AddsPart, NothingWaits, changes_in, count_of, entries_of, first, made_by, order_of, single, waits};

use harp_cells::{Cell, Change, Key, Value};
use std::alloc::{AllocError, Global};
use std::collections::btree_map::Iter;
use std::collections::{BTreeMap, VecDeque};

/// The last change of each cell that stands in the journal and isn't brought up, and the cells in
/// the order in which they began to wait. A call costs a logarithm of their number.
#[derive(Drop)]
pub struct Waiting {
    changes: BTreeMap<Key, Change>,
    order: VecDeque<Cell>,
}

// The cell of a change of one cell.
fn cell_of(change: &Change) -> Option<Cell>
    ensures { result ≡ single change.now }
{
    match change {
        Change::Put { cell, .. } => Some(*cell),
        Change::Erase { cell } => Some(*cell),
        Change::EraseFrom { .. } => None,
    }
}

// What a change makes of its cell.
fn made_by(alloc: Global, change: &Change) -> Result<Option<Option<Value>>, AllocError>
    ensures { IfOk result (λ made. made ≡ made_by (Some change.now)) }
{
    match change {
        Change::Put { value, .. } => Ok(Some(Some(value.get().copy(alloc)?))),
        Change::Erase { .. } => Ok(Some(None)),
        Change::EraseFrom { .. } => Ok(None),
    }
}

// A cell that doesn't wait yet is the last one to wait.
fn note(
    order: &mut VecDeque<Cell>,
    changes: &BTreeMap<Key, Change>,
    cell: Cell,
) -> Result<(), AllocError> {
    if !changes.contains_key(&cell.key()) {
        order.push_back(cell)?;
    }
    Ok(())
}

/// Adds copies of changes to others.
pub fn add_copies(
    alloc: Global,
    all: &mut Vec<Change>,
    changes: &[Change],
) -> Result<(), AllocError>
    ensures { OnOk result (all.new.items ≡ all.old.items ++ changes.now) }
{
    for change in changes {
        all.push(change.copy(alloc)?)?;
    }
    Ok(())
}

impl Waiting {
    /// Nothing waits.
    #[tactic(auto, unfolding(crate::specs::Waiting::change_in))]
    pub fn new(alloc: Global) -> Waiting
        ensures { NothingWaits result }
    {
        Waiting {
            changes: BTreeMap::new(alloc),
            order: VecDeque::new(alloc),
        }
    }

    /// How many cells wait.
    pub fn count(&self) -> usize
        ensures { result ≡ count_of self.now }
    {
        self.changes.len()
    }

    /// What waits for a cell: a value, an erasure, or nothing.
    pub fn find(&self, alloc: Global, cell: Cell) -> Result<Option<Option<Value>>, AllocError>
        ensures { IfOk result (λ made. made ≡ waits self.now cell) }
    {
        match self.changes.get(&cell.key()) {
            Some(change) => made_by(alloc, change),
            None => Ok(None),
        }
    }

    /// The changes that wait, by the keys of their cells.
    pub fn iter(&self) -> Iter<'_, Key, Change>
        ensures { result ≡ entries_of self.now }
    {
        self.changes.iter()
    }

    /// All that waits.
    pub fn changes(&self, alloc: Global) -> Result<Vec<Change>, AllocError>
        ensures { IfOk result (λ changes. changes.items ≡ changes_in self.now) }
    {
        let mut changes = Vec::new(alloc);
        for (_, change) in self.changes.iter() {
            changes.push(change.copy(alloc)?)?;
        }
        Ok(changes)
    }

    // A change of one cell waits too. Where memory runs out, all is as before.
    fn add(&mut self, change: Change) -> Result<(), AllocError>
        ensures added { OnOk result (Adds (change ∷ []) self.old self.new) }
        ensures kept { OnErr result (entries_of self.new ≡ entries_of self.old) }
    {
        let Some(cell) = cell_of(&change) else {
            return Ok(());
        };
        note(&mut self.order, &self.changes, cell)?;
        self.changes.insert(cell.key(), change)?;
        Ok(())
    }

    /// These changes wait too, the last one of each cell. Where memory runs out, a first part of
    /// them does.
    pub fn add_all(&mut self, alloc: Global, changes: &[Change]) -> Result<(), AllocError>
        ensures added { OnOk result (Adds changes.now self.old self.new) }
        ensures part { OnErr result (AddsPart changes.now self.old self.new) }
    {
        for change in changes {
            self.add(change.copy(alloc)?)?;
        }
        Ok(())
    }

    /// The cell that began to wait first.
    pub fn oldest(&self) -> Option<Cell>
        ensures { result ≡ first (order_of self.now) }
    {
        self.order.front().copied()
    }

    /// The file of the oldest cell is brought up.
    pub fn settle(&mut self, cell: Cell)
        ensures { (c : CellName) → waits self.new c
            ≡ (if is_cell cell c then None else waits self.old c) }
    {
        self.order.pop_front();
        self.changes.remove(&cell.key());
    }
}
