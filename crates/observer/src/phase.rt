//! How far a copy is that is taken cell by cell.

ghost use Rattle.std.specs.Prelude.{◌≡◌, ◌+◌};
ghost use Rattle.file_tree.specs.Tree.{blocks_of};
ghost use Rattle.nfs_calls.specs.TreeCells.{inode_found, totals_found};
ghost use Rattle.observer.specs.Phases.{behind_object, has_cells, is_first, object_from};
ghost use Rattle.observer.specs.Phases.{part_cell, part_of, parts_from, parts_in, phase_after};
ghost use Rattle.observer.specs.Phases.{wanted_in};

use harp_cells::{Cell, Inode, Value};
use harp_types::{BLOCK_SIZE, Kind};

/// What parts an object has.
#[derive(Clone, Copy)]
pub enum Part {
    /// Slots of a directory.
    Slot,
    /// Blocks of a file or a link.
    Block,
}

/// What of a copy is wanted next. `next` is the number of the next object, by the shown totals.
#[derive(Clone, Copy)]
pub enum Phase {
    /// The totals of the tree.
    Whole,
    /// The object of a number.
    Object {
        number: u32,
        next: u32,
    },
    /// A part of an object, of so many.
    Part {
        part: Part,
        number: u32,
        next: u32,
        at: u32,
        count: u32,
    },
    /// No cell any more: records.
    Records,
}

/// The number of the next object that a value tells.
fn next_in(value: &Option<Value>) -> u32
    ensures { result ≡ (totals_found value.now).next }
{
    match value {
        Some(Value::Meta { next, .. }) => *next,
        Some(
            Value::Object { .. }
            | Value::Unformed { .. }
            | Value::Block { .. }
            | Value::Slot { .. }
            | Value::Client { .. }
            | Value::Saved { .. }
            | Value::SavedCred { .. },
        )
        | None => 2,
    }
}

/// The objects from a number on are wanted.
fn object_from(number: u32, next: u32) -> Phase
    ensures { result ≡ object_from number next }
{
    if number < next {
        Phase::Object { number, next }
    } else {
        Phase::Records
    }
}

/// The object behind one.
fn after_object(number: u32, next: u32) -> Phase
    ensures { result ≡ object_from (number + 1) next }
{
    match number.checked_add(1) {
        Some(behind) => object_from(behind, next),
        None => Phase::Records,
    }
}

/// The parts of an object from one on, of so many, are wanted.
fn parts_from(part: Part, number: u32, next: u32, at: u32, count: u32) -> Phase
    ensures { result ≡ parts_from part number next at count }
{
    if at < count {
        Phase::Part {
            part,
            number,
            next,
            at,
            count,
        }
    } else {
        after_object(number, next)
    }
}

/// What parts an object has.
fn part_of(kind: Kind) -> Part
    ensures { result ≡ part_of kind }
{
    match kind {
        Kind::Directory => Part::Slot,
        Kind::Regular => Part::Block,
        Kind::Link => Part::Block,
    }
}

/// How many blocks of 4096 bytes a size takes.
fn blocks_of(size: u32) -> u32
    ensures { result ≡ blocks_of size }
{
    size / BLOCK_SIZE + u32::from(size % BLOCK_SIZE != 0)
}

/// How many parts an object has.
fn parts_in(inode: &Inode) -> u32
    ensures { result ≡ parts_in inode.now.kind inode.now }
{
    match inode.kind {
        Kind::Directory => inode.slots,
        Kind::Regular => blocks_of(inode.size),
        Kind::Link => blocks_of(inode.size),
    }
}

/// What is wanted behind an object whose cell holds this: its parts, where it is live. The root of
/// the first tree, whose cell is absent, has none.
fn behind_object(number: u32, next: u32, value: &Option<Value>) -> Phase
    ensures { result ≡ behind_object number next (inode_found number value.now) }
{
    match value {
        Some(Value::Object { inode }) => {
            parts_from(part_of(inode.kind), number, next, 0, parts_in(inode))
        }
        Some(
            Value::Meta { .. }
            | Value::Unformed { .. }
            | Value::Block { .. }
            | Value::Slot { .. }
            | Value::Client { .. }
            | Value::Saved { .. }
            | Value::SavedCred { .. },
        ) => after_object(number, next),
        None => after_object(number, next),
    }
}

impl Part {
    /// The cell of a part of an object.
    fn cell(self, object: u32, at: u32) -> Cell
        ensures { result ≡ part_cell self object at }
    {
        match self {
            Part::Slot => Cell::Slot { object, slot: at },
            Part::Block => Cell::Block { object, block: at },
        }
    }
}

impl Phase {
    /// The cell that is wanted.
    pub fn wanted(self) -> Option<Cell>
        ensures { result ≡ wanted_in self }
    {
        match self {
            Phase::Whole => Some(Cell::Meta),
            Phase::Object { number, .. } => Some(Cell::Object { object: number }),
            Phase::Part {
                part,
                number,
                at,
                ..
            } => Some(part.cell(number, at)),
            Phase::Records => None,
        }
    }

    /// What is wanted behind the wanted cell, which holds this.
    pub fn after(self, value: &Option<Value>) -> Phase
        ensures { result ≡ phase_after self value.now }
    {
        match self {
            Phase::Whole => object_from(1, next_in(value)),
            Phase::Object { number, next } => behind_object(number, next, value),
            Phase::Part {
                part,
                number,
                next,
                at,
                count,
            } => match at.checked_add(1) {
                Some(behind) => parts_from(part, number, next, behind, count),
                None => after_object(number, next),
            },
            Phase::Records => Phase::Records,
        }
    }

    /// Whether nothing was shown.
    pub fn is_first(self) -> bool
        ensures { result ≡ is_first self }
    {
        matches!(self, Phase::Whole)
    }

    /// Whether no cell is wanted any more.
    pub fn has_cells(self) -> bool
        ensures { result ≡ has_cells self }
    {
        matches!(self, Phase::Records)
    }
}
