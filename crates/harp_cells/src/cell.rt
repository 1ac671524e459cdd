//! The places of values.

ghost use Rattle.std.specs.Prelude.{◌≡◌};
ghost use Rattle.harp_cells.specs.Effect.{key, is_cell, is_block_from};

/// A place that holds a value or is absent. Objects and clients are named by their numbers.
#[derive(Clone, Copy, PartialEq, Eq, PartialOrd, Ord, Hash)]
pub enum Cell {
    /// What holds of the whole tree.
    Meta,
    /// An object's attributes.
    Object { object: u32 },
    /// 4096 bytes of a regular file, or the text of a symbolic link as block 0.
    Block { object: u32, block: u32 },
    /// A place of a directory.
    Slot { object: u32, slot: u32 },
    /// The last update of a client.
    Client { client: u32 },
    /// A record of a saved log.
    Saved { place: u32 },
}

/// The kind of a cell, and the numbers that name it among its kind.
pub type Key = (u8, u32, u32);

impl Cell {
    /// The kind of the cell, and the numbers that name it among its kind.
    pub fn key(self) -> Key
        ensures { result ≡ key self }
    {
        match self {
            Cell::Meta => (1, 0, 0),
            Cell::Object { object } => (2, object, 0),
            Cell::Block { object, block } => (3, object, block),
            Cell::Slot { object, slot } => (4, object, slot),
            Cell::Client { client } => (5, client, 0),
            Cell::Saved { place } => (6, place, 0),
        }
    }
    // Whether it is this cell.
    #[tactic(auto, unfolding(crate::specs::Effect::is_cell))]
    pub(crate) fn is(self, other: Cell) -> bool
        ensures { result ≡ is_cell self other }
    {
        let (kind, first, second) = self.key();
        let (other_kind, other_first, other_second) = other.key();
        kind == other_kind && first == other_first && second == other_second
    }

    // Whether it is a block of the object, from the first on.
    #[tactic(auto, unfolding(crate::specs::Effect::is_block_from))]
    pub(crate) fn is_block_from(self, object: u32, first: u32) -> bool
        ensures { result ≡ is_block_from object first self }
    {
        let (kind, owner, block) = self.key();
        kind == 3 && owner == object && first <= block
    }
}
