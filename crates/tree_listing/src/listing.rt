//! What a listing of a tree shows.

ghost use Rattle.std.specs.Prelude.{◌≡◌, ◌++◌, ◌∷◌, [], OnErr, OnOk};

use harp_types::{Attr, BLOCK_SIZE, Bounded, LONGEST_NAME, LONGEST_PATH};
use std::alloc::{AllocError, Global};
use std::marker::Model;

// The most bytes of a block.
const BLOCK_BYTES: usize = BLOCK_SIZE as usize;

/// Values in a row, which contracts see as a list.
#[derive(Drop)]
pub struct Row<T> {
    items: Vec<T>,
}

impl<T> Model for Row<T> {
    ghost use Rattle.std.specs.Prelude.{List};

    ghost Value = { List T };

    ghost view = { λ r. r.items.items };
}

impl<T> Row<T> {
    /// No values.
    pub fn new(alloc: Global) -> Row<T>
        ensures { result ≡ [] }
    {
        Row {
            items: Vec::new(alloc),
        }
    }

    /// The values as a slice.
    pub fn as_slice(&self) -> &[T]
        ensures { result.now ≡ self.now }
    {
        self.items.as_slice()
    }

    /// The vector of the values, which isn't copied.
    pub fn into_vec(self) -> Vec<T>
        ensures { result.items ≡ self }
    {
        self.items
    }
}

impl<T: Drop> Row<T> {
    /// Adds a value at the end. Where memory runs out, none is added.
    pub fn push(&mut self, item: T) -> Result<(), AllocError>
        ensures ok { OnOk result (self.new ≡ self.old ++ item ∷ []) }
        ensures err { OnErr result (self.new ≡ self.old) }
    {
        Ok(self.items.push(item)?)
    }
}

/// The tree of a server after its first `cp` updates.
#[derive(Drop)]
pub struct Listing {
    pub cp: u64,
    /// The live objects, by number.
    pub objects: Row<Listed>,
}

/// An object and its parts: the slots of a directory, the blocks of a file, the text of a link.
#[derive(Drop)]
pub struct Listed {
    pub attr: Attr,
    pub slots: Row<ListedSlot>,
    pub blocks: Row<ListedBlock>,
    pub text: Option<Bounded<LONGEST_PATH>>,
}

/// A used slot of a directory.
#[derive(Drop)]
pub struct ListedSlot {
    /// The place in the directory, from 0.
    pub slot: u32,
    /// The object that the entry names.
    pub object: u32,
    pub name: Bounded<LONGEST_NAME>,
}

/// A block of a file with another byte than 0. The last block of a file goes up to the file's end.
#[derive(Drop)]
pub struct ListedBlock {
    /// The place in the file, from 0.
    pub block: u32,
    pub bytes: Bounded<BLOCK_BYTES>,
}
