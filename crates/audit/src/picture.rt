//! What an audit sees of a stored tree.

ghost use Rattle.std.specs.Prelude.{◌≡◌, ◌++◌, ◌∷◌, [], OnErr, OnOk};

use harp_cells::Value;
use std::alloc::{AllocError, Global};
use std::marker::Model;

/// Values in a row, which contracts see as a list.
#[derive(Drop)]
pub struct Rows<T> {
    items: Vec<T>,
}

impl<T> Model for Rows<T> {
    ghost use Rattle.std.specs.Prelude.{List};

    ghost Value = { List T };

    ghost view = { λ r. r.items.items };
}

impl<T> Rows<T> {
    /// No values.
    pub fn new(alloc: Global) -> Rows<T>
        ensures { result ≡ [] }
    {
        Rows {
            items: Vec::new(alloc),
        }
    }

    /// The values of a vector, which isn't copied.
    pub fn of(items: Vec<T>) -> Rows<T>
        ensures { result ≡ items.items }
    {
        Rows { items }
    }

    /// The values as a slice.
    pub fn as_slice(&self) -> &[T]
        ensures { result.now ≡ self.now }
    {
        self.items.as_slice()
    }

    /// The vector of the values, which isn't copied.
    pub fn into_vec(self) -> Vec<T>
        ensures { result.items ≡ self }
    {
        self.items
    }
}

impl<T: Drop> Rows<T> {
    /// Adds a value at the end. Where memory runs out, none is added.
    pub fn push(&mut self, item: T) -> Result<(), AllocError>
        ensures ok { OnOk result (self.new ≡ self.old ++ item ∷ []) }
        ensures err { OnErr result (self.new ≡ self.old) }
    {
        Ok(self.items.push(item)?)
    }
}

/// An object as it is stored: its number, the value of its cell, what its slots hold, free ones
/// too, and of a symbolic link how many bytes its text has.
#[derive(Drop)]
pub struct Portrait {
    pub number: u32,
    pub object: Value,
    pub slots: Rows<Option<Value>>,
    pub text: u32,
}

/// A stored tree: the number of the next object, the used blocks of 4096 bytes, and the objects by
/// number.
#[derive(Drop)]
pub struct Picture {
    pub next: u32,
    pub used: u32,
    pub objects: Rows<Portrait>,
}
