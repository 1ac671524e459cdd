//! Bytes that contracts see as lists.

ghost use Rattle.std.specs.Prelude.{◌≡◌, ◌≤◌, ◌<◌, ◌++◌, ◌↔◌, length, IfOk, IfErr, OnOk, OnErr, IfSome, IsSome, IfNone, IsTrue};

use std::alloc::{AllocError, Global};
use std::marker::Model;

/// Bytes that grow at their end.
#[derive(Drop)]
pub struct Bytes {
    items: Vec<u8>,
}

impl Model for Bytes {
    ghost use Rattle.std.specs.Prelude.{ℕ, List};

    ghost Value = { List ℕ };

    ghost view = { λ b. b.items.items };
}

impl Bytes {
    /// No bytes.
    pub fn new(alloc: Global) -> Bytes
        ensures { length result ≡ 0 }
    {
        Bytes {
            items: Vec::new(alloc),
        }
    }

    /// The bytes of a vector, which isn't copied.
    pub fn from_vec(items: Vec<u8>) -> Bytes
        ensures { result ≡ items.items }
    {
        Bytes { items }
    }

    /// The vector of the bytes, which isn't copied.
    pub fn into_vec(self) -> Vec<u8>
        ensures { result.items ≡ self }
    {
        self.items
    }

    /// The bytes as a slice.
    pub fn as_slice(&self) -> &[u8]
        ensures { result.now ≡ self.now }
    {
        self.items.as_slice()
    }

    /// How many bytes there are.
    pub fn len(&self) -> usize
        ensures { result ≡ length self.now }
    {
        self.items.len()
    }

    /// Whether there are none.
    pub fn is_empty(&self) -> bool
        ensures { IsTrue result ↔ (length self.now ≡ 0) }
    {
        self.items.is_empty()
    }

    /// Appends bytes. Where memory runs out, nothing is appended.
    pub fn extend(&mut self, more: &[u8]) -> Result<(), AllocError>
        ensures ok { OnOk result (self.new ≡ self.old ++ more.now) }
        ensures err { OnErr result (self.new ≡ self.old) }
    {
        self.items.extend_from_slice(more)
    }

    /// Equal bytes.
    pub fn copy(&self, alloc: Global) -> Result<Bytes, AllocError>
        ensures { IfOk result (λ copy. copy ≡ self.now) }
    {
        Ok(Bytes {
            items: Vec::from_slice(alloc, self.items.as_slice())?,
        })
    }
}

/// At most MOST bytes, as a name or a text in a call.
#[derive(Drop)]
pub struct Bounded<const MOST: usize> {
    items: Vec<u8>,
}

impl<const MOST: usize> Model for Bounded<MOST> {
    ghost use Rattle.std.specs.Prelude.{ℕ, List, length, ◌≤◌};

    ghost Value = { List ℕ };

    ghost view = { λ b. b.items.items };

    ghost invariant = { λ b. length b.items.items ≤ MOST };
}

impl<const MOST: usize> Bounded<MOST> {
    /// The bytes of a vector, where there are at most MOST. It isn't copied.
    pub fn of(items: Vec<u8>) -> Option<Bounded<MOST>>
        ensures found { IsSome result ↔ (length items.items ≤ MOST) }
        ensures value { IfSome result (λ b. b ≡ items.items) }
    {
        if items.len() <= MOST {
            Some(Bounded { items })
        } else {
            None
        }
    }

    /// The bytes of a vector that is known to have at most MOST. It isn't copied.
    pub fn new(items: Vec<u8>) -> Bounded<MOST>
        requires { length items.items ≤ MOST }
        ensures { result ≡ items.items }
    {
        Bounded { items }
    }

    /// The bytes as a slice.
    pub fn as_slice(&self) -> &[u8]
        ensures value { result.now ≡ self.now }
        ensures bound { length self.now ≤ MOST }
    {
        self.items.as_slice()
    }

    /// How many bytes there are.
    pub fn len(&self) -> usize
        ensures value { result ≡ length self.now }
        ensures bound { length self.now ≤ MOST }
    {
        self.items.len()
    }

    /// Whether there are none.
    pub fn is_empty(&self) -> bool
        ensures { IsTrue result ↔ (length self.now ≡ 0) }
    {
        self.items.is_empty()
    }

    /// The vector of the bytes, which isn't copied.
    pub fn into_vec(self) -> Vec<u8>
        ensures value { result.items ≡ self.entry }
        ensures bound { length self.entry ≤ MOST }
    {
        self.items
    }

    /// Equal bytes.
    pub fn copy(&self, alloc: Global) -> Result<Bounded<MOST>, AllocError>
        ensures { IfOk result (λ copy. copy ≡ self.now) }
    {
        Ok(Bounded {
            items: Vec::from_slice(alloc, self.items.as_slice())?,
        })
    }
}
