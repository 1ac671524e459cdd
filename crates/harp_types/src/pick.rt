//! Which of the unsynced changes of a disk a crash keeps.

ghost use Rattle.std.specs.Prelude.{◌≡◌, ◌≤◌, ◌%◌, ◌↔◌, length, false, slice_index_or, IfOk, IsSome, IfSome};
ghost use Rattle.harp_types.specs.Picks.{is_kept};

use std::alloc::{AllocError, Global};
use std::marker::Model;

/// From 1 to 64 bits.
#[derive(Drop)]
pub struct Bits {
    items: Vec<bool>,
}

impl Model for Bits {
    ghost use Rattle.std.specs.Prelude.{Bool, List, length, ◌≤◌};

    ghost Value = { List Bool };

    ghost view = { λ b. b.items.items };

    ghost invariant = { λ b. (1 ≤ length b.items.items) × (length b.items.items ≤ 64) };
}

impl Bits {
    /// The bits of a vector, where there are from 1 to 64 of them. It isn't copied.
    pub fn of(items: Vec<bool>) -> Option<Bits>
        ensures found { IsSome result ↔ ((1 ≤ length items.items) × (length items.items ≤ 64)) }
        ensures value { IfSome result (λ b. b ≡ items.items) }
    {
        if items.is_empty() || items.len() > 64 {
            None
        } else {
            Some(Bits { items })
        }
    }

    /// The bits in order.
    pub fn as_slice(&self) -> &[bool]
        ensures value { result.now ≡ self.now }
        ensures bounds { (1 ≤ length result.now) × (length result.now ≤ 64) }
    {
        self.items.as_slice()
    }

    /// Equal bits.
    pub fn copy(&self, alloc: Global) -> Result<Bits, AllocError>
        ensures { IfOk result (λ copy. copy ≡ self.now) }
    {
        Ok(Bits {
            items: Vec::from_slice(alloc, self.items.as_slice())?,
        })
    }

    // The bit of a place, repeated along all places.
    fn at(&self, place: usize) -> bool
        ensures { result ≡ slice_index_or self.now (place % length self.now) false }
    {
        self.items[place % self.items.len()]
    }
}

/// Which of the unsynced changes a crash keeps: all, none, or those whose bits are set. The bits
/// are repeated along the changes.
#[derive(Drop)]
pub enum Pick {
    All,
    None,
    Bits(Bits),
}

impl Pick {
    /// Whether the change at a place among the unsynced ones, from 0, is kept.
    pub fn keeps(&self, place: usize) -> bool
        ensures { result ≡ is_kept self.now place }
    {
        match self {
            Pick::All => true,
            Pick::None => false,
            Pick::Bits(bits) => bits.at(place),
        }
    }

    /// An equal pick.
    pub fn copy(&self, alloc: Global) -> Result<Pick, AllocError>
        ensures { IfOk result (λ copy. copy ≡ self.now) }
    {
        Ok(match self {
            Pick::All => Pick::All,
            Pick::None => Pick::None,
            Pick::Bits(bits) => Pick::Bits(bits.copy(alloc)?),
        })
    }
}
