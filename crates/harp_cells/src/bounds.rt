//! Bounds that the fields of values keep.

ghost use Rattle.std.specs.Prelude.{◌≡◌, ◌<◌, ◌≤◌, ◌+◌, ◌^◌, ◌↔◌, length, true, is_some, IfOk, IfSome, IsSome};
ghost use Rattle.harp_cells.specs.Kinds.{is_other_kind};

use harp_types::Kind;
use std::alloc::{AllocError, Global};
use std::marker::Model;

/// A moment in milliseconds of a server's clock, below 2^62 + 2000: a reading is below 2^62, and a
/// promise runs for 2000 from one on.
#[derive(Clone, Copy, PartialEq, Eq, PartialOrd, Ord)]
pub struct Moment {
    millis: u64,
}

impl Model for Moment {
    ghost use Rattle.std.specs.Prelude.{ℕ, ◌+◌, ◌<◌, ◌^◌};

    ghost Value = { ℕ };

    ghost view = { λ m. m.millis };

    ghost invariant = { λ m. m.millis < 2 ^ 62 + 2000 };

    ghost inverse = { λ n. record { millis = n } };
}

impl Moment {
    /// The moment of a number below 2^62 + 2000.
    pub fn of(millis: u64) -> Option<Moment>
        ensures found { IsSome result ↔ (millis < 2 ^ 62 + 2000) }
        ensures value { IfSome result (λ m. m ≡ millis) }
    {
        if millis < (1 << 62) + 2000 {
            Some(Moment { millis })
        } else {
            None
        }
    }

    /// The moment of a number that is known to be below 2^62 + 2000.
    pub fn new(millis: u64) -> Moment
        requires { millis < 2 ^ 62 + 2000 }
        ensures { result ≡ millis }
    {
        Moment { millis }
    }

    /// The number, below 2^62 + 2000.
    pub fn get(self) -> u64
        ensures value { result ≡ self }
        ensures bound { self < 2 ^ 62 + 2000 }
    {
        self.millis
    }
}

/// The kind of what is no object that a call makes: a byte that is the number of no `Kind`.
#[derive(Clone, Copy, PartialEq, Eq)]
pub struct OtherKind {
    number: u8,
}

impl Model for OtherKind {
    ghost use Rattle.std.specs.Prelude.{ℕ, ◌≡◌, true};
    ghost use Rattle.harp_cells.specs.Kinds.{is_other_kind};

    ghost Value = { ℕ };

    ghost view = { λ k. k.number };

    ghost invariant = { λ k. is_other_kind k.number ≡ true };

    ghost inverse = { λ n. record { number = n } };
}

impl OtherKind {
    /// The kind of a byte, where it is the number of no `Kind`.
    pub fn of(number: u8) -> Option<OtherKind>
        ensures found { is_some result ≡ is_other_kind number }
        ensures value { IfSome result (λ k. k ≡ number) }
    {
        if Kind::of(number).is_none() {
            Some(OtherKind { number })
        } else {
            None
        }
    }

    /// The byte.
    pub fn number(self) -> u8
        ensures value { result ≡ self }
        ensures other { is_other_kind self ≡ true }
    {
        self.number
    }
}

/// 1 to MOST bytes, as a block or a name.
#[derive(Drop)]
pub struct NonEmpty<const MOST: usize> {
    items: Vec<u8>,
}

impl<const MOST: usize> Model for NonEmpty<MOST> {
    ghost use Rattle.std.specs.Prelude.{ℕ, List, length, ◌≤◌};

    ghost Value = { List ℕ };

    ghost view = { λ b. b.items.items };

    ghost invariant = { λ b. (1 ≤ length b.items.items) × (length b.items.items ≤ MOST) };
}

impl<const MOST: usize> NonEmpty<MOST> {
    /// The bytes of a vector, where there are 1 to MOST. It isn't copied.
    pub fn of(items: Vec<u8>) -> Option<NonEmpty<MOST>>
        ensures found { IsSome result ↔ ((1 ≤ length items.items) × (length items.items ≤ MOST)) }
        ensures value { IfSome result (λ b. b ≡ items.items) }
    {
        if items.is_empty() || items.len() > MOST {
            None
        } else {
            Some(NonEmpty { items })
        }
    }

    /// The bytes of a vector that is known to have 1 to MOST. It isn't copied.
    pub fn new(items: Vec<u8>) -> NonEmpty<MOST>
        requires least { 1 ≤ length items.items }
        requires most { length items.items ≤ MOST }
        ensures { result ≡ items.items }
    {
        NonEmpty { items }
    }

    /// The bytes as a slice.
    pub fn as_slice(&self) -> &[u8]
        ensures value { result.now ≡ self.now }
        ensures least { 1 ≤ length self.now }
        ensures most { length self.now ≤ MOST }
    {
        self.items.as_slice()
    }

    /// The vector of the bytes, which isn't copied.
    pub fn into_vec(self) -> Vec<u8>
        ensures value { result.items ≡ self.entry }
        ensures least { 1 ≤ length self.entry }
        ensures most { length self.entry ≤ MOST }
    {
        self.items
    }

    /// Equal bytes.
    pub fn copy(&self, alloc: Global) -> Result<NonEmpty<MOST>, AllocError>
        ensures { IfOk result (λ copy. copy ≡ self.now) }
    {
        Ok(NonEmpty {
            items: Vec::from_slice(alloc, self.items.as_slice())?,
        })
    }
}
