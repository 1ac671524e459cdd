//! Cells that hold numbers, digests of them, and random numbers.

use harp_cells::{Cell, Moment, Value};

/// How many places there are: four blocks of object 2, one of object 3, a slot and a client's.
pub(crate) const PLACES: u32 = 7;

/// The cell of a place.
pub(crate) fn cell(place: u32) -> Cell {
    match place {
        0..4 => Cell::Block {
            object: 2,
            block: place,
        },
        4 => Cell::Block {
            object: 3,
            block: 1,
        },
        5 => Cell::Slot { object: 2, slot: 1 },
        _ => Cell::Client { client: 2 },
    }
}

/// The value that stands for a number.
pub(crate) fn value(next: u32) -> Value {
    Value::Meta {
        next,
        used: 0,
        stamp: Moment::new(0),
    }
}

/// The number of a value.
pub(crate) fn number(value: Option<&Value>) -> Option<u32> {
    match value {
        Some(Value::Meta { next, .. }) => Some(*next),
        _ => None,
    }
}

/// A digest with one number more: 31 times the digest, and then the number and one, or 0 for none.
pub(crate) fn folded(digest: u64, number: Option<u32>) -> u64 {
    let more = match number {
        Some(number) => u64::from(number) + 1,
        None => 0,
    };
    digest.wrapping_mul(31).wrapping_add(more)
}

/// Numbers by a linear congruence, of which the high bits are given.
#[derive(Clone, Copy)]
pub(crate) struct Numbers {
    pub(crate) state: u64,
}

impl Numbers {
    /// The next number, below 2^31.
    pub(crate) fn next(&mut self) -> u32 {
        self.state = self
            .state
            .wrapping_mul(6_364_136_223_846_793_005)
            .wrapping_add(1_442_695_040_888_963_407);
        (self.state >> 33) as u32
    }
}
