//! Numbers by key, of which the greatest counts, or the first.

ghost use Rattle.std.specs.Prelude.{◌≡◌, ℕ, ◌↔◌, IsTrue, OnOk, None};
ghost use Rattle.trace_check.specs.Marks.{mark_at, IsNoted, IsRaised, IsSet, Reaches};

use std::alloc::{AllocError, Global};
use std::collections::BTreeMap;
use std::marker::Model;

/// Servers, packets and views by number, or a client; what isn't needed is 0.
pub type Key = (u64, u64, u64, u64);

/// A number for each of some keys. The key that was set last stands before the others, since most
/// often it is the next one too.
#[derive(Drop)]
pub struct Marks {
    last: Option<(Key, u64)>,
    others: BTreeMap<Key, u64>,
}

impl Model for Marks {
    ghost use Rattle.trace_check.specs.Marks.{marks_of, Entries};

    ghost Value = { Entries };

    ghost view = { λ m. marks_of m.last m.others.entries };
}

impl Marks {
    /// No key has a number.
    #[tactic(auto, unfolding(crate::specs::Marks::mark_at))]
    pub fn new(alloc: Global) -> Marks
        ensures { (key : ℕ × ℕ × ℕ × ℕ) → mark_at result key ≡ None }
    {
        Marks {
            last: None,
            others: BTreeMap::new(alloc),
        }
    }

    /// The number of a key.
    pub fn get(&self, key: Key) -> Option<u64>
        ensures { result ≡ mark_at self.now key }
    {
        match self.last {
            Some((at, number)) => {
                if key == at {
                    Some(number)
                } else {
                    self.others.get(&key).copied()
                }
            }
            None => self.others.get(&key).copied(),
        }
    }

    /// The key has this number.
    pub fn set(&mut self, key: Key, number: u64) -> Result<(), AllocError>
        ensures { OnOk result (IsSet key number self.old self.new) }
    {
        match self.last {
            Some((at, before)) => {
                if key == at {
                    self.last = Some((key, number));
                    return Ok(());
                }
                self.others.insert(at, before)?;
                self.last = Some((key, number));
                Ok(())
            }
            None => {
                self.last = Some((key, number));
                Ok(())
            }
        }
    }

    /// Whether the key has this number or a greater one.
    pub fn reaches(&self, key: Key, number: u64) -> bool
        ensures { IsTrue result ↔ Reaches self.now key number }
    {
        match self.get(key) {
            Some(most) => number <= most,
            None => false,
        }
    }

    /// The key has this number, unless it has a greater one.
    pub fn raise(&mut self, key: Key, number: u64) -> Result<(), AllocError>
        ensures { OnOk result (IsRaised key number self.old self.new) }
    {
        if self.reaches(key, number) {
            return Ok(());
        }
        self.set(key, number)
    }

    /// The key has this number, unless it has one.
    pub fn note(&mut self, key: Key, number: u64) -> Result<(), AllocError>
        ensures { OnOk result (IsNoted key number self.old self.new) }
    {
        if self.get(key).is_some() {
            return Ok(());
        }
        self.set(key, number)
    }
}
