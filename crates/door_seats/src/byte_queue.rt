//! Bytes that come at the end and go at the front.

ghost use Rattle.std.specs.Prelude.{◌≡◌, ◌≤◌, ◌++◌, ◌==◌, [], length, drop, OnOk, OnErr};

use std::alloc::{AllocError, Global};
use std::marker::Model;

/// Once so many bytes went, those behind them move to the front.
const MOST_GONE: usize = 65_536;

/// Bytes that come at the end and go at the front.
#[derive(Drop)]
pub struct ByteQueue {
    bytes: Vec<u8>,
    /// So many of them went.
    gone: usize,
}

impl Model for ByteQueue {
    ghost use Rattle.std.specs.Prelude.{ℕ, List, length, drop, ◌≤◌};

    ghost Value = { List ℕ };

    ghost view = { λ q. drop q.gone q.bytes.items };

    ghost invariant = { λ q. q.gone ≤ length q.bytes.items };
}

impl ByteQueue {
    /// No bytes.
    pub fn new(alloc: Global) -> ByteQueue
        ensures { result ≡ [] }
    {
        ByteQueue {
            bytes: Vec::new(alloc),
            gone: 0,
        }
    }

    /// The bytes, the first to go first.
    pub fn as_slice(&self) -> &[u8]
        ensures { result.now ≡ self.now }
    {
        &self.bytes[self.gone..]
    }

    /// How many there are.
    pub fn len(&self) -> usize
        ensures { result ≡ length self.now }
    {
        self.bytes.len() - self.gone
    }

    /// Whether there are none.
    pub fn is_empty(&self) -> bool
        ensures { result ≡ (length self.now == 0) }
    {
        self.gone == self.bytes.len()
    }

    /// Appends bytes. Where memory runs out, nothing is appended.
    pub fn extend(&mut self, more: &[u8]) -> Result<(), AllocError>
        ensures ok { OnOk result (self.new ≡ self.old ++ more.now) }
        ensures err { OnErr result (self.new ≡ self.old) }
    {
        self.bytes.extend_from_slice(more)
    }

    /// Takes so many bytes away, or all where there are fewer. Their room is used again once none
    /// is left, or many went.
    pub fn drop_front(&mut self, count: usize)
        ensures { self.new ≡ drop count self.old }
    {
        if count >= self.len() {
            self.clear();
            return;
        }
        self.gone += count;
        if self.gone >= MOST_GONE {
            self.bytes.drain(..self.gone);
            self.gone = 0;
        }
    }

    /// Takes all away.
    pub fn clear(&mut self)
        ensures { self.new ≡ [] }
    {
        self.bytes.clear();
        self.gone = 0;
    }
}
