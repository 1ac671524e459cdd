//! Bytes that were read from a source and not yet taken.

ghost use Rattle.std.specs.Prelude.{◌≡◌, ◌≢◌, ◌≤◌, ◌<◌, ℕ, List, [], ◌∷◌, ◌++◌, length, drop, IfOk, OnErr};
ghost use Rattle.std.specs.Io.KnownBytes.{Keeps, prepend_known};
ghost use Rattle.harp_types.specs.Streams.{Rose};
ghost use Rattle.line_reader.specs.Lines.{Feedless, Peeked};

use harp_types::{Failed, Source};
use memchr::memchr;
use std::alloc::{AllocError, Global};
use std::marker::Model;

/// How many bytes are asked for at once.
const SIZE: usize = 1 << 16;

/// Up to 64 KiB of a source.
#[derive(Drop)]
pub struct Chunk {
    bytes: Vec<u8>,
    at: usize,
    end: usize,
}

impl Model for Chunk {
    ghost use Rattle.std.specs.Prelude.{ℕ, List, length, slice_range, ◌≤◌, ◌<◌};

    ghost Value = { List ℕ };

    ghost view = { λ c. slice_range c.bytes.items c.at c.end };

    ghost invariant = { λ c. (c.at ≤ c.end) × (c.end ≤ length c.bytes.items) × (0 < length c.bytes.items) };
}

impl Chunk {
    pub fn new(alloc: Global) -> Result<Chunk, AllocError>
        ensures { IfOk result (λ chunk. chunk ≡ []) }
    {
        Ok(Chunk {
            bytes: vec![in alloc; 0; SIZE]?,
            at: 0,
            end: 0,
        })
    }

    /// The next byte of what is left of the source, or None at its end. It fails only where nothing is at hand.
    pub fn peek<S: Source>(&mut self, source: &mut S) -> Result<Option<u8>, Failed>
        ensures ok { IfOk result (λ byte. Peeked self.old (S.left source.old) self.new byte) }
        ensures left { Keeps (prepend_known self.old (S.left source.old)) (prepend_known self.new (S.left source.new)) }
        ensures none { OnErr result (self.new ≡ []) }
        ensures rose { OnErr result (Rose (S.faults source.old) (S.faults source.new)) }
        ensures count { S.faults source.old ≤ S.faults source.new }
    {
        if self.at < self.end {
            return Ok(Some(self.bytes[self.at]));
        }
        self.at = 0;
        self.end = 0;
        let count = source.read(self.bytes.as_mut_slice())?;
        if count == 0 {
            return Ok(None);
        }
        self.end = count;
        Ok(Some(self.bytes[0]))
    }

    /// The bytes at hand before the next line feed, at most so many.
    pub fn plain(&self, most: usize) -> &[u8]
        ensures feedless { Feedless result.now }
        ensures front { result.now ++ drop (length result.now) self.now ≡ self.now }
        ensures few { length result.now ≤ most }
        // None only where a line feed comes next, or none are asked for.
        ensures some { (b : ℕ) (rest : List ℕ) → self.now ≡ b ∷ rest → b ≢ 10 → 0 < most
            → 0 < length result.now }
    {
        let held = &self.bytes[self.at..self.end];
        let count = memchr(b'\n', held).unwrap_or(held.len());
        &held[..count.min(most)]
    }

    /// Takes so many of the bytes at hand.
    pub fn take(&mut self, count: usize)
        requires { count ≤ length self.old }
        ensures { self.new ≡ drop count self.old }
    {
        self.at += count;
    }
}
