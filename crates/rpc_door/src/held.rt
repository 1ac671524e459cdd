//! Bytes that were read from a source and not yet taken.

ghost use Rattle.std.specs.Prelude.{◌≡◌, ◌≤◌, ◌<◌, ◌+◌, ◌^◌, ◌++◌, [], false, true, length, take, drop, IfOk, OnOk, OnErr, Err, Ok};
ghost use Rattle.std.specs.Io.KnownBytes.{IsAtEnd, Keeps};
ghost use Rattle.harp_types.specs.Streams.{Rose};
ghost use Rattle.rpc_door.specs.Records.{Takes, TakesPart, bytes_left};

use crate::fault::ReadFault;
use harp_types::{Failed, Source};
use std::alloc::{AllocError, Global};
use std::marker::Model;

/// How many bytes are asked for at once.
const SIZE: usize = 1 << 16;

/// Up to 64 KiB of a source.
#[derive(Drop)]
pub struct Held {
    bytes: Vec<u8>,
    at: usize,
    end: usize,
}

impl Model for Held {
    ghost use Rattle.std.specs.Prelude.{ℕ, List, length, slice_range, ◌≤◌, ◌<◌};

    ghost Value = { List ℕ };

    ghost view = { λ c. slice_range c.bytes.items c.at c.end };

    ghost invariant = { λ c. (c.at ≤ c.end) × (c.end ≤ length c.bytes.items)
        × (0 < length c.bytes.items) };
}

impl Held {
    /// No bytes.
    pub fn new(alloc: Global) -> Result<Held, AllocError>
        ensures { IfOk result (λ held. held ≡ []) }
    {
        Ok(Held {
            bytes: vec![in alloc; 0; SIZE]?,
            at: 0,
            end: 0,
        })
    }

    /// Whether a byte is left. The source is read where none is at hand.
    pub fn fill<S: Source>(&mut self, source: &mut S) -> Result<bool, Failed>
        ensures left { Keeps (bytes_left self.old (S.left source.old))
            (bytes_left self.new (S.left source.new)) }
        ensures some { result ≡ Ok true → 0 < length self.new }
        ensures none { result ≡ Ok false → IsAtEnd (bytes_left self.old (S.left source.old)) }
        ensures failed { OnErr result (self.new ≡ []) }
        ensures rose { OnErr result (Rose (S.faults source.old) (S.faults source.new)) }
        ensures count { S.faults source.old ≤ S.faults source.new }
    {
        if self.at < self.end {
            return Ok(true);
        }
        self.at = 0;
        self.end = 0;
        let count = source.read(self.bytes.as_mut_slice())?;
        if count == 0 {
            return Ok(false);
        }
        self.end = count;
        Ok(true)
    }

    /// The bytes at hand.
    pub fn as_slice(&self) -> &[u8]
        ensures { result.now ≡ self.now }
    {
        &self.bytes[self.at..self.end]
    }

    /// Passes over so many of the bytes at hand.
    pub fn pass(&mut self, count: usize)
        requires { count ≤ length self.old }
        ensures { self.new ≡ drop count self.old }
    {
        self.at += count;
    }

    /// Takes the bytes at hand to the end of others, at most so many. Without memory none is taken.
    pub fn take(&mut self, out: &mut Vec<u8>, most: usize) -> Result<(), AllocError>
        ensures out { OnOk result (out.new.items ≡ out.old.items ++ take most self.old) }
        ensures left { OnOk result (self.new ≡ drop most self.old) }
        ensures kept { OnErr result (self.new ≡ self.old) }
        ensures same { OnErr result (out.new.items ≡ out.old.items) }
    {
        let held = &self.bytes[self.at..self.end];
        let count = most.min(held.len());
        out.extend_from_slice(&held[..count])?;
        self.at += count;
        Ok(())
    }

    /// Takes so many bytes to the end of others, or all that are left where there are fewer; and
    /// says whether there were so many.
    pub fn take_exactly<S: Source>(
        &mut self,
        source: &mut S,
        out: &mut Vec<u8>,
        count: usize,
    ) -> Result<bool, ReadFault>
        requires { length out.old.items + count < 2 ^ 62 }
        ensures ok { IfOk result (Takes (bytes_left self.old (S.left source.old))
            (bytes_left self.new (S.left source.new)) out.old.items out.new.items count) }
        ensures err { OnErr result (TakesPart (bytes_left self.old (S.left source.old))
            (bytes_left self.new (S.left source.new)) out.old.items out.new.items count) }
        ensures failed { result ≡ Err ReadFault.Failed → self.new ≡ [] }
        ensures rose { result ≡ Err ReadFault.Failed
            → Rose (S.faults source.old) (S.faults source.new) }
        ensures count { S.faults source.old ≤ S.faults source.new }
    {
        let wanted = out.len() + count;
        while out.len() < wanted {
            match self.fill(source) {
                Ok(true) => {}
                Ok(false) => return Ok(false),
                Err(Failed) => return Err(ReadFault::Failed),
            }
            let missing = wanted - out.len();
            match self.take(out, missing) {
                Ok(()) => {}
                Err(_) => return Err(ReadFault::NoMemory),
            }
        }
        Ok(true)
    }
}
