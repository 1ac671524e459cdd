//! Sources and sinks in memory, some of whose calls fail.

ghost use Rattle.std.specs.Prelude.{◌≡◌, ◌≤◌, ◌++◌, [], ◌↔◌, min, length, take, drop, Any, IfOk, OnOk, OnErr, IsErr, IsTrue, IsFalse, Some, Ok, Err};
ghost use Rattle.harp_types.specs.Streams.{Rose, Taken, Given};
ghost use Rattle.harp_types.specs.Memory.{FailsNext, before_calls, after_fault, after_success};

use crate::bytes::Bytes;
use crate::streams::{Failed, Sink, SinkFault, Source};
use std::alloc::{AllocError, Global};
use std::marker::Model;

/// The calls of an object that are to fail, by their numbers from 1.
#[derive(Drop)]
pub struct FailingCalls {
    fails: Vec<u64>,
    calls: u64,
    faults: u64,
}

impl Model for FailingCalls {
    ghost use Rattle.harp_types.specs.Memory.{Failing};

    ghost Value = { Failing };

    ghost view = { λ f. record { fails = f.fails.items; calls = f.calls; faults = f.faults } };
}

impl FailingCalls {
    /// No call so far; those with these numbers are to fail.
    pub fn new(fails: Vec<u64>) -> FailingCalls
        ensures { result ≡ before_calls fails.items }
    {
        FailingCalls {
            fails,
            calls: 0,
            faults: 0,
        }
    }

    /// Counts a call, and says whether it fails.
    pub fn call_fails(&mut self) -> bool
        ensures fails { IsTrue result ↔ FailsNext self.old }
        ensures count { self.old.faults ≤ self.new.faults }
        ensures failed { IsTrue result → self.new ≡ after_fault self.old }
        ensures passed { IsFalse result → self.new ≡ after_success self.old }
    {
        let fails = contains_number(&self.fails, u128::from(self.calls) + 1);
        self.calls = self.calls.saturating_add(1);
        if fails {
            self.faults = self.faults.saturating_add(1);
        }
        fails
    }
}

// In 128 bits, since the number after the last call that is counted fits no u64.
fn contains_number(numbers: &[u64], number: u128) -> bool
    ensures { IsTrue result ↔ Any (λ n. n ≡ number) numbers.now }
{
    numbers.iter().any(|n| u128::from(*n) == number)
}

// Copies as many bytes as fit, and says how many.
fn copy_front(into: &mut [u8], from: &[u8]) -> usize
    ensures count { result ≡ min (length into.old) (length from.now) }
    ensures front { take result into.new ≡ take result from.now }
    ensures rest { drop result into.new ≡ drop result into.old }
{
    let n = into.len().min(from.len());
    into[..n].copy_from_slice(&from[..n]);
    n
}

/// A source over bytes in memory.
#[derive(Drop)]
pub struct MemSource {
    bytes: Vec<u8>,
    at: usize,
    failing: FailingCalls,
}

impl Model for MemSource {
    ghost use Rattle.std.specs.Prelude.{drop, length, ◌≤◌};
    ghost use Rattle.harp_types.specs.Memory.{Reading};

    ghost Value = { Reading };

    ghost view = { λ s. record { left = drop s.at s.bytes.items; failing = s.failing } };

    ghost invariant = { λ s. s.at ≤ length s.bytes.items };
}

impl MemSource {
    /// A source that gives these bytes; its calls with these numbers fail.
    pub fn new(left: Bytes, fails: Vec<u64>) -> MemSource
        ensures left { result.left ≡ left }
        ensures failing { result.failing ≡ before_calls fails.items }
    {
        MemSource {
            bytes: left.into_vec(),
            at: 0,
            failing: FailingCalls::new(fails),
        }
    }
}

impl Source for MemSource {
    ghost left = { λ s. Some s.left };

    ghost faults = { λ s. s.failing.faults };

    /// Gives as many bytes as fit.
    fn read(&mut self, into: &mut [u8]) -> Result<usize, Failed>
        ensures within { IfOk result (λ n. n ≤ length into.new) }
        ensures taken { IfOk result
            (λ n. Taken (Some self.old.left) (Some self.new.left) into.new n) }
        ensures kept { OnErr result (self.new.left ≡ self.old.left) }
        ensures rose { OnErr result (Rose self.old.failing.faults self.new.failing.faults) }
        ensures count { self.old.failing.faults ≤ self.new.failing.faults }

        ensures most { IfOk result (λ n. n ≡ min (length into.old) (length self.old.left)) }
        ensures rest { IfOk result (λ n. drop n into.new ≡ drop n into.old) }
        ensures fails { IsErr result ↔ FailsNext self.old.failing }
        ensures failed { OnErr result (self.new.failing ≡ after_fault self.old.failing) }
        ensures passed { OnOk result (self.new.failing ≡ after_success self.old.failing) }
    {
        if self.failing.call_fails() {
            return Err(Failed);
        }
        let n = copy_front(into, &self.bytes[self.at..]);
        self.at += n;
        Ok(n)
    }
}

/// A sink that keeps what is written.
#[derive(Drop)]
pub struct MemSink {
    bytes: Vec<u8>,
    failing: FailingCalls,
}

impl Model for MemSink {
    ghost use Rattle.harp_types.specs.Memory.{Writing};

    ghost Value = { Writing };

    ghost view = { λ s. record { written = s.bytes.items; failing = s.failing } };
}

/// How many bytes a new sink has room for.
const ROOM: usize = 1024;

impl MemSink {
    /// A sink with nothing written; its calls with these numbers fail.
    pub fn new(alloc: Global, fails: Vec<u64>) -> Result<MemSink, AllocError>
        ensures written { IfOk result (λ s. s.written ≡ []) }
        ensures failing { IfOk result (λ s. s.failing ≡ before_calls fails.items) }
    {
        Ok(MemSink {
            bytes: Vec::with_capacity(alloc, ROOM)?,
            failing: FailingCalls::new(fails),
        })
    }

    /// The bytes written.
    pub fn written(&self) -> &[u8]
        ensures { result.now ≡ self.now.written }
    {
        self.bytes.as_slice()
    }
}

impl Sink for MemSink {
    ghost written = { λ s. Some s.written };

    ghost faults = { λ s. s.failing.faults };

    /// Takes the whole piece.
    fn write(&mut self, piece: &[u8]) -> Result<usize, SinkFault>
        ensures given { IfOk result
            (λ n. Given (Some self.old.written) (Some self.new.written) piece.now n) }
        ensures kept { OnErr result (self.new.written ≡ self.old.written) }
        ensures rose { result ≡ Err SinkFault.Failed
            → Rose self.old.failing.faults self.new.failing.faults }
        ensures count { self.old.failing.faults ≤ self.new.failing.faults }

        ensures whole { IfOk result (λ n. n ≡ length piece.now) }
        ensures fails { (result ≡ Err SinkFault.Failed) ↔ FailsNext self.old.failing }
        ensures failed { result ≡ Err SinkFault.Failed
            → self.new.failing ≡ after_fault self.old.failing }
        ensures passed { (result ≡ Err SinkFault.Failed → ⊥)
            → self.new.failing ≡ after_success self.old.failing }
    {
        if self.failing.call_fails() {
            return Err(SinkFault::Failed);
        }
        self.bytes.extend_from_slice(piece)?;
        Ok(piece.len())
    }
}
