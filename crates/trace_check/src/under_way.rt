//! The step that is under way, and the line before.

ghost use Rattle.std.specs.Prelude.{◌≡◌, ℕ, ◌↔◌, ◌++◌, ◌∷◌, [], is_some, IsTrue, IfOk, OnOk, Some};
ghost use Rattle.harp_types.specs.declared.call.Call.{Call as CallValue};
ghost use Rattle.harp_types.specs.declared.cred.Cred.{Cred as CredValue};
ghost use Rattle.trace_types.specs.declared.line.Line.TheVariants as line;
ghost use Rattle.trace_claims.specs.Faithful.{IsReadReply};
ghost use Rattle.trace_claims.specs.Trace.{Trace};
ghost use Rattle.trace_check.specs.UnderWay.{reading_of, IsUnderWay};

use crate::same::{same_call, same_reply};
use harp_types::{BookEntry, Call, Cred, Reply, is_update};
use std::alloc::{AllocError, Global};
use trace_types::{Line, Step};

/// A read that is asked for, and by whom.
#[derive(Drop)]
pub struct Reading {
    cred: Cred,
    call: Call,
}

/// The read that the step asks for, where it asks for one; and there the entry of the line before,
/// where that entered one.
#[derive(Drop)]
pub struct UnderWay {
    reading: Option<Reading>,
    entered: Option<BookEntry>,
}

fn reading_of(alloc: Global, step: &Step) -> Result<Option<Reading>, AllocError>
    ensures { IfOk result (λ reading. reading ≡ reading_of (Some step.now)) }
{
    match step {
        Step::Ask { cred, call, .. } => {
            if is_update(call) {
                return Ok(None);
            }
            Ok(Some(Reading {
                cred: *cred,
                call: call.copy(alloc)?,
            }))
        }
        Step::Deliver { .. }
        | Step::Pump { .. }
        | Step::Tick { .. }
        | Step::Suspect { .. }
        | Step::Apply { .. }
        | Step::Flush { .. }
        | Step::List { .. }
        | Step::Boot { .. }
        | Step::Power { .. }
        | Step::PowerCut { .. }
        | Step::Crash { .. }
        | Step::Stop { .. }
        | Step::Noise { .. }
        | Step::Clock { .. }
        | Step::Advance { .. }
        | Step::Delta { .. } => Ok(None),
    }
}

fn same_cred(one: Cred, other: Cred) -> bool
    ensures { IsTrue result ↔ (one ≡ other) }
{
    one == other
}

impl UnderWay {
    /// No step has begun.
    pub fn new() -> UnderWay
        ensures { IsUnderWay result [] }
    {
        UnderWay {
            reading: None,
            entered: None,
        }
    }

    /// Takes up that an entry is entered. It is kept where the step asks for a read.
    fn enter(&mut self, alloc: Global, entry: &BookEntry) -> Result<(), AllocError>
        ensures { (before : Trace) (place : ℕ) → IsUnderWay self.old before
            → OnOk result (IsUnderWay self.new (before ++ line.Entered place entry.now ∷ [])) }
    {
        if self.reading.is_none() {
            return Ok(());
        }
        self.entered = Some(entry.copy(alloc)?);
        Ok(())
    }

    /// Takes up what a line tells.
    pub fn take(&mut self, alloc: Global, line: &Line) -> Result<(), AllocError>
        ensures { (before : Trace) → IsUnderWay self.old before
            → OnOk result (IsUnderWay self.new (before ++ line.now ∷ [])) }
    {
        match line {
            Line::Event { step } => {
                self.reading = reading_of(alloc, step)?;
                self.entered = None;
                Ok(())
            }
            Line::Entered { entry, .. } => self.enter(alloc, entry),
            _ => {
                self.entered = None;
                Ok(())
            }
        }
    }

    /// Whether the step asks for a read.
    pub fn is_reading(&self) -> bool
        ensures { result ≡ is_some self.now.reading }
    {
        self.reading.is_some()
    }

    /// Whether the line before entered the read that the step asks for, of this client and with
    /// this number and reply.
    pub fn is_reply(
        &self,
        alloc: Global,
        client: u32,
        number: u64,
        reply: &Reply,
    ) -> Result<bool, AllocError>
        ensures { (before : Trace) (cred : CredValue) (call : CallValue)
            → IsUnderWay self.now before
            → self.now.reading ≡ Some (record { cred = cred; call = call })
            → IfOk result (λ is. IsTrue is ↔ IsReadReply before client number cred call reply.now) }
    {
        let Some(reading) = &self.reading else {
            return Ok(false);
        };
        let Some(entry) = &self.entered else {
            return Ok(false);
        };
        if entry.client != client {
            return Ok(false);
        }
        if entry.number != number {
            return Ok(false);
        }
        if !same_cred(entry.cred, reading.cred) {
            return Ok(false);
        }
        if !same_call(alloc, &entry.call, &reading.call)? {
            return Ok(false);
        }
        same_reply(alloc, &entry.reply, reply)
    }
}
