//! The calls that were asked.

ghost use Rattle.std.specs.Prelude.{◌≡◌, ℕ, ◌↔◌, ◌++◌, ◌∷◌, [], IsTrue, IfOk, OnOk};
ghost use Rattle.std.specs.Option.{option_map};
ghost use Rattle.trace_types.specs.declared.line.Line.TheVariants as line;
ghost use Rattle.trace_claims.specs.Trace.{Trace};
ghost use Rattle.trace_claims.specs.Faithful.{WasAsked};
ghost use Rattle.trace_check.specs.Asks.{ask_key, asked_bytes, key_of, AreAsksOf, AskFits, IsAdded, TellsAsk};

use harp_base::fields::{put_call, put_cred};
use harp_types::{BookEntry, Call, Cred};
use std::alloc::{AllocError, Global};
use std::collections::BTreeSet;
use trace_types::{Line, Step};

/// A client, its number, and the bytes of its caller and call. Most are told apart by the number.
pub type Ask = (u32, u64, Vec<u8>);

/// The asks, at any server.
#[derive(Drop)]
pub struct Asks {
    asked: BTreeSet<Ask>,
}

/// How many bytes there is room for at first, so that most calls are spelled without more.
const ROOM: usize = 64;

/// The bytes of a caller and a call.
fn asked_bytes(alloc: Global, cred: Cred, call: &Call) -> Result<Vec<u8>, AllocError>
    ensures value { IfOk result (λ bytes. bytes.items ≡ asked_bytes cred call.now) }
    ensures fits { OnOk result (AskFits cred call.now) }
{
    let mut bytes = Vec::with_capacity(alloc, ROOM)?;
    put_cred(&mut bytes, cred)?;
    put_call(&mut bytes, call)?;
    Ok(bytes)
}

// What a step asks.
fn ask_of_step(alloc: Global, step: &Step) -> Result<Option<Ask>, AllocError>
    ensures { IfOk result (λ told. TellsAsk (option_map key_of told) (line.Event step.now)) }
{
    match step {
        Step::Ask {
            client,
            number,
            cred,
            call,
            ..
        } => Ok(Some((*client, *number, asked_bytes(alloc, *cred, call)?))),
        Step::Deliver { .. }
        | Step::Pump { .. }
        | Step::Tick { .. }
        | Step::Suspect { .. }
        | Step::Apply { .. }
        | Step::Flush { .. }
        | Step::List { .. }
        | Step::Boot { .. }
        | Step::Power { .. }
        | Step::PowerCut { .. }
        | Step::Crash { .. }
        | Step::Stop { .. }
        | Step::Noise { .. }
        | Step::Clock { .. }
        | Step::Advance { .. }
        | Step::Delta { .. } => Ok(None),
    }
}

// What is asked, where a line begins an ask.
fn ask_told(alloc: Global, line: &Line) -> Result<Option<Ask>, AllocError>
    ensures { IfOk result (λ told. TellsAsk (option_map key_of told) line.now) }
{
    match line {
        Line::Event { step } => ask_of_step(alloc, step),
        Line::Entered { .. }
        | Line::Answered { .. }
        | Line::Refused { .. }
        | Line::Sent { .. }
        | Line::State { .. }
        | Line::Down { .. }
        | Line::Listed { .. }
        | Line::Unlisted { .. }
        | Line::Object { .. }
        | Line::Slot { .. }
        | Line::Block { .. }
        | Line::Text { .. }
        | Line::Bad { .. }
        | Line::End { .. } => Ok(None),
    }
}

impl Asks {
    /// Nothing was asked.
    pub fn new(alloc: Global) -> Asks
        ensures { AreAsksOf result [] }
    {
        Asks {
            asked: BTreeSet::new(alloc),
        }
    }

    fn add(&mut self, ask: Ask) -> Result<(), AllocError>
        ensures { OnOk result (IsAdded (key_of ask) self.old self.new) }
    {
        self.asked.insert(ask)?;
        Ok(())
    }

    /// Takes up what a line tells.
    pub fn take(&mut self, alloc: Global, line: &Line) -> Result<(), AllocError>
        ensures { (before : Trace) → AreAsksOf self.old before
            → OnOk result (AreAsksOf self.new (before ++ line.now ∷ [])) }
    {
        match ask_told(alloc, line)? {
            Some(ask) => self.add(ask),
            None => Ok(()),
        }
    }

    /// Whether the call of an entry was asked by its client, with its number and by its caller.
    pub fn was_asked(&self, alloc: Global, entry: &BookEntry) -> Result<bool, AllocError>
        ensures { (before : Trace) (place : ℕ) → AreAsksOf self.now before
            → IfOk result (λ was. IsTrue was ↔ WasAsked before (line.Entered place entry.now)) }
    {
        let bytes = asked_bytes(alloc, entry.cred, &entry.call)?;
        Ok(self.asked.contains(&(entry.client, entry.number, bytes)))
    }
}
