//! What a trace has to be. The definitions speak of plain lists of lines, and of nothing in the
//! code.
//!
//! # What is proved
//!
//! What a trace has to be (`IsRight`), in ten parts, which `GUARANTEES.md` explains. A faithful
//! trace is what the field calls linearizable (`faithful_is_linearizable`).
#![tactic(auto)]

ghost use Rattle.trace_claims.specs.Faithful.{IsFaithful};
ghost use Rattle.trace_claims.specs.Linearizable.{IsLinearizable};
ghost use Rattle.trace_claims.specs.Trace.{Trace};

/// In a faithful trace each answered call took effect at one moment between an ask of it and its
/// answer.
pub fn faithful_is_linearizable()
    ensures { (trace : Trace) → IsFaithful trace → IsLinearizable trace }
{}
