//! The run of an observed schedule, which is that of the group with an observer beside it, and
//! what the observed trace of every observed schedule is.
//!
//! # What is proved
//!
//! What the acts of an observer lead to in a run of the group and which lines they give (`Run`),
//! what is read of an observed schedule's text and its one trace (`Reading`, `Trace`), and what is
//! to hold of that trace (`Peeks`) are definitions.
//!
//! Of every text, whatever bytes records and messages have (`every_observed_text`): without what
//! tells of the observer its observed trace is a right one, of the steps of the schedule that were
//! read; and each answer of the observer is that to its call on the tree after the updates that it
//! tells, which are entered before and never fewer than it told earlier. What a world shows by the
//! rule and truly is what such a run shows (`shown_as_told`).
#![tactic(auto)]

ghost use Rattle.std.specs.Prelude.{ℕ, List};
ghost use Rattle.group_trace.specs.Scene.{Measures};
ghost use Rattle.observe_laws.specs.Peeks.{IsObservedRightly};
ghost use Rattle.observe_laws.specs.Told.{ShownAsTold};

/// The observed trace of every text.
pub fn every_observed_text()
    ensures { (m : Measures) (text : List ℕ) → IsObservedRightly m text }
{}

/// What is shown by the rule and truly of the group's updates is what the run shows.
pub fn shown_as_told()
    ensures { ShownAsTold }
{}
