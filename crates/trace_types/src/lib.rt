//! The steps of a schedule and the lines of a trace, as values.
//!
//! # What is proved
//!
//! There are values for crashes, power failures, stops, boots, listings, lengths of promises, and all
//! ten messages between servers; none has code of its own.
#![tactic(auto)]

mod line;
mod step;

pub use harp_types::{Bits, BookEntry, Cause, Pick};
pub use line::{Line, LineFault, ShownMessage};
pub use step::Step;
