//! Promises: until when a server helps no view but its leader's, and until when a leader may answer
//! reads by itself (Harp paper).
//!
//! # What is proved
//!
//! `Deadline`, the end of a promise, is below 2^62 + 100,000, and `Delta`, a length of promises,
//! from 500 to 100,000 milliseconds. No call takes memory.
//!
//! - `Horizon::boot` has the horizon clock + longest, and keeps the delta of its boot. `give` gives
//!   the clock + that delta (`promise`) and raises the horizon to it where it was lower
//!   (`horizon`).
//! - `Grant::take` keeps the later end, and `allows` says whether the clock is below it. `may_open`
//!   says whether the clock has reached the horizon + 50.
#![tactic(auto)]

mod deadline;
mod delta;
mod grant;
mod horizon;

pub use deadline::Deadline;
pub use delta::Delta;
pub use grant::Grant;
pub use horizon::{Horizon, may_open};
