//! Schedules that are generated from a seed, runs of many of them, and their texts.
//!
//! # What is proved
//!
//! A `Schedule` gives the steps of the one schedule of a seed, one after another. `sweep_one` and
//! `sweep_many` give the same list, a summary for each seed in order, for any player that has one
//! summary for each list of steps; that runs go on at the same time isn't claimed. `write_schedule`
//! and `write_summaries` write exactly the text, or a front of it after a fault; `steps_fit`: each
//! generated step has a spelling.
#![tactic(auto)]

mod calls;
mod draws;
mod generator;
mod laws;
mod line_kind;
mod player;
mod runs;
mod schedule;
mod schedule_writer;
mod summaries;
mod summary;

pub use laws::steps_fit;
pub use player::Player;
pub use runs::{sweep_many, sweep_one};
pub use schedule::Schedule;
pub use schedule_writer::write_schedule;
pub use summaries::write_summaries;
pub use summary::Summary;
