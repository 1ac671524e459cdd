//! The one spelling of each field and step of a schedule, and of each line of a trace over all
//! views. There are hardly more than definitions.
//!
//! # What is proved
//!
//! This crate says how calls, replies, states, steps and lines are spelled, as definitions.
#![tactic(auto)]

mod cred;
mod left;

pub use cred::is_implied;
pub use left::{LEFT, is_left_time};
