//! Reads.

pub mod answer;
mod calls;
