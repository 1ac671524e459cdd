//! What a witness does beyond a partner: it becomes one with the records that it pulled, gives
//! records to others, and leaves a view without its log (Harp paper).
//!
//! # What is proved
//!
//! `promote` is `adopt` of the empty log, and `demote` leaves an empty one. `serve` and
//! `serve_active` give exactly the records from the asked one on, up to the start, as many as take
//! at most 48,000 bytes as they are spelled, and at least one; and None exactly where the log
//! doesn't hold the first one or it is above the start.
#![tactic(auto)]

mod part;
mod serving;

pub use part::{demote, promote};
pub use serving::{serve, serve_active};
