//! The commands that play in a new world, and how commands end.
//!
//! # What is proved
//!
//! `play` hands on what `schedule_play` says, of the world of `world`, and `observe` what
//! `observe_play` and `observe_laws` say (`HasPlayed`, `HasObserved`): which world is left, too.
//! `door_play` hands on what `rpc_door` says of a door and `door_play` of its calls, and gives back
//! the world in which they were played (`DoorPlayed`). `Exit::status` gives each exit its status.
#![tactic(auto)]

mod door;
mod exit;
mod observing;
mod playing;

pub use door::door_play;
pub use exit::Exit;
pub use observing::{observe, observed_texts};
pub use playing::play;
