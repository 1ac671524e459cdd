//! The play of an observed schedule's text: a play over all views with an observer beside it.
//!
//! # What is proved
//!
//! The play of an observed schedule's text, in whatever world is its stage (`ShowingStage`): one
//! for `schedule_play` whose servers also show what is wanted of them, by the rule and truly.
//! `observe` begins at the first scene, with an observer to which nothing was shown.
//!
//! - `ends`: for each exit what was written, what the source has left and at which scene the world
//!   stands: the whole observed trace (`EndsObserved`), just the lines of the steps whose lines
//!   were read (`ObservedSourceFails`), or those of all steps but the last one taken and a first
//!   part of what follows (`ObservedSinkFails`). Of a pump's deliveries and of a drain's acts those
//!   stand that come before one that is refused.
//! - `complete`: where neither the source nor the sink failed, the exit tells whether a line is
//!   refused, with the whole observed trace written, unless memory ran out. `source_rose`,
//!   `sink_rose`: a failure is told only where one happened, also of a source or sink that tells no
//!   bytes.
//! - `meaning`: each line of a text means one thing.
#![tactic(auto)]

mod acting;
mod schedule;
mod stage;
mod stepping;
mod text;
mod watch;

pub use schedule::observe;
pub use stage::ShowingStage;
pub use watch::Watch;
