//! The player of a sweep: it plays the steps of a schedule in a world, and counts their lines. What
//! a sweep counts is what plays write.
//!
//! # What is proved
//!
//! `summary_over` plays the steps of a schedule in a stage, each as a line of a schedule, and
//! counts what the lines of their trace come to (`summary_of_steps`): entered lines, answers,
//! refusals, and openings.
//!
//! - `swept_texts`: of steps that fit, each with a spelling of at most 20,000 bytes, the text is
//!   read as the steps are (`read`). No line of a generated schedule has more than 19,998 bytes
//!   (`short`). So what a sweep counts of it is what the trace of its text comes to (`counts`).
//!
//!  The words `node` and `group` use these.
#![tactic(auto)]

mod player;
mod playing;
mod swept_plays;
mod tally;

pub use player::GroupPlayer;
pub use playing::summary_over;
pub use swept_plays::swept_texts;
