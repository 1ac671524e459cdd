//! What a play writes is what the checker accepts: by the bounds of the lines of every run, and by
//! what the texts of traces are read as.
//!
//! # What is proved
//!
//! How large the numbers, names and texts of every run can become, how many lines runs have, how
//! long messages are, and of which plays the checker says yes; definitions and proofs alone.
//!
//! - `tree_fits`: a call that a schedule can spell leaves a tree whose fields fit, from one whose
//!   fields fit; its reply fits a line, and only READ and READDIR have a long one (`calls`).
//! - `step_walks`: how far the moves of a step go: views, horizons, what is appended and sent
//!   (`moves`).
//! - `run_laws`: each line of a run has a spelling of at most 20,000 bytes, where each message has
//!   bytes, the steps have spellings of at most 19,998 bytes and all but deliveries are at most
//!   half a million (`fit`); the book has fewer than 10^18 calls (`few`).
//! - `count_laws`: the listing of a sound tree has at most 2^22 lines (`listings`); a run has at
//!   most 2^29, two more for each step, and 2^22 more for each step but deliveries (`runs`).
//! - `size_laws`: what a server gives takes at most 48,000 bytes, or is one record (`within`); a
//!   Give has at most 60,028 bytes (`gives`); a Beat and 64 Events take less than 2^22 (`ticks`),
//!   and so does all that one step of a server sends, whatever it begins with, where no message is
//!   longer than an Event whose record fits (`steps`).
//! - `text_laws`: the text of a trace has just the trace's lines (`lines`); the same of each line
//!   of the trace of a schedule whose lines have at most 19,998 bytes (`fit`); and such a trace
//!   has at most 2^40 lines (`few`). So the checker can read each line that a play writes, of such
//!   a schedule and messages that have bytes, and all of them.
//! - `accepted_texts`: of each schedule whose lines have at most 19,998 bytes, the text of the
//!   trace that the group's servers make is a right text (`accepted`).
//! - `pumped_lines`: behind a pump that isn't refused nothing is due among its servers (`pumped`).
#![tactic(auto)]

mod accepted_plays;
mod line_counts;
mod message_bounds;
mod move_bounds;
mod run_bounds;
mod trace_texts;
mod tree_bounds;

pub use accepted_plays::{accepted_texts, pumped_lines};
pub use line_counts::count_laws;
pub use message_bounds::size_laws;
pub use move_bounds::step_walks;
pub use run_bounds::run_laws;
pub use trace_texts::text_laws;
pub use tree_bounds::tree_fits;
