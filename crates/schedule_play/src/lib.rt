//! The play of a schedule's text over all views, in whatever world stands where its steps lead.
//!
//! # What is proved
//!
//! The play of a schedule's text, in whatever world is its stage (`Stage`): one that stands at a
//! scene of a run with disks, takes each step as the run does or refuses it for the run's reason
//! and stays, and tells the packet that is due and the number of the book's entries. `play` begins
//! at the first scene.
//!
//! - `ends`: for each exit what was written, what the source has left and at which scene the world
//!   stands: the whole trace (`EndsWhole`), just the lines of the steps whose lines were read
//!   (`SourceFails`), or those of all steps but the last one taken and a first part of what follows
//!   (`SinkFails`). A line past the 50,000th and one of more than 20,000 bytes are refused. Of a
//!   pump's deliveries those stand that come before one that is refused.
//! - `complete`: where neither the source nor the sink failed, the exit tells whether a line is
//!   refused, with the whole trace written, unless memory ran out. `source_rose`, `sink_rose`: a
//!   failure is told only where one happened, also of a source or sink that tells no bytes.
//! - `every_text`, and the same clauses of `play`: each line of a text means one thing (`meaning`),
//!   and of the steps that are read none is refused (`taken`). The trace of each text is right
//!   (`right`), its event lines are these steps (`events`), its entered lines the book of the group
//!   that they leave (`book`), each answered update stands in that group's later views (`views`),
//!   its disks are right (`disks`), and each first part of the lines is right so far (`parts`).
#![tactic(auto)]

mod exit;
mod laws;
mod refusal;
mod schedule;
mod stage;
mod step;
mod text;
mod turn;

pub use exit::{Exit, Stop, exit_after};
pub use laws::every_text;
pub use refusal::Refusal;
pub use schedule::{fault_of_long_line, play};
pub use stage::Stage;
pub use text::{Room, begin_with_delivery, begin_with_line, write_last, write_with_lines};
pub use turn::{Turn, refuse};
