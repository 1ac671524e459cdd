//! The texts of a play that is observed, beside those of a play: the five forms of what is done with
//! an observer, and the lines that come of them.
//!
//! # What is proved
//!
//! - `read_observed` answers what a line of an observed schedule means (`observed_meaning`), unless
//!   memory runs out: a step exactly where the line is its one spelling and the step fits
//!   (`grammar`, `only_step`), none exactly for an empty line or a comment (`only_blank`), else
//!   Grammar with a place. A step of a schedule is one here too, under the same lines (`played`).
//!   That the place is the first at which no step goes on is a definition that was tried against a
//!   table of outside values, and no theorem.
//! - `append_observed`, `write_observed` and `write_observed_step` append exactly the one spelling;
//!   no text has a line feed (`observed_texts_are_lines`).
#![tactic(auto)]

mod act;
mod form;
mod line;
mod read;
mod reading;
mod step;
mod writing;

pub use line::{ObservedLine, ShownNumbers};
pub use reading::read_observed;
pub use schedule_text::TextFault;
pub use step::{Act, ObservedStep};
pub use writing::{append_observed, observed_texts_are_lines, write_observed, write_observed_step};
