//! The lines of a trace over all views, read.
//!
//! # What is proved
//!
//! `read_line` answers what a line means (`exact`): a line exactly where the bytes are its one
//! spelling and it fits (`found`, `only`, `grammar`), else Grammar with the place that the reading
//! of `specs/Reading` gives. That this is the first place at which no line goes on was tried
//! against a table of outside values, and is no theorem.
#![tactic(auto)]

mod attr;
mod cause;
mod cause_form;
mod elementary;
mod field;
mod form;
mod line;
mod listing;
mod message;
mod message_form;
mod reading;
mod reply;
mod reply_form;
mod state;

pub use reading::read_line;
pub use schedule_text::TextFault;
