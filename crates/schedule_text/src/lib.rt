//! The steps of a schedule, read from its lines, over all views; and their fields, which lines of
//! a trace have too: words, numbers, names and the fields of SETATTR, read from places of a line.
//!
//! # What is proved
//!
//! A reader of a field gives what its definition gives at a place of the line, or the place of a
//! fault, or want of memory.
//!
//! `read_step` answers what the line means (`meaning_of`), unless memory runs out: a step exactly
//! where the line is the step's one spelling and the step fits (`grammar`, `only_step`), no step
//! exactly for an empty line or a comment (`only_blank`), else Grammar with the place that the
//! reading of `specs/Reading` gives. That this is the first place at which no step goes on is a
//! definition that was tried against a table of outside values, and no theorem.
#![tactic(auto)]

mod ask;
mod call;
mod fault;
mod field;
mod form;
mod name;
mod number;
mod pick;
mod reading;
mod set_attr;
mod step;
mod word;

pub use ask::{asked_at, asker_at};
pub use fault::TextFault;
pub use field::{end_at, spaced_count_at, spaced_name_at, spaced_server_at, spaced_u32_at};
pub use form::{Form, form_named};
pub use name::hex_at;
pub use number::{count_at, number_at, peek, server_at, space_at, u32_at, word_at};
pub use reading::{read_step, step_at};
pub use set_attr::set_attr_at;
pub use step::form_at;
pub use word::{all_hex_at, farther, is_name, ranged_at};
