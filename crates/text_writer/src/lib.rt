//! Fields and steps of schedules and lines of traces, written: each is put at the end of what is
//! written.
//!
//! # What is proved
//!
//! What writes a field appends just its spelling, or leaves the text where memory runs out;
//! `write_step` and `write_line` append exactly the one spelling, or nothing where memory runs out,
//! and no text has a line feed (`texts_are_lines`).
#![tactic(auto)]

mod decimals;
mod digits;
mod put;
mod put_line;
mod put_message;
mod put_step;
mod write_attr;
mod write_call;
mod write_reply;
mod write_state;
mod writing;

pub use digits::{put_hex, put_name};
pub use put::{
    put_at, put_client, put_cred, put_decimal, put_named, put_number, put_server, put_three,
};
pub use write_attr::put_attr;
pub use write_call::put_call;
pub use write_reply::put_reply;
pub use write_state::{put_held, put_in_view, put_state, put_view};
pub use writing::{append_line, append_step, texts_are_lines, write_line, write_step};
