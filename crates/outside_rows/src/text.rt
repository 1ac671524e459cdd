//! Rows with texts and messages as bytes, and with schedules of seeds and sweeps over them.

mod line;
mod message;
mod observed;
mod players;
mod sweep_row;
mod sweeps;

pub(crate) use crate::text::line::{described_line, described_step};
pub(crate) use crate::text::message::described_message;
pub(crate) use crate::text::observed::described_observed;
pub(crate) use crate::text::sweep_row::write_row;
