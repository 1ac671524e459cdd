//! A second opinion on a trace: whether its lines so far are faithful and acknowledged, and use
//! promises, or which line is the first to break which of these. It stands on the plain tree of
//! lists, and shares no code with the servers but the types and spellings of `harp_base`.
//!
//! # What is proved
//!
//! A checker of traces, line by line, on the plain tree of lists. It reads values, not text.
//!
//! - A line keeps five facts of the lines before it and of itself (`Keeps`): an entered reply is
//!   the outcome on the tree of the entries before (`Book`); an entered line has the next number,
//!   its entry comes next, and its call was asked (`Order`); an answer is its call's reply in the
//!   book (`Answer`); an answered update is acknowledged (`Ack`); an answered read has a promise
//!   (`Promise`), each as `trace_claims` says it.
//! - `Checker::line`: nothing, where the line keeps all five; else the first that it breaks, in
//!   this order (`verdict`). It is nothing exactly where the lines so far with this one are
//!   faithful and acknowledged, and use promises (`accepted`). After nothing, the checker has seen
//!   the line too, where fewer than 2^40 lines stand before it (`goes_on`).
//! - `breach_laws`: no line is an accepted trace; a trace with one more line is accepted exactly
//!   where the trace is and the line keeps all five; where a line breaks something first, the trace
//!   isn't.
//! - It says nothing of the other parts of a right trace, nor of further lines after a breach or
//!   after memory ran out.
#![tactic(auto)]

mod asks;
mod breach;
mod checker;
mod clocks;
mod history;
mod marks;
mod network;
mod packets;
mod readings;
mod same;
mod servers;
mod under_way;

pub use breach::{Breach, breach_laws};
pub use checker::Checker;
pub use readings::{begins_step, is_last};
