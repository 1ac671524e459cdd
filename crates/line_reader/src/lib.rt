//! Lines of at most 20,000 bytes, read from a source.
//!
//! # What is proved
//!
//! `LineReader::next` gives the lines of a text one after the other, holds at most 20,001 bytes of
//! a line, and loses nothing at a fault.
#![tactic(auto)]

mod chunk;
mod reader;

pub use reader::{LineReader, Next, ReadFault};
