//! The messages of a group, between its servers and between clients and servers, and their bytes.
//!
//! # What is proved
//!
//! The messages between servers, and between clients and servers.
//!
//! - `decode` gives a message exactly where all of the bytes are its one spelling (`found`,
//!   `only`), and else the first fault and its place (`exact`); `encode` gives that spelling
//!   (`spelled`). By their types a Give has from 1 to 65,535 records (`Records`), a Form one of
//!   three pairs of storers (`Storers`), and only NotLeader has a hint.
//! - `copy` gives an equal message.
#![tactic(auto)]

mod decoding;
mod encoding;
mod forms;
mod message;
mod parts;
mod records;
mod storers;

pub use decoding::{DecodeFault, decode};
pub use encoding::encode;
pub use harp_types::Cause;
pub use message::Message;
pub use promise::Deadline;
pub use records::Records;
pub use storers::Storers;
