//! The rules of a server of a played group: what its node over its disk is beside a server of the
//! group's machine, how it spells records and messages, and what steps, stops, power failures,
//! crashes and boots make of it. But for the type of a stop these are definitions alone.
//!
//! # What is proved
//!
//! What a server over its disk is beside the server and the disk of a run (`IsHost`), which bytes
//! its records and messages have (`spellings`), and what a step, a stop, a power failure and a boot
//! make of it; definitions, and the type of an armed stop.
#![tactic(auto)]

mod stop;

pub use stop::Stop;
