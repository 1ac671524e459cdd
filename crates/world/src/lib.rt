//! The world that a schedule over all views is played in: three servers over their disks, their
//! clocks, the packets and the book.
//!
//! # What is proved
//!
//! The world that a schedule is played in: three hosts, their clocks, the packets as bytes, the
//! book, the length of later promises, and the stops that are armed. It is a stage of
//! `schedule_play` (`Stage`), with the bytes of real records and messages (`spellings` of
//! `world_rules`); so all that `play` says of a text it says of this world.
//!
//! - `new` is three servers that booted on new disks, at the first scene (`IsWorld`).
//! - `step` takes each step that isn't refused, of any form but a pump, just as the run does: its
//!   lines behind the event line, the servers with their records, disks and stops, the packets and
//!   their bytes, the book and the clocks. It refuses exactly where the run does, for the run's
//!   reason; want of memory apart.
//! - `show` answers what is wanted of a server (`shown`), and is refused just where the server is
//!   down (`down`), want of memory apart. In each world that steps lead to it is what the group's
//!   numbers say (`rule`: CP of a cell, the entries of records, or the base), and true of the book's
//!   updates (`truly`): a cell, but of a saved log, as it is after CP of them, and the records of
//!   them from an index on. The world stands where it stood (`stands`).
//! - `next` gives the packet that a pump delivers next, and `entered` the length of the book.
#![tactic(auto)]

mod asking;
mod booting;
mod clocks;
mod delivering;
mod falling;
mod hosts;
mod refusing;
mod running;
mod showing;
mod stopping;
mod taking;
mod turn;
mod world;

pub use schedule_play::Refusal;
pub use world::World;
