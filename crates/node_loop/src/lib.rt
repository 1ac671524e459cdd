//! A running server: what it is given when its clock reads a time and when a datagram comes, what
//! it sends, and its turns, alone or as one of three; three that a program runs, asks and hears; and
//! one that stays up until it is told to stop.
//!
//! # What is proved
//!
//! `take_turn` gives what a turn gives to a server (`turns`): a tick with what belongs to it where
//! its time has come, or a nudge, else what came in one datagram; a turn sends nothing. `arrived`
//! is what a datagram gives: a server's message only from a server's port. `serve_one` runs one
//! server and `serve_three` runs three, and both by one definition (`run`): each server is booted
//! from its disk at a reading of the clock, and takes its turns; what a turn gives are steps of its
//! node, one after the other, and what a step makes is sent before the next, answers first, then
//! refusals, then messages, each as its encoding. So the datagrams that a link tells as sent are
//! just those, in order, and so are the readings and the datagrams taken. All turns were taken, and
//! what is counted is right up to 2^64 - 1. An error leaves disks, link and clock as a front of
//! that does, and a part of the next step, turn or boot (`cut`); so nothing of a step is sent where
//! its disk fails. A failed disk or link is told only where its count rose. What a step makes of
//! the tree has `Node::step_into`'s premise, at each step.
//!
//! `Three` is the loop of three in parts, by the same definitions: `start` boots them (`boots`),
//! `turn` is a turn of each (`turns`), and `ask` gives the server of a place a call at a reading of
//! its clock, as one step of its node (`asks`). Answers and refusals of such a call are no
//! datagrams: `heard` gives them, in the order of the steps and of their outputs, each once
//! (`next`). What was heard before makes no difference to a turn or an ask (`HeardLaws`).
//! `serve_three` is made of these parts, and drops what is heard.
//!
//! A server has a habit, by which a tick gives more or less, and messages are heeded or not
//! (`Habits`, `Turns`); `serve_one` and `Three` have the plain one. `serve_steady` runs one with the
//! steady habit by the same boots and turns; it asks at each tick whether it is to stop, and once it
//! is, it saves its log by the rule of a power failure (`run`). It shows itself behind its boot, and
//! behind exactly the turns that made its state another one but for its numbers, and counts the
//! datagrams that gave it nothing (`TurnsWatched`). Cut off, it leaves a front of that, and amid the
//! save the log whole or none (`cut`).
#![tactic(auto)]

mod arriving;
mod binding;
mod booting;
mod counts;
mod fault;
mod giving;
mod habit;
mod heard;
mod ledger;
mod look;
mod orders;
mod outgoing;
mod outside;
mod pace;
mod rounds;
mod running;
mod saving;
mod serving;
mod showing;
mod staying;
mod three;
mod turn;
mod turned;
mod watcher;

pub use arriving::arrived;
pub use counts::{Counts, Served, Stayed};
pub use fault::LoopFault;
pub use habit::{APPLIED_AT_ONCE, Doubled, Habit};
pub use heard::Heard;
pub use look::Look;
pub use orders::Orders;
pub use outside::Outside;
pub use pace::{Pace, TICK};
pub use running::Running;
pub use serving::{serve_one, serve_three};
pub use staying::serve_steady;
pub use three::Three;
pub use turn::take_turn;
pub use turned::{TurnEnd, Turned};
pub use watcher::{Sight, Watcher};
