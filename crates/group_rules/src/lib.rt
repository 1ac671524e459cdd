//! The rules of a replicated group of primary, backup and witness, as definitions: what each
//! server does with what happens to it, and what a group is after it. No code stands here.
//!
//! # What is proved
//!
//! The rules of the three servers as a machine, what the moves of a step say (`Said`), how a trace
//! shows a server (`Shown`), and how near clocks are (`Near`); definitions alone.
#![tactic(auto)]
