//! The top call: the words of a command, and what is done on them.
//!
//! # What is proved
//!
//! The top call, whose clauses `GUARANTEES.md` explains. `play` and the clauses on texts hand on
//! what `schedule_play` says, of the world of `world`, and `observe` and the clauses on observed
//! texts what `observe_play` and `observe_laws` say (`HasObserved`, `IsObservedRightly`). `check`
//! says for each exit what was written of the one line of a verdict (`TellsWhole`, `TellsPart`),
//! and `generate` of the schedule of a seed. `sweep` hands on what `sweep_player` says. `node` and
//! `group` hand on what `node_loop` says of its loops: with status 0 the run was made whole
//! (`IsRun`) and its line written, with 7 and 8 it was cut off (`IsCutOff`) and nothing written
//! (`ServeEnds`). `audit` hands on what `audit_verdict` says: with status 0 and 1 the verdict was
//! written, with 7 nothing (`AuditEnds`). `door play` hands on what `rpc_door` says of a door and
//! `door_play` of its calls (`DoorPlayed`), and `door` what `door_group` says of a door to three
//! servers (`DoorServes`).
//! Not pinned: to which folder a disk is attached, and at which port the link is opened. The words
//! are exactly `play`, `check`, `observe`, `gen` with the decimal spellings of two numbers, `sweep`
//! with three, `node` with a server, and `group`, both with a port, a folder that isn't empty,
//! turns and perhaps the length of promises, each number within its bounds, `audit` with such a
//! folder, `door play` with a user and a group below 2^32, and `door` with such a user and group, a
//! client, a port, a folder and turns (`IsForm`). `word_fault` tells what is wrong with words
//! exactly where they are no form; which word it names no clause says.
#![tactic(auto)]

mod auditing;
mod check;
mod door_servers;
mod door_words;
mod generate;
mod loop_words;
mod number;
mod serve;
mod sweeping;
mod texts;
mod top;
mod word_faults;
mod words;

pub use play_commands::Exit;
pub use top::harp;
pub use word_faults::{Wanted, WordFault, word_fault};
