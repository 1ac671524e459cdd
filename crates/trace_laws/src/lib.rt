//! What holds of every run of the group, from three servers on new disks on: of its lines, and of
//! its disks.
//!
//! # What is proved
//!
//! Laws of these runs, whatever bytes records and messages have (`Measures`, `Spellings`);
//! definitions and proofs alone.
//!
//! - `every_run`, of every list of steps that only a full net may refuse (`CanFollow`): its event
//!   lines are the steps, its entered lines the book of the group, the group meets the facts of
//!   the machine, each answered update stands in its view's list and, within the start, in that of
//!   each view formed above it, and the lines with any right last line are a right trace
//!   (`right`). Each first part of the lines is right so far (`first_parts`): of its last step
//!   alone the answers, or the end of a listing, may be missing.
//! - `never_cut`: a tick, an ask, a listing, and the delivery of an Event, a Beat, an Ack, a
//!   Formed or a Fetch make no call that changes the disk, so no stop cuts them (`calls`).
//! - `one_mark`: a step writes the mark at most once, as its last call that changes the disk
//!   (`last`); so one that is cut has written no mark (`cut`).
//! - `every_disk_run`, of every such list of steps from three servers on new disks: its lines are
//!   a right trace, and its scene is that of the run without disks. At each data server each cell,
//!   but those of a saved log, holds the very value that it has after some number of the book's
//!   updates, from the LB of the mark up to a number `far`; and so would any crash now leave it.
//!   `far` is within the log where the server holds one, and within CP where it is settled. Where
//!   it holds a log, the records after the base up to top, made of the disk's cells, give each
//!   such cell exactly as after so many updates, and stand for their book; so do those up to CP
//!   where it is settled. No object has a block of number 524,288 or above at any moment since the
//!   last sync. Every base is on both disks. Of the group that the steps leave: each log stands for
//!   its view's list, each answered update stands in every later view, who reads under a promise
//!   has the whole book and opened the last view, numbers keep their limits, and clocks are near
//!   each other.
//! - `stops_count_calls`: the calls that a stop counts are, kind by kind, those that a step makes
//!   of its disk (`counted`). What a crash by a pick leaves is what a crash may leave, cell by
//!   cell (`parts`); one that keeps nothing leaves what was synced, and one that keeps all, where
//!   the objects have so few blocks, what the disk reads as (`keep`).
//! - `stores_stay_between`: the disks stay so over every list of happenings, whatever part of the
//!   unsynced changes each crash leaves (`first`, `kept`, `fuzzy`).
//! - `servers_read_exactly`: where a data server holds a log, its records over its disk give the
//!   cells exactly for each number of updates from how far the disk may be up to top (`exact`).
#![tactic(auto)]

ghost use Rattle.std.specs.Prelude.{List};
ghost use Rattle.trace_types.specs.declared.step.Step.{Step};
ghost use Rattle.group_trace.specs.Run.{CanFollow};
ghost use Rattle.group_trace.specs.Scene.{Measures, first_scene};
ghost use Rattle.trace_laws.specs.FirstParts.{FirstPartsAreRight};
ghost use Rattle.trace_laws.specs.Laws.{RunIsRight};
ghost use Rattle.trace_laws.specs.Stops.{CutWritesNoMark, MakesNoCall, MarksOnce};

mod disk_laws;

pub use disk_laws::{every_disk_run, servers_read_exactly, stops_count_calls, stores_stay_between};

/// Every run from the first group, whatever the bytes of records and messages, and however many
/// were sent: its event lines are its steps, its entered lines the book of the group that it
/// leaves, and its lines are a right trace. Each first part of its lines is right so far.
pub fn every_run()
    ensures right { (m : Measures) (ss : List Step) → CanFollow m first_scene ss → RunIsRight m ss }
    ensures first_parts { (m : Measures) (ss : List Step) → CanFollow m first_scene ss
        → FirstPartsAreRight m ss }
{}

/// Steps that no stop cuts: a tick, an ask, a listing, and the delivery of an Event, a Beat, an
/// Ack, a Formed or a Fetch.
pub fn never_cut()
    ensures calls { MakesNoCall }
{}

/// A step writes the mark at most once, as its last call that changes the disk; so one that is cut
/// has written no mark.
pub fn one_mark()
    ensures last { MarksOnce }
    ensures cut { CutWritesNoMark }
{}
