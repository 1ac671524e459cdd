//! A run of the group from three servers on new disks, step by step, and the lines that it writes;
//! and the same with the disks of its servers. All are definitions: no code stands here.
//!
//! # What is proved
//!
//! A run of the group from three servers that booted on new disks, as definitions: who steps and
//! how, which calls change a disk and what a stop cuts, why a step is refused, the lines of a
//! step, and the deliveries of a pump. `worked_rows`: twenty-four worked rows. Twenty-two are rows
//! of the run, each with all its lines: an update, an opening at its moment, refusals of an ask, a
//! repeat, an update acknowledged three times, one taken over, a late acknowledgement, an
//! abandoned formation, the witness, a power failure, one that is cut off, one that stops in its
//! save, stops at a join, before a flush's mark and behind it, a fuzzy disk, a base that moves, no
//! view without a log, promises at the greatest distance of clocks, a promise that runs out,
//! longer and shorter promises. Two are rows of the rules, for any records: boots from an old mark
//! (`old_mark`), and an ask at a full log (`full_log`).
//!
//! With disks (`DiskRun`): the calls that each step makes of its server's, and what a stop and a
//! crash leave of them. `worked_disk_rows`: a stop cuts an apply after three of its changes, and
//! the pick keeps two of these (`cut_apply`); a power failure is cut after the first Put of its
//! save, beside what a flush had synced (`cut_save`).
#![tactic(auto)]

ghost use Rattle.file_tree.specs.Book.{Entry};
ghost use Rattle.group_rules.specs.State.{Server};
ghost use Rattle.group_trace.specs.RowOfAnUpdate.{OneUpdate};
ghost use Rattle.group_trace.specs.RowsOfOpening.{OpeningAtItsMoment};
ghost use Rattle.group_trace.specs.RowsOfAsks.{FullLog, RefusalsOfAnAsk, Repeat, AcknowledgedThreeTimes, UpdateTakenOver};
ghost use Rattle.group_trace.specs.RowsOfViews.{LateAcknowledgement, AbandonedFormation};
ghost use Rattle.group_trace.specs.RowOfTheWitness.{Witness};
ghost use Rattle.group_trace.specs.RowsOfPowerFailures.{PowerFailure, PowerFailureCutOff, StopInASave};
ghost use Rattle.group_trace.specs.RowsOfStops.{StopAtAJoin, StopBeforeTheMark, StopAfterTheMark};
ghost use Rattle.group_trace.specs.RowsOfDisks.{FuzzyDisk, BaseMoves, NoView};
ghost use Rattle.group_trace.specs.RowsOfPromises.{OldMark, PromisesAtTheSkew, PromiseRunsOut, LongerPromises, ShorterPromises};
ghost use Rattle.group_trace.specs.DiskRows.{CutApply, CutSave};

/// Worked rows, line by line.
pub fn worked_rows()
    ensures one_update { OneUpdate }
    ensures opening_at_its_moment { OpeningAtItsMoment }
    ensures refusals_of_an_ask { RefusalsOfAnAsk }
    ensures repeat { Repeat }
    ensures acknowledged_three_times { AcknowledgedThreeTimes }
    ensures update_taken_over { UpdateTakenOver }
    ensures late_acknowledgement { LateAcknowledgement }
    ensures abandoned_formation { AbandonedFormation }
    ensures witness { Witness }
    ensures power_failure { PowerFailure }
    ensures power_failure_cut_off { PowerFailureCutOff }
    ensures stop_in_a_save { StopInASave }
    ensures stop_at_a_join { StopAtAJoin }
    ensures stop_before_the_mark { StopBeforeTheMark }
    ensures stop_after_the_mark { StopAfterTheMark }
    ensures fuzzy_disk { FuzzyDisk }
    ensures base_moves { BaseMoves }
    ensures no_view { NoView }
    ensures promises_at_the_skew { PromisesAtTheSkew }
    ensures promise_runs_out { PromiseRunsOut }
    ensures longer_promises { LongerPromises }
    ensures shorter_promises { ShorterPromises }
    ensures old_mark { (a b : Entry) → OldMark a b }
    ensures full_log { (s : Server Entry) (e : Entry) → FullLog s e }
{}

/// Worked rows: a stop cuts an apply, and its pick keeps the first and the third of three changes;
/// and a power failure is cut after the first Put of its save, which its pick keeps.
pub fn worked_disk_rows()
    ensures cut_apply { CutApply }
    ensures cut_save { CutSave }
{}
