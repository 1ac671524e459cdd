//! The safety of the group: what every list of happenings keeps, from each group that meets the
//! facts.
//!
//! # What is proved
//!
//! Laws over every list of happenings, from every group that meets the facts; definitions and
//! proofs alone.
//!
//! - `facts_hold`: the first group meets the facts (`first`), and every happening keeps them
//!   (`kept`); marks that know of no promise above 2000 may be old ones (`old_marks`).
//! - `named_facts`: the facts of the induction by their names. Among them, of joins: those of a
//!   server with a log to views above its accepted one report that view, the base, the CP and the
//!   top of the log, and an LB that it has reached; so until it accepts a view, is demoted or loses
//!   the log, also after a power failure and a boot.
//! - `every_later_view`: an answered update stands in the list of each later view, and in each log
//!   of it (`answered`); so does what a held server has as committed (`committed`).
//! - `exclusive_reading`: who reads under an unexpired promise has the whole book as committed, and
//!   no higher view was opened.
//! - `one_book`: the book is one book of one tree.
//! - `bases_on_both_disks`: every base of a log, a saved log, a page, a held server's join, and of
//!   each Join of one, Form, Event and Beat among the packets is at most the LB in the marks of
//!   servers 0 and 1.
//! - `disks_are_committed`: how many records' changes a data server's disk may ever have had is a
//!   number beside the run, which no server reads; it is none at first (`first`). After every list
//!   of happenings, with steps that are cut among them, it is at least the LB of the mark and the
//!   AP of a log; so many of the book's updates stand, and the accepted view's list begins with
//!   them; it is within the log where the server holds one, and within CP where it is settled
//!   (`committed`).
//! - `logs_stand_for_lists`, `answered_at_once`, `said_rightly`, `history_grows`, `logs_grow`,
//!   `limits`, `no_stale_fields`, `cut_off_steps`: the list of laws in `PROOFS.md`.
#![tactic(auto)]

ghost use Rattle.std.specs.Prelude.{◌≡◌, List, ℕ, Option, Some, true, false};
ghost use Rattle.file_tree.specs.Book.{Entry};
ghost use Rattle.group_rules.specs.Places.{Place};
ghost use Rattle.group_rules.specs.State.{Group, Packet, Server, mark_of};
ghost use Rattle.group_rules.specs.Effects.{down, booted};
ghost use Rattle.group_safety.specs.NamedFacts.{NamedFacts};
ghost use Rattle.group_safety.specs.Disks.{DisksOk, DisksStay, empty_disks};
ghost use Rattle.group_safety.specs.Entered.{Tidy};
ghost use Rattle.group_safety.specs.Laws.{Whole, Always, with_old_marks, EveryLaterView};
ghost use Rattle.group_safety.specs.Laws.{CommittedSurvives, ReadsAlone, OneBook};
ghost use Rattle.group_safety.specs.Laws.{BasesOnBothDisks, StandsFor, Growth, WithinLimits};
ghost use Rattle.group_safety.specs.Laws.{log_length, DeedGrows, DeliveryGrows, AllSaidRightly};
ghost use Rattle.group_safety.specs.Laws.{AnswersAtOnce, TwoOutcomes};
ghost use Rattle.group_rules.specs.Step.{Deed, Crash, Does, Comes, Happening, At, CutAt, Deliver};
ghost use Rattle.group_rules.specs.Step.{CutDeliver, Boot, happens, run, first_group, numbered};
ghost use Rattle.group_rules.specs.Step.{step_of};

/// The first group meets the facts, and each group that meets them keeps them over every list of
/// happenings: whatever is lost, repeated, reordered, cut off, crashed and booted, and whatever
/// length of promises is set. All laws below hold from each such group on. Marks that know of 2000
/// may be old ones.
pub fn facts_hold()
    ensures first { Whole first_group }
    ensures kept { Always Whole }
    ensures old_marks { (g : Group Entry) → Whole g
        → ((q : Place) → (g.server q).longest ≡ Some 2000) → Whole (with_old_marks g) }
{}

/// The facts of the induction by their names.
pub fn named_facts()
    ensures facts { Always NamedFacts }
{}

/// An answered update stands in the list of each later view.
pub fn every_later_view()
    ensures answered { Always EveryLaterView }
    ensures committed { Always CommittedSurvives }
{}

/// A leader that reads under an unexpired promise is the last that opened a view, and knows the
/// whole book.
pub fn exclusive_reading()
    ensures alone { Always ReadsAlone }
{}

/// What a step says is right at that moment: answered updates stand in the book, answered reads
/// are its outcomes, a view is formed once.
pub fn said_rightly()
    ensures deeds { (size : List Entry → Entry → ℕ) (g : Group Entry) → Whole g
        → (q : Place) (d : Deed) → (g.server q).up ≡ true
        → AllSaidRightly g q (g.server q) (step_of size g q (Does d)) }
    ensures deliveries { (size : List Entry → Entry → ℕ) (g : Group Entry) → Whole g
        → (n : ℕ) (p : Packet Entry) → numbered g.packets n ≡ Some p
        → (g.server p.to).up ≡ true → AllSaidRightly g p.to (g.server p.to)
        (step_of size g p.to (Comes p.from p.body)) }
{}

/// An update is answered in the step that completes its acknowledgement.
pub fn answered_at_once()
    ensures answers { (size : List Entry → Entry → ℕ) (g : Group Entry) → Whole g
        → (n : ℕ) (p : Packet Entry) → numbered g.packets n ≡ Some p
        → (v t lb until : ℕ) → AnswersAtOnce size g p v t lb until }
{}

/// The book is one book of one file tree.
pub fn one_book()
    ensures book { Always OneBook }
{}

/// Every base, of a log, a saved log, a page, a held server's join or a message, is on the disks
/// of both data servers.
pub fn bases_on_both_disks()
    ensures bases { Always BasesOnBothDisks }
{}

/// What the disks of the data servers may have had of records' changes is committed in the book,
/// held by the log and within CP where the server is settled, whatever is applied, cut off,
/// crashed and booted.
pub fn disks_are_committed()
    ensures first { DisksOk first_group empty_disks }
    ensures committed { DisksStay }
{}

/// Each log stands for the entries of its view's list.
pub fn logs_stand_for_lists()
    ensures logs { (q : Place) → Always (λ g. StandsFor g q) }
{}

/// The book only grows; formed views keep their plan and origin, and their lists are prolonged.
pub fn history_grows()
    ensures grows { (size : List Entry → Entry → ℕ) (g : Group Entry) → Whole g
        → (happenings : List Happening) → Growth g (run size g happenings) }
{}

/// Counts and indices stay within 62 bits, a log within its room, and promises within their
/// lengths: none is longer than its sender's mark says.
pub fn limits()
    ensures within { Always WithinLimits }
{}

/// The number of a server's records grows only in an ask at it, in the delivery of an Event to
/// it, each by one, and of a Give.
pub fn logs_grow()
    ensures deeds { (size : List Entry → Entry → ℕ) (g : Group Entry) (q : Place) (d : Deed)
        → DeedGrows d (log_length g q) (log_length (happens size g (At q d)) q) }
    ensures deliveries { (size : List Entry → Entry → ℕ) (g : Group Entry) (n : ℕ) (p : Packet Entry)
        → numbered g.packets n ≡ Some p
        → DeliveryGrows p.body (log_length g p.to) (log_length (happens size g (Deliver n)) p.to) }
{}

/// A field that has no meaning in a server's mode, or without a log, has its fixed value.
pub fn no_stale_fields()
    ensures tidy { Always Tidy }
{}

/// A step that is cut at a call that changes the disk has two outcomes: it is whole, or the
/// server crashed. A crash keeps the mark, and a boot begins with it, its clock and the group's
/// delta alone.
pub fn cut_off_steps()
    ensures deeds { (size : List Entry → Entry → ℕ) (g : Group Entry) (q : Place) (d : Deed)
        → TwoOutcomes size g (CutAt q d) (At q d) q }
    ensures deliveries { (size : List Entry → Entry → ℕ) (g : Group Entry) (n : ℕ) (p : Packet Entry)
        → numbered g.packets n ≡ Some p
        → TwoOutcomes size g (CutDeliver n) (Deliver n) p.to }
    ensures crash { (size : List Entry → Entry → ℕ) (g : Group Entry) (q : Place)
        → (g.server q).up ≡ true
        → (happens size g (At q Crash)).server q ≡ down (mark_of (g.server q)) }
    ensures boot { (size : List Entry → Entry → ℕ) (g : Group Entry) (q : Place)
        → (g.server q).up ≡ false
        → (happens size g (Boot q)).server q
        ≡ booted q (g.clock q) g.delta (mark_of (g.server q)) }
{}
