//! Judging a text, line by line.

ghost use Rattle.std.specs.Prelude.{◌≡◌, ◌≢◌, ℕ, ◌+◌, ◌<◌, ◌≤◌, ◌^◌, ◌↔◌, List, [], ◌∷◌, length, Err, IfOk, IsTrue, Ok, None, Some};
ghost use Rattle.harp_types.specs.Limits.{longest_line};
ghost use Rattle.harp_types.specs.Streams.{Rose};
ghost use Rattle.line_reader.specs.Lines.{lines_of};
ghost use Rattle.line_reader.specs.Reading.{text_left};
ghost use Rattle.trace_text.specs.Grammar.{IsTraceLine};
ghost use Rattle.trace_types.specs.declared.line.Line.{Line as TraceLine};
ghost use Rattle.trace_claims.specs.Trace.{Trace};
ghost use Rattle.trace_verdict.specs.Judging.{AfterLine, AfterToldTurn, AfterTurn, Decides, Denies, HasTaken, IsOnTheWay};
ghost use Rattle.trace_verdict.specs.Places.{CanFollow};
ghost use Rattle.trace_verdict.specs.declared.verdict.Verdict.{Verdict as Found};
ghost use Rattle.trace_verdict.specs.Verdicts.{IsRightText, IsVerdictOn};

use crate::verdict::{Unread, Verdict};
use harp_types::Source;
use line_reader::{LineReader, Next, ReadFault};
use schedule_text::TextFault;
use std::alloc::{AllocError, Global};
use trace_check::{Checker, begins_step, is_last};
use trace_text::read_line;
use trace_types::Line;

/// The most lines of a trace.
const LINES: u64 = 1 << 40;

/// What the lines of a text so far say of the next one.
#[derive(Drop)]
pub(crate) struct Judge {
    checker: Checker,
    /// How many lines were taken.
    lines: u64,
    /// Whether the last of them may be last alone.
    ended: bool,
}

impl Judge {
    fn new(alloc: Global) -> Result<Judge, AllocError>
        ensures { IfOk result (λ judge. HasTaken judge [] []) }
    {
        let checker = Checker::new(alloc)?;
        Ok(Judge {
            checker,
            lines: 0,
            ended: false,
        })
    }

    /// Whether the line may come next.
    fn can_follow(&self, line: &Line) -> bool
        ensures { (taken : List (List ℕ)) (before : Trace) → HasTaken self.now taken before
            → IsTrue result ↔ CanFollow before line.now }
    {
        if self.ended {
            return false;
        }
        if self.lines == 0 && !begins_step(line) && !is_last(line) {
            return false;
        }
        match line {
            Line::End { entered } => *entered == self.checker.entered(),
            _ => true,
        }
    }

    /// Judges a line of a trace.
    fn judge_line(&mut self, alloc: Global, line: &Line) -> Result<Option<Verdict>, AllocError>
        requires { self.old.lines < 2 ^ 40 }
        ensures after { (taken : List (List ℕ)) (before : Trace) (text : List ℕ)
            → HasTaken self.old taken before → IsTraceLine text line.now → length text ≤ longest_line
            → ((m : TraceLine) → IsTraceLine text m → m ≡ line.now)
            → IfOk result (AfterLine self.new taken before text) }
        ensures lines { result ≡ Ok None → self.new.lines ≡ self.old.lines + 1 }
    {
        let number = self.lines + 1;
        if !self.can_follow(line) {
            return Ok(Some(Verdict::Bad(number, Unread::Grammar)));
        }
        match self.checker.line(alloc, line)? {
            Some(breach) => Ok(Some(Verdict::No(number, breach))),
            None => {
                self.lines = number;
                self.ended = is_last(line);
                Ok(None)
            }
        }
    }

    /// Judges the next line of a text.
    fn take(&mut self, alloc: Global, text: &[u8]) -> Result<Option<Verdict>, AllocError>
        requires few { self.old.lines < 2 ^ 40 }
        requires short { length text.now ≤ longest_line }
        ensures after { (taken : List (List ℕ)) (before : Trace) → HasTaken self.old taken before
            → IfOk result (AfterLine self.new taken before text.now) }
        ensures lines { result ≡ Ok None → self.new.lines ≡ self.old.lines + 1 }
    {
        match read_line(alloc, text) {
            Ok(line) => self.judge_line(alloc, &line),
            Err(TextFault::NoMemory) => Err(AllocError),
            Err(TextFault::Grammar(_)) => Ok(Some(self.unread())),
        }
    }

    /// The next line is none of a trace.
    fn unread(&self) -> Verdict
        requires { self.now.lines < 2 ^ 40 }
        ensures { result ≡ Verdict.Bad (self.now.lines + 1) Unread.Grammar }
    {
        Verdict::Bad(self.lines + 1, Unread::Grammar)
    }

    /// Judges the next line of a text, of which further lines are left.
    fn take_line(&mut self, alloc: Global, line: &[u8]) -> Result<Option<Verdict>, AllocError>
        requires few { self.old.lines ≤ 2 ^ 40 }
        requires short { length line.now ≤ longest_line }
        ensures after { (text left after : List ℕ) → IsOnTheWay text left self.old
            → lines_of left ≡ line.now ∷ lines_of after
            → IfOk result (AfterTurn text after self.new) }
        ensures lines { result ≡ Ok None → (self.old.lines < 2 ^ 40)
            × (self.new.lines ≡ self.old.lines + 1) }
    {
        if self.lines >= LINES {
            return Ok(Some(Verdict::Bad(self.lines + 1, Unread::TooMany)));
        }
        self.take(alloc, line)
    }

    /// The verdict on a text whose next line is too long.
    fn too_long(&self) -> Verdict
        requires { self.now.lines ≤ 2 ^ 40 }
        ensures { (text left line : List ℕ) (lines : List (List ℕ)) → IsOnTheWay text left self.now
            → lines_of left ≡ line ∷ lines → longest_line < length line
            → Denies text result }
    {
        if self.lines >= LINES {
            return Verdict::Bad(self.lines + 1, Unread::TooMany);
        }
        Verdict::Bad(self.lines + 1, Unread::TooLong)
    }

    /// The verdict on a text that has no more lines.
    fn at_end(&self) -> Verdict
        requires { self.now.lines ≤ 2 ^ 40 }
        ensures { (text : List ℕ) → IsOnTheWay text [] self.now → Decides text result }
    {
        if self.ended {
            return Verdict::Yes;
        }
        Verdict::Bad(self.lines + 1, Unread::Unfinished)
    }

    /// Reads the next line of a source and judges it.
    fn turn<S: Source>(
        &mut self,
        alloc: Global,
        reader: &mut LineReader,
        source: &mut S,
    ) -> Result<Option<Verdict>, ReadFault>
        requires { self.old.lines ≤ 2 ^ 40 }
        ensures after { (text left : List ℕ)
            → text_left reader.old (S.left source.old) ≡ Some left
            → IsOnTheWay text left self.old
            → IfOk result (AfterToldTurn text (text_left reader.new (S.left source.new))
            self.new) }
        ensures lines { result ≡ Ok None → (self.old.lines < 2 ^ 40)
            × (self.new.lines ≡ self.old.lines + 1) }
        ensures rose { result ≡ Err ReadFault.Failed
            → Rose (S.faults source.old) (S.faults source.new) }
        ensures count { S.faults source.old ≤ S.faults source.new }
    {
        match reader.next(alloc, source) {
            Ok(Next::End) => Ok(Some(self.at_end())),
            Ok(Next::TooLong) => Ok(Some(self.too_long())),
            Ok(Next::Line(line)) => {
                let verdict = self.take_line(alloc, line.as_slice());
                reader.take_back(line);
                match verdict {
                    Ok(verdict) => Ok(verdict),
                    Err(_) => Err(ReadFault::NoMemory),
                }
            }
            Err(fault) => Err(fault),
        }
    }
}

/// The verdict on the text of a source. It reads one line at a time, and no more behind the line
/// that decides; a text is right only where the source was read to its end.
pub fn judge_text<S: Source>(alloc: Global, source: &mut S) -> Result<Verdict, ReadFault>
    ensures verdict { (text : List ℕ) → S.left source.old ≡ Some text
        → IfOk result (IsVerdictOn text) }
    // No other verdict on this text can be given.
    ensures only { (text : List ℕ) → S.left source.old ≡ Some text
        → IfOk result (λ v. (w : Found) → IsVerdictOn text w → w ≡ v) }
    ensures yes { (text : List ℕ) → S.left source.old ≡ Some text
        → IfOk result (λ v. v ≡ Verdict.Yes ↔ IsRightText text) }
    ensures read { (text : List ℕ) → S.left source.old ≡ Some text
        → result ≡ Ok Verdict.Yes → S.left source.new ≡ Some [] }
    ensures rose { result ≡ Err ReadFault.Failed
        → Rose (S.faults source.old) (S.faults source.new) }
    ensures count { S.faults source.old ≤ S.faults source.new }
{
    let mut reader = match LineReader::new(alloc) {
        Ok(reader) => reader,
        Err(_) => return Err(ReadFault::NoMemory),
    };
    let mut judge = match Judge::new(alloc) {
        Ok(judge) => judge,
        Err(_) => return Err(ReadFault::NoMemory),
    };
    loop {
        match judge.turn(alloc, &mut reader, source) {
            Ok(None) => {}
            Ok(Some(verdict)) => return Ok(verdict),
            Err(fault) => return Err(fault),
        }
    }
}
