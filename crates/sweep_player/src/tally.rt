//! Counting the lines of a run.

ghost use Rattle.std.specs.Prelude.{◌≡◌, ◌+◌, ◌++◌, ◌∷◌, [], IfOk, OnOk};
ghost use Rattle.trace_claims.specs.Trace.{Trace};
ghost use Rattle.sweep_player.specs.Counts.{is_answered, is_entered, is_refused, one_if};
ghost use Rattle.sweep_player.specs.Tally.{IsTallyOf, opens, open_after};

use harp_types::{Mode, ServerId, Trio};
use std::alloc::{AllocError, Global};
use sweep::Summary;
use trace_types::Line;

/// What the lines so far came to.
#[derive(Clone, Copy, PartialEq, Eq)]
pub struct Tally {
    summary: Summary,
    /// Whether the last line of each server told that it is open.
    stands_open: Trio<bool>,
}

/// Whether a line tells that a call enters history.
fn is_entered(line: &Line) -> bool
    ensures { result ≡ is_entered line.now }
{
    matches!(line, Line::Entered { .. })
}

/// Whether a line tells that a client is answered.
fn is_answered(line: &Line) -> bool
    ensures { result ≡ is_answered line.now }
{
    matches!(line, Line::Answered { .. })
}

/// Whether a line tells that a client is refused.
fn is_refused(line: &Line) -> bool
    ensures { result ≡ is_refused line.now }
{
    matches!(line, Line::Refused { .. })
}

/// One more, where there is one. There is no room for 2^64.
fn with_one_if(count: u64, is_one: bool) -> Result<u64, AllocError>
    ensures { IfOk result (λ more. more ≡ count + one_if is_one) }
{
    match count.checked_add(u64::from(is_one)) {
        Some(more) => Ok(more),
        None => Err(AllocError),
    }
}

impl Tally {
    /// No line.
    pub fn new() -> Tally
        ensures { IsTallyOf [] result }
    {
        Tally {
            summary: Summary {
                entered: 0,
                answered: 0,
                refused: 0,
                opened: 0,
            },
            stands_open: Trio {
                zero: false,
                one: false,
                two: false,
            },
        }
    }

    /// Whether a line tells that a server is open that wasn't by its last line.
    fn opens(&self, line: &Line) -> bool
        ensures { result ≡ opens self.now line.now }
    {
        match line {
            Line::State { server, state } => {
                state.mode == Mode::Open && !*self.stands_open.get(*server)
            }
            _ => false,
        }
    }

    /// Keeps what a line tells of its server.
    fn keep(&mut self, line: &Line)
        ensures { self.new ≡ record self.old { stands_open = open_after self.old.stands_open line.now } }
    {
        match line {
            Line::State { server, state } => {
                *self.stands_open.get_mut(*server) = state.mode == Mode::Open;
            }
            Line::Down { server } => *self.stands_open.get_mut(*server) = false,
            _ => {}
        }
    }

    /// Counts one more line.
    pub fn count(&mut self, line: &Line) -> Result<(), AllocError>
        ensures { OnOk result ((trace : Trace) → IsTallyOf trace self.old
            → IsTallyOf (trace ++ line.now ∷ []) self.new) }
    {
        let opens = self.opens(line);
        self.summary.entered = with_one_if(self.summary.entered, is_entered(line))?;
        self.summary.answered = with_one_if(self.summary.answered, is_answered(line))?;
        self.summary.refused = with_one_if(self.summary.refused, is_refused(line))?;
        self.summary.opened = with_one_if(self.summary.opened, opens)?;
        self.keep(line);
        Ok(())
    }

    /// Counts these lines too.
    pub fn count_all(&mut self, lines: &[Line]) -> Result<(), AllocError>
        ensures { OnOk result ((trace : Trace) → IsTallyOf trace self.old
            → IsTallyOf (trace ++ lines.now) self.new) }
    {
        for line in lines {
            self.count(line)?;
        }
        Ok(())
    }

    /// The counts.
    pub fn summary(&self) -> Summary
        ensures { result ≡ self.now.summary }
    {
        self.summary
    }
}
