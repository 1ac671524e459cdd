//! Players that count steps.

ghost use Rattle.std.specs.Prelude.{◌≡◌, ◌≤◌, IfOk};
ghost use Rattle.outside_rows.specs.Players.{one_if, count_of};

use std::alloc::{AllocError, Global};
use sweep::{Player, Schedule, Summary};
use trace_types::Step;

/// The steps of a schedule as a list.
fn list_of(alloc: Global, mut steps: Schedule) -> Result<Vec<Step>, AllocError>
    ensures { IfOk result (λ list. list.items ≡ steps) }
{
    let mut list = Vec::new(alloc);
    while let Some(step) = steps.next(alloc)? {
        list.push(step)?;
    }
    Ok(list)
}

/// Counts all steps, as entered.
pub(crate) struct Steps;

impl Player for Steps {
    ghost use Rattle.std.specs.Prelude.{length};

    ghost summary_of = { λ player steps. record
        { entered = length steps; answered = 0; refused = 0; opened = 0 } };

    fn play(&self, alloc: Global, steps: Schedule) -> Result<Summary, AllocError> {
        let steps = list_of(alloc, steps)?;
        Ok(Summary {
            entered: steps.len() as u64,
            answered: 0,
            refused: 0,
            opened: 0,
        })
    }
}

/// The kinds of steps that are counted.
#[derive(Clone, Copy, PartialEq, Eq)]
pub(crate) enum Kind {
    Ask,
    Pump,
    Boot,
    /// The power fails, or a server crashes.
    Failure,
}

impl Kind {
    /// 1 for a step of this kind, and 0 for another one.
    #[tactic(auto, unfolding(crate::specs::Players::one_if))]
    fn one_if(self, step: &Step) -> u64
        ensures value { result ≡ one_if self step.now }
        ensures within { result ≤ 1 }
    {
        match self {
            Kind::Ask => u64::from(matches!(step, Step::Ask { .. })),
            Kind::Pump => u64::from(matches!(step, Step::Pump { .. })),
            Kind::Boot => u64::from(matches!(step, Step::Boot { .. })),
            Kind::Failure => u64::from(matches!(step, Step::Power { .. } | Step::Crash { .. })),
        }
    }

    /// How many of the steps are of this kind.
    fn count(self, steps: &[Step]) -> u64
        ensures { result ≡ count_of self steps.now }
    {
        let mut count = 0;
        for step in steps {
            count += self.one_if(step);
        }
        count
    }
}

/// Counts asks as entered, pumps as answered, boots as refused, and failures as opened.
pub(crate) struct Kinds;

impl Player for Kinds {
    ghost use Rattle.outside_rows.specs.Players.{kinds};

    ghost summary_of = { λ player steps. kinds steps };

    fn play(&self, alloc: Global, steps: Schedule) -> Result<Summary, AllocError> {
        let steps = list_of(alloc, steps)?;
        let steps = steps.as_slice();
        Ok(Summary {
            entered: Kind::Ask.count(steps),
            answered: Kind::Pump.count(steps),
            refused: Kind::Boot.count(steps),
            opened: Kind::Failure.count(steps),
        })
    }
}
