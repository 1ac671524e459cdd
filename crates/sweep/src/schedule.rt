//! The schedule of a seed.

ghost use Rattle.std.specs.Prelude.{◌≡◌, ◌+◌, ◌-◌, ◌^◌, ◌++◌, List, drop, IfOk, OnErr};
ghost use Rattle.sweep.specs.Lines.{AreUpTo, IsNext, drawn_lines, generated, opening};
ghost use Rattle.trace_types.specs.declared.step.Step.{Step};

use crate::generator::Generator;
use harp_types::ServerId;
use std::alloc::{AllocError, Global};
use std::marker::Model;
use trace_types::Step;

/// What is left of the schedule of a seed. Each step is made when it is asked for, and no list of
/// them is kept.
#[derive(Drop)]
pub struct Schedule {
    /// How many of the steps that open a view were given.
    opened: u64,
    /// How many lines are still to be drawn.
    lines: u32,
    generator: Generator,
}

/// The steps that are left. A client's number rises by at most one with each line, so that it stays
/// far below its bound.
impl Model for Schedule {
    ghost Value = { List Step };

    ghost view = { λ s. drop s.opened opening ++ drawn_lines s.lines s.generator };

    ghost invariant = { λ s. AreUpTo (2 ^ 32 - s.lines) s.generator };
}

/// The step behind so many of those by which server 0 comes to lead a view.
#[tactic(auto, unfolding(crate::specs::Lines::opening))]
fn opening_step(given: u64) -> Option<Step>
    ensures { IsNext result (drop given opening) (drop (given + 1) opening) }
{
    let server = ServerId::Zero;
    match given {
        0 => Some(Step::Suspect { server }),
        1 => Some(Step::Pump { among: None }),
        2 => Some(Step::Advance { millis: 2050 }),
        3 => Some(Step::Tick { server }),
        4 => Some(Step::Pump { among: None }),
        _ => None,
    }
}

impl Schedule {
    /// The schedule of a seed: five steps that open a view, and then so many lines that are drawn.
    #[tactic(auto, unfolding(crate::specs::Lines::generated))]
    pub fn of(seed: u64, lines: u32) -> Schedule
        ensures { result ≡ generated seed lines }
    {
        Schedule {
            opened: 0,
            lines,
            generator: Generator::of(seed),
        }
    }

    /// The next of the steps, or none where none is left. Where there is no memory for it, it is
    /// left.
    pub fn next(&mut self, alloc: Global) -> Result<Option<Step>, AllocError>
        ensures next { IfOk result (λ given. IsNext given self.old self.new) }
        ensures kept { OnErr result (self.new ≡ self.old) }
    {
        if let Some(step) = opening_step(self.opened) {
            self.opened += 1;
            return Ok(Some(step));
        }
        if self.lines == 0 {
            return Ok(None);
        }
        let mut generator = self.generator;
        let step = generator.next_line(alloc)?;
        self.generator = generator;
        self.lines -= 1;
        Ok(Some(step))
    }
}
