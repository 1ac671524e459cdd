//! Steps that are read.

ghost use Rattle.std.specs.Prelude.{◌≡◌, ◌+◌, ◌≤◌, length, Ok, Some, None};
ghost use Rattle.trace_types.specs.declared.step.Step.{Step};
ghost use Rattle.schedule_text.specs.Fields.{Gives};
ghost use Rattle.schedule_text.specs.Reading.{step_at, is_blank, meaning_of};
ghost use Rattle.schedule_text.specs.Grammar.{Explains, IsStepLine, IsBlank};

use crate::fault::TextFault;
use crate::field::end_at;
use crate::form::{far_along_forms, form_named};
use crate::number::{peek, word_at};
use crate::step::form_at;
use std::alloc::Global;
use trace_types::Step;

/// A step from a place on, and the end. It goes into its callers, since a step is large, and each
/// call of a function that gives it moves it.
#[tactic(auto, unfolding(crate::specs::Reading::step_at))]
#[inline(always)]
pub fn step_at(alloc: Global, line: &[u8], at: usize) -> Result<Step, TextFault>
    requires { at ≤ length line.now }
    ensures { Gives (λ x. x) result (step_at line.now at) }
{
    let word = word_at(line, at);
    let Some(form) = form_named(word) else {
        return Err(TextFault::Grammar(at + far_along_forms(word)));
    };
    let (step, next) = form_at(alloc, form, line, at + word.len())?;
    end_at(line, next)?;
    Ok(step)
}

fn is_blank(line: &[u8]) -> bool
    ensures { result ≡ is_blank line.now }
{
    line.is_empty() || peek(line, 0) == b'#'
}

/// What a line means, but for what memory refuses. It goes into its caller, as `step_at`.
#[tactic(auto, unfolding(crate::specs::Reading::meaning_of))]
#[inline(always)]
fn meaning_of(alloc: Global, line: &[u8]) -> Result<Option<Step>, TextFault>
    ensures { Gives (λ x. x) result (meaning_of line.now) }
{
    if is_blank(line) {
        return Ok(None);
    }
    let step = step_at(alloc, line, 0)?;
    Ok(Some(step))
}

/// The step of a line of a schedule, without its line end. None is an empty line or a comment.
///
/// Every other line that is no step is Grammar, with the first place at which no step goes on. It
/// goes into its callers, as `step_at`.
#[inline(always)]
pub fn read_step(alloc: Global, line: &[u8]) -> Result<Option<Step>, TextFault>
    // A line means one thing, and that is answered unless memory runs out.
    ensures exact { Gives (λ x. x) result (meaning_of line.now) }
    // What a meaning says of the line.
    ensures grammar { Explains line.now (meaning_of line.now) }

    // What the line is says what is answered.
    ensures only_step { (s : Step) → IsStepLine line.now s → Gives (λ x. x) result (Ok (Some s)) }
    ensures only_blank { IsBlank line.now → Gives (λ x. x) result (Ok None) }
{
    meaning_of(alloc, line)
}
