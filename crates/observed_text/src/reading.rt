//! Steps of observed schedules that are read.

ghost use Rattle.std.specs.Prelude.{◌≡◌, ◌+◌, ◌≤◌, length, Ok, Some, None};
ghost use Rattle.schedule_text.specs.Fields.{Gives};
ghost use Rattle.trace_types.specs.declared.step.Step.{Step};
ghost use Rattle.schedule_text.specs.Grammar.{IsBlank};
ghost use Rattle.schedule_text.specs.Reading.{is_blank, meaning_of};
ghost use Rattle.observed_text.specs.declared.step.ObservedStep.{ObservedStep};
ghost use Rattle.observed_text.specs.declared.step.ObservedStep.TheVariants as observed;
ghost use Rattle.observed_text.specs.Grammar.{ExplainsObserved, IsObservedLine};
ghost use Rattle.observed_text.specs.Reading.{acted_at, observed_at, observed_meaning, played_at};

use crate::act::act_at;
use crate::form::{ActForm, act_named, far_along_names, is_form_name};
use crate::step::ObservedStep;
use schedule_text::{TextFault, end_at, peek, step_at, word_at};
use std::alloc::Global;

/// An act behind its name, and the end.
fn acted_at(alloc: Global, form: ActForm, line: &[u8], at: usize) -> Result<ObservedStep, TextFault>
    requires { at ≤ length line.now }
    ensures { Gives (λ x. x) result (acted_at form line.now at) }
{
    let (act, next) = act_at(alloc, form, line, at)?;
    end_at(line, next)?;
    Ok(ObservedStep::Acted { act })
}

/// A step of a schedule, where one has this name.
fn played_at(alloc: Global, line: &[u8], at: usize) -> Result<ObservedStep, TextFault>
    requires { at ≤ length line.now }
    ensures { Gives (λ x. x) result (played_at line.now at) }
{
    let word = word_at(line, at);
    if !is_form_name(word) {
        return Err(TextFault::Grammar(at + far_along_names(word)));
    }
    let step = step_at(alloc, line, at)?;
    Ok(ObservedStep::Played { step })
}

/// A step from a place on, and the end.
#[tactic(auto, unfolding(crate::specs::Reading::observed_at))]
fn observed_at(alloc: Global, line: &[u8], at: usize) -> Result<ObservedStep, TextFault>
    requires { at ≤ length line.now }
    ensures { Gives (λ x. x) result (observed_at line.now at) }
{
    let word = word_at(line, at);
    match act_named(word) {
        None => played_at(alloc, line, at),
        Some(form) => acted_at(alloc, form, line, at + word.len()),
    }
}

fn is_blank(line: &[u8]) -> bool
    ensures { result ≡ is_blank line.now }
{
    line.is_empty() || peek(line, 0) == b'#'
}

/// What a line means, but for what memory refuses.
#[tactic(auto, unfolding(crate::specs::Reading::observed_meaning))]
fn observed_meaning(alloc: Global, line: &[u8]) -> Result<Option<ObservedStep>, TextFault>
    ensures { Gives (λ x. x) result (observed_meaning line.now) }
{
    if is_blank(line) {
        return Ok(None);
    }
    let step = observed_at(alloc, line, 0)?;
    Ok(Some(step))
}

/// The step of a line of an observed schedule, without its line end. None is an empty line or a
/// comment.
///
/// Every other line that is no step is Grammar, with the first place at which no step goes on.
pub fn read_observed(alloc: Global, line: &[u8]) -> Result<Option<ObservedStep>, TextFault>
    // A line means one thing, and that is answered unless memory runs out.
    ensures exact { Gives (λ x. x) result (observed_meaning line.now) }
    // What a meaning says of the line.
    ensures grammar { ExplainsObserved line.now (observed_meaning line.now) }

    // What the line is says what is answered.
    ensures only_step { (s : ObservedStep) → IsObservedLine line.now s
        → Gives (λ x. x) result (Ok (Some s)) }
    ensures only_blank { IsBlank line.now → Gives (λ x. x) result (Ok None) }

    // A line of a schedule means the same step here.
    ensures played { (s : Step) → meaning_of line.now ≡ Ok (Some s)
        → Gives (λ x. x) result (Ok (Some (observed.Played s))) }
{
    observed_meaning(alloc, line)
}
