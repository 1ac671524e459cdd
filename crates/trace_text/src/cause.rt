//! Causes of refusals that are read.

ghost use Rattle.std.specs.Prelude.{◌≡◌, ◌≤◌, length, IfOk};
ghost use Rattle.schedule_text.specs.Fields.{Gives, spaced_at};
ghost use Rattle.trace_text.specs.declared.cause_form.CauseForm.TheVariants as causes;
ghost use Rattle.trace_text.specs.Replies.{hint_at, cause_fields_at, cause_at};

use crate::cause_form::{CauseForm, form_at};
use harp_types::ServerId;
use schedule_text::{TextFault, peek, server_at, space_at};
use trace_types::Cause;

/// A dash for none, or the server that leads.
#[tactic(auto, unfolding(crate::specs::Replies::hint_at))]
fn hint_at(line: &[u8], at: usize) -> Result<(Option<ServerId>, usize), TextFault>
    ensures { Gives (λ x. x) result (hint_at line.now at) }
{
    if peek(line, at) == b'-' {
        return Ok((None, at + 1));
    }
    let (server, at) = server_at(line, at)?;
    Ok((Some(server), at))
}

#[tactic(auto, unfolding(crate::specs::Replies::cause_fields_at))]
fn not_leader_at(line: &[u8], at: usize) -> Result<(Cause, usize), TextFault>
    ensures { Gives (λ x. x) result (cause_fields_at causes.NotLeader line.now at) }
{
    let at = space_at(line, at)?;
    let (hint, at) = hint_at(line, at)?;
    Ok((Cause::NotLeader { hint }, at))
}

#[tactic(auto, unfolding(crate::specs::Replies::cause_fields_at))]
fn fields_at(form: CauseForm, line: &[u8], at: usize) -> Result<(Cause, usize), TextFault>
    ensures { Gives (λ x. x) result (cause_fields_at form line.now at) }
{
    match form {
        CauseForm::BadClient => Ok((Cause::BadClient, at)),
        CauseForm::NotLeader => not_leader_at(line, at),
        CauseForm::NotYetOpen => Ok((Cause::NotYetOpen, at)),
        CauseForm::NoPromise => Ok((Cause::NoPromise, at)),
        CauseForm::LogFull => Ok((Cause::LogFull, at)),
        CauseForm::Old => Ok((Cause::Old, at)),
    }
}

/// A cause behind a space.
#[tactic(auto, unfolding(crate::specs::Replies::cause_at))]
pub fn spaced_cause_at(line: &[u8], at: usize) -> Result<(Cause, usize), TextFault>
    ensures { Gives (λ x. x) result (spaced_at cause_at line.now at) }
{
    let at = space_at(line, at)?;
    let (form, at) = form_at(line, at)?;
    fields_at(form, line, at)
}
