//! Acts that are read, behind their names.

ghost use Rattle.std.specs.Prelude.{◌≡◌, ◌≤◌, ◌<◌, ◌^◌, length};
ghost use Rattle.schedule_text.specs.Fields.{Gives};
ghost use Rattle.observed_text.specs.declared.form.ActForm.TheVariants as forms;
ghost use Rattle.observed_text.specs.Reading.{act_at};

use crate::form::ActForm;
use crate::read::spaced_read_at;
use crate::step::Act;
use schedule_text::{TextFault, ranged_at, space_at, spaced_count_at, spaced_server_at};
use std::alloc::Global;

#[tactic(auto, unfolding(crate::specs::Reading::act_at))]
fn want_at(line: &[u8], at: usize) -> Result<(Act, usize), TextFault>
    ensures { Gives (λ x. x) result (act_at forms.Want line.now at) }
{
    let (server, at) = spaced_server_at(line, at)?;
    Ok((Act::Want { server }, at))
}

#[tactic(auto, unfolding(crate::specs::Reading::act_at))]
fn take_at(line: &[u8], at: usize) -> Result<(Act, usize), TextFault>
    ensures { Gives (λ x. x) result (act_at forms.Take line.now at) }
{
    let (packet, at) = spaced_count_at(line, at)?;
    Ok((Act::Take { packet }, at))
}

#[tactic(auto, unfolding(crate::specs::Reading::act_at))]
fn drain_at(line: &[u8], at: usize) -> Result<(Act, usize), TextFault>
    ensures { Gives (λ x. x) result (act_at forms.Drain line.now at) }
{
    let (server, at) = spaced_server_at(line, at)?;
    let at = space_at(line, at)?;
    let (count, at) = ranged_at(line, 1, 100_000, at)?;
    let count = count as u32;
    Ok((Act::Drain { server, count }, at))
}

#[tactic(auto, unfolding(crate::specs::Reading::act_at))]
fn peek_at(alloc: Global, line: &[u8], at: usize) -> Result<(Act, usize), TextFault>
    requires { at ≤ length line.now }
    ensures { Gives (λ x. x) result (act_at forms.Peek line.now at) }
{
    let (call, at) = spaced_read_at(alloc, line, at)?;
    Ok((Act::Peek { call }, at))
}

/// An act of a form, behind its name.
#[tactic(auto, unfolding(crate::specs::Reading::act_at))]
pub fn act_at(
    alloc: Global,
    form: ActForm,
    line: &[u8],
    at: usize,
) -> Result<(Act, usize), TextFault>
    requires { at ≤ length line.now }
    ensures { Gives (λ x. x) result (act_at form line.now at) }
{
    match form {
        ActForm::Copy => Ok((Act::Copy, at)),
        ActForm::Want => want_at(line, at),
        ActForm::Take => take_at(line, at),
        ActForm::Drain => drain_at(line, at),
        ActForm::Peek => peek_at(alloc, line, at),
    }
}
