//! Asks that are read, behind their name.

ghost use Rattle.std.specs.Prelude.{◌≡◌, ◌+◌, ◌≤◌, length, drop, codes, nat_eq, IfOk, IsTrue};
ghost use Rattle.std.specs.List.{starts_with};
ghost use Rattle.schedule_text.specs.Fields.{Gives};
ghost use Rattle.schedule_text.specs.Reading.{asker_at, is_told_at, told_at, told_call_at, untold_call_at, asked_at, form_at};
ghost use Rattle.schedule_text.specs.declared.form.Form.TheVariants as forms;

use crate::call::call_at;
use crate::fault::TextFault;
use crate::field::{spaced_count_at, spaced_server_at, spaced_u32_at};
use crate::number::{space_at, u32_at};
use harp_types::{Call, Cred, SUPERUSER, ServerId};
use std::alloc::Global;
use text_spelling::is_implied;
use trace_types::Step;

/// The server, the client and its number.
pub fn asker_at(line: &[u8], at: usize) -> Result<(((ServerId, u32), u64), usize), TextFault>
    ensures step { Gives (λ x. x) result (asker_at line.now at) }
    ensures within { IfOk result (λ x. x.1 ≤ length line.now) }
{
    let (server, at) = spaced_server_at(line, at)?;
    let (client, at) = spaced_u32_at(line, at)?;
    let (number, at) = spaced_count_at(line, at)?;
    Ok((((server, client), number), at))
}

/// Whether a credential is told here.
fn is_told_at(line: &[u8], at: usize) -> bool
    requires { at ≤ length line.now }
    ensures value { result ≡ is_told_at line.now at }
    ensures within { IsTrue result → at + 3 ≤ length line.now }
{
    line[at..].starts_with(b" as")
}

/// The user and the group behind `as`, which aren't both 0: that credential is told by no words.
#[tactic(auto, unfolding(crate::specs::Reading::told_at))]
fn told_at(line: &[u8], at: usize) -> Result<(Cred, usize), TextFault>
    ensures { Gives (λ x. x) result (told_at line.now at) }
{
    let (uid, at) = spaced_u32_at(line, at)?;
    let at = space_at(line, at)?;
    let (gid, next) = u32_at(line, at)?;
    let cred = Cred { uid, gid };
    if is_implied(cred) {
        return Err(TextFault::Grammar(at));
    }
    Ok((cred, next))
}

/// A call and the credential that is told before it.
fn told_call_at(alloc: Global, line: &[u8], at: usize) -> Result<((Cred, Call), usize), TextFault>
    ensures { Gives (λ x. x) result (told_call_at line.now at) }
{
    let (cred, at) = told_at(line, at)?;
    let at = space_at(line, at)?;
    let (call, at) = call_at(alloc, line, true, at)?;
    Ok(((cred, call), at))
}

/// A call for which no credential is told.
fn untold_call_at(alloc: Global, line: &[u8], at: usize) -> Result<((Cred, Call), usize), TextFault>
    ensures { Gives (λ x. x) result (untold_call_at line.now at) }
{
    let at = space_at(line, at)?;
    let (call, at) = call_at(alloc, line, false, at)?;
    Ok(((SUPERUSER, call), at))
}

/// A call and the credential that is told before it, or the superuser's own. It goes into its
/// callers, since a call is large, and each call of a function that gives it moves it.
#[tactic(auto, unfolding(crate::specs::Reading::asked_at))]
#[inline(always)]
pub fn asked_at(alloc: Global, line: &[u8], at: usize) -> Result<((Cred, Call), usize), TextFault>
    requires { at ≤ length line.now }
    ensures { Gives (λ x. x) result (asked_at line.now at) }
{
    if is_told_at(line, at) {
        told_call_at(alloc, line, at + 3)
    } else {
        untold_call_at(alloc, line, at)
    }
}

/// An ask behind its name. It goes into its caller, as `asked_at`.
#[tactic(auto, unfolding(crate::specs::Reading::form_at))]
#[inline(always)]
pub fn ask_at(alloc: Global, line: &[u8], at: usize) -> Result<(Step, usize), TextFault>
    ensures { Gives (λ x. x) result (form_at forms.Ask line.now at) }
{
    let (((server, client), number), at) = asker_at(line, at)?;
    let ((cred, call), at) = asked_at(alloc, line, at)?;
    let step = Step::Ask {
        server,
        client,
        number,
        cred,
        call,
    };
    Ok((step, at))
}
