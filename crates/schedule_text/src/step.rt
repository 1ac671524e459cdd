//! Steps that are read, behind their names.

ghost use Rattle.std.specs.Prelude.{◌≡◌, ◌<◌, ◌≤◌, ◌^◌, length, IfOk};
ghost use Rattle.schedule_text.specs.Fields.{Gives};
ghost use Rattle.schedule_text.specs.declared.form.Form.TheVariants as forms;
ghost use Rattle.schedule_text.specs.Reading.{pair_at, pump_at, cut_at, is_digit_at, whole_save_at, all_named, power_at, form_at};

use crate::ask::ask_at;
use crate::fault::TextFault;
use crate::field::{spaced_count_at, spaced_server_at};
use crate::form::Form;
use crate::number::{number_at, peek, server_at, space_at, word_at};
use crate::pick::spaced_pick_at;
use crate::word::{all_hex_at, farther, is_name, ranged_at};
use harp_types::ServerId;
use std::alloc::Global;
use trace_types::{Pick, Step};

/// Two servers in the order of their numbers.
#[tactic(auto, unfolding(crate::specs::Reading::pair_at))]
fn pair_at(line: &[u8], at: usize) -> Result<((ServerId, ServerId), usize), TextFault>
    ensures { Gives (λ x. x) result (pair_at line.now at) }
{
    let (first, next) = server_at(line, at)?;
    if first.number() >= 2 {
        return Err(TextFault::Grammar(at));
    }
    let (second, end) = server_at(line, next)?;
    if first.number() >= second.number() {
        return Err(TextFault::Grammar(next));
    }
    Ok(((first, second), end))
}

/// Nothing, or two servers.
#[tactic(auto, unfolding(crate::specs::Reading::pump_at))]
fn pump_at(line: &[u8], at: usize) -> Result<(Step, usize), TextFault>
    ensures { Gives (λ x. x) result (pump_at line.now at) }
{
    if at == line.len() {
        return Ok((Step::Pump { among: None }, at));
    }
    let at = space_at(line, at)?;
    let (pair, at) = pair_at(line, at)?;
    Ok((Step::Pump { among: Some(pair) }, at))
}

#[tactic(auto, unfolding(crate::specs::Reading::form_at))]
fn apply_at(line: &[u8], at: usize) -> Result<(Step, usize), TextFault>
    ensures { Gives (λ x. x) result (form_at forms.Apply line.now at) }
{
    let (server, at) = spaced_server_at(line, at)?;
    let at = space_at(line, at)?;
    let (most, at) = ranged_at(line, 1, 100_000, at)?;
    let most = most as u32;
    Ok((Step::Apply { server, most }, at))
}

/// A server, a number of calls up to a bound, and a pick.
fn cut_at(
    alloc: Global,
    line: &[u8],
    most: u64,
    at: usize,
) -> Result<(((ServerId, u64), Pick), usize), TextFault>
    requires { most < 10 ^ 18 }
    ensures { Gives (λ x. x) result (cut_at most line.now at) }
{
    let (server, at) = spaced_server_at(line, at)?;
    let at = space_at(line, at)?;
    let (calls, at) = number_at(line, 10, most, at)?;
    let (pick, at) = spaced_pick_at(alloc, line, at)?;
    Ok((((server, calls), pick), at))
}

/// Whether a digit stands here.
fn is_digit_at(line: &[u8], at: usize) -> bool
    ensures { result ≡ is_digit_at line.now at }
{
    let b = peek(line, at);
    48 <= b && b <= 57
}

/// A server, and `all` for the whole save.
fn whole_save_at(line: &[u8], at: usize) -> Result<(ServerId, usize), TextFault>
    ensures { Gives (λ x. x) result (whole_save_at line.now at) }
{
    let (server, at) = spaced_server_at(line, at)?;
    let at = space_at(line, at)?;
    let word = word_at(line, at);
    if is_name(word, b"all") {
        Ok((server, at + word.len()))
    } else {
        Err(TextFault::Grammar(at + farther(b"all", word, 0)))
    }
}

/// A save that is whole, or the calls of it that pass and the pick of a crash.
#[tactic(auto, unfolding(crate::specs::Reading::power_at))]
fn power_at(alloc: Global, line: &[u8], at: usize) -> Result<(Step, usize), TextFault>
    ensures { Gives (λ x. x) result (power_at line.now at) }
{
    let (_, next) = spaced_server_at(line, at)?;
    if is_digit_at(line, next + 1) {
        let (((server, calls), pick), at) = cut_at(alloc, line, 999_999_999_999_999_999, at)?;
        return Ok((
            Step::PowerCut {
                server,
                calls,
                pick,
            },
            at,
        ));
    }
    let (server, at) = whole_save_at(line, at)?;
    Ok((Step::Power { server }, at))
}

#[tactic(auto, unfolding(crate::specs::Reading::form_at))]
fn crash_at(alloc: Global, line: &[u8], at: usize) -> Result<(Step, usize), TextFault>
    ensures { Gives (λ x. x) result (form_at forms.Crash line.now at) }
{
    let (server, at) = spaced_server_at(line, at)?;
    let (pick, at) = spaced_pick_at(alloc, line, at)?;
    Ok((Step::Crash { server, pick }, at))
}

#[tactic(auto, unfolding(crate::specs::Reading::form_at))]
fn stop_at(alloc: Global, line: &[u8], at: usize) -> Result<(Step, usize), TextFault>
    ensures { Gives (λ x. x) result (form_at forms.Stop line.now at) }
{
    let (((server, calls), pick), at) = cut_at(alloc, line, 100_000, at)?;
    Ok((
        Step::Stop {
            server,
            calls,
            pick,
        },
        at,
    ))
}

#[tactic(auto, unfolding(crate::specs::Reading::form_at))]
fn noise_at(alloc: Global, line: &[u8], at: usize) -> Result<(Step, usize), TextFault>
    ensures { Gives (λ x. x) result (form_at forms.Noise line.now at) }
{
    let (server, at) = spaced_server_at(line, at)?;
    let at = space_at(line, at)?;
    let (bytes, at) = all_hex_at(alloc, line, at)?;
    Ok((Step::Noise { server, bytes }, at))
}

#[tactic(auto, unfolding(crate::specs::Reading::form_at))]
fn clock_at(line: &[u8], at: usize) -> Result<(Step, usize), TextFault>
    ensures { Gives (λ x. x) result (form_at forms.Clock line.now at) }
{
    let (server, at) = spaced_server_at(line, at)?;
    let (reading, at) = spaced_count_at(line, at)?;
    Ok((Step::Clock { server, reading }, at))
}

#[tactic(auto, unfolding(crate::specs::Reading::form_at))]
fn advance_at(line: &[u8], at: usize) -> Result<(Step, usize), TextFault>
    ensures { Gives (λ x. x) result (form_at forms.Advance line.now at) }
{
    let at = space_at(line, at)?;
    let (millis, at) = number_at(line, 10, 1_000_000_000, at)?;
    Ok((Step::Advance { millis }, at))
}

#[tactic(auto, unfolding(crate::specs::Reading::form_at))]
fn delta_at(line: &[u8], at: usize) -> Result<(Step, usize), TextFault>
    ensures { Gives (λ x. x) result (form_at forms.Delta line.now at) }
{
    let at = space_at(line, at)?;
    let (millis, at) = ranged_at(line, 500, 100_000, at)?;
    let millis = millis as u32;
    Ok((Step::Delta { millis }, at))
}

#[tactic(auto, unfolding(crate::specs::Reading::form_at))]
fn deliver_at(line: &[u8], at: usize) -> Result<(Step, usize), TextFault>
    ensures { Gives (λ x. x) result (form_at forms.Deliver line.now at) }
{
    let (packet, at) = spaced_count_at(line, at)?;
    Ok((Step::Deliver { packet }, at))
}

#[tactic(auto, unfolding(crate::specs::Reading::form_at))]
fn tick_at(line: &[u8], at: usize) -> Result<(Step, usize), TextFault>
    ensures { Gives (λ x. x) result (form_at forms.Tick line.now at) }
{
    let (server, at) = spaced_server_at(line, at)?;
    Ok((Step::Tick { server }, at))
}

#[tactic(auto, unfolding(crate::specs::Reading::form_at))]
fn suspect_at(line: &[u8], at: usize) -> Result<(Step, usize), TextFault>
    ensures { Gives (λ x. x) result (form_at forms.Suspect line.now at) }
{
    let (server, at) = spaced_server_at(line, at)?;
    Ok((Step::Suspect { server }, at))
}

#[tactic(auto, unfolding(crate::specs::Reading::form_at))]
fn flush_at(line: &[u8], at: usize) -> Result<(Step, usize), TextFault>
    ensures { Gives (λ x. x) result (form_at forms.Flush line.now at) }
{
    let (server, at) = spaced_server_at(line, at)?;
    Ok((Step::Flush { server }, at))
}

#[tactic(auto, unfolding(crate::specs::Reading::form_at))]
fn list_at(line: &[u8], at: usize) -> Result<(Step, usize), TextFault>
    ensures { Gives (λ x. x) result (form_at forms.List line.now at) }
{
    let (server, at) = spaced_server_at(line, at)?;
    Ok((Step::List { server }, at))
}

#[tactic(auto, unfolding(crate::specs::Reading::form_at))]
fn boot_at(line: &[u8], at: usize) -> Result<(Step, usize), TextFault>
    ensures { Gives (λ x. x) result (form_at forms.Boot line.now at) }
{
    let (server, at) = spaced_server_at(line, at)?;
    Ok((Step::Boot { server }, at))
}

/// A step of a form, behind its name. It goes into its caller, since a step is large, and each call
/// of a function that gives it moves it.
#[tactic(auto, unfolding(crate::specs::Reading::form_at))]
#[inline(always)]
pub fn form_at(
    alloc: Global,
    form: Form,
    line: &[u8],
    at: usize,
) -> Result<(Step, usize), TextFault>
    ensures { Gives (λ x. x) result (form_at form line.now at) }
{
    match form {
        Form::Ask => ask_at(alloc, line, at),
        Form::Deliver => deliver_at(line, at),
        Form::Pump => pump_at(line, at),
        Form::Tick => tick_at(line, at),
        Form::Suspect => suspect_at(line, at),
        Form::Apply => apply_at(line, at),
        Form::Flush => flush_at(line, at),
        Form::List => list_at(line, at),
        Form::Boot => boot_at(line, at),
        Form::Power => power_at(alloc, line, at),
        Form::Crash => crash_at(alloc, line, at),
        Form::Stop => stop_at(alloc, line, at),
        Form::Noise => noise_at(alloc, line, at),
        Form::Clock => clock_at(line, at),
        Form::Advance => advance_at(line, at),
        Form::Delta => delta_at(line, at),
    }
}
