//! State lines that are read.

ghost use Rattle.std.specs.Prelude.{◌≡◌, ◌≤◌, ◌+◌, length, find, map, codes, IfOk, Some};
ghost use Rattle.std.specs.Str.{bytes_eq};
ghost use Rattle.schedule_text.specs.Fields.{Gives, spaced_at};
ghost use Rattle.schedule_text.specs.Words.{farthest};
ghost use Rattle.trace_text.specs.Fields.{value_named, name_at};
ghost use Rattle.trace_text.specs.Reading.{mode_word, modes, mode_at, role_name, role_forms, role_fields_at, role_at, parts_at, state_of, state_in, state_at};

use crate::field::{sign_at, spaced_held_at, spaced_view_at};
use crate::message::three_at;
use harp_types::{Mode, Role, ServerId, StateLine};
use schedule_text::{
    TextFault, farther, is_name, space_at, spaced_count_at, spaced_server_at, word_at,
};
use trace_types::Line;

/// A role without its other server.
#[derive(Clone, Copy)]
pub enum RoleForm {
    Leads,
    Follows,
    Outside,
}

impl RoleForm {
    fn named(word: &[u8]) -> Option<RoleForm>
        ensures { result ≡ value_named role_name role_forms word.now }
    {
        if is_name(word, b"leads") {
            return Some(RoleForm::Leads);
        }
        if is_name(word, b"follows") {
            return Some(RoleForm::Follows);
        }
        if is_name(word, b"outside") {
            return Some(RoleForm::Outside);
        }
        None
    }
}

fn role_form_at(line: &[u8], at: usize) -> Result<(RoleForm, usize), TextFault>
    requires { at ≤ length line.now }
    ensures { Gives (λ x. x) result (name_at role_name role_forms line.now at) }
{
    let word = word_at(line, at);
    match RoleForm::named(word) {
        None => {
            let far = farther(b"leads", word, 0);
            let far = farther(b"follows", word, far);
            let far = farther(b"outside", word, far);
            Err(TextFault::Grammar(at + far))
        }
        Some(form) => Ok((form, at + word.len())),
    }
}

/// The other storer of the view, or a dash.
#[tactic(auto, unfolding(crate::specs::Reading::role_fields_at))]
fn role_fields_at(form: RoleForm, line: &[u8], at: usize) -> Result<(Role, usize), TextFault>
    ensures { Gives (λ x. x) result (role_fields_at form line.now at) }
{
    match form {
        RoleForm::Leads => {
            let (partner, at) = spaced_server_at(line, at)?;
            Ok((Role::Leads(partner), at))
        }
        RoleForm::Follows => {
            let (leader, at) = spaced_server_at(line, at)?;
            Ok((Role::Follows(leader), at))
        }
        RoleForm::Outside => {
            let at = space_at(line, at)?;
            let at = sign_at(line, b'-', at)?;
            Ok((Role::Outside, at))
        }
    }
}

#[tactic(auto, unfolding(crate::specs::Reading::role_at))]
fn spaced_role_at(line: &[u8], at: usize) -> Result<(Role, usize), TextFault>
    ensures { Gives (λ x. x) result (spaced_at role_at line.now at) }
{
    let at = space_at(line, at)?;
    let (form, at) = role_form_at(line, at)?;
    role_fields_at(form, line, at)
}

fn mode_named(word: &[u8]) -> Option<Option<Mode>>
    ensures { result ≡ value_named mode_word modes word.now }
{
    if is_name(word, b"down") {
        return Some(None);
    }
    if is_name(word, b"rests") {
        return Some(Some(Mode::Rests));
    }
    if is_name(word, b"calls") {
        return Some(Some(Mode::Calls));
    }
    if is_name(word, b"joined") {
        return Some(Some(Mode::Joined));
    }
    if is_name(word, b"pulls") {
        return Some(Some(Mode::Pulls));
    }
    if is_name(word, b"waits") {
        return Some(Some(Mode::Waits));
    }
    if is_name(word, b"open") {
        return Some(Some(Mode::Open));
    }
    if is_name(word, b"live") {
        return Some(Some(Mode::Live));
    }
    None
}

/// How far a word goes along with the word for a mode.
fn far_along_modes(word: &[u8]) -> usize
    ensures value { result ≡ farthest (map mode_word modes) word.now 0 }
    ensures within { result ≤ length word.now }
{
    let far = farther(b"down", word, 0);
    let far = farther(b"rests", word, far);
    let far = farther(b"calls", word, far);
    let far = farther(b"joined", word, far);
    let far = farther(b"pulls", word, far);
    let far = farther(b"waits", word, far);
    let far = farther(b"open", word, far);
    farther(b"live", word, far)
}

/// A mode, or None for a server that is down, behind a space.
fn spaced_mode_at(line: &[u8], at: usize) -> Result<(Option<Mode>, usize), TextFault>
    ensures { Gives (λ x. x) result (spaced_at mode_at line.now at) }
{
    let at = space_at(line, at)?;
    let word = word_at(line, at);
    match mode_named(word) {
        None => Err(TextFault::Grammar(at + far_along_modes(word))),
        Some(mode) => Ok((mode, at + word.len())),
    }
}

/// The rest of a state line of a server that is up.
#[tactic(auto, unfolding(crate::specs::Reading::parts_at))]
fn up_at(server: ServerId, mode: Mode, line: &[u8], at: usize) -> Result<(Line, usize), TextFault>
    ensures { Gives (λ x. x) result (state_in server (Some mode) line.now at) }
{
    let (promised, at) = spaced_view_at(line, at)?;
    let (accepted, at) = spaced_view_at(line, at)?;
    let (role, at) = spaced_role_at(line, at)?;
    let (held, at) = spaced_held_at(line, at)?;
    let (((base, lb), ap), at) = three_at(line, at)?;
    let (cp, at) = spaced_count_at(line, at)?;
    let (top, at) = spaced_count_at(line, at)?;
    let state = StateLine {
        mode,
        promised,
        accepted,
        role,
        held,
        base,
        lb,
        ap,
        cp,
        top,
    };
    Ok((Line::State { server, state }, at))
}

/// A state line behind its name.
#[tactic(auto, unfolding(crate::specs::Reading::state_at))]
pub fn state_at(line: &[u8], at: usize) -> Result<(Line, usize), TextFault>
    ensures { Gives (λ x. x) result (state_at line.now at) }
{
    let (server, at) = spaced_server_at(line, at)?;
    let (shown, at) = spaced_mode_at(line, at)?;
    match shown {
        None => Ok((Line::Down { server }, at)),
        Some(mode) => up_at(server, mode, line, at),
    }
}
