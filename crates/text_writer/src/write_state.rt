//! Views and states that are written.

ghost use Rattle.std.specs.Prelude.{◌≡◌, ◌++◌, ◌∷◌, [], codes, decimal, OnOk};
ghost use Rattle.harp_types.specs.Server.{number_of};
ghost use Rattle.text_spelling.specs.Text.{spaced};
ghost use Rattle.text_spelling.specs.Lines.{view_text, mode_text, role_text, held_text, state_text};

use crate::decimals::{MARKED, push_behind};
use crate::put::put_server;
use harp_types::{Held, Mode, Role, StateLine, ViewNo};
use std::alloc::AllocError;

/// A view's count and coordinator, behind a space.
#[tactic(auto, unfolding(text_spelling::specs::Lines::view_text))]
pub fn put_view(out: &mut Vec<u8>, view: ViewNo) -> Result<(), AllocError>
    ensures { OnOk result (out.new.items ≡ out.old.items ++ spaced (view_text view)) }
{
    out.reserve(2 * MARKED)?;
    push_behind(out, b' ', view.count());
    push_behind(out, b'.', u64::from(view.coordinator().number()));
    Ok(())
}

/// A word, and a view behind it.
pub fn put_in_view(out: &mut Vec<u8>, word: &[u8], view: ViewNo) -> Result<(), AllocError>
    ensures { OnOk result (out.new.items ≡ out.old.items ++ word.now ++ spaced (view_text view)) }
{
    out.extend_from_slice(word)?;
    put_view(out, view)
}

fn put_mode(out: &mut Vec<u8>, mode: Mode) -> Result<(), AllocError>
    ensures { OnOk result (out.new.items ≡ out.old.items ++ mode_text mode) }
{
    match mode {
        Mode::Rests => out.extend_from_slice(b"rests"),
        Mode::Calls => out.extend_from_slice(b"calls"),
        Mode::Joined => out.extend_from_slice(b"joined"),
        Mode::Pulls => out.extend_from_slice(b"pulls"),
        Mode::Waits => out.extend_from_slice(b"waits"),
        Mode::Open => out.extend_from_slice(b"open"),
        Mode::Live => out.extend_from_slice(b"live"),
    }
}

/// A server's part in its view, and the other storer of the view.
fn put_role(out: &mut Vec<u8>, role: Role) -> Result<(), AllocError>
    ensures { OnOk result (out.new.items ≡ out.old.items ++ spaced (role_text role)) }
{
    match role {
        Role::Leads(partner) => {
            out.extend_from_slice(b" leads")?;
            put_server(out, partner)
        }
        Role::Follows(leader) => {
            out.extend_from_slice(b" follows")?;
            put_server(out, leader)
        }
        Role::Outside => out.extend_from_slice(b" outside -"),
    }
}

pub fn put_held(out: &mut Vec<u8>, held: Held) -> Result<(), AllocError>
    ensures { OnOk result (out.new.items ≡ out.old.items ++ spaced (held_text held)) }
{
    match held {
        Held::Empty => out.extend_from_slice(b" empty"),
        Held::Held => out.extend_from_slice(b" held"),
        Held::Lost => out.extend_from_slice(b" lost"),
    }
}

/// Five numbers.
fn put_totals(out: &mut Vec<u8>, state: &StateLine) -> Result<(), AllocError>
    ensures { OnOk result (out.new.items ≡ out.old.items
        ++ (spaced (decimal state.now.base) ++ spaced (decimal state.now.lb)
        ++ spaced (decimal state.now.ap) ++ spaced (decimal state.now.cp)
        ++ spaced (decimal state.now.top))) }
{
    out.reserve(5 * MARKED)?;
    push_behind(out, b' ', state.base);
    push_behind(out, b' ', state.lb);
    push_behind(out, b' ', state.ap);
    push_behind(out, b' ', state.cp);
    push_behind(out, b' ', state.top);
    Ok(())
}

/// What a server shows of its state, behind a space.
#[tactic(auto, unfolding(text_spelling::specs::Lines::state_text))]
pub fn put_state(out: &mut Vec<u8>, state: &StateLine) -> Result<(), AllocError>
    ensures { OnOk result (out.new.items ≡ out.old.items ++ spaced (state_text state.now)) }
{
    out.push(b' ')?;
    put_mode(out, state.mode)?;
    put_view(out, state.promised)?;
    put_view(out, state.accepted)?;
    put_role(out, state.role)?;
    put_held(out, state.held)?;
    put_totals(out, state)?;
    Ok(())
}
