//! The states that servers have shown.

ghost use Rattle.std.specs.Prelude.{◌≡◌, ℕ, ◌↔◌, ◌++◌, ◌∷◌, [], IsTrue, MatchBool, OnOk, Some, None};
ghost use Rattle.harp_types.specs.declared.server.ServerId.{ServerId as ServerIdValue};
ghost use Rattle.harp_types.specs.Trio.{value_of, with_value};
ghost use Rattle.trace_claims.specs.Servers.{is_open, state_at_rest};
ghost use Rattle.trace_claims.specs.Trace.{Trace};
ghost use Rattle.trace_check.specs.Keys.{place_key};
ghost use Rattle.trace_check.specs.Marks.{mark_at, IsNoted, IsRaised, Reaches};
ghost use Rattle.trace_check.specs.ServersSeen.{AreServersOf, IsAt, ShowsState};

use crate::marks::{Key, Marks};
use harp_types::{Held, Mode, Role, ServerId, StateLine, Trio, ViewNo};
use std::alloc::{AllocError, Global};
use trace_types::Line;

/// The last state of each server, and what each has shown in each view.
#[derive(Drop)]
pub struct Servers {
    last: Trio<Option<StateLine>>,
    /// The greatest top that each server has shown in a view.
    shown: Trio<Marks>,
    /// The CP of the first line in which each server was open in a view.
    opened: Trio<Marks>,
}

/// The key of a server in a view.
pub fn place_key(server: ServerId, view: ViewNo) -> Key
    ensures { result ≡ place_key server view }
{
    (
        u64::from(server.number()),
        view.count(),
        u64::from(view.coordinator().number()),
        0,
    )
}

fn at_rest(role: Role, held: Held) -> StateLine
    ensures { result ≡ state_at_rest role held }
{
    StateLine {
        mode: Mode::Rests,
        promised: ViewNo::new(0, ServerId::Zero),
        accepted: ViewNo::new(0, ServerId::Zero),
        role,
        held,
        base: 0,
        lb: 0,
        ap: 0,
        cp: 0,
        top: 0,
    }
}

fn no_marks(alloc: Global) -> Trio<Marks>
    ensures { (s : ServerIdValue) (key : ℕ × ℕ × ℕ × ℕ) → mark_at (value_of result s) key ≡ None }
{
    Trio {
        zero: Marks::new(alloc),
        one: Marks::new(alloc),
        two: Marks::new(alloc),
    }
}

// The key has this number at a server, unless it has a greater one.
fn raise(marks: &mut Trio<Marks>, server: ServerId, key: Key, number: u64) -> Result<(), AllocError>
    ensures { OnOk result (IsAt server (IsRaised key number) marks.old marks.new) }
{
    match server {
        ServerId::Zero => marks.zero.raise(key, number),
        ServerId::One => marks.one.raise(key, number),
        ServerId::Two => marks.two.raise(key, number),
    }
}

// The key has this number at a server, unless it has one.
fn note(marks: &mut Trio<Marks>, server: ServerId, key: Key, number: u64) -> Result<(), AllocError>
    ensures { OnOk result (IsAt server (IsNoted key number) marks.old marks.new) }
{
    match server {
        ServerId::Zero => marks.zero.note(key, number),
        ServerId::One => marks.one.note(key, number),
        ServerId::Two => marks.two.note(key, number),
    }
}

// The CP counts where the state is open.
fn note_opening(
    opened: &mut Trio<Marks>,
    server: ServerId,
    key: Key,
    state: &StateLine,
) -> Result<(), AllocError>
    ensures { OnOk result (MatchBool (is_open state.now.mode)
        (IsAt server (IsNoted key state.now.cp) opened.old opened.new) (opened.new ≡ opened.old)) }
{
    match state.mode {
        Mode::Open => note(opened, server, key, state.cp),
        Mode::Rests | Mode::Calls | Mode::Joined | Mode::Pulls | Mode::Waits | Mode::Live => Ok(()),
    }
}

impl Servers {
    /// No line has been read.
    pub fn new(alloc: Global) -> Servers
        ensures { AreServersOf result [] }
    {
        Servers {
            last: Trio {
                zero: Some(at_rest(Role::Leads(ServerId::One), Held::Held)),
                one: Some(at_rest(Role::Follows(ServerId::Zero), Held::Held)),
                two: Some(at_rest(Role::Outside, Held::Empty)),
            },
            shown: no_marks(alloc),
            opened: no_marks(alloc),
        }
    }

    fn set_last(&mut self, server: ServerId, state: Option<StateLine>)
        ensures { self.new ≡ record self.old { last = with_value self.old.last server state } }
    {
        match server {
            ServerId::Zero => self.last.zero = state,
            ServerId::One => self.last.one = state,
            ServerId::Two => self.last.two = state,
        }
    }

    fn show(&mut self, server: ServerId, state: &StateLine) -> Result<(), AllocError>
        ensures { OnOk result (ShowsState server state.now self.old self.new) }
    {
        let key = place_key(server, state.accepted);
        raise(&mut self.shown, server, key, state.top)?;
        note_opening(&mut self.opened, server, key, state)?;
        self.set_last(server, Some(*state));
        Ok(())
    }

    /// Takes up what a line tells.
    pub fn take(&mut self, line: &Line) -> Result<(), AllocError>
        ensures { (before : Trace) → AreServersOf self.old before
            → OnOk result (AreServersOf self.new (before ++ line.now ∷ [])) }
    {
        match line {
            Line::State { server, state } => self.show(*server, state),
            Line::Down { server } => {
                self.set_last(*server, None);
                Ok(())
            }
            _ => Ok(()),
        }
    }

    /// The last state of a server, none where it is down.
    pub fn last(&self, server: ServerId) -> Option<StateLine>
        ensures { result ≡ value_of self.now.last server }
    {
        *self.last.get(server)
    }

    /// Whether a server has shown a top of at least this number in a view.
    pub fn has_shown(&self, server: ServerId, view: ViewNo, number: u64) -> bool
        ensures { IsTrue result ↔ Reaches (value_of self.now.shown server) (place_key server view) number }
    {
        self.shown
            .get(server)
            .reaches(place_key(server, view), number)
    }

    /// Whether the CP with which a server opened a view is at least this number.
    pub fn has_opened_with(&self, server: ServerId, view: ViewNo, number: u64) -> bool
        ensures { IsTrue result ↔ Reaches (value_of self.now.opened server) (place_key server view) number }
    {
        self.opened
            .get(server)
            .reaches(place_key(server, view), number)
    }
}
