//! When a server ticks, when it is nudged, and when it suspects.

ghost use Rattle.std.specs.Prelude.{◌≡◌, ◌≤◌, ◌<◌, ◌^◌, ◌∷◌, ◌++◌, ◌&&◌, ◌||◌, [], nat_le, IfOk, OnOk};
ghost use Rattle.std.specs.Prelude.{OnErr};
ghost use Rattle.node_loop.specs.Turns.{after_due, after_input, after_nudge, after_tick, doubled_at};
ghost use Rattle.node_loop.specs.Turns.{due_inputs, first_pace, given_if, is_due, is_heeded};
ghost use Rattle.node_loop.specs.Turns.{is_heeded_by, is_nudged, is_other, may_suspect, patience};
ghost use Rattle.node_loop.specs.Turns.{suspects, tick_inputs};
ghost use Rattle.node.specs.declared.input.Input.TheVariants.{Apply, Flush, Suspect, Tick};

use crate::habit::{Doubled, Habit};
use crate::look::Look;
use harp_types::{Role, ServerId};
use node::Input;
use std::alloc::{AllocError, Global};
use std::marker::Model;
use wire::Message;

/// Milliseconds from a tick to the next.
pub const TICK: u64 = 200;

/// Milliseconds from a tick, a nudge or a message that is heeded to the next nudge.
const NUDGE: u64 = 10;

/// The disk is flushed at each tick of so many.
const TICKS_TO_FLUSH: u64 = 5;

/// What is kept of a server between its turns: its habit, when it ticks next, from when on it may be
/// nudged, its ticks so far, how many of them it was quiet, since it heeded a message or suspected
/// last, and how often its patience is doubled. Ticks are counted up to 2^64 - 1.
#[derive(Clone, Copy, PartialEq, Eq)]
pub struct Pace {
    habit: Habit,
    due: u64,
    nudge: u64,
    ticks: u64,
    quiet: u64,
    doubled: Doubled,
}

impl Model for Pace {
    ghost use Rattle.node_loop.specs.Turns.{Pacing};

    ghost Value = { Pacing };

    ghost view = { λ p. record {
      habit = p.habit;
      due = p.due;
      nudge = p.nudge;
      ticks = p.ticks;
      quiet = p.quiet;
      doubled = p.doubled;
    } };

    ghost inverse = { λ p. record {
      habit = p.habit;
      due = p.due;
      nudge = p.nudge;
      ticks = p.ticks;
      quiet = p.quiet;
      doubled = p.doubled;
    } };
}

// How many quiet ticks are too many for a server at first.
fn patience(me: ServerId) -> u64
    ensures value { result ≡ patience me }
    ensures bound { result ≤ 20 }
{
    match me {
        ServerId::Zero => 10,
        ServerId::One => 15,
        ServerId::Two => 20,
    }
}

// Whether a server suspects at all: the witness outside a view doesn't.
fn may_suspect(me: ServerId, role: Role) -> bool
    ensures { result ≡ may_suspect me role }
{
    match (me, role) {
        (ServerId::Two, Role::Outside) => false,
        (ServerId::Two, Role::Leads(_)) => true,
        (ServerId::Two, Role::Follows(_)) => true,
        (ServerId::Zero, _) => true,
        (ServerId::One, _) => true,
    }
}

// What a server is given at a tick.
fn inputs_of_tick(
    alloc: Global,
    most: u32,
    flushes: bool,
    suspects: bool,
) -> Result<Vec<Input>, AllocError>
    ensures { IfOk result (λ inputs. inputs.items ≡ Tick
        ∷ Apply most ∷ given_if flushes Flush ++ given_if suspects Suspect) }
{
    let mut inputs = Vec::with_capacity(alloc, 4)?;
    inputs.push(Input::Tick)?;
    inputs.push(Input::Apply { most })?;
    if flushes {
        inputs.push(Input::Flush)?;
    }
    if suspects {
        inputs.push(Input::Suspect)?;
    }
    Ok(inputs)
}

impl Pace {
    /// That of a server with this habit that was booted at this reading of its clock; it ticks at
    /// once.
    pub fn start(habit: Habit, now: u64) -> Pace
        ensures { result ≡ first_pace habit now }
    {
        Pace {
            habit,
            due: now,
            nudge: now,
            ticks: 0,
            quiet: 0,
            doubled: Doubled::Never,
        }
    }

    /// Whether it is nudged at this reading of its clock, where it doesn't tick and sees this of
    /// itself.
    fn is_nudged(&self, look: &Look, now: u64) -> bool
        ensures { result ≡ is_nudged look.now now self.now }
    {
        self.nudge <= now && self.habit.is_nudged(look)
    }

    /// Whether it ticks or is nudged at this reading of its clock, where it sees this of itself.
    pub fn is_due(&self, look: &Look, now: u64) -> bool
        ensures { result ≡ is_due look.now now self.now }
    {
        self.due <= now || self.is_nudged(look, now)
    }

    /// At which reading of its clock it ticks next.
    pub fn due(&self) -> u64
        ensures { result ≡ self.now.due }
    {
        self.due
    }

    /// How often it ticked, up to 2^64 - 1.
    pub fn ticks(&self) -> u64
        ensures { result ≡ self.now.ticks }
    {
        self.ticks
    }

    /// How often its patience is doubled, once a server sees this of itself.
    fn doubled_at(&self, look: &Look) -> Doubled
        ensures { result ≡ doubled_at look.now self.now }
    {
        if look.is_open {
            Doubled::Never
        } else {
            self.doubled
        }
    }

    /// Whether the server suspects at its next tick, where it sees this of itself.
    fn suspects(&self, me: ServerId, look: &Look) -> bool
        ensures { result ≡ suspects me look.now self.now }
    {
        let patience = self.habit.patience(patience(me), self.doubled_at(look));
        patience <= self.quiet.saturating_add(1) && may_suspect(me, look.role)
    }

    /// A tick at this reading of its clock, of a server that sees this of itself: what it is given,
    /// in order. Where memory runs out, it doesn't tick.
    fn tick(
        &mut self,
        alloc: Global,
        me: ServerId,
        look: &Look,
        now: u64,
    ) -> Result<Vec<Input>, AllocError>
        requires { now < 2 ^ 62 }
        ensures inputs { IfOk result (λ inputs. inputs.items ≡ tick_inputs me look.now self.old) }
        ensures pace { OnOk result (self.new ≡ after_tick me look.now now self.old) }
        ensures kept { OnErr result (self.new ≡ self.old) }
    {
        let ticks = self.ticks.saturating_add(1);
        let suspects = self.suspects(me, look);
        let flushes = self.habit.flushes(look, ticks % TICKS_TO_FLUSH == 0);
        let most = self.habit.applied_at_once(look);
        let inputs = inputs_of_tick(alloc, most, flushes, suspects)?;
        let doubled = self.doubled_at(look);
        self.due = now + TICK;
        self.nudge = now + NUDGE;
        self.ticks = ticks;
        self.quiet = if suspects {
            0
        } else {
            self.quiet.saturating_add(1)
        };
        self.doubled = self.habit.after(suspects, doubled);
        Ok(inputs)
    }

    /// A nudge at this reading of its clock: what it is given. Where memory runs out, it isn't
    /// nudged.
    fn nudge(&mut self, alloc: Global, now: u64) -> Result<Vec<Input>, AllocError>
        requires { now < 2 ^ 62 }
        ensures inputs { IfOk result (λ inputs. inputs.items ≡ Tick ∷ []) }
        ensures pace { OnOk result (self.new ≡ after_nudge now self.old) }
        ensures kept { OnErr result (self.new ≡ self.old) }
    {
        let mut inputs = Vec::with_capacity(alloc, 1)?;
        inputs.push_reserved(Input::Tick);
        self.nudge = now + NUDGE;
        Ok(inputs)
    }

    /// What is due at this reading of its clock, of a server that sees this of itself: it ticks
    /// where the time of a tick has come, and else it is nudged. It gives what it is given then, in
    /// order. Where memory runs out, it does neither.
    pub fn keep(
        &mut self,
        alloc: Global,
        me: ServerId,
        look: &Look,
        now: u64,
    ) -> Result<Vec<Input>, AllocError>
        requires { now < 2 ^ 62 }
        ensures inputs { IfOk result (λ inputs. inputs.items ≡ due_inputs me look.now now self.old) }
        ensures pace { OnOk result (self.new ≡ after_due me look.now now self.old) }
        ensures kept { OnErr result (self.new ≡ self.old) }
    {
        if self.due <= now {
            self.tick(alloc, me, look, now)
        } else {
            self.nudge(alloc, now)
        }
    }

    /// A server that sees this of itself is given an input that came to it by this reading of its
    /// clock.
    pub fn heed(&mut self, look: &Look, now: u64, input: &Input)
        requires { now < 2 ^ 62 }
        ensures { self.new ≡ after_input look.now now input.now self.old }
    {
        if is_heeded(self.habit, look, input) {
            self.quiet = 0;
            self.nudge = now + NUDGE;
        }
    }
}

// Whether an input is a message that a server with this habit heeds.
fn is_heeded(habit: Habit, look: &Look, input: &Input) -> bool
    ensures { result ≡ is_heeded habit look.now input.now }
{
    match input {
        Input::Message { from, message } => is_heeded_by(habit, look, *from, message),
        Input::Ask { .. } => false,
        Input::Tick => false,
        Input::Apply { .. } => false,
        Input::Flush => false,
        Input::Suspect => false,
        Input::List => false,
    }
}

// Whether a server with this habit heeds a message of that server.
fn is_heeded_by(habit: Habit, look: &Look, from: ServerId, message: &Message) -> bool
    ensures { result ≡ is_heeded_by habit look.now from message.now }
{
    match habit {
        Habit::Plain => is_other(look.role, from),
        Habit::Steady => look.is_told(message),
    }
}

// Whether a server is the other storer of the view.
fn is_other(role: Role, from: ServerId) -> bool
    ensures { result ≡ is_other role from }
{
    match role {
        Role::Leads(other) => from.is(other),
        Role::Follows(other) => from.is(other),
        Role::Outside => false,
    }
}
