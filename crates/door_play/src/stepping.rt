//! Taking the steps of a door in a world.

ghost use Rattle.std.specs.Prelude.{◌≡◌, ◌++◌, ◌∷◌, [], ℕ, List, MatchResult, None, OnOk, true};
ghost use Rattle.harp_types.specs.declared.reply.Reply.{Reply as Told};
ghost use Rattle.harp_types.specs.declared.server.ServerId.TheVariants.{Zero};
ghost use Rattle.trace_types.specs.declared.step.Step.{Step as Said};
ghost use Rattle.trace_types.specs.declared.step.Step.TheVariants as steps;
ghost use Rattle.group_trace.specs.DiskCalls.{measures_of};
ghost use Rattle.group_trace.specs.Pump.{most_deliveries, spelled_out};
ghost use Rattle.group_trace.specs.Run.{is_elementary};
ghost use Rattle.group_trace.specs.Scene.{Scene};
ghost use Rattle.schedule_play.specs.OnTheWay.{with_pump};
ghost use Rattle.schedule_play.specs.Reading.{Reading, with_step, with_steps};
ghost use Rattle.schedule_play.specs.Stage.{AreReadings, clocks_after};
ghost use Rattle.door_play.specs.Replies.{answers_in};
ghost use Rattle.door_play.specs.OnTheWay.{AreReadable, HasHeard, StopGives, clocks_behind, taken_then};

use harp_types::{Call, Cred, Reply, ServerId};
use schedule_play::Stage;
use std::alloc::{AllocError, Global};
use std::mem;
use trace_types::{Line, Step};

/// More deliveries than any pump needs.
const MOST_DELIVERIES: u64 = 1 << 40;

/// Why a step of a door isn't taken.
#[derive(Clone, Copy, PartialEq, Eq)]
pub enum Stop {
    /// The world refuses it.
    Refused,
    NoMemory,
}

impl From<AllocError> for Stop {
    ghost use Rattle.door_play.specs.declared.stepping.Stop.TheVariants.{NoMemory};

    ghost from_gives = { λ _ stop. stop ≡ NoMemory };

    fn from(_: AllocError) -> Stop {
        Stop::NoMemory
    }
}

/// What was heard of a world, and the room that the lines of each step are put in anew.
#[derive(Drop)]
pub struct Ear {
    lines: Vec<Line>,
    /// The answers, each with its call's number.
    pub heard: Vec<(u64, Reply)>,
}

impl Ear {
    /// Nothing was heard yet.
    pub fn new(alloc: Global) -> Ear
        ensures { result.heard.items ≡ [] }
    {
        Ear {
            lines: Vec::new(alloc),
            heard: Vec::new(alloc),
        }
    }
}

/// Keeps the answer that a line is, with its call's number. Its reply is taken out of the line.
fn keep_answer(line: &mut Line, heard: &mut Vec<(u64, Reply)>) -> Result<(), AllocError>
    ensures { OnOk result (heard.new.items ≡ heard.old.items ++ answers_in (line.old ∷ [])) }
{
    let Line::Answered { number, reply, .. } = line else {
        return Ok(());
    };
    heard.push((*number, mem::replace(reply, Reply::Done)))?;
    Ok(())
}

/// Keeps the answers that stand in lines, each with its call's number.
fn keep_answers(lines: &mut [Line], heard: &mut Vec<(u64, Reply)>) -> Result<(), AllocError>
    ensures { OnOk result (heard.new.items ≡ heard.old.items ++ answers_in lines.old) }
{
    for line in lines.iter_mut() {
        keep_answer(line, heard)?;
    }
    Ok(())
}

/// Takes a step of one server, of the clocks or of the group's delta, and keeps the answers in its
/// lines. It goes into its callers, since a step is large, and each call that hands it on moves it.
#[inline(always)]
fn take<W: Stage>(alloc: Global, step: Step, world: &mut W, ear: &mut Ear) -> Result<(), Stop>
    requires elementary { is_elementary step ≡ true }
    requires readings { AreReadings (clocks_after (W.clocks world.old) step) }
    requires now { AreReadings (W.clocks world.old) }
    ensures ends { (all : Reading) (rest : Scene → Reading) (before : List (ℕ × Told))
        → HasHeard W.spellings all (with_step (measures_of W.spellings) 0 step rest)
        (before ++ ear.old.heard.items) (W.stands world.old)
        → MatchResult result
        (λ _. HasHeard W.spellings all rest (before ++ ear.new.heard.items) (W.stands world.new))
        (StopGives W.spellings all (W.stands world.new)) }
    ensures clocks { OnOk result (W.clocks world.new ≡ clocks_after (W.clocks world.old) step) }
{
    ear.lines.clear();
    match world.step(alloc, step, &mut ear.lines) {
        Ok(()) => Ok(keep_answers(ear.lines.as_mut_slice(), &mut ear.heard)?),
        Err(refusal) => match refusal.fault() {
            Some(_) => Err(Stop::Refused),
            None => Err(Stop::NoMemory),
        },
    }
}

/// Delivers the packets that were never delivered, in the order of their numbers, those sent
/// meanwhile too.
fn pump<W: Stage>(
    alloc: Global,
    among: Option<(ServerId, ServerId)>,
    world: &mut W,
    ear: &mut Ear,
) -> Result<(), Stop>
    requires { AreReadings (W.clocks world.old) }
    ensures ends { (all : Reading) (rest : Scene → Reading) (before : List (ℕ × Told))
        → HasHeard W.spellings all
        (with_pump (measures_of W.spellings) 0 most_deliveries among rest)
        (before ++ ear.old.heard.items) (W.stands world.old)
        → MatchResult result
        (λ _. HasHeard W.spellings all rest (before ++ ear.new.heard.items) (W.stands world.new))
        (StopGives W.spellings all (W.stands world.new)) }
    ensures clocks { OnOk result (W.clocks world.new ≡ W.clocks world.old) }
{
    for _ in 0..MOST_DELIVERIES {
        let Some(packet) = world.next(among) else {
            return Ok(());
        };
        match take(alloc, Step::Deliver { packet }, world, ear) {
            Ok(()) => {}
            Err(stop) => return Err(stop),
        }
    }
    Ok(())
}

/// Takes a step, or all that it stands for.
fn play_step<W: Stage>(alloc: Global, step: Step, world: &mut W, ear: &mut Ear) -> Result<(), Stop>
    requires readings { AreReadings (clocks_after (W.clocks world.old) step) }
    requires now { AreReadings (W.clocks world.old) }
    ensures ends { (all : Reading) (rest : Scene → Reading) (before : List (ℕ × Told))
        → HasHeard W.spellings all
        (λ w. with_steps (measures_of W.spellings) 0
        (spelled_out (measures_of W.spellings) w step) rest w)
        (before ++ ear.old.heard.items) (W.stands world.old)
        → MatchResult result
        (λ _. HasHeard W.spellings all rest (before ++ ear.new.heard.items) (W.stands world.new))
        (StopGives W.spellings all (W.stands world.new)) }
    ensures clocks { OnOk result (W.clocks world.new ≡ clocks_after (W.clocks world.old) step) }
{
    match step {
        Step::Pump { among } => pump(alloc, among, world, ear),
        step => take(alloc, step, world, ear),
    }
}

/// Asks a call with a number, delivers all that it leads to, and keeps the answers in the lines.
pub fn play_call<W: Stage>(
    alloc: Global,
    cred: Cred,
    number: u64,
    call: Call,
    world: &mut W,
    ear: &mut Ear,
) -> Result<(), Stop>
    requires { AreReadings (W.clocks world.old) }
    ensures ends { (all : Reading) (others : List Said) (rest : Scene → Reading)
        (before : List (ℕ × Told))
        → HasHeard W.spellings all (taken_then (measures_of W.spellings)
        (steps.Ask Zero 0 number cred call ∷ steps.Pump None ∷ others) rest)
        (before ++ ear.old.heard.items) (W.stands world.old)
        → MatchResult result
        (λ _. HasHeard W.spellings all (taken_then (measures_of W.spellings) others rest)
        (before ++ ear.new.heard.items) (W.stands world.new))
        (StopGives W.spellings all (W.stands world.new)) }
    ensures clocks { OnOk result (W.clocks world.new ≡ W.clocks world.old) }
{
    let asked = Step::Ask {
        server: ServerId::Zero,
        client: 0,
        number,
        cred,
        call,
    };
    match take(alloc, asked, world, ear) {
        Ok(()) => {}
        Err(stop) => return Err(stop),
    }
    pump(alloc, None, world, ear)
}

/// Takes steps, one after the other, and keeps the answers in their lines.
pub fn play_steps<W: Stage>(
    alloc: Global,
    steps: Vec<Step>,
    world: &mut W,
    ear: &mut Ear,
) -> Result<(), Stop>
    requires { AreReadable (W.clocks world.old) steps.items }
    ensures ends { (all : Reading) (rest : Scene → Reading) (before : List (ℕ × Told))
        → HasHeard W.spellings all (taken_then (measures_of W.spellings) steps.items rest)
        (before ++ ear.old.heard.items) (W.stands world.old)
        → MatchResult result
        (λ _. HasHeard W.spellings all rest (before ++ ear.new.heard.items) (W.stands world.new))
        (StopGives W.spellings all (W.stands world.new)) }
    ensures clocks { OnOk result (W.clocks world.new
        ≡ clocks_behind (W.clocks world.old) steps.items) }
{
    for step in steps {
        match play_step(alloc, step, world, ear) {
            Ok(()) => {}
            Err(stop) => return Err(stop),
        }
    }
    Ok(())
}
