//! Playing steps in a world, each as a line of a schedule.

ghost use Rattle.std.specs.Prelude.{◌≡◌, ◌+◌, ◌<◌, ℕ, Some, Ok, IfOk, true};
ghost use Rattle.group_trace.specs.DiskCalls.{measures_of};
ghost use Rattle.group_trace.specs.DiskRun.{first_disk_scene};
ghost use Rattle.group_trace.specs.Pump.{most_deliveries};
ghost use Rattle.group_trace.specs.Run.{is_elementary};
ghost use Rattle.group_trace.specs.Scene.{Scene};
ghost use Rattle.schedule_play.specs.OnTheWay.{AreBelow, with_pump};
ghost use Rattle.schedule_play.specs.Reading.{Reading, with_given, with_step};
ghost use Rattle.schedule_play.specs.Stage.{AreReadings, clocks_after};
ghost use Rattle.sweep_player.specs.OnTheWay.{HasCounted, TurnCounts};
ghost use Rattle.sweep_player.specs.Reading.{given_as, moves_within, summary_of_steps};

use crate::tally::Tally;
use harp_types::{MOST_LINES, ServerId};
use schedule_play::Stage;
use std::alloc::{AllocError, Global};
use sweep::{Schedule, Summary};
use trace_types::{Line, Step};

/// The most lines of a schedule, as a count of steps.
const LINES: usize = MOST_LINES as usize;

/// The latest moment that a line sets a clock to.
const LAST_MOMENT: u64 = 999_999_999_999_999_999;

/// The most milliseconds that pass by one line.
const MOST_MILLIS: u64 = 1_000_000_000;

/// More deliveries than any pump needs.
const MOST_DELIVERIES: u64 = 1 << 40;

/// What a step led to.
#[derive(Clone, Copy, PartialEq, Eq)]
pub enum Turn {
    /// The next step is to be taken.
    GoesOn,
    /// The step is refused.
    Refused,
}

/// Whether a step moves clocks no further than a line of a schedule can.
#[tactic(auto, unfolding(crate::specs::Reading::moves_within))]
fn moves_within(step: &Step) -> bool
    ensures { result ≡ moves_within step.now }
{
    match step {
        Step::Clock { reading, .. } => *reading <= LAST_MOMENT,
        Step::Advance { millis } => *millis <= MOST_MILLIS,
        _ => true,
    }
}

/// Takes a step of one server, of the clocks or of the group's delta, and counts its lines, for
/// which there is room.
fn take_elementary<W: Stage>(
    alloc: Global,
    step: Step,
    world: &mut W,
    lines: &mut Vec<Line>,
    tally: &mut Tally,
) -> Result<Turn, AllocError>
    requires elementary { is_elementary step ≡ true }
    requires readings { AreReadings (clocks_after (W.clocks world.old) step) }
    requires now { AreReadings (W.clocks world.old) }
    ensures counts { (all : Reading) (number : ℕ) (rest : Scene → Reading)
        → HasCounted W.spellings all (with_step (measures_of W.spellings) number step rest)
        tally.old (W.stands world.old)
        → IfOk result (TurnCounts W.spellings all rest tally.new (W.stands world.new)) }
    ensures clocks { result ≡ Ok Turn.GoesOn → W.clocks world.new
        ≡ clocks_after (W.clocks world.old) step }
{
    lines.clear();
    match world.step(alloc, step, lines) {
        Ok(()) => {
            tally.count_all(lines.as_slice())?;
            Ok(Turn::GoesOn)
        }
        Err(refusal) => match refusal.fault() {
            Some(_) => Ok(Turn::Refused),
            None => Err(AllocError),
        },
    }
}

/// Delivers the packets that were never delivered, in the order of their numbers, those sent
/// meanwhile too.
fn pump<W: Stage>(
    alloc: Global,
    among: Option<(ServerId, ServerId)>,
    world: &mut W,
    lines: &mut Vec<Line>,
    tally: &mut Tally,
) -> Result<Turn, AllocError>
    requires { AreReadings (W.clocks world.old) }
    ensures counts { (all : Reading) (number : ℕ) (rest : Scene → Reading)
        → HasCounted W.spellings all
        (with_pump (measures_of W.spellings) number most_deliveries among rest)
        tally.old (W.stands world.old)
        → IfOk result (TurnCounts W.spellings all rest tally.new (W.stands world.new)) }
    ensures clocks { result ≡ Ok Turn.GoesOn → W.clocks world.new ≡ W.clocks world.old }
{
    for _ in 0..MOST_DELIVERIES {
        let Some(packet) = world.next(among) else {
            return Ok(Turn::GoesOn);
        };
        match take_elementary(alloc, Step::Deliver { packet }, world, lines, tally)? {
            Turn::GoesOn => {}
            Turn::Refused => return Ok(Turn::Refused),
        }
    }
    Ok(Turn::GoesOn)
}

/// Takes a step; a pump is the deliveries that it stands for.
fn take_step<W: Stage>(
    alloc: Global,
    step: Step,
    world: &mut W,
    lines: &mut Vec<Line>,
    tally: &mut Tally,
) -> Result<Turn, AllocError>
    requires readings { AreReadings (clocks_after (W.clocks world.old) step) }
    requires now { AreReadings (W.clocks world.old) }
    ensures counts { (all : Reading) (number : ℕ) (rest : Scene → Reading)
        → HasCounted W.spellings all
        (with_given (measures_of W.spellings) number (Ok (Some step)) rest)
        tally.old (W.stands world.old)
        → IfOk result (TurnCounts W.spellings all rest tally.new (W.stands world.new)) }
    ensures clocks { result ≡ Ok Turn.GoesOn → W.clocks world.new
        ≡ clocks_after (W.clocks world.old) step }
{
    match step {
        Step::Pump { among } => pump(alloc, among, world, lines, tally),
        step => take_elementary(alloc, step, world, lines, tally),
    }
}

/// Takes the step that stands behind so many others, as the next line of a schedule.
fn take_line<W: Stage>(
    alloc: Global,
    before: usize,
    step: Step,
    world: &mut W,
    lines: &mut Vec<Line>,
    tally: &mut Tally,
) -> Result<Turn, AllocError>
    requires { AreBelow (before + 1) (W.clocks world.old) }
    ensures counts { (all : Reading) (rest : Scene → Reading)
        → HasCounted W.spellings all
        (with_given (measures_of W.spellings) (before + 1) (given_as (before + 1) step) rest)
        tally.old (W.stands world.old)
        → IfOk result (TurnCounts W.spellings all rest tally.new (W.stands world.new)) }
    ensures below { result ≡ Ok Turn.GoesOn → AreBelow (before + 1 + 1) (W.clocks world.new) }
    ensures within { result ≡ Ok Turn.GoesOn → before < 50000 }
{
    if before >= LINES {
        return Ok(Turn::Refused);
    }
    if !moves_within(&step) {
        return Ok(Turn::Refused);
    }
    take_step(alloc, step, world, lines, tally)
}

/// What the trace of these steps comes to, each played as a line of a schedule, in a world that
/// stands at the first scene. No step and no line of it is kept: each step is taken as soon as it is
/// there, and let go.
pub fn summary_over<W: Stage>(
    alloc: Global,
    world: &mut W,
    mut steps: Schedule,
) -> Result<Summary, AllocError>
    requires { W.stands world.old first_disk_scene }
    ensures { IfOk result
        (λ summary. summary ≡ summary_of_steps (measures_of W.spellings) steps) }
{
    let mut lines = Vec::new(alloc);
    let mut tally = Tally::new();
    let mut before = 0;
    while let Some(step) = steps.next(alloc)? {
        match take_line(alloc, before, step, world, &mut lines, &mut tally)? {
            Turn::GoesOn => before += 1,
            Turn::Refused => return Ok(tally.summary()),
        }
    }
    Ok(tally.summary())
}
