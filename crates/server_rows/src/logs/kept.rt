//! The words of what a server holds.

ghost use Rattle.std.specs.Prelude.{◌≡◌, ◌<◌};
ghost use Rattle.group_rules.specs.Names.{place_of};
ghost use Rattle.idle_log.specs.Kept.{plan_of};
ghost use Rattle.idle_log.specs.Pulls.{CanTake, IsFor};
ghost use Rattle.volatile_log.specs.Log.{next};

use crate::logs::active::{active, served};
use crate::logs::placed::{can_take, form_of, is_placed};
use crate::logs::pulls::pulled;
use crate::logs::words::{Answer, server};
use harp_cells::ChangeLog;
use harp_types::{Held, Role, ServerId, ViewNo};
use idle_log::{Form, Kept, can_have};
use promise::Deadline;
use std::alloc::Global;
use volatile_log::{ActiveLog, EmptyLog, FrozenLog, LostLog, Staged};

/// A log that is active, and what a server holds where none is.
#[derive(Drop)]
pub(crate) struct Logs {
    active: Option<ActiveLog>,
    kept: Kept,
}

impl Logs {
    /// Nothing is held.
    pub(crate) fn new() -> Logs {
        Logs {
            active: None,
            kept: Kept::Empty(EmptyLog::new()),
        }
    }

    /// Takes a word. A log `starts` anew, or `freezes`; where none is active, a server `accepts` a
    /// Form.
    pub(crate) fn step(&mut self, alloc: Global, name: &str, numbers: [u64; 7]) -> Option<Answer> {
        match name {
            "starts" => start(alloc, &mut self.active),
            "freezes" => freeze(&mut self.active, &mut self.kept),
            _ => self.go_on(alloc, name, numbers),
        }
    }

    /// Takes a word of an active log, or of what is held where none is.
    fn go_on(&mut self, alloc: Global, name: &str, numbers: [u64; 7]) -> Option<Answer> {
        if let Some(log) = &mut self.active {
            return active(alloc, log, name, numbers);
        }
        if name == "accepts" {
            return accept(alloc, &mut self.kept, &mut self.active, numbers);
        }
        match look(alloc, &self.kept, name, numbers) {
            Some(answer) => Some(answer),
            None => change(&mut self.kept, name, numbers),
        }
    }
}

/// From here on this log is active.
fn activate(active: &mut Option<ActiveLog>, log: ActiveLog) {
    *active = Some(log);
}

/// From here on this is held.
fn keep(kept: &mut Kept, now: Kept) {
    *kept = now;
}

/// Starts a log.
fn start(alloc: Global, active: &mut Option<ActiveLog>) -> Option<Answer> {
    activate(active, ActiveLog::start(alloc).ok()?);
    Some(Answer::Nothing)
}

/// Freezes the log that is active.
fn freeze(active: &mut Option<ActiveLog>, kept: &mut Kept) -> Option<Answer> {
    let log = active.take()?;
    keep(kept, Kept::Held(log.freeze()));
    Some(Answer::Nothing)
}

/// What is `held`; what a join `tells`; what it `serves`; whether a server can have a role that
/// `leads` another; and whether what a server holds `fits` a Form.
fn look(alloc: Global, kept: &Kept, name: &str, numbers: [u64; 7]) -> Option<Answer> {
    let [first, second, ..] = numbers;
    match name {
        "held" => Some(held(kept)),
        "tells" => told(kept, first, second),
        "serves" => serve(alloc, kept, first, second),
        "leads" => Some(Answer::of(can_have(server(first), Role::Leads(server(second))))),
        "fits" => fits(kept, numbers),
        _ => match kept {
            Kept::Held(log) => look_into(log, name, first),
            Kept::Lost(_) => None,
            Kept::Empty(_) => None,
        },
    }
}

/// What is held.
fn held(kept: &Kept) -> Answer {
    Answer::Says(match kept.held() {
        Held::Held => "held",
        Held::Lost => "lost",
        Held::Empty => "empty",
    })
}

/// What a join tells, with AP: the count of the accepted view, the horizon, base, LB, AP, CP, top.
fn told(kept: &Kept, count: u64, horizon: u64) -> Option<Answer> {
    let accepted = ViewNo::of(count, ServerId::Zero)?;
    let join = kept.report(accepted, Deadline::of(horizon)?);
    let (count, horizon) = (join.accepted.count(), join.horizon.get());
    let ap = kept.ap();
    Some(Answer::Seven([count, horizon, join.base, join.lb, ap, join.cp, join.top]))
}

/// What is served.
fn serve(alloc: Global, kept: &Kept, first: u64, last: u64) -> Option<Answer> {
    match kept.serve(alloc, first, last) {
        Ok(records) => Some(served(&records)),
        Err(_) => None,
    }
}

/// Whether what a server holds fits a Form.
fn fits(kept: &Kept, numbers: [u64; 7]) -> Option<Answer> {
    let (me, form) = form_of(numbers)?;
    if is_placed(me, kept) {
        Some(Answer::of(kept.fits(me, form.base, &form)))
    } else {
        None
    }
}

/// The `item` of an index of a frozen log, and its `ends`.
fn look_into(log: &FrozenLog, name: &str, index: u64) -> Option<Answer> {
    match name {
        "item" => Some(item(log, index)),
        "ends" => Some(Answer::Two([log.first(), log.last()])),
        _ => None,
    }
}

/// The index of a record that is held.
fn item(log: &FrozenLog, index: u64) -> Answer {
    match log.item(index) {
        Some(item) => Answer::One(item.index().get()),
        None => Answer::Says("none"),
    }
}

/// What becomes of what is held: it `forgets`, is `lost` with an LB, or is that of a boot that
/// takes the saved log, or of one whose mark stands `outside` or was `leading`.
fn change(kept: &mut Kept, name: &str, numbers: [u64; 7]) -> Option<Answer> {
    let [first, second, third, ..] = numbers;
    match name {
        "forgets" => forget(kept),
        "lost" => keep(kept, Kept::Lost(LostLog::of(first))),
        "outside" => unload(kept, server(first), Role::Outside, second),
        "leading" => unload(kept, server(first), Role::Leads(server(second)), third),
        "boots" => return load(kept, server(first)),
        _ => return None,
    }
    Some(Answer::Nothing)
}

/// What is held, in whose place nothing is left.
fn taken(kept: &mut Kept) -> Kept
    ensures { result ≡ kept.old }
{
    std::mem::replace(kept, Kept::Empty(EmptyLog::new()))
}

/// Nothing is held any more.
fn forget(kept: &mut Kept) {
    let now = taken(kept).forget();
    keep(kept, now);
}

/// A boot with a mark of this role, whose saved log it doesn't take.
fn unload(kept: &mut Kept, me: ServerId, role: Role, lb: u64) {
    keep(kept, Kept::unloaded(me, role, lb));
}

/// A boot that takes the saved log.
fn load(kept: &mut Kept, me: ServerId) -> Option<Answer> {
    let log = taken(kept).into_log()?;
    keep(kept, Kept::loaded(me, log));
    Some(Answer::Nothing)
}

/// Accepts a Form, with records that are pulled. It tells the index of the record that was wanted
/// first, and of the one behind those that were pulled.
fn accept(
    alloc: Global,
    kept: &mut Kept,
    active: &mut Option<ActiveLog>,
    numbers: [u64; 7],
) -> Option<Answer> {
    let (me, form) = form_of(numbers)?;
    if !can_take(me, kept, &form) {
        return None;
    }
    let (staged, answer) = pulled(alloc, kept, me, &form)?;
    activate(active, take_up(taken(kept), me, &form, staged)?);
    Some(answer)
}

/// The log that a server goes on with.
fn take_up(kept: Kept, me: ServerId, form: &Form, staged: Staged) -> Option<ActiveLog>
    requires can { CanTake (place_of me) kept (plan_of form.now) }
    requires pulled { IsFor (place_of me) kept (plan_of form.now) staged }
    requires full { staged.start < next staged }
{
    match kept.take_up(me, form, staged) {
        Ok(log) => Some(log),
        Err(_) => None,
    }
}
