//! The words of promises and of a view's choice. Moments are milliseconds of a clock.

use crate::logs::words::{Answer, number_of, server};
use harp_types::{Held, ServerId, Trio, ViewNo};
use idle_log::Form;
use promise::{Deadline, Delta, Grant, Horizon, may_open};
use view_form::{Collector, JoinInfo, Plan, choose};

/// What a leader was promised, and what a server promised.
#[derive(Drop)]
pub(crate) struct Promises {
    grant: Grant,
    horizon: Horizon,
}

/// How long promises of so many milliseconds last, where any may.
fn length(millis: u64) -> Option<Delta> {
    Delta::of(u32::try_from(millis).ok()?)
}

/// The horizon of a boot at a moment, with the longest length of its disk and its own.
fn booted(now: u64, longest: u64, own: u64) -> Option<Horizon> {
    let (longest, own) = (length(longest)?, length(own)?);
    if now >= 1 << 62 || own.get() > longest.get() {
        return None;
    }
    Some(Horizon::boot(now, longest, own))
}

/// Whether a view opens at a moment with a horizon.
fn opens(now: u64, horizon: u64) -> Option<Answer> {
    Some(Answer::of(may_open(now, Deadline::of(horizon)?)))
}

/// The longer of the first length and another.
fn longer(millis: u64) -> Option<Answer> {
    Some(Answer::One(u64::from(Delta::first().longer(length(millis)?).get())))
}

/// A leader that takes a promise.
fn take(grant: &mut Grant, until: u64) -> Option<Answer> {
    grant.take(Deadline::of(until)?);
    Some(Answer::Nothing)
}

/// A server that promises at a moment.
fn promise(horizon: &mut Horizon, now: u64) -> Option<Answer> {
    if now >= 1 << 62 {
        return None;
    }
    Some(Answer::One(horizon.give(now).get()))
}

impl Promises {
    /// No promise.
    pub(crate) fn new() -> Promises {
        let first = Delta::first();
        Promises {
            grant: Grant::none(),
            horizon: Horizon::boot(0, first, first),
        }
    }

    /// A server that boots.
    fn boot(&mut self, now: u64, longest: u64, own: u64) -> Option<Answer> {
        self.horizon = booted(now, longest, own)?;
        Some(Answer::Nothing)
    }

    /// Whether a view `opens` at a moment with a horizon; whether there is a `length` or a
    /// `deadline`; the `longer` of the first length and another; a leader that `takes` a promise,
    /// and whether it `allows` a read; a server that `boots`, `promises` at a moment, and `until`
    /// when its promises may run.
    pub(crate) fn step(&mut self, name: &str, numbers: [u64; 7]) -> Option<Answer> {
        let [first, second, third, ..] = numbers;
        match name {
            "opens" => opens(first, second),
            "length" => Some(Answer::of(length(first).is_some())),
            "deadline" => Some(Answer::of(Deadline::of(first).is_some())),
            "longer" => longer(first),
            "takes" => take(&mut self.grant, first),
            "allows" => Some(Answer::of(self.grant.allows(first))),
            "boots" => self.boot(first, second, third),
            "promises" => promise(&mut self.horizon, first),
            "until" => Some(Answer::One(self.horizon.until().get())),
            _ => None,
        }
    }
}

/// The joins of a view, and those that its coordinator has, once there is one.
#[derive(Drop)]
pub(crate) struct Choices {
    joins: Trio<Option<JoinInfo>>,
    collector: Option<Collector>,
}

/// A choice: its leader, partner and source, base, CP, start and horizon, as its Form has them.
fn told(choice: Option<Plan>) -> Answer {
    let Some(choice) = choice else {
        return Answer::Says("none");
    };
    let form = Form::of(&choice);
    Answer::Seven([
        number_of(form.storers.leader()),
        number_of(form.storers.partner()),
        number_of(form.source),
        form.base,
        form.cp,
        form.start,
        form.horizon.get(),
    ])
}

/// What a server tells that joins: behind its number the count of the view that it accepted of
/// server 0, base, CP, top and horizon.
fn info_of(held: Held, numbers: [u64; 7]) -> Option<JoinInfo> {
    let [_, count, base, cp, top, horizon, _] = numbers;
    Some(JoinInfo {
        held,
        accepted: ViewNo::of(count, ServerId::Zero)?,
        base,
        lb: base,
        cp,
        top,
        horizon: Deadline::of(horizon)?,
    })
}

/// Keeps the join of a server.
fn put(joins: &mut Trio<Option<JoinInfo>>, from: ServerId, info: JoinInfo) {
    match from {
        ServerId::Zero => joins.zero = Some(info),
        ServerId::One => joins.one = Some(info),
        ServerId::Two => joins.two = Some(info),
    }
}

impl Choices {
    /// No join.
    pub(crate) fn new() -> Choices {
        let (zero, one, two) = (None, None, None);
        Choices {
            joins: Trio { zero, one, two },
            collector: None,
        }
    }

    /// A server that `joins-held`, `joins-lost` or `joins-empty`, with the count of the view that
    /// it accepted of server 0, base, CP, top and horizon; what the joins `choose`; and a
    /// coordinator that `collects` joins for its view, server 0's from the first on.
    pub(crate) fn step(&mut self, name: &str, numbers: [u64; 7]) -> Option<Answer> {
        match name {
            "joins-held" => self.add(Held::Held, numbers),
            "joins-lost" => self.add(Held::Lost, numbers),
            "joins-empty" => self.add(Held::Empty, numbers),
            "choose" => Some(told(choose(&self.joins))),
            "collects" => self.collect(numbers[0]),
            _ => None,
        }
    }

    /// Adds a join, and tells the choice that a coordinator makes by it.
    fn add(&mut self, held: Held, numbers: [u64; 7]) -> Option<Answer> {
        let info = info_of(held, numbers)?;
        let from = server(numbers[0]);
        match &mut self.collector {
            Some(collector) => Some(told(collector.join(from, info))),
            None => {
                put(&mut self.joins, from, info);
                Some(Answer::Nothing)
            }
        }
    }

    /// Begins a collector, and tells the count of its view and how many joins it has of server 0.
    fn collect(&mut self, count: u64) -> Option<Answer> {
        let view = ViewNo::of(count, ServerId::Zero)?;
        let collector = Collector::new(view, self.joins.zero?);
        let own = u64::from(collector.joins().zero.is_some());
        let answer = Answer::Two([collector.view().count(), own]);
        self.collector = Some(collector);
        Some(answer)
    }
}
