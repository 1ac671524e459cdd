//! The partner of a view.

ghost use Rattle.node_outputs.specs.Records.{records_sent};
ghost use Rattle.std.specs.Prelude.{◌≡◌, ℕ, ◌<◌, ◌≤◌, ◌^◌, ◌+◌, ◌-◌, ◌++◌, ◌∷◌, [], drop, length, max, IfErr, IfOk, OnOk};
ghost use Rattle.event_record.specs.Record.{entry_of};
ghost use Rattle.group_rules.specs.Effects.{taken};
ghost use Rattle.group_rules.specs.Limits.{is_live, room};
ghost use Rattle.group_rules.specs.Moves.{Flushing, act};
ghost use Rattle.group_rules.specs.Names.{number_of_view, place_of};
ghost use Rattle.group_rules.specs.Places.{Two};
ghost use Rattle.group_rules.specs.Replicate.{on_event};
ghost use Rattle.group_rules.specs.Tick.{again};
ghost use Rattle.node_outputs.specs.Makes.{Makes};
ghost use Rattle.node_outputs.specs.Said.{said};
ghost use Rattle.replica.specs.Following.{acknowledged, followed, leader_of, next_of, place_followed, settled, unsettled, with_next};
ghost use Rattle.replica.specs.Leading.{Outer, at_horizon};
ghost use Rattle.replica.specs.Trees.{KeepsTree, KeepsTreeOfNext};
ghost use Rattle.volatile_log.specs.Log.{dropped_to, lowered_to, top};

mod cells;
mod listing;
mod storing;

use event_record::Record;
use harp_types::{ServerId, ViewNo};
use node_outputs::Outputs;
use promise::Horizon;
use std::alloc::{AllocError, Global};
use std::marker::Model;
use tree_log::TreeLog;
use volatile_log::{ActiveLog, FrozenLog};
use wire::Message;

/// Who leads a partner.
#[derive(Clone, Copy)]
pub(crate) enum Ahead {
    /// Server 0, of server 1 or 2.
    Zero,
    /// Server 1, of server 2.
    One,
}

impl Ahead {
    /// The leader.
    pub(crate) fn leader(self) -> ServerId
        ensures { place_of result ≡ leader_of self }
    {
        match self {
            Ahead::Zero => ServerId::Zero,
            Ahead::One => ServerId::One,
        }
    }
}

/// The server that follows the leader of a view which it accepted. It is settled once it heeded an
/// Event or a Beat of the view. Its contracts see it as a server of the group's rules (`followed`),
/// whatever the rest of the server is.
#[derive(Drop)]
pub struct Partner {
    view: ViewNo,
    ahead: Ahead,
    /// How many records the view started with.
    start: u64,
    log: TreeLog,
    settled: bool,
}

impl Model for Partner {
    ghost use Rattle.group_rules.specs.Names.{number_of_view};
    ghost use Rattle.replica.specs.Following.{Following};

    ghost Value = { Following };

    ghost view = { λ p. record {
      view = number_of_view p.view;
      ahead = p.ahead;
      start = p.start;
      log = p.log.log;
      cached = p.log.cached;
      settled = p.settled;
    } };
}

impl Partner {
    /// The partner in a view that it has just accepted, with this log. `start` is the log's top. It
    /// fails only for want of memory, and then the log comes back.
    pub fn of(
        alloc: Global,
        log: ActiveLog,
        view: ViewNo,
        leader: ServerId,
        start: u64,
    ) -> Result<Partner, ActiveLog>
        requires leader { place_of leader ≡ Two → ⊥ }
        requires start { start ≡ top log }
        ensures ok { IfOk result (λ partner. partner
            ≡ unsettled (number_of_view view) partner.ahead start log) }
        ensures leader { IfOk result (λ partner. leader_of partner.ahead ≡ place_of leader) }
        ensures err { IfErr result (λ back. back ≡ log) }
    {
        let ahead = match leader {
            ServerId::Zero => Ahead::Zero,
            ServerId::One => Ahead::One,
            ServerId::Two => unreachable!(),
        };
        match TreeLog::of(alloc, log) {
            Ok(log) => Ok(Partner {
                view,
                ahead,
                start,
                log,
                settled: false,
            }),
            Err(log) => Err(log),
        }
    }

    /// The log, just as it stands.
    pub fn log(&self) -> &ActiveLog
        ensures { result.now ≡ self.now.log }
    {
        self.log.log()
    }

    /// Whether it heeded an Event or a Beat of the view.
    pub fn is_settled(&self) -> bool
        ensures value { result ≡ self.now.settled }
        ensures mode { (o : Outer) → result ≡ is_live (followed self.now o).mode }
    {
        self.settled
    }

    /// Deals with a Beat of the view, whose base is at most the log's LB: the partner drops to the
    /// base, CP rises, and the leader gets an Ack with a promise from this reading of the clock on.
    pub fn beat(
        &mut self,
        cp: u64,
        base: u64,
        now: u64,
        horizon: &mut Horizon,
        outs: &mut Outputs,
    ) -> Result<(), AllocError>
        requires base { base ≤ self.old.log.lb }
        requires now { now < 2 ^ 62 }
        ensures log { self.new ≡ settled (record self.old {
          log = dropped_to self.old.log (max self.old.log.base base);
        }) cp }
        ensures makes { OnOk result ((o : Outer)
            → let s = followed self.old (at_horizon o horizon.old) in
            let q = place_followed self.old o in
            Makes q now (on_event q now s (leader_of self.old.ahead) s.accepted cp base s.items) []
            s (followed self.new (at_horizon o horizon.new)) outs.old outs.new) }
        ensures tree { KeepsTree self.old.log self.new.log }
    {
        self.drop_to(base);
        self.acknowledge(cp, now, horizon, outs)
    }

    /// CP rises, and the leader gets an Ack with a promise from this reading of the clock on.
    fn acknowledge(
        &mut self,
        cp: u64,
        now: u64,
        horizon: &mut Horizon,
        outs: &mut Outputs,
    ) -> Result<(), AllocError>
        requires { now < 2 ^ 62 }
        ensures state { self.new ≡ settled self.old cp }
        ensures horizon { horizon.new ≡ record horizon.old {
          until = max horizon.old.until
              (now + horizon.old.delta);
        } }
        ensures said { OnOk result (said outs.new ≡ record (said outs.old) {
          sends = (said outs.old).sends ++ acknowledged self.old (now + horizon.old.delta) ∷ [];
        }) }
        ensures tree { KeepsTree self.old.log self.new.log }
    {
        let top = self.log.top();
        let lb = self.log.lb();
        self.log.commit_to(self.log.cp().max(cp.min(top)));
        self.settled = true;
        let until = horizon.give(now);
        outs.send(
            self.ahead.leader(),
            Message::Ack {
                view: self.view,
                top,
                lb,
                until,
            },
        )
    }

    /// Drops the records up to a base that is at most LB, where that is above the log's.
    fn drop_to(&mut self, base: u64)
        requires { base ≤ self.old.log.lb }
        ensures log { self.new ≡ record self.old {
          log = dropped_to self.old.log
              (max self.old.log.base base);
        } }
        ensures within { base ≤ top self.old.log }
        ensures tree { KeepsTree self.old.log self.new.log }
    {
        let base = base.max(self.log.base());
        self.log.drop_to(base);
    }

    /// Deals with an Event of the view, whose base is at most the log's LB and for whose record the
    /// log has room where it is the next one: the record goes to the log where it is, and then all
    /// is as with a Beat. It is the very record that came. An error is want of memory.
    pub fn event(
        &mut self,
        cp: u64,
        base: u64,
        item: Record,
        now: u64,
        horizon: &mut Horizon,
        outs: &mut Outputs,
    ) -> Result<(), AllocError>
        requires base { base ≤ self.old.log.lb }
        requires room { item.index ≡ top self.old.log + 1
            → length self.old.log.records < room + (base - self.old.log.base) }
        requires now { now < 2 ^ 62 }
        ensures log { OnOk result (self.new ≡ settled (record self.old {
          log = with_next (dropped_to self.old.log (max self.old.log.base base)) item;
        }) cp) }
        ensures records { OnOk result (self.new.log.records ≡ drop (base - self.old.log.base)
            (self.old.log.records ++ next_of self.old.log item)) }
        ensures makes { OnOk result ((o : Outer)
            → let s = followed self.old (at_horizon o horizon.old) in
            let q = place_followed self.old o in
            Makes q now (on_event q now s (leader_of self.old.ahead) s.accepted cp base
            (taken s item.index (entry_of item))) [] s (followed self.new
            (at_horizon o horizon.new)) outs.old outs.new) }
        ensures tree { OnOk result (KeepsTreeOfNext item self.old.log self.new.log) }
    {
        self.drop_to(base);
        self.take(item)?;
        self.acknowledge(cp, now, horizon, outs)
    }

    /// Takes a record to the log where its index is the next one.
    #[tactic(auto, unfolding(group_rules::specs::Limits::room))]
    fn take(&mut self, item: Record) -> Result<(), AllocError>
        requires { item.index ≡ top self.old.log + 1 → length self.old.log.records < room }
        ensures log { OnOk result (self.new ≡ record self.old {
          log = with_next self.old.log item;
        }) }
        ensures tree { OnOk result (KeepsTreeOfNext item self.old.log self.new.log) }
    {
        let _ = self.log.top();
        if item.index().get() == self.log.top() + 1 {
            return self.log.append(item);
        }
        Ok(())
    }

    /// A partner that isn't settled sends its Formed again.
    #[tactic(auto, unfolding(group_rules::specs::Places::all_of))]
    pub fn tick(&self, outs: &mut Outputs) -> Result<(), AllocError>
        ensures makes { OnOk result ((o : Outer) (clock : ℕ) → let s = followed self.now o in
            let q = place_followed self.now o in Makes q clock
            (again q s) [] s s outs.old outs.new) }
        ensures records { OnOk result (records_sent outs.new ≡ records_sent outs.old) }
    {
        if self.settled {
            return Ok(());
        }
        let lb = self.log.lb();
        outs.send(
            self.ahead.leader(),
            Message::Formed {
                view: self.view,
                lb,
            },
        )
    }

    /// Keeps that all that is applied is on the disk.
    pub fn lower(&mut self)
        ensures log { self.new ≡ record self.old { log = lowered_to self.old.log self.old.log.ap } }
        ensures flushes { (o : Outer) (clock : ℕ) → followed self.new o
            ≡ act (place_followed self.old o) clock (followed self.old o) Flushing }
        ensures tree { KeepsTree self.old.log self.new.log }
    {
        let ap = self.log.ap();
        self.log.lower_to(ap);
    }

    /// The same log, to which nothing is added and in which nothing is committed any more.
    pub fn freeze(self) -> FrozenLog
        ensures { result ≡ self.log }
    {
        self.log.freeze()
    }
}
