//! The leader of a view.

ghost use Rattle.std.specs.Prelude.{◌≡◌, ℕ, ◌≤◌, min, is_some, IfOk, IfErr, IsTrue};
ghost use Rattle.group_rules.specs.Limits.{is_open};
ghost use Rattle.group_rules.specs.Moves.{Flushing, act, acts};
ghost use Rattle.group_rules.specs.Names.{number_of_view, place_of};
ghost use Rattle.group_rules.specs.Open.{base_tests, on_formed, rebase};
ghost use Rattle.group_rules.specs.Places.{Zero, all_of};
ghost use Rattle.replica.specs.Leading.{Outer, led, partner_of, place_led, waiting};
ghost use Rattle.replica.specs.Trees.{KeepsTree};
ghost use Rattle.volatile_log.specs.Log.{dropped_to, lowered_to, top};

mod acks;
mod asks;
mod cells;
mod listing;
mod opening;
mod reads;
mod storing;
mod ticks;

use harp_types::{LOG_ROOM, Peer, ServerId, ViewNo};
use promise::{Deadline, Grant};
use std::alloc::Global;
use std::collections::VecDeque;
use std::marker::Model;
use tree_log::TreeLog;
use volatile_log::{ActiveLog, FrozenLog};

/// Who is the partner of a leader.
#[derive(Clone, Copy)]
pub(crate) enum Beside {
    /// Server 1, of server 0.
    DataServer,
    /// Server 2, of server 0 or 1.
    Witness,
}

impl Beside {
    /// The partner.
    pub(crate) fn partner(self) -> ServerId
        ensures { place_of result ≡ partner_of self }
    {
        match self {
            Beside::DataServer => ServerId::One,
            Beside::Witness => ServerId::Two,
        }
    }
}

/// The server that leads a view which it accepted. It waits for its partner's Formed and for the
/// view's horizon, and then the view is open. Its contracts see it as a server of the group's rules
/// (`led`), whatever the rest of the server is, and who asked for the records above its CP.
#[derive(Drop)]
pub struct Leader {
    view: ViewNo,
    beside: Beside,
    /// How many records the view started with.
    start: u64,
    /// Up to when promises of older views may run.
    horizon: Deadline,
    log: TreeLog,
    /// The LB of the partner's Formed, until the view opens.
    formed: Option<u64>,
    opened: bool,
    /// The greatest top, LB and promise that the partner's Acks told.
    told_top: u64,
    told_lb: u64,
    grant: Grant,
    /// Who asked for the records above CP, in their order.
    waiting: VecDeque<Peer>,
}

impl Model for Leader {
    ghost use Rattle.std.specs.Prelude.{◌≤◌};
    ghost use Rattle.std.specs.VecDeque.{deque_capacity};
    ghost use Rattle.group_rules.specs.Names.{number_of_view};
    ghost use Rattle.replica.specs.Leading.{IsLeading, Leading};
    ghost use Rattle.volatile_log.specs.Log.{room};

    ghost Value = { Leading };

    ghost view = { λ l. record {
      view = number_of_view l.view;
      beside = l.beside;
      start = l.start;
      horizon = l.horizon;
      log = l.log.log;
      cached = l.log.cached;
      formed = l.formed;
      opened = l.opened;
      told_top = l.told_top;
      told_lb = l.told_lb;
      grant = l.grant;
      peers = l.waiting.items;
    } };

    ghost invariant = { λ l. IsLeading (record {
      view = number_of_view l.view;
      beside = l.beside;
      start = l.start;
      horizon = l.horizon;
      log = l.log.log;
      cached = l.log.cached;
      formed = l.formed;
      opened = l.opened;
      told_top = l.told_top;
      told_lb = l.told_lb;
      grant = l.grant;
      peers = l.waiting.items;
    }) × (room ≤ deque_capacity l.waiting) };
}

impl Leader {
    /// The leader of a view that it has just accepted, with this log. `start` is the log's top. It
    /// fails only for want of memory, and then the log comes back.
    pub fn of(
        alloc: Global,
        log: ActiveLog,
        view: ViewNo,
        partner: ServerId,
        start: u64,
        horizon: Deadline,
    ) -> Result<Leader, ActiveLog>
        requires partner { place_of partner ≡ Zero → ⊥ }
        requires start { start ≡ top log }
        ensures ok { IfOk result (λ leader. leader
            ≡ waiting (number_of_view view) leader.beside start horizon log) }
        ensures partner { IfOk result (λ leader. partner_of leader.beside ≡ place_of partner) }
        ensures err { IfErr result (λ back. back ≡ log) }
    {
        let beside = match partner {
            ServerId::Zero => unreachable!(),
            ServerId::One => Beside::DataServer,
            ServerId::Two => Beside::Witness,
        };
        let waiting = match VecDeque::with_capacity(alloc, LOG_ROOM) {
            Ok(waiting) => waiting,
            Err(_) => return Err(log),
        };
        match TreeLog::of(alloc, log) {
            Ok(log) => Ok(Leader {
                view,
                beside,
                start,
                horizon,
                log,
                formed: None,
                opened: false,
                told_top: 0,
                told_lb: 0,
                grant: Grant::none(),
                waiting,
            }),
            Err(log) => Err(log),
        }
    }

    /// The log, just as it stands.
    pub fn log(&self) -> &ActiveLog
        ensures { result.now ≡ self.now.log }
    {
        self.log.log()
    }

    /// Whether the view is open.
    pub fn is_open(&self) -> bool
        ensures value { result ≡ self.now.opened }
        ensures mode { (o : Outer) → result ≡ is_open (led self.now o).mode }
    {
        self.opened
    }

    /// Whether the partner's Formed is kept. An open leader keeps none.
    pub fn has_formed(&self) -> bool
        ensures { result ≡ is_some self.now.formed }
    {
        self.formed.is_some()
    }

    /// Keeps the partner's Formed, with an LB that is within the view's start. The last one counts.
    /// An open leader heeds none.
    pub fn formed(&mut self, lb: u64)
        ensures heard { (o : Outer) (clock : ℕ) → let s = led self.old o in led self.new o
            ≡ acts (place_led self.old o) clock s
            (on_formed s (partner_of self.old.beside) s.accepted lb) }
        ensures peers { self.new.peers ≡ self.old.peers }
        ensures cached { self.new.cached ≡ self.old.cached }
        ensures log { self.new.log ≡ self.old.log }
    {
        if !self.opened {
            self.formed = Some(lb);
        }
    }

    /// The base moves where that is due: in an open view beside a data server, to the smaller of
    /// the two LBs.
    pub fn rebase(&mut self)
        ensures state { (o : Outer) (clock : ℕ) → let s = led self.old o in led self.new o
            ≡ acts (place_led self.old o) clock s (rebase s) }
        ensures peers { self.new.peers ≡ self.old.peers }
        ensures cached { self.new.cached ≡ self.old.cached }
        ensures log { self.new.log ≡ dropped_to self.old.log self.new.log.base }
        ensures tree { KeepsTree self.old.log self.new.log }
    {
        let base = self.log.lb().min(self.told_lb);
        if self.moves_base(base) {
            self.log.drop_to(base);
        }
    }

    /// Whether the base moves to this number.
    fn moves_base(&self, base: u64) -> bool
        requires { base ≡ min self.now.log.lb self.now.told_lb }
        ensures tests { (o : Outer) → result ≡ all_of (base_tests (led self.now o)) }
        ensures above { IsTrue result → self.now.log.base ≤ base }
    {
        match self.beside {
            Beside::DataServer => self.opened && self.log.base() < base,
            Beside::Witness => false,
        }
    }

    /// Keeps that all that is applied is on the disk.
    pub fn lower(&mut self)
        ensures log { self.new ≡ record self.old { log = lowered_to self.old.log self.old.log.ap } }
        ensures flushes { (o : Outer) (clock : ℕ) → led self.new o
            ≡ act (place_led self.old o) clock (led self.old o) Flushing }
        ensures tree { KeepsTree self.old.log self.new.log }
    {
        let ap = self.log.ap();
        self.log.lower_to(ap);
    }

    /// The same log, to which nothing is added and in which nothing is committed any more.
    pub fn freeze(self) -> FrozenLog
        ensures { result ≡ self.log }
    {
        self.log.freeze()
    }
}
