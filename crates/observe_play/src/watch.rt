//! An observer, and the packets that reach it.

ghost use Rattle.std.specs.Prelude.{◌≡◌, ◌≢◌, ◌≤◌, ◌⊎◌, [], ◌∷◌, ◌++◌, IfErr, IfOk, IfSome, OnOk};
ghost use Rattle.std.specs.Prelude.{None, Some, false, length, slice_get};
ghost use Rattle.harp_types.specs.Update.{is_update};
ghost use Rattle.observe_play.specs.OnTheWay.{Makes, RefusesAct};
ghost use Rattle.observe_play.specs.Watch.{Does, StandsAt, as_lines};
ghost use Rattle.observe_laws.specs.Run.{act_refusal, top_lines};
ghost use Rattle.observe_laws.specs.Scene.{ObservedScene, first_observed, numbers_of as told_of};
ghost use Rattle.observe_laws.specs.Scene.{showing_of};
ghost use Rattle.observed_text.specs.declared.line.ObservedLine.TheVariants as lines;
ghost use Rattle.observed_text.specs.declared.step.Act.TheVariants as act;
ghost use Rattle.schedule_play.specs.Stage.{fault_of};
ghost use Rattle.shown.specs.Truth.{IsLowShown};

use crate::stage::ShowingStage;
use harp_types::{Call, ServerId};
use observed_text::{ObservedLine, ShownNumbers};
use observer::Observer;
use schedule_play::Refusal;
use shown::Shown;
use std::alloc::{AllocError, Global};
use std::marker::Model;

/// An observer, and all that was shown to it, each packet under its number from 0: one that was
/// shown may reach it late, and any number of times.
#[derive(Drop)]
pub struct Watch {
    observer: Observer,
    shown: Vec<Shown>,
}

impl Model for Watch {
    ghost use Rattle.std.specs.List.{AllByRecursion};
    ghost use Rattle.observe_play.specs.Watch.{WatchValue};
    ghost use Rattle.shown.specs.Truth.{IsLowShown};

    ghost Value = { WatchValue };

    ghost view = { λ x. record { observer = x.observer; shown = x.shown.items } };

    ghost invariant = { λ x. AllByRecursion IsLowShown x.shown.items };
}

/// What a trace tells of what is shown.
fn numbers_of(shown: &Shown) -> ShownNumbers
    ensures { result ≡ told_of (showing_of shown.now) }
{
    match shown {
        Shown::Cell { cp, .. } => ShownNumbers::Cell { cp: *cp },
        Shown::Records { first, records } => ShownNumbers::Records {
            first: *first,
            records: records.as_slice().len() as u64,
        },
        Shown::Gone { base } => ShownNumbers::Gone { base: *base },
    }
}

/// The line of a top, where it is another one than before.
fn newer(before: Option<u64>, after: Option<u64>) -> Option<ObservedLine>
    ensures { as_lines result ≡ top_lines before after }
{
    if before == after {
        return None;
    }
    match after {
        Some(top) => Some(ObservedLine::Observer { top }),
        None => None,
    }
}

impl Watch {
    /// An observer without a copy, to which nothing was shown.
    pub fn new(alloc: Global) -> Watch
        ensures { StandsAt first_observed result }
    {
        Watch {
            observer: Observer::new(alloc),
            shown: Vec::new(alloc),
        }
    }

    /// How many packets were shown: the number of the next one.
    pub fn count(&self) -> u64
        ensures { result ≡ length self.now.shown }
    {
        self.shown.len() as u64
    }

    /// The observer begins a new copy.
    pub fn copy(&mut self, alloc: Global)
        ensures { Does self.old self.new act.Copy None }
    {
        self.observer.copy(alloc);
    }

    /// A server shows what the observer wants, which is the next packet then. That it shows nothing
    /// comes where nothing is wanted too. It is refused where the server is down, also where
    /// nothing is wanted.
    pub fn want<W: ShowingStage>(
        &mut self,
        alloc: Global,
        server: ServerId,
        world: &mut W,
    ) -> Result<ObservedLine, Refusal>
        ensures made { IfOk result (λ line. Makes W.spellings (W.stands world.old)
            (W.stands world.new) self.old self.new (act.Want server) (Some line)) }
        ensures refused { IfErr result (RefusesAct (W.stands world.old) self.old
            (act.Want server)) }
        ensures kept { IfErr result (λ why. why ≢ Refusal.NoMemory
            → (self.new ≡ self.old) × (world.new ≡ world.old)) }
        ensures clocks { OnOk result (W.clocks world.new ≡ W.clocks world.old) }
    {
        if !world.is_up(server) {
            return Err(Refusal::ServerDown);
        }
        let Some(want) = self.observer.want() else {
            return Ok(ObservedLine::Unshown { server });
        };
        match world.show(alloc, server, &want) {
            Ok(Some(shown)) => self.keep(server, shown),
            Ok(None) => Ok(ObservedLine::Unshown { server }),
            Err(refusal) => Err(refusal),
        }
    }

    /// Keeps what a server showed as the next packet, and gives its line.
    fn keep(&mut self, server: ServerId, shown: Shown) -> Result<ObservedLine, Refusal>
        requires { IsLowShown shown }
        ensures line { IfOk result (λ line. line
            ≡ lines.Shown (length self.old.shown) server (told_of (showing_of shown))) }
        ensures kept { OnOk result (self.new
            ≡ record self.old { shown = self.old.shown ++ shown ∷ [] }) }
        ensures err { IfErr result (λ why. why ≡ Refusal.NoMemory) }
    {
        let packet = self.count();
        let numbers = numbers_of(&shown);
        match self.shown.push(shown) {
            Ok(()) => Ok(ObservedLine::Shown {
                packet,
                server,
                shown: numbers,
            }),
            Err(_) => Err(Refusal::NoMemory),
        }
    }

    /// The packet of this number, equal to what was shown.
    fn packet(&self, alloc: Global, packet: u64) -> Result<Shown, Refusal>
        ensures found { IfOk result (λ shown. slice_get self.now.shown packet ≡ Some shown) }
        ensures low { IfOk result IsLowShown }
        ensures err { IfErr result (λ why. (why ≡ Refusal.NoMemory)
            ⊎ ((why ≡ Refusal.NoPacket) × (length self.now.shown ≤ packet))) }
    {
        if packet >= self.count() {
            return Err(Refusal::NoPacket);
        }
        match self.shown[packet as usize].copy(alloc) {
            Ok(shown) => Ok(shown),
            Err(_) => Err(Refusal::NoMemory),
        }
    }

    /// The packet of this number reaches the observer, which gives a line where the updates of its
    /// finished copy are others than before.
    pub fn take(&mut self, alloc: Global, packet: u64) -> Result<Option<ObservedLine>, Refusal>
        ensures done { IfOk result (Does self.old self.new (act.Take packet)) }
        ensures refused { IfErr result (λ why. (o : ObservedScene) → StandsAt o self.old
            → IfSome (fault_of why) (λ fault. act_refusal o (act.Take packet) ≡ Some fault)) }
        ensures kept { IfErr result (λ why. why ≢ Refusal.NoMemory → self.new ≡ self.old) }
    {
        let shown = match self.packet(alloc, packet) {
            Ok(shown) => shown,
            Err(refusal) => return Err(refusal),
        };
        let before = self.observer.top();
        match self.observer.take(alloc, shown) {
            Ok(()) => Ok(newer(before, self.observer.top())),
            Err(_) => Err(Refusal::NoMemory),
        }
    }

    /// The line of the observer's answer to a read.
    pub fn peek(&mut self, alloc: Global, call: &Call) -> Result<ObservedLine, AllocError>
        requires { is_update call.now ≡ false }
        ensures { IfOk result (λ line. Does self.old self.new (act.Peek call.now) (Some line)) }
    {
        match self.observer.read(alloc, call)? {
            Some((updates, reply)) => Ok(ObservedLine::Peeked { updates, reply }),
            None => Ok(ObservedLine::Blind),
        }
    }
}
