//! The acts of an observer: each one's lines are written before the next act.

ghost use Rattle.std.specs.Prelude.{◌≡◌, ◌≢◌, ◌≤◌, ℕ, List, Option, suc, IfErr, IfOk, OnOk};
ghost use Rattle.std.specs.Prelude.{MatchResult, Err, Ok, Some, true};
ghost use Rattle.harp_types.specs.Streams.{Rose};
ghost use Rattle.group_trace.specs.DiskCalls.{measures_of};
ghost use Rattle.observe_play.specs.OnTheWay.{DrainTurn, HasObserved, LeadsOn, Makes, ObservedStop};
ghost use Rattle.observe_play.specs.OnTheWay.{RefusesAct, with_act, with_drain};
ghost use Rattle.observe_play.specs.Watch.{AsksReads};
ghost use Rattle.observe_laws.specs.Reading.{ObservedReading, with_observed_given};
ghost use Rattle.observe_laws.specs.Run.{is_act_elementary};
ghost use Rattle.observed_text.specs.declared.step.ObservedStep.TheVariants as steps;
ghost use Rattle.observe_laws.specs.Scene.{ObservedScene};

use crate::stage::ShowingStage;
use crate::text::write_act;
use crate::watch::Watch;
use harp_types::{ServerId, Sink};
use observed_text::{Act, ObservedLine};
use schedule_play::{Refusal, Stop, Turn, refuse};
use std::alloc::Global;

/// Makes an act, no drain, and gives its line behind its event line, where it has one. An act that
/// is refused changes nothing.
fn give<W: ShowingStage>(
    alloc: Global,
    act: &Act,
    watch: &mut Watch,
    world: &mut W,
) -> Result<Option<ObservedLine>, Refusal>
    requires single { is_act_elementary act.now ≡ true }
    requires reads { AsksReads act.now }
    ensures made { IfOk result (Makes W.spellings (W.stands world.old) (W.stands world.new)
        watch.old watch.new act.now) }
    ensures refused { IfErr result (RefusesAct (W.stands world.old) watch.old act.now) }
    ensures kept { IfErr result (λ why. why ≢ Refusal.NoMemory
        → (watch.new ≡ watch.old) × (world.new ≡ world.old)) }
    ensures clocks { OnOk result (W.clocks world.new ≡ W.clocks world.old) }
{
    match act {
        Act::Copy => {
            watch.copy(alloc);
            Ok(None)
        }
        Act::Want { server } => match watch.want(alloc, *server, world) {
            Ok(line) => Ok(Some(line)),
            Err(refusal) => Err(refusal),
        },
        Act::Take { packet } => watch.take(alloc, *packet),
        Act::Drain { .. } => Ok(None),
        Act::Peek { call } => match watch.peek(alloc, call) {
            Ok(line) => Ok(Some(line)),
            Err(_) => Err(Refusal::NoMemory),
        },
    }
}

/// Makes an act, no drain, of the line with this number, and writes its lines.
fn act_once<W: ShowingStage, K: Sink>(
    alloc: Global,
    number: u64,
    act: Act,
    watch: &mut Watch,
    world: &mut W,
    sink: &mut K,
) -> Result<Turn, Stop>
    requires single { is_act_elementary act ≡ true }
    requires reads { AsksReads act }
    ensures ends { LeadsOn W.spellings (λ rest. with_act (measures_of W.spellings) number act rest)
        (W.stands world.old) (W.stands world.new) (K.written sink.old) (K.written sink.new)
        watch.old watch.new result }
    ensures clocks { IfOk result (λ _. W.clocks world.new ≡ W.clocks world.old) }
    ensures rose { result ≡ Err Stop.SinkFailed → Rose (K.faults sink.old) (K.faults sink.new) }
    ensures count { K.faults sink.old ≤ K.faults sink.new }
    ensures own { result ≡ Err Stop.SourceFailed → ⊥ }
{
    match give(alloc, &act, watch, world) {
        Ok(given) => match write_act(alloc, act, given, sink) {
            Ok(()) => Ok(Turn::GoesOn),
            Err(stop) => Err(stop),
        },
        Err(refusal) => match refusal.fault() {
            Some(fault) => refuse(alloc, number, fault, sink),
            None => Err(Stop::NoMemory),
        },
    }
}

/// A server shows what is wanted, and that reaches the observer. It is over where nothing was
/// shown.
fn drain_once<W: ShowingStage, K: Sink>(
    alloc: Global,
    number: u64,
    server: ServerId,
    watch: &mut Watch,
    world: &mut W,
    sink: &mut K,
) -> Result<Option<Turn>, Stop>
    ensures ends { (most : ℕ) (all : ObservedReading) (rest : ObservedScene → ObservedReading)
        (before : Option (List ℕ)) → HasObserved W.spellings all
        (with_drain (measures_of W.spellings) number (suc most) server rest) before
        (K.written sink.old) (W.stands world.old) watch.old
        → MatchResult result (DrainTurn W.spellings all
        (with_drain (measures_of W.spellings) number most server rest) rest before
        (K.written sink.new) (W.stands world.new) watch.new)
        (ObservedStop W.spellings all before (K.written sink.new) (W.stands world.new)) }
    ensures clocks { IfOk result (λ _. W.clocks world.new ≡ W.clocks world.old) }
    ensures rose { result ≡ Err Stop.SinkFailed → Rose (K.faults sink.old) (K.faults sink.new) }
    ensures count { K.faults sink.old ≤ K.faults sink.new }
    ensures own { result ≡ Err Stop.SourceFailed → ⊥ }
{
    let packet = watch.count();
    match act_once(alloc, number, Act::Want { server }, watch, world, sink) {
        Ok(Turn::GoesOn) => {}
        Ok(Turn::Ended) => return Ok(Some(Turn::Ended)),
        Ok(Turn::Refused) => return Ok(Some(Turn::Refused)),
        Err(stop) => return Err(stop),
    }
    if watch.count() == packet {
        return Ok(Some(Turn::GoesOn));
    }
    match act_once(alloc, number, Act::Take { packet }, watch, world, sink) {
        Ok(Turn::GoesOn) => Ok(None),
        Ok(Turn::Ended) => Ok(Some(Turn::Ended)),
        Ok(Turn::Refused) => Ok(Some(Turn::Refused)),
        Err(stop) => Err(stop),
    }
}

/// Up to so many times a server shows what is wanted, and that reaches the observer.
fn drain<W: ShowingStage, K: Sink>(
    alloc: Global,
    number: u64,
    server: ServerId,
    count: u32,
    watch: &mut Watch,
    world: &mut W,
    sink: &mut K,
) -> Result<Turn, Stop>
    ensures ends { LeadsOn W.spellings
        (λ rest. with_drain (measures_of W.spellings) number count server rest)
        (W.stands world.old) (W.stands world.new) (K.written sink.old) (K.written sink.new)
        watch.old watch.new result }
    ensures clocks { IfOk result (λ _. W.clocks world.new ≡ W.clocks world.old) }
    ensures rose { result ≡ Err Stop.SinkFailed → Rose (K.faults sink.old) (K.faults sink.new) }
    ensures count { K.faults sink.old ≤ K.faults sink.new }
    ensures own { result ≡ Err Stop.SourceFailed → ⊥ }
{
    for _ in 0..count {
        match drain_once(alloc, number, server, watch, world, sink) {
            Ok(None) => {}
            Ok(Some(turn)) => return Ok(turn),
            Err(stop) => return Err(stop),
        }
    }
    Ok(Turn::GoesOn)
}

/// Makes the act of the line with this number, and writes its lines.
pub fn take_act<W: ShowingStage, K: Sink>(
    alloc: Global,
    number: u64,
    act: Act,
    watch: &mut Watch,
    world: &mut W,
    sink: &mut K,
) -> Result<Turn, Stop>
    requires reads { AsksReads act }
    ensures ends { LeadsOn W.spellings
        (λ rest. with_observed_given (measures_of W.spellings) number
        (Ok (Some (steps.Acted act))) rest)
        (W.stands world.old) (W.stands world.new) (K.written sink.old) (K.written sink.new)
        watch.old watch.new result }
    ensures clocks { IfOk result (λ _. W.clocks world.new ≡ W.clocks world.old) }
    ensures rose { result ≡ Err Stop.SinkFailed → Rose (K.faults sink.old) (K.faults sink.new) }
    ensures count { K.faults sink.old ≤ K.faults sink.new }
    ensures own { result ≡ Err Stop.SourceFailed → ⊥ }
{
    match act {
        Act::Drain { server, count } => drain(alloc, number, server, count, watch, world, sink),
        act => act_once(alloc, number, act, watch, world, sink),
    }
}
