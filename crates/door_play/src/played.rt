//! The group of a door, in a world in memory.

ghost use Rattle.std.specs.Prelude.{◌≡◌, ◌≤◌, ◌++◌, ◌∷◌, [], ℕ, List, IfOk, IfSome, MatchResult, OnOk, Err, Some, false, true, ⊤};
ghost use Rattle.harp_types.specs.Streams.{Rose};
ghost use Rattle.harp_types.specs.declared.cred.Cred.{Cred as By};
ghost use Rattle.harp_types.specs.declared.reply.Reply.{Reply as Told};
ghost use Rattle.group_trace.specs.DiskCalls.{measures_of};
ghost use Rattle.group_trace.specs.DiskRun.{first_disk_scene};
ghost use Rattle.rpc_door.specs.Results.{is_reply_to};
ghost use Rattle.rpc_door.specs.declared.group.GroupFault.TheVariants as group;
ghost use Rattle.schedule_play.specs.Reading.{Reading, all_read};
ghost use Rattle.schedule_play.specs.Stage.{AreReadings};
ghost use Rattle.door_play.specs.Laws.{HasBytes};
ghost use Rattle.door_play.specs.Played.{HasGivenUp};
ghost use Rattle.door_play.specs.Steps.{steps_of_call};
ghost use Rattle.door_play.specs.OnTheWay.{HasHeard, StopGives, taken_then};
ghost use Rattle.door_play.specs.Told.{GivesUp, HasTold};

use crate::asking::{is_upkept, opening_steps, upkeep_steps};
use crate::cutting::cut;
use crate::laws::{one_call_more, played_calls, replies_fit};
use crate::stepping::{Ear, Stop, play_call, play_steps};
use harp_types::{Call, Cred, Reply};
use rpc_door::{Group, GroupFault, is_reply_to};
use schedule_play::Stage;
use std::alloc::Global;
use std::marker::Model;

/// The room that was kept, or a new one, with nothing heard yet.
fn emptied(alloc: Global, kept: Option<Ear>) -> Ear
    ensures { result.heard.items ≡ [] }
{
    match kept {
        Some(kept) => {
            let mut ear = kept;
            ear.heard.clear();
            ear
        }
        None => Ear::new(alloc),
    }
}

/// Asks a call with a number, delivers all that it leads to, and hears the answers that came.
fn ask<W: Stage>(
    alloc: Global,
    cred: Cred,
    number: u64,
    call: &Call,
    world: &mut W,
    ear: &mut Ear,
) -> Result<(), Stop>
    requires { AreReadings (W.clocks world.old) }
    ensures ends { (all : Reading) (before : List (ℕ × Told))
        → HasHeard W.spellings all (taken_then (measures_of W.spellings)
        (steps_of_call cred number call.now) (λ w. all_read)) (before ++ ear.old.heard.items)
        (W.stands world.old)
        → MatchResult result
        (λ _. HasHeard W.spellings all (λ w. all_read) (before ++ ear.new.heard.items)
        (W.stands world.new))
        (StopGives W.spellings all (W.stands world.new)) }
    ensures clocks { OnOk result (W.clocks world.new ≡ W.clocks world.old) }
{
    let call = cut(call.copy(alloc)?);
    match play_call(alloc, cred, number, call, world, ear) {
        Ok(()) => {}
        Err(stop) => return Err(stop),
    }
    if !is_upkept(number) {
        return Ok(());
    }
    let steps = upkeep_steps(alloc)?;
    match play_steps(alloc, steps, world, ear) {
        Ok(()) => Ok(()),
        Err(stop) => Err(stop),
    }
}

/// The reply that was heard last, where it is one to this call.
fn last_reply(heard: &mut Vec<(u64, Reply)>, call: &Call) -> Option<Reply>
    ensures form { IfSome result (λ reply. is_reply_to call.now reply ≡ true) }
    ensures one { (number : ℕ) (reply : Told) → heard.old.items ≡ (number, reply) ∷ []
        → is_reply_to call.now reply ≡ true → result ≡ Some reply }
{
    let (_, reply) = heard.pop()?;
    if is_reply_to(call, &reply) {
        Some(reply)
    } else {
        None
    }
}

/// A group that is played in a world, and answers the calls of one user and group. Contracts see
/// all of it but the room.
#[derive(Drop)]
pub struct PlayedGroup<W> {
    world: W,
    /// The number of the next call.
    next: u64,
    faults: u64,
    /// Whether its view is open and it answered all calls so far.
    is_open: bool,
    /// Room for what a call leads to, which the next one uses anew.
    ear: Option<Ear>,
}

impl<W> Model for PlayedGroup<W> {
    ghost use Rattle.door_play.specs.Playing.{Playing};

    ghost Value = { Playing W };

    ghost view = { λ g. record {
      world = g.world;
      next = g.next;
      faults = g.faults;
      is_open = g.is_open;
    } };
}

impl<W: Stage> PlayedGroup<W> {
    /// A group in a world. Its view isn't open yet.
    pub fn new(world: W) -> PlayedGroup<W>
        ensures { result ≡ record { world = world; next = 1; faults = 0; is_open = false } }
    {
        PlayedGroup {
            world,
            next: 1,
            faults: 0,
            is_open: false,
            ear: None,
        }
    }

    /// Opens its view, from the first scene on.
    pub fn open(&mut self, alloc: Global) -> Result<(), GroupFault>
        requires { W.stands self.old.world first_disk_scene }
        ensures told { IfOk result (λ _. (cred : By) → HasTold W.spellings self.new.next
            (self.new.is_open ≡ true) (W.stands self.new.world) cred []) }
        ensures runs { IfOk result (λ _. (self.new.is_open ≡ true)
            × AreReadings (W.clocks self.new.world)) }
        ensures refused { result ≡ Err group.Failed
            → (cred : By) → HasBytes (measures_of W.spellings)
            → HasGivenUp W.spellings cred [] (W.stands self.new.world) }
        ensures spent { result ≡ Err group.Spent → ⊥ }
    {
        played_calls();
        one_call_more();
        replies_fit();
        let Ok(steps) = opening_steps(alloc) else {
            return Err(GroupFault::NoMemory);
        };
        let mut ear = Ear::new(alloc);
        match play_steps(alloc, steps, &mut self.world, &mut ear) {
            Ok(()) => {
                self.next = 1;
                self.is_open = true;
                Ok(())
            }
            Err(Stop::Refused) => Err(GroupFault::Failed),
            Err(Stop::NoMemory) => Err(GroupFault::NoMemory),
        }
    }

    /// The world in which it was played.
    pub fn into_world(self) -> W
        ensures { result ≡ self.world }
    {
        self.world
    }

    /// Answers no more calls, since the world takes no more steps.
    fn fail(&mut self) -> GroupFault
        ensures stops { self.new ≡ record self.old { faults = self.new.faults; is_open = false } }
        ensures fault { result ≡ group.Failed }
        ensures rose { Rose self.old.faults self.new.faults }
        ensures count { self.old.faults ≤ self.new.faults }
    {
        self.is_open = false;
        self.faults = self.faults.saturating_add(1);
        GroupFault::Failed
    }
}

impl<W: Stage> Group for PlayedGroup<W> {
    ghost Start = { By };

    ghost told = { λ g cred made. HasTold W.spellings g.next (g.is_open ≡ true)
        (W.stands g.world) cred made };

    ghost unanswered = { λ g why cred made by call. GivesUp W.spellings (W.stands g.world) why cred
        made by call };

    ghost runs = { λ g. (g.is_open ≡ true) × AreReadings (W.clocks g.world) };

    ghost counts = { λ g. record { failed = g.faults; spent = 0 } };

    // Nothing was lent to it.
    ghost Basis = { ⊤ };

    ghost on = { λ g o. ⊤ };

    fn call(&mut self, alloc: Global, cred: Cred, call: &Call) -> Result<Reply, GroupFault> {
        played_calls();
        one_call_more();
        replies_fit();
        let mut ear = emptied(alloc, self.ear.take());
        match ask(alloc, cred, self.next, call, &mut self.world, &mut ear) {
            Ok(()) => {}
            Err(Stop::Refused) => return Err(self.fail()),
            Err(Stop::NoMemory) => {
                self.is_open = false;
                return Err(GroupFault::NoMemory);
            }
        }
        let last = last_reply(&mut ear.heard, call);
        self.ear = Some(ear);
        match last {
            Some(reply) => {
                self.next = self.next.saturating_add(1);
                Ok(reply)
            }
            // Each call that is asked is answered, so this doesn't come.
            None => Err(self.fail()),
        }
    }
}
