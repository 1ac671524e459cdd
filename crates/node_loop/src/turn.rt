//! One turn at a place.

ghost use Rattle.std.specs.Prelude.{◌≡◌, ◌≤◌, ◌<◌, ◌^◌, IfOk, OnErr, Err};
ghost use Rattle.harp_types.specs.Streams.{Rose};
ghost use Rattle.harp_types.specs.declared.server.ServerId.{ServerId as Place};
ghost use Rattle.node_loop.specs.Turn.{Comes, FailsTurn, IsTurn, LinkTurns, MayTellAll};
ghost use Rattle.node_loop.specs.Turn.{readings_of};

use crate::arriving::arrived;
use crate::fault::{LoopFault, of_link};
use crate::look::Look;
use crate::pace::Pace;
use crate::turned::Turned;
use harp_types::ServerId;
use node::Input;
use node_link::{Clock, Datagram, Link};
use std::alloc::{AllocError, Global};

// What a datagram that came by this reading of the clock gives to a server that sees this of
// itself, which is at this pace.
fn come(
    alloc: Global,
    now: u64,
    pace: &mut Pace,
    look: &Look,
    datagram: &Datagram,
) -> Result<Vec<Input>, AllocError>
    requires { now < 2 ^ 62 }
    ensures comes { IfOk result (λ inputs. Comes look.now now datagram.now inputs.items
        pace.old pace.new) }
    ensures kept { OnErr result (pace.new ≡ pace.old) }
{
    let mut inputs = Vec::with_capacity(alloc, 1)?;
    match arrived(alloc, datagram)? {
        Some(input) => {
            pace.heed(look, now, &input);
            inputs.push_reserved(input);
            Ok(inputs)
        }
        None => Ok(inputs),
    }
}

/// A turn at a place, of a server that sees this of itself. Where the reading of the clock has reached
/// the time of its next tick or nudge, it ticks or is nudged. Otherwise it waits about so many
/// milliseconds for a datagram, and reads the clock again where one comes. It sends nothing. After
/// an error the datagram that came may be lost.
pub fn take_turn<L: Link, C: Clock>(
    alloc: Global,
    place: ServerId,
    look: &Look,
    wait_ms: u32,
    pace: &mut Pace,
    link: &mut L,
    clock: &mut C,
) -> Result<Turned, LoopFault>
    ensures turn { IfOk result (λ t. IsTurn place look.now pace.old pace.new t
        × LinkTurns place look.now pace.old t (L.told link.old) (L.told link.new)
        × MayTellAll (readings_of place t) (C.told clock.old) (C.told clock.new)) }
    ensures times { IfOk result (λ t. (C.least clock.old place ≤ t.began) × (t.began ≤ t.now)
        × (t.now ≤ C.least clock.new place) × (t.now < 2 ^ 62)) }
    ensures others { (p : Place) → C.least clock.old p ≤ C.least clock.new p }
    ensures part { OnErr result ((pace.new ≡ pace.old)
        × FailsTurn place look.now pace.old (L.told link.old) (L.told link.new)
        (C.told clock.old) (C.told clock.new)) }
    ensures rose { result ≡ Err LoopFault.LinkFailed
        → Rose (L.faults link.old) (L.faults link.new) }
    ensures count { L.faults link.old ≤ L.faults link.new }
    ensures disk { result ≡ Err LoopFault.StoreFailed → ⊥ }
{
    let began = clock.now(place);
    if pace.is_due(look, began) {
        let inputs = pace.keep(alloc, place, look, began)?;
        return Ok(Turned {
            began,
            taken: None,
            now: began,
            inputs,
        });
    }
    match link.receive(alloc, place, wait_ms) {
        Ok(Some(datagram)) => {
            let now = clock.now(place);
            let inputs = come(alloc, now, pace, look, &datagram)?;
            Ok(Turned {
                began,
                taken: Some(datagram),
                now,
                inputs,
            })
        }
        Ok(None) => Ok(Turned {
            began,
            taken: None,
            now: began,
            inputs: Vec::new(alloc),
        }),
        Err(fault) => Err(of_link(fault)),
    }
}
