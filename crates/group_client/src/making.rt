//! How a call is asked until it is answered.

ghost use Rattle.std.specs.Prelude.{◌≡◌, ◌≤◌, true, Err, IfErr, IfOk, OnErr, OnOk};
ghost use Rattle.harp_types.specs.declared.server.ServerId.TheVariants.{Zero};
ghost use Rattle.node_link.specs.Traffic.{TakesNext, last_port, with_sent_told};
ghost use Rattle.rpc_door.specs.Results.{is_reply_to};
ghost use Rattle.rpc_door.specs.declared.group.GroupFault.TheVariants as group;
ghost use Rattle.group_client.specs.Calling.{IsCounted, asking_of, scene_of};
ghost use Rattle.client_calls.specs.Waits.{longest_pause};
ghost use Rattle.group_client.specs.Rule.{EndsRightly, Goes, IsCut, IsMade, IsStep, ask_datagram};
ghost use Rattle.group_client.specs.Rule.{asked, next_after, next_by, outcome_of};

use crate::asking::{Asking, Outside, ask_bytes};
use crate::news::{News, Replied, heard_in};
use client_calls::{LONGEST_PAUSE, Ticket, Wait, peer_of};
use harp_types::{Call, ServerId};
use node_link::{Clock, Datagram, Link, LinkFault};
use rpc_door::GroupFault;
use std::alloc::{AllocError, Global};

/// Where a step of a call leads to.
#[derive(Drop)]
pub enum Next {
    /// It waits on.
    Waits(Wait),
    /// It is answered.
    Ends(Replied),
}

/// The fault of a group that a fault of its link is.
fn of_link(fault: LinkFault) -> GroupFault
    ensures failed { result ≡ group.Failed → fault ≡ LinkFault.Failed }
    ensures spent { result ≡ group.Spent → ⊥ }
{
    match fault {
        LinkFault::Failed => GroupFault::Failed,
        LinkFault::NoMemory => GroupFault::NoMemory,
    }
}

/// A call and the bytes of its ask.
fn spell<'a>(alloc: Global, ticket: Ticket, call: &'a Call) -> Result<Asking<'a>, AllocError>
    requires { ticket.port ≤ last_port }
    ensures { IfOk result (λ a. asking_of a ≡ asked ticket call.now) }
{
    Ok(Asking {
        ticket,
        call,
        bytes: ask_bytes(alloc, ticket, call)?,
    })
}

/// Asks a call of a server.
fn ask<L: Link>(
    alloc: Global,
    link: &mut L,
    asking: &Asking,
    place: ServerId,
) -> Result<(), GroupFault>
    ensures sent { OnOk result (L.told link.new
        ≡ with_sent_told (ask_datagram (asking_of asking.now) place) (L.told link.old)) }
    ensures kept { OnErr result (L.told link.new ≡ L.told link.old) }
    ensures unspent { result ≡ Err group.Spent → ⊥ }
    ensures counts { IsCounted result (L.faults link.old) (L.faults link.new) }
{
    let to = peer_of(asking.ticket.port, place);
    match link.send(alloc, ServerId::Zero, to, asking.bytes.as_slice()) {
        Ok(()) => Ok(()),
        Err(fault) => Err(of_link(fault)),
    }
}

/// Takes the next datagram, where one comes within so many milliseconds.
fn hear<L: Link>(alloc: Global, link: &mut L, wait_ms: u32) -> Result<Option<Datagram>, GroupFault>
    ensures taken { IfOk result (λ d. TakesNext Zero d (L.told link.old) (L.told link.new)) }
    ensures kept { OnErr result (L.told link.new ≡ L.told link.old) }
    ensures unspent { result ≡ Err group.Spent → ⊥ }
    ensures counts { IsCounted result (L.faults link.old) (L.faults link.new) }
{
    match link.receive(alloc, ServerId::Zero, wait_ms) {
        Ok(datagram) => Ok(datagram),
        Err(fault) => Err(of_link(fault)),
    }
}

/// What becomes of a call that waits so, by what is heard.
fn next_by(wait: Wait, news: News) -> Next
    ensures { result ≡ next_by wait news }
{
    match news {
        News::Nothing => Next::Waits(wait),
        News::Refused { by, cause } => Next::Waits(wait.hinted(by, cause)),
        News::Answered(replied) => Next::Ends(replied),
    }
}

/// What becomes of a call that waits so, by what came.
fn next_after(
    alloc: Global,
    asking: &Asking,
    wait: Wait,
    datagram: Option<Datagram>,
) -> Result<Next, GroupFault>
    requires { wait.pause ≤ longest_pause }
    ensures next { IfOk result (λ n. n ≡ next_after (asking_of asking.now) wait datagram) }
    ensures form { IfOk result (λ n. EndsRightly asking.now.call.now n) }
    ensures memory { IfErr result (λ fault. fault ≡ group.NoMemory) }
{
    let Some(datagram) = datagram else {
        return Ok(Next::Waits(wait));
    };
    match heard_in(alloc, asking.ticket, asking.call, &datagram) {
        Ok(news) => Ok(next_by(wait, news)),
        Err(_) => Err(GroupFault::NoMemory),
    }
}

/// A step of a call that waits so.
fn step<L: Link, C: Clock>(
    alloc: Global,
    outside: &mut Outside<L, C>,
    asking: &Asking,
    wait: Wait,
) -> Result<Next, GroupFault>
    requires { wait.pause ≤ longest_pause }
    ensures step { IfOk result (λ next. IsStep (asking_of asking.now) wait next
        (scene_of L.told C.told outside.old) (scene_of L.told C.told outside.new)) }
    ensures cut { OnErr result (IsCut (scene_of L.told C.told outside.old)
        (scene_of L.told C.told outside.new)) }
    ensures form { IfOk result (λ next. EndsRightly asking.now.call.now next) }
    ensures unspent { result ≡ Err group.Spent → ⊥ }
    ensures counts { IsCounted result (L.faults outside.old.link) (L.faults outside.new.link) }
{
    let now = outside.clock.now(ServerId::Zero);
    if wait.due <= now {
        ask(alloc, &mut outside.link, asking, wait.place)?;
        return Ok(Next::Waits(wait.again(now)));
    }
    let patience = (wait.due - now).min(LONGEST_PAUSE) as u32;
    let datagram = hear(alloc, &mut outside.link, patience)?;
    next_after(alloc, asking, wait, datagram)
}

/// Waits for the answer of a call that was asked, for so many steps.
fn wait_for<L: Link, C: Clock>(
    alloc: Global,
    outside: &mut Outside<L, C>,
    asking: &Asking,
    steps: u64,
    wait: Wait,
) -> Result<Replied, GroupFault>
    requires { wait.pause ≤ longest_pause }
    ensures goes { Goes steps (asking_of asking.now)
        (outcome_of result (scene_of L.told C.told outside.new)) wait
        (scene_of L.told C.told outside.old) }
    ensures form { IfOk result (λ r. is_reply_to asking.now.call.now r.reply ≡ true) }
    ensures counts { IsCounted result (L.faults outside.old.link) (L.faults outside.new.link) }
{
    let mut wait = wait;
    let mut left = steps;
    while left > 0 {
        left -= 1;
        match step(alloc, outside, asking, wait) {
            Ok(Next::Waits(next)) => wait = next,
            Ok(Next::Ends(replied)) => return Ok(replied),
            Err(fault) => return Err(fault),
        }
    }
    Err(GroupFault::Spent)
}

/// Asks a call at a place, and waits for its answer for so many steps.
fn ask_and_wait<L: Link, C: Clock>(
    alloc: Global,
    outside: &mut Outside<L, C>,
    asking: &Asking,
    steps: u64,
    place: ServerId,
) -> Result<Replied, GroupFault>
    ensures made { IsMade steps (asking_of asking.now)
        (outcome_of result (scene_of L.told C.told outside.new)) place
        (scene_of L.told C.told outside.old) }
    ensures form { IfOk result (λ r. is_reply_to asking.now.call.now r.reply ≡ true) }
    ensures counts { IsCounted result (L.faults outside.old.link) (L.faults outside.new.link) }
{
    let now = outside.clock.now(ServerId::Zero);
    match ask(alloc, &mut outside.link, asking, place) {
        Ok(()) => wait_for(alloc, outside, asking, steps, Wait::first(place, now)),
        Err(fault) => Err(fault),
    }
}

/// Makes a call under a number.
pub fn make_call<L: Link, C: Clock>(
    alloc: Global,
    outside: &mut Outside<L, C>,
    ticket: Ticket,
    call: &Call,
    steps: u64,
    place: ServerId,
) -> Result<Replied, GroupFault>
    requires { ticket.port ≤ last_port }
    ensures made { IsMade steps (asked ticket call.now)
        (outcome_of result (scene_of L.told C.told outside.new)) place
        (scene_of L.told C.told outside.old) }
    ensures form { IfOk result (λ r. is_reply_to call.now r.reply ≡ true) }
    ensures counts { IsCounted result (L.faults outside.old.link) (L.faults outside.new.link) }
{
    match spell(alloc, ticket, call) {
        Ok(asking) => ask_and_wait(alloc, outside, &asking, steps, place),
        Err(_) => Err(GroupFault::NoMemory),
    }
}
