//! The steps from a record to its answer.

ghost use Rattle.std.specs.Prelude.{◌≡◌, ◌≤◌, length, IfOk};
ghost use Rattle.nfs_door.specs.Credentials.{speaks_as};
ghost use Rattle.nfs_door.specs.Steps.{after, asks_for, asks_if_some, begun, called_as, called_by};
ghost use Rattle.nfs_door.specs.Steps.{caller_for, nfs_called};

use crate::allowances::{looked, made_as, replied};
use crate::answers::{answer, refused};
use crate::changes::{call_meant, makes_special};
use crate::claim::{Claim, claim_of};
use crate::credential::{Caller, NOBODY, alone, speaks_as};
use crate::front::{Front, front_of};
use crate::mount::{mount_called, mounts_on};
use crate::step::{Errand, Step, Then};
use harp_types::{Call, Cred, Reply, Status, Time};
use rpc_door::{RpcIn, read_rpc};
use std::alloc::{AllocError, Global};

/// MOUNT, as a program.
const MOUNT_PROGRAM: u32 = 100_005;

/// The step for a call of NFS, which is made unless it would make a special file.
fn asks_for(
    alloc: Global,
    who: Cred,
    xid: u32,
    claim: Option<Claim>,
    call: Call,
) -> Result<Step, AllocError>
    ensures { IfOk result (λ s. s ≡ asks_for who xid claim call) }
{
    if makes_special(&call) {
        let answer = refused(alloc, xid, &call, Status::Perm);
        drop(claim);
        drop(call);
        return answer;
    }
    Ok(made_as(who, xid, claim, call))
}

fn asks_if_some(
    alloc: Global,
    who: Cred,
    xid: u32,
    claim: Option<Claim>,
    call: Option<Call>,
) -> Result<Step, AllocError>
    ensures { IfOk result (λ s. s ≡ asks_if_some who xid claim call) }
{
    match call {
        Some(call) => asks_for(alloc, who, xid, claim, call),
        None => answer(alloc, &[xid, 1, 0, 0, 0, 4]),
    }
}

/// The step for what the door's rule makes of a record.
fn nfs_called(alloc: Global, who: Caller, now: Time, means: RpcIn) -> Result<Step, AllocError>
    ensures { IfOk result (λ s. s ≡ nfs_called who now means) }
{
    match means {
        RpcIn::Silent => Ok(Step::Silent),
        RpcIn::Fixed(answer) => Ok(Step::Answer(answer)),
        RpcIn::Ask { xid, call } => {
            let cred = who.cred;
            let claim = claim_of(who, &call);
            asks_if_some(alloc, cred, xid, claim, call_meant(now, call))
        }
    }
}

/// The step for a call by a caller.
fn called_by(
    alloc: Global,
    who: Caller,
    now: Time,
    record: &[u8],
    front: &Front,
    at: usize,
) -> Result<Step, AllocError>
    requires { at ≤ length record.now }
    ensures { IfOk result (λ s. s ≡ called_by who now record.now front.now at) }
{
    if front.program == MOUNT_PROGRAM {
        mount_called(alloc, who.cred, front, record, at)
    } else {
        nfs_called(alloc, who, now, read_rpc(alloc, record)?)
    }
}

/// Who makes a call: everyone, where one is named, and otherwise its own caller.
fn caller_for(alloc: Global, everyone: Option<Cred>, own: Caller) -> Caller
    ensures { result ≡ caller_for everyone own }
{
    match everyone {
        Some(who) => alone(alloc, who),
        None => own,
    }
}

/// The first step for a call of RPC version 2 with this front.
fn called_as(
    alloc: Global,
    everyone: Option<Cred>,
    now: Time,
    record: &[u8],
    front: &Front,
    at: usize,
) -> Result<Step, AllocError>
    requires { at ≤ length record.now }
    ensures { IfOk result (λ s. s ≡ called_as everyone now record.now front.now at
        (speaks_as front.now.credential)) }
{
    match speaks_as(alloc, &front.credential)? {
        Some(own) => {
            let who = caller_for(alloc, everyone, own);
            called_by(alloc, who, now, record, front, at)
        }
        None => answer(alloc, &[front.xid, 1, 1, 1, 1]),
    }
}

/// The first step for a record. With `everyone` all calls are made as by it, and otherwise each as
/// its credential says. `now` is the time that a client's sign for it stands for.
pub fn begin(
    alloc: Global,
    everyone: Option<Cred>,
    now: Time,
    record: &[u8],
) -> Result<Step, AllocError>
    ensures { IfOk result (λ s. s ≡ begun everyone now record.now) }
{
    let Some((front, at)) = front_of(alloc, record)? else {
        let means = read_rpc(alloc, record)?;
        return nfs_called(alloc, alone(alloc, NOBODY), now, means);
    };
    called_as(alloc, everyone, now, record, &front, at)
}

/// The step after a call with this reply.
pub fn go_on(alloc: Global, errand: &Errand, reply: &Reply) -> Result<Step, AllocError>
    ensures { IfOk result (λ s. s ≡ after errand.now reply.now) }
{
    match &errand.then {
        Then::Replies { xid, claim } => {
            replied(alloc, errand.cred, *xid, claim, &errand.call, reply)
        }
        Then::Looks(denied) => looked(alloc, errand.cred, denied, reply),
        Then::Mounts { xid, names } => mounts_on(alloc, errand.cred, *xid, names, reply),
    }
}
