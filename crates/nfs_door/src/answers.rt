//! Answers as steps.

ghost use Rattle.std.specs.Prelude.{◌≡◌, IfOk};
ghost use Rattle.harp_types.specs.declared.reply.Reply.TheVariants as reply;
ghost use Rattle.rpc_door.specs.Results.{answer_bytes};
ghost use Rattle.rpc_door.specs.Xdr.{words};
ghost use Rattle.nfs_door.specs.declared.step.Step.TheVariants as step;
ghost use Rattle.nfs_door.specs.Allowances.{answered};

use crate::changes::reply_told;
use crate::step::Step;
use harp_types::{Attr, Bytes, Call, Reply, Status};
use rpc_door::{put_answer, put_words};
use std::alloc::{AllocError, Global};

/// An answer of these words.
pub(crate) fn answer(alloc: Global, answer: &[u32]) -> Result<Step, AllocError>
    ensures { IfOk result (λ s. s ≡ step.Answer (words answer.now)) }
{
    let mut out = Vec::new(alloc);
    put_words(&mut out, answer)?;
    Ok(Step::Answer(Bytes::from_vec(out)))
}

/// A call's answer by a reply, as this one is.
pub(crate) fn answer_by(
    alloc: Global,
    xid: u32,
    call: &Call,
    reply: &Reply,
) -> Result<Step, AllocError>
    ensures { IfOk result (λ s. s ≡ step.Answer (answer_bytes xid call.now reply.now)) }
{
    let mut out = Vec::new(alloc);
    put_answer(&mut out, xid, call, reply)?;
    Ok(Step::Answer(Bytes::from_vec(out)))
}

/// The answer of a call that is refused.
pub(crate) fn refused(
    alloc: Global,
    xid: u32,
    call: &Call,
    status: Status,
) -> Result<Step, AllocError>
    ensures { IfOk result
        (λ s. s ≡ step.Answer (answer_bytes xid call.now (reply.Refused status))) }
{
    let refused = Reply::Refused { status };
    let step = answer_by(alloc, xid, call, &refused);
    drop(refused);
    step
}

/// A call's answer by its reply, as it is told.
pub(crate) fn answered(
    alloc: Global,
    xid: u32,
    call: &Call,
    reply: &Reply,
) -> Result<Step, AllocError>
    ensures { IfOk result (λ s. s ≡ answered xid call.now reply.now) }
{
    let told = reply_told(alloc, reply)?;
    let step = answer_by(alloc, xid, call, &told);
    drop(told);
    step
}

/// A call's answer by attributes, as they are told.
pub(crate) fn answered_attr(
    alloc: Global,
    xid: u32,
    call: &Call,
    attr: &Attr,
) -> Result<Step, AllocError>
    ensures { IfOk result (λ s. s ≡ answered xid call.now (reply.Attr attr.now)) }
{
    let reply = Reply::Attr { attr: *attr };
    let step = answered(alloc, xid, call, &reply);
    drop(reply);
    step
}
