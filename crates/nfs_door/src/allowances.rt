//! As whom a call that is refused may be made yet (RFC 1094, section 3.3).

ghost use Rattle.std.specs.Prelude.{◌≡◌, IfOk};
ghost use Rattle.nfs_door.specs.Allowances.{group_for, is_denial, lets_in, looked, looks_on};
ghost use Rattle.nfs_door.specs.Allowances.{made_again, made_as, member, member_if_in, mode_alone};
ghost use Rattle.nfs_door.specs.Allowances.{replied, replied_to, wrote};

use crate::answers::{answered, answered_attr, refused};
use crate::claim::{Claim, Denied, is_left};
use crate::groups::Groups;
use crate::step::{Errand, Step, Then};
use file_tree::may;
use harp_types::{Attr, Call, Cred, FIELD_LEFT, Reply, SUPERUSER, SetAttr, Status, Time};
use std::alloc::{AllocError, Global};

/// A call is made, and its reply is the answer unless more may be claimed.
pub(crate) fn made_as(who: Cred, xid: u32, claim: Option<Claim>, call: Call) -> Step
    ensures { result ≡ made_as who xid claim call }
{
    Step::Call(Errand {
        cred: who,
        call,
        then: Then::Replies { xid, claim },
    })
}

/// Looks at the next object; where there is none, the refusal is the answer.
fn looks_on(alloc: Global, who: Cred, mut denied: Denied) -> Result<Step, AllocError>
    ensures { IfOk result (λ s. s ≡ looks_on who denied) }
{
    let Some(handle) = denied.claim.object else {
        return refused(alloc, denied.xid, &denied.call, denied.status);
    };
    denied.claim.object = denied.claim.other;
    denied.claim.other = None;
    Ok(Step::Call(Errand {
        cred: who,
        call: Call::GetAttr { handle },
        then: Then::Looks(denied),
    }))
}

/// Whether a call was refused for want of a permission.
fn is_denial(status: Status) -> bool
    ensures { result ≡ is_denial status }
{
    match status {
        Status::Perm => true,
        Status::Acces => true,
        _ => false,
    }
}

/// Settings that set a mode.
fn mode_alone(mode: u16) -> SetAttr
    ensures { result ≡ mode_alone mode }
{
    let left = Time {
        seconds: FIELD_LEFT,
        micros: FIELD_LEFT,
    };
    SetAttr {
        mode: u32::from(mode),
        uid: FIELD_LEFT,
        gid: FIELD_LEFT,
        size: FIELD_LEFT,
        atime: left,
        mtime: left,
    }
}

/// The step after a user's call gave attributes: a write takes set-user-id and set-group-id away.
fn wrote(alloc: Global, xid: u32, call: &Call, attr: &Attr) -> Result<Step, AllocError>
    ensures { IfOk result (λ s. s ≡ wrote xid call.now attr.now) }
{
    match call {
        Call::Write { handle, .. } => {
            if attr.mode / 0o2000 % 4 == 0 {
                return answered_attr(alloc, xid, call, attr);
            }
            let clear = Call::SetAttr {
                handle: *handle,
                attr: mode_alone(attr.mode % 0o2000),
            };
            Ok(made_as(SUPERUSER, xid, None, clear))
        }
        _ => answered_attr(alloc, xid, call, attr),
    }
}

/// The step after a user's call that may claim this.
fn replied_to(
    alloc: Global,
    who: Cred,
    xid: u32,
    claim: &Claim,
    call: &Call,
    reply: &Reply,
) -> Result<Step, AllocError>
    ensures { IfOk result (λ s. s ≡ replied_to who xid claim.now call.now reply.now) }
{
    match reply {
        Reply::Refused { status } => {
            if !is_denial(*status) {
                return answered(alloc, xid, call, reply);
            }
            let denied = Denied {
                xid,
                claim: claim.copy(alloc)?,
                call: call.copy(alloc)?,
                status: *status,
            };
            looks_on(alloc, who, denied)
        }
        Reply::Attr { attr } => wrote(alloc, xid, call, attr),
        _ => answered(alloc, xid, call, reply),
    }
}

/// The step after a call of NFS.
pub(crate) fn replied(
    alloc: Global,
    who: Cred,
    xid: u32,
    claim: &Option<Claim>,
    call: &Call,
    reply: &Reply,
) -> Result<Step, AllocError>
    ensures { IfOk result (λ s. s ≡ replied who xid claim.now call.now reply.now) }
{
    match claim {
        Some(claim) => replied_to(alloc, who, xid, claim, call, reply),
        None => answered(alloc, xid, call, reply),
    }
}

/// A caller by another of his groups.
fn member(who: Cred, gid: u32) -> Cred
    ensures { result ≡ member who gid }
{
    Cred { uid: who.uid, gid }
}

/// The same, where he is in it.
fn member_if_in(who: Cred, groups: &Groups, gid: u32) -> Cred
    ensures { result ≡ member_if_in who groups.now gid }
{
    if groups.has(gid) {
        member(who, gid)
    } else {
        who
    }
}

/// The group that counts for a call on an object of this group.
fn group_for(call: &Call, gid: u32) -> u32
    ensures { result ≡ group_for call.now gid }
{
    match call {
        Call::SetAttr { attr, .. } => { if is_left(attr.gid) { gid } else { attr.gid } }
        _ => gid,
    }
}

/// Whether an object's owner asks, or who has the bit that is enough.
fn lets_in(attr: &Attr, who: Cred, enough: Option<u8>) -> bool
    ensures { result ≡ lets_in attr.now who enough }
{
    match enough {
        Some(bit) => who.uid == attr.uid || may(who, attr.mode, attr.uid, attr.gid, bit),
        None => false,
    }
}

/// Makes a call again, for an object of these attributes and by the group that counts.
fn made_again(
    alloc: Global,
    who: Cred,
    denied: &Denied,
    attr: &Attr,
    gid: u32,
) -> Result<Step, AllocError>
    ensures { IfOk result (λ s. s ≡ made_again who denied.now attr.now gid) }
{
    let denied = denied.copy(alloc)?;
    let caller = member_if_in(who, &denied.claim.groups, gid);
    if lets_in(attr, caller, denied.claim.enough) {
        return Ok(denied.made_by(SUPERUSER));
    }
    if denied.claim.groups.has(gid) {
        return Ok(denied.made_by(caller));
    }
    looks_on(alloc, who, denied)
}

/// The step after a look at an object for which a call may have been refused.
pub(crate) fn looked(
    alloc: Global,
    who: Cred,
    denied: &Denied,
    reply: &Reply,
) -> Result<Step, AllocError>
    ensures { IfOk result (λ s. s ≡ looked who denied.now reply.now) }
{
    match reply {
        Reply::Attr { attr } => {
            made_again(alloc, who, denied, attr, group_for(&denied.call, attr.gid))
        }
        _ => looks_on(alloc, who, denied.copy(alloc)?),
    }
}
