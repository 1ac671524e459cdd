//! What callers may claim for calls that are refused.

ghost use Rattle.std.specs.Prelude.{◌≡◌, Some, IfOk};
ghost use Rattle.nfs_door.specs.Allowances.{claim_of, enough_for, is_left, is_left_or_now};
ghost use Rattle.nfs_door.specs.Allowances.{made_as, object_of, other_of, sets_as_write};

use crate::allowances::made_as;
use crate::changes::SECOND;
use crate::credential::Caller;
use crate::groups::Groups;
use crate::step::Step;
use file_tree::{TO_SEARCH, TO_WRITE};
use harp_types::{Call, Cred, FIELD_LEFT, SetAttr, Status, Time};
use std::alloc::{AllocError, Global};

/// What a user may claim for a call that is refused.
#[derive(Drop)]
pub struct Claim {
    /// The groups that he is in beside the first one.
    pub groups: Groups,
    /// The bit of a mode that is enough for it, 1 to execute or 2 to write.
    pub enough: Option<u8>,
    /// The object that is to be looked at next.
    pub object: Option<u32>,
    /// The one behind it.
    pub other: Option<u32>,
}

/// A call that was refused, and what may be claimed for it. Its drop is written out, so that each
/// place where one is dropped is a call, and isn't proved of all that a call may hold.
pub struct Denied {
    pub xid: u32,
    pub claim: Claim,
    pub call: Call,
    pub status: Status,
}

impl Drop for Denied {
    fn drop(self) {
        let Denied {
            xid: _,
            claim: _,
            call: _,
            status: _,
        } = self;
    }
}

impl Claim {
    /// An equal claim.
    pub fn copy(&self, alloc: Global) -> Result<Claim, AllocError>
        ensures { IfOk result (λ copy. copy ≡ self.now) }
    {
        Ok(Claim {
            groups: self.groups.copy(alloc)?,
            enough: self.enough,
            object: self.object,
            other: self.other,
        })
    }
}

impl Denied {
    /// It is made again by this caller, who may claim as much for it.
    pub(crate) fn made_by(self, who: Cred) -> Step
        ensures { result ≡ made_as who self.xid (Some self.claim) self.call }
    {
        let Denied {
            xid,
            claim,
            call,
            status: _,
        } = self;
        made_as(who, xid, Some(claim), call)
    }

    /// An equal one.
    pub fn copy(&self, alloc: Global) -> Result<Denied, AllocError>
        ensures { IfOk result (λ copy. copy ≡ self.now) }
    {
        Ok(Denied {
            xid: self.xid,
            claim: self.claim.copy(alloc)?,
            call: self.call.copy(alloc)?,
            status: self.status,
        })
    }
}

/// Whether a field is left as it is.
pub(crate) fn is_left(field: u32) -> bool
    ensures { result ≡ is_left field }
{
    field == FIELD_LEFT
}

fn is_left_or_now(time: Time) -> bool
    ensures { result ≡ is_left_or_now time }
{
    is_left(time.seconds) || time.micros == SECOND
}

/// Whether a SETATTR sets no more than a write does: the size, and times to now.
fn sets_as_write(attr: &SetAttr) -> bool
    ensures { result ≡ sets_as_write attr.now }
{
    (is_left(attr.mode) && (is_left(attr.uid) && is_left(attr.gid)))
        && (is_left_or_now(attr.atime) && is_left_or_now(attr.mtime))
}

/// The bit of a mode that is enough for a call on a file.
fn enough_for(call: &Call) -> Option<u8>
    ensures { result ≡ enough_for call.now }
{
    match call {
        Call::Read { .. } => Some(TO_SEARCH),
        Call::Write { .. } => Some(TO_WRITE),
        Call::SetAttr { attr, .. } => {
            if sets_as_write(attr) {
                Some(TO_WRITE)
            } else {
                None
            }
        }
        _ => None,
    }
}

/// The object whose mode counts for a call.
fn object_of(call: &Call) -> Option<u32>
    ensures { result ≡ object_of call.now }
{
    match call {
        Call::SetAttr { handle, .. } => Some(*handle),
        Call::Lookup { dir, .. } => Some(*dir),
        Call::Read { handle, .. } => Some(*handle),
        Call::Write { handle, .. } => Some(*handle),
        Call::Create { dir, .. } => Some(*dir),
        Call::Remove { dir, .. } => Some(*dir),
        Call::Rename { dir, .. } => Some(*dir),
        Call::Link { dir, .. } => Some(*dir),
        Call::SymLink { dir, .. } => Some(*dir),
        Call::MkDir { dir, .. } => Some(*dir),
        Call::RmDir { dir, .. } => Some(*dir),
        Call::ReadDir { dir, .. } => Some(*dir),
        Call::Null => None,
        Call::GetAttr { .. } => None,
        Call::ReadLink { .. } => None,
        Call::StatFs { .. } => None,
    }
}

/// The other object whose mode counts.
fn other_of(call: &Call) -> Option<u32>
    ensures { result ≡ other_of call.now }
{
    match call {
        Call::Rename { to_dir, .. } => Some(*to_dir),
        _ => None,
    }
}

/// What a caller may claim for a call, as it was sent.
pub(crate) fn claim_of(who: Caller, call: &Call) -> Option<Claim>
    ensures { result ≡ claim_of who call.now }
{
    let enough = enough_for(call);
    if who.cred.uid == 0 || (who.groups.is_empty() && !enough.is_some()) {
        return None;
    }
    Some(Claim {
        groups: who.groups,
        enough,
        object: object_of(call),
        other: other_of(call),
    })
}
