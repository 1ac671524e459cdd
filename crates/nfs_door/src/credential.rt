//! Credentials, and as whom they speak.

ghost use Rattle.std.specs.Prelude.{◌≡◌, ◌≤◌, length, option_map, IfOk};
ghost use Rattle.harp_base.specs.Fields.{Gives, GivesAs, field_as, many_at, u32_at};
ghost use Rattle.nfs_door.specs.Credentials.{alone, speaks_as, unix_auth, unix_auth_at};
ghost use Rattle.nfs_door.specs.Credentials.{user_of, words_at};

use crate::groups::Groups;
use harp_base::Misread;
use harp_base::fields::u32_at;
use harp_types::{Bounded, Cred};
use rpc_door::past_opaque;
use std::alloc::{AllocError, Global};

/// The most bytes of a credential or a verifier (RFC 1057, section 8.2).
pub(crate) const LONGEST_AUTH: usize = 400;

/// The flavour of a Unix credential.
const UNIX: u32 = 1;

/// The most bytes of the name of a machine.
const LONGEST_MACHINE: u32 = 255;

/// The most other groups of a user.
const MOST_GROUPS: u32 = 16;

/// As whom a call is made that doesn't say whose it is.
pub(crate) const NOBODY: Cred = Cred {
    uid: 65534,
    gid: 65534,
};

/// Who makes a call: a user and his first group, and the other groups that he is in.
#[derive(Drop)]
pub struct Caller {
    pub cred: Cred,
    pub groups: Groups,
}

/// Who makes a call, in a form that its flavour tells (`opaque_auth`, RFC 1057, section 8.2).
#[derive(Drop)]
pub struct Credential {
    pub flavour: u32,
    pub body: Bounded<LONGEST_AUTH>,
}

/// So many words from a place on, and the place after them.
#[tactic(auto, unfolding(harp_base::specs::Fields::many_at))]
fn each_at(
    alloc: Global,
    bytes: &[u8],
    from: usize,
    count: u32,
) -> Result<(Vec<u32>, usize), Misread>
    requires { from ≤ length bytes.now }
    ensures step { GivesAs (λ x. (x.0.items, x.1)) result (many_at u32_at count bytes.now from) }
    ensures within { IfOk result (λ x. x.1 ≤ length bytes.now) }
{
    let mut words = Vec::new(alloc);
    let mut at = from;
    for _ in 0..count {
        let (word, next) = u32_at(bytes, at)?;
        words.push(word)?;
        at = next;
    }
    Ok((words, at))
}

/// At most 16 groups behind their count.
fn groups_at(alloc: Global, bytes: &[u8], at: usize) -> Result<(Groups, usize), Misread>
    requires { at ≤ length bytes.now }
    ensures step { Gives result (words_at 16 bytes.now at) }
    ensures within { IfOk result (λ x. x.1 ≤ length bytes.now) }
{
    let (count, from) = u32_at(bytes, at)?;
    if count > MOST_GROUPS {
        return Err(Misread::TooLong(at));
    }
    let (words, next) = each_at(alloc, bytes, from, count)?;
    Ok((Groups::new(words), next))
}

/// The Unix user at the front, and the place after it.
#[tactic(auto, unfolding(crate::specs::Credentials::unix_auth_at))]
fn unix_user_at(alloc: Global, bytes: &[u8]) -> Result<(Caller, usize), Misread>
    ensures { Gives result (field_as user_of unix_auth_at bytes.now 0) }
{
    let (_, at) = u32_at(bytes, 0)?;
    let ((), at) = past_opaque(bytes, at, LONGEST_MACHINE)?;
    let (uid, at) = u32_at(bytes, at)?;
    let (gid, at) = u32_at(bytes, at)?;
    let (groups, at) = groups_at(alloc, bytes, at)?;
    let cred = Cred { uid, gid };
    Ok((Caller { cred, groups }, at))
}

/// The Unix user that these bytes are.
fn unix_user(alloc: Global, bytes: &[u8]) -> Result<Option<Caller>, AllocError>
    ensures { IfOk result (λ user. user ≡ option_map user_of (unix_auth bytes.now)) }
{
    match unix_user_at(alloc, bytes) {
        Ok((user, end)) => {
            if end == bytes.len() {
                Ok(Some(user))
            } else {
                Ok(None)
            }
        }
        Err(Misread::NoMemory) => Err(AllocError),
        Err(Misread::Ends { .. }) => Ok(None),
        Err(Misread::BadTag(_)) => Ok(None),
        Err(Misread::TooLong(_)) => Ok(None),
    }
}

/// A user and a group, in no other one.
pub(crate) fn alone(alloc: Global, cred: Cred) -> Caller
    ensures { result ≡ alone cred }
{
    Caller {
        cred,
        groups: Groups::none(alloc),
    }
}

/// As whom calls with a credential are made; None where it is bad.
pub(crate) fn speaks_as(
    alloc: Global,
    credential: &Credential,
) -> Result<Option<Caller>, AllocError>
    ensures { IfOk result (λ who. who ≡ speaks_as credential.now) }
{
    if credential.flavour == UNIX {
        unix_user(alloc, credential.body.as_slice())
    } else {
        Ok(Some(alone(alloc, NOBODY)))
    }
}
