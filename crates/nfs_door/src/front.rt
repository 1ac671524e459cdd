//! The front of a call, with its credential.

ghost use Rattle.std.specs.Prelude.{◌≡◌, ◌≤◌, length, IfOk, IfSome};
ghost use Rattle.harp_base.specs.Fields.{Gives, field_as};
ghost use Rattle.rpc_door.specs.Meaning.{auth_at};
ghost use Rattle.nfs_door.specs.Fronts.{credential_at, front_at, front_of};

use crate::credential::{Credential, LONGEST_AUTH};
use harp_base::Misread;
use harp_base::fields::u32_at;
use rpc_door::{opaque_at, past_opaque};
use std::alloc::{AllocError, Global};

/// A record that is a call has 0 here.
const CALL: u32 = 0;

/// The version of RPC that is served.
const RPC_VERSION: u32 = 2;

/// Which record it is, who is called, and by whom (RFC 1057, section 8).
#[derive(Drop)]
pub struct Front {
    pub xid: u32,
    pub kind: u32,
    pub rpc_version: u32,
    pub program: u32,
    pub version: u32,
    pub procedure: u32,
    pub credential: Credential,
}

/// A credential, and the place after it.
#[tactic(auto, unfolding(crate::specs::Fronts::credential_at, rpc_door::specs::Meaning::auth_at))]
fn credential_at(alloc: Global, bytes: &[u8], at: usize) -> Result<(Credential, usize), Misread>
    requires { at ≤ length bytes.now }
    ensures step { Gives result (credential_at bytes.now at) }
    ensures within { IfOk result (λ x. x.1 ≤ length bytes.now) }
{
    let (flavour, at) = u32_at(bytes, at)?;
    let (body, at) = opaque_at(alloc, bytes, at)?;
    Ok((Credential { flavour, body }, at))
}

/// Goes past a verifier.
#[tactic(auto, unfolding(rpc_door::specs::Meaning::auth_at))]
fn past_verifier(bytes: &[u8], at: usize) -> Result<((), usize), Misread>
    requires { at ≤ length bytes.now }
    ensures step { result ≡ field_as (λ _. tt) auth_at bytes.now at }
    ensures within { IfOk result (λ x. x.1 ≤ length bytes.now) }
{
    let (_, at) = u32_at(bytes, at)?;
    past_opaque(bytes, at, LONGEST_AUTH as u32)
}

/// The front of a record, and the place after its verifier.
#[tactic(auto, unfolding(crate::specs::Fronts::front_at))]
fn front_at(alloc: Global, bytes: &[u8]) -> Result<(Front, usize), Misread>
    ensures step { Gives result (front_at bytes.now 0) }
    ensures within { IfOk result (λ x. x.1 ≤ length bytes.now) }
{
    let (xid, at) = u32_at(bytes, 0)?;
    let (kind, at) = u32_at(bytes, at)?;
    let (rpc_version, at) = u32_at(bytes, at)?;
    let (program, at) = u32_at(bytes, at)?;
    let (version, at) = u32_at(bytes, at)?;
    let (procedure, at) = u32_at(bytes, at)?;
    let (credential, at) = credential_at(alloc, bytes, at)?;
    let ((), at) = past_verifier(bytes, at)?;
    let front = Front {
        xid,
        kind,
        rpc_version,
        program,
        version,
        procedure,
        credential,
    };
    Ok((front, at))
}

/// The front of a call by RPC version 2, and where its arguments begin; None for another record.
pub(crate) fn front_of(alloc: Global, bytes: &[u8]) -> Result<Option<(Front, usize)>, AllocError>
    ensures front { IfOk result (λ front. front ≡ front_of bytes.now) }
    ensures within { IfOk result (λ front. IfSome front (λ x. x.1 ≤ length bytes.now)) }
{
    match front_at(alloc, bytes) {
        Ok((front, at)) => {
            if front.kind == CALL && front.rpc_version == RPC_VERSION {
                Ok(Some((front, at)))
            } else {
                Ok(None)
            }
        }
        Err(Misread::NoMemory) => Err(AllocError),
        Err(Misread::Ends { .. }) => Ok(None),
        Err(Misread::BadTag(_)) => Ok(None),
        Err(Misread::TooLong(_)) => Ok(None),
    }
}
