//! The front of a record: whether it is a call, and whose.

ghost use Rattle.std.specs.Prelude.{◌≡◌, ◌≤◌, length, IfOk};
ghost use Rattle.harp_base.specs.Fields.{field_as};
ghost use Rattle.rpc_door.specs.Meaning.{auth_at, header_at, opening_at};

use crate::xdr::past_opaque;
use harp_base::Misread;
use harp_base::fields::u32_at;

/// The most bytes of a credential or a verifier (RFC 1057, section 8.2).
const LONGEST_AUTH: u32 = 400;

/// The first three words of a record: its number, 0 for a call, and the version of RPC.
#[derive(Clone, Copy)]
pub struct Opening {
    pub xid: u32,
    pub kind: u32,
    pub version: u32,
}

/// Who is called: a program, its version, and a procedure of it.
#[derive(Clone, Copy)]
pub struct Header {
    pub program: u32,
    pub version: u32,
    pub procedure: u32,
}

/// The first three words, and the place after them.
#[tactic(auto, unfolding(crate::specs::Meaning::opening_at))]
pub fn opening_at(bytes: &[u8], at: usize) -> Result<(Opening, usize), Misread>
    requires { at ≤ length bytes.now }
    ensures step { result ≡ opening_at bytes.now at }
    ensures within { IfOk result (λ x. x.1 ≤ length bytes.now) }
{
    let (xid, at) = u32_at(bytes, at)?;
    let (kind, at) = u32_at(bytes, at)?;
    let (version, at) = u32_at(bytes, at)?;
    let opening = Opening { xid, kind, version };
    Ok((opening, at))
}

/// Goes past a credential or a verifier.
#[tactic(auto, unfolding(crate::specs::Meaning::auth_at))]
fn past_auth(bytes: &[u8], at: usize) -> Result<((), usize), Misread>
    requires { at ≤ length bytes.now }
    ensures step { result ≡ field_as (λ _. tt) auth_at bytes.now at }
    ensures within { IfOk result (λ x. x.1 ≤ length bytes.now) }
{
    let (_, at) = u32_at(bytes, at)?;
    past_opaque(bytes, at, LONGEST_AUTH)
}

/// Who is called, and the place after the credential and the verifier.
#[tactic(auto, unfolding(crate::specs::Meaning::header_at))]
pub fn header_at(bytes: &[u8], at: usize) -> Result<(Header, usize), Misread>
    requires { at ≤ length bytes.now }
    ensures step { result ≡ header_at bytes.now at }
    ensures within { IfOk result (λ x. x.1 ≤ length bytes.now) }
{
    let (program, at) = u32_at(bytes, at)?;
    let (version, at) = u32_at(bytes, at)?;
    let (procedure, at) = u32_at(bytes, at)?;
    let ((), at) = past_auth(bytes, at)?;
    let ((), at) = past_auth(bytes, at)?;
    let header = Header {
        program,
        version,
        procedure,
    };
    Ok((header, at))
}
