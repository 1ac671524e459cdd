//! Servers, views and credentials, read from a place on and written.

ghost use Rattle.std.specs.Prelude.{◌≡◌, ◌≤◌, ◌++◌, length, IfOk, OnOk};
ghost use Rattle.harp_base.specs.Names.{server_at, view_at, view_bytes, ViewFits, cred_at, cred_bytes, CredFits};

use crate::field::{Misread, below_at, byte_at, put_u32, put_u64, u32_at};
use harp_types::{Cred, ServerId, ViewNo};
use std::alloc::AllocError;

/// A server, and the place after it.
pub fn server_at(bytes: &[u8], at: usize) -> Result<(ServerId, usize), Misread>
    requires { at ≤ length bytes.now }
    ensures step { result ≡ server_at bytes.now at }
    ensures within { IfOk result (λ x. x.1 ≤ length bytes.now) }
{
    let (number, next) = byte_at(bytes, at)?;
    match number {
        0 => Ok((ServerId::Zero, next)),
        1 => Ok((ServerId::One, next)),
        2 => Ok((ServerId::Two, next)),
        _ => Err(Misread::BadTag(at)),
    }
}

/// The number of a view, and the place after it.
#[tactic(auto, unfolding(crate::specs::Names::view_at))]
pub fn view_at(bytes: &[u8], at: usize) -> Result<(ViewNo, usize), Misread>
    requires { at ≤ length bytes.now }
    ensures step { result ≡ view_at bytes.now at }
    ensures within { IfOk result (λ x. x.1 ≤ length bytes.now) }
{
    let (count, at) = below_at(1 << 62, bytes, at)?;
    let (coordinator, at) = server_at(bytes, at)?;
    Ok((ViewNo::new(count, coordinator), at))
}

/// A credential, and the place after it.
#[tactic(auto, unfolding(crate::specs::Names::cred_at))]
pub fn cred_at(bytes: &[u8], at: usize) -> Result<(Cred, usize), Misread>
    requires { at ≤ length bytes.now }
    ensures step { result ≡ cred_at bytes.now at }
    ensures within { IfOk result (λ x. x.1 ≤ length bytes.now) }
{
    let (uid, at) = u32_at(bytes, at)?;
    let (gid, at) = u32_at(bytes, at)?;
    Ok((Cred { uid, gid }, at))
}

/// Appends the number of a view.
#[tactic(auto, unfolding(crate::specs::Names::view_bytes))]
pub fn put_view(out: &mut Vec<u8>, view: ViewNo) -> Result<(), AllocError>
    ensures value { OnOk result (out.new.items ≡ out.old.items ++ view_bytes view) }
    ensures fits { OnOk result (ViewFits view) }
{
    put_u64(out, view.count())?;
    out.push(view.coordinator().number())?;
    Ok(())
}

/// Appends a credential.
#[tactic(auto, unfolding(crate::specs::Names::cred_bytes))]
pub fn put_cred(out: &mut Vec<u8>, cred: Cred) -> Result<(), AllocError>
    ensures value { OnOk result (out.new.items ≡ out.old.items ++ cred_bytes cred) }
    ensures fits { OnOk result (CredFits cred) }
{
    put_u32(out, cred.uid)?;
    put_u32(out, cred.gid)?;
    Ok(())
}
