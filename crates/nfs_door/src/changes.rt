//! What clients mean by the arguments of a call, and what they read in the attributes of a reply.

ghost use Rattle.std.specs.Prelude.{◌≡◌, IfOk};
ghost use Rattle.nfs_door.specs.Changes.{attr_meant, call_meant, in_512, is_regular, makes_special, mtime_meant, reply_told, time_meant};

use harp_types::{Attr, Call, FIELD_LEFT, Reply, SetAttr, Time};
use std::alloc::{AllocError, Global};

/// The microseconds of a second. Those of a time that is set are fewer, and these stand for now.
pub(crate) const SECOND: u32 = 1_000_000;

/// The time that is meant; None where it is none.
fn time_meant(now: Time, time: Time) -> Option<Time>
    ensures { result ≡ time_meant now time }
{
    if time.seconds == FIELD_LEFT {
        Some(time)
    } else if time.micros == SECOND {
        Some(now)
    } else if time.micros > SECOND {
        None
    } else {
        Some(time)
    }
}

/// The time of a change that is meant, beside this size. With a size the sign for now is left out,
/// since whoever may set a size isn't always one who may set times, and the server sets that one.
fn mtime_meant(now: Time, size: u32, time: Time) -> Option<Time>
    ensures { result ≡ mtime_meant now size time }
{
    if size != FIELD_LEFT && (time.seconds != FIELD_LEFT && time.micros == SECOND) {
        return Some(Time {
            seconds: FIELD_LEFT,
            micros: FIELD_LEFT,
        });
    }
    time_meant(now, time)
}

/// The attributes that are meant, where their times are some.
fn attr_meant(now: Time, attr: SetAttr) -> Option<SetAttr>
    ensures { result ≡ attr_meant now attr }
{
    let atime = time_meant(now, attr.atime)?;
    let mtime = mtime_meant(now, attr.size, attr.mtime)?;
    Some(SetAttr {
        mode: attr.mode,
        uid: attr.uid,
        gid: attr.gid,
        size: attr.size,
        atime,
        mtime,
    })
}

/// The call that is meant, where its times are some.
pub(crate) fn call_meant(now: Time, call: Call) -> Option<Call>
    ensures { result ≡ call_meant now call }
{
    match call {
        Call::SetAttr { handle, attr } => {
            let attr = attr_meant(now, attr)?;
            Some(Call::SetAttr { handle, attr })
        }
        Call::Create { dir, name, attr } => {
            let attr = attr_meant(now, attr)?;
            Some(Call::Create { dir, name, attr })
        }
        Call::SymLink {
            dir,
            name,
            text,
            attr,
        } => {
            let attr = attr_meant(now, attr)?;
            Some(Call::SymLink {
                dir,
                name,
                text,
                attr,
            })
        }
        Call::MkDir { dir, name, attr } => {
            let attr = attr_meant(now, attr)?;
            Some(Call::MkDir { dir, name, attr })
        }
        other => Some(other),
    }
}

/// Whether a mode of a file that is made is one of a regular file.
fn is_regular(mode: u32) -> bool
    ensures { result ≡ is_regular mode }
{
    let kind = mode / 0o10000 % 16;
    mode == FIELD_LEFT || (kind == 0 || kind == 0o10)
}

/// Whether a call would make a device, a pipe or a socket.
pub(crate) fn makes_special(call: &Call) -> bool
    ensures { result ≡ makes_special call.now }
{
    match call {
        Call::Create { attr, .. } => !is_regular(attr.mode),
        _ => false,
    }
}

/// Attributes whose blocks are counted in 512 bytes.
fn in_512(attr: &Attr) -> Attr
    ensures { result ≡ in_512 attr.now }
{
    Attr {
        kind: attr.kind,
        mode: attr.mode,
        links: attr.links,
        uid: attr.uid,
        gid: attr.gid,
        size: attr.size,
        blocks: attr.blocks.saturating_mul(8),
        fileid: attr.fileid,
        atime: attr.atime,
        mtime: attr.mtime,
        ctime: attr.ctime,
    }
}

/// The reply as it is told.
pub(crate) fn reply_told(alloc: Global, reply: &Reply) -> Result<Reply, AllocError>
    ensures { IfOk result (λ told. told ≡ reply_told reply.now) }
{
    match reply {
        Reply::Attr { attr } => Ok(Reply::Attr { attr: in_512(attr) }),
        Reply::Node { handle, attr } => Ok(Reply::Node {
            handle: *handle,
            attr: in_512(attr),
        }),
        Reply::Bytes { attr, bytes } => Ok(Reply::Bytes {
            attr: in_512(attr),
            bytes: bytes.copy(alloc)?,
        }),
        other => other.copy(alloc),
    }
}
