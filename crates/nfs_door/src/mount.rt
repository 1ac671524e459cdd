//! The MOUNT protocol, version 1 (RFC 1094, appendix A).

ghost use Rattle.std.specs.Prelude.{◌≡◌, ◌≤◌, ◌∷◌, [], length, IfOk};
ghost use Rattle.harp_types.specs.Numbered.{value_with_number};
ghost use Rattle.nfs_door.specs.Mounts.{gives_handle, looks_up, mount_called, mounts, mounts_if_some, mounts_on, path_at, procedure_called, procedure_number, procedures, reaches, refusal, refuses, unmounts_if_some};

use crate::answers::answer;
use crate::front::Front;
use crate::path::{Names, is_absolute};
use crate::step::{Errand, Step, Then};
use harp_base::Misread;
use harp_types::{Bounded, Bytes, Call, Cred, Kind, LONGEST_PATH, Reply, Status};
use rpc_door::{opaque_at, put_handle, put_words};
use std::alloc::{AllocError, Global};

/// The version of MOUNT that is served.
const MOUNT_VERSION: u32 = 1;

/// The root of the tree.
const ROOT: u32 = 1;

/// The word of the export list that begins with a slash: a path of one byte, filled up.
const SLASH_WORD: u32 = 0x2f00_0000;

/// A procedure of MOUNT (RFC 1094, section A.5).
#[derive(Clone, Copy)]
pub enum MountProcedure {
    /// Does nothing.
    Null,
    /// Gives the handle of a directory.
    Mnt,
    /// Lists what is mounted.
    Dump,
    /// Says that a directory isn't mounted any more.
    Umnt,
    /// Says that none is.
    UmntAll,
    /// Lists what can be mounted.
    Export,
}

/// The procedure of a number.
fn procedure_with(number: u32) -> Option<MountProcedure>
    ensures { result ≡ value_with_number procedure_number procedures number }
{
    match number {
        0 => Some(MountProcedure::Null),
        1 => Some(MountProcedure::Mnt),
        2 => Some(MountProcedure::Dump),
        3 => Some(MountProcedure::Umnt),
        4 => Some(MountProcedure::UmntAll),
        5 => Some(MountProcedure::Export),
        _ => None,
    }
}

/// The directory that was mounted.
fn gives_handle(alloc: Global, xid: u32, dir: u32) -> Result<Step, AllocError>
    ensures { IfOk result (λ s. s ≡ gives_handle xid dir) }
{
    let mut out = Vec::new(alloc);
    put_words(&mut out, &[xid, 1, 0, 0, 0, 0, 0])?;
    put_handle(&mut out, dir)?;
    Ok(Step::Answer(Bytes::from_vec(out)))
}

/// It isn't mounted, with this status.
fn refuses(alloc: Global, xid: u32, number: u32) -> Result<Step, AllocError>
    ensures { IfOk result (λ s. s ≡ refuses xid number) }
{
    answer(alloc, &[xid, 1, 0, 0, 0, 0, number])
}

/// Looks up names, one after the other, from a directory on.
fn looks_up(alloc: Global, who: Cred, xid: u32, dir: u32, names: &Names) -> Result<Step, AllocError>
    ensures { IfOk result (λ s. s ≡ looks_up who xid dir names.now) }
{
    match names.split_first(alloc)? {
        Some((name, names)) => Ok(Step::Call(Errand {
            cred: who,
            call: Call::Lookup { dir, name },
            then: Then::Mounts { xid, names },
        })),
        None => gives_handle(alloc, xid, dir),
    }
}

/// An object of a kind was found, and these names are left.
fn reaches(
    alloc: Global,
    who: Cred,
    xid: u32,
    names: &Names,
    object: u32,
    kind: Kind,
) -> Result<Step, AllocError>
    ensures { IfOk result (λ s. s ≡ reaches who xid names.now object kind) }
{
    match names.split_first(alloc)? {
        Some(_) => looks_up(alloc, who, xid, object, names),
        None => match kind {
            Kind::Directory => gives_handle(alloc, xid, object),
            Kind::Regular => refuses(alloc, xid, 20),
            Kind::Link => refuses(alloc, xid, 20),
        },
    }
}

/// The status with which nothing is mounted where a name wasn't found.
fn refusal(status: Status) -> u32
    ensures { result ≡ refusal status }
{
    match status {
        Status::NotDir => 20,
        Status::Acces => 13,
        _ => 2,
    }
}

/// The step after a name was looked up.
pub(crate) fn mounts_on(
    alloc: Global,
    who: Cred,
    xid: u32,
    names: &Names,
    reply: &Reply,
) -> Result<Step, AllocError>
    ensures { IfOk result (λ s. s ≡ mounts_on who xid names.now reply.now) }
{
    match reply {
        Reply::Node { handle, attr } => reaches(alloc, who, xid, names, *handle, attr.kind),
        Reply::Refused { status } => refuses(alloc, xid, refusal(*status)),
        _ => refuses(alloc, xid, 2),
    }
}

/// Mounts a path.
fn mounts(
    alloc: Global,
    who: Cred,
    xid: u32,
    path: Bounded<LONGEST_PATH>,
) -> Result<Step, AllocError>
    ensures { IfOk result (λ s. s ≡ mounts who xid path) }
{
    if is_absolute(path.as_slice()) {
        looks_up(alloc, who, xid, ROOT, &Names::of(path))
    } else {
        refuses(alloc, xid, 2)
    }
}

/// The path that stands at a place, where it can be read.
fn path_at(
    alloc: Global,
    bytes: &[u8],
    at: usize,
) -> Result<Option<Bounded<LONGEST_PATH>>, AllocError>
    requires { at ≤ length bytes.now }
    ensures { IfOk result (λ path. path ≡ path_at bytes.now at) }
{
    match opaque_at(alloc, bytes, at) {
        Ok((path, _)) => Ok(Some(path)),
        Err(Misread::NoMemory) => Err(AllocError),
        Err(Misread::Ends { .. }) => Ok(None),
        Err(Misread::BadTag(_)) => Ok(None),
        Err(Misread::TooLong(_)) => Ok(None),
    }
}

fn mounts_if_some(
    alloc: Global,
    who: Cred,
    xid: u32,
    path: Option<Bounded<LONGEST_PATH>>,
) -> Result<Step, AllocError>
    ensures { IfOk result (λ s. s ≡ mounts_if_some who xid path) }
{
    match path {
        Some(path) => mounts(alloc, who, xid, path),
        None => answer(alloc, &[xid, 1, 0, 0, 0, 4]),
    }
}

fn unmounts_if_some(
    alloc: Global,
    xid: u32,
    path: Option<Bounded<LONGEST_PATH>>,
) -> Result<Step, AllocError>
    ensures { IfOk result (λ s. s ≡ unmounts_if_some xid path) }
{
    match path {
        Some(_) => answer(alloc, &[xid, 1, 0, 0, 0, 0]),
        None => answer(alloc, &[xid, 1, 0, 0, 0, 4]),
    }
}

/// The step for a call of a procedure with this number.
fn procedure_called(
    alloc: Global,
    who: Cred,
    xid: u32,
    number: u32,
    bytes: &[u8],
    at: usize,
) -> Result<Step, AllocError>
    requires { at ≤ length bytes.now }
    ensures { IfOk result (λ s. s ≡ procedure_called who xid
        (value_with_number procedure_number procedures number) bytes.now at) }
{
    match procedure_with(number) {
        None => answer(alloc, &[xid, 1, 0, 0, 0, 3]),
        Some(MountProcedure::Null) => answer(alloc, &[xid, 1, 0, 0, 0, 0]),
        Some(MountProcedure::Mnt) => mounts_if_some(alloc, who, xid, path_at(alloc, bytes, at)?),
        Some(MountProcedure::Dump) => answer(alloc, &[xid, 1, 0, 0, 0, 0, 0]),
        Some(MountProcedure::Umnt) => unmounts_if_some(alloc, xid, path_at(alloc, bytes, at)?),
        Some(MountProcedure::UmntAll) => answer(alloc, &[xid, 1, 0, 0, 0, 0]),
        Some(MountProcedure::Export) => {
            answer(alloc, &[xid, 1, 0, 0, 0, 0, 1, 1, SLASH_WORD, 0, 0])
        }
    }
}

/// The step for a call of MOUNT by a caller.
pub(crate) fn mount_called(
    alloc: Global,
    who: Cred,
    front: &Front,
    bytes: &[u8],
    at: usize,
) -> Result<Step, AllocError>
    requires { at ≤ length bytes.now }
    ensures { IfOk result (λ s. s ≡ mount_called who front.now bytes.now at) }
{
    let xid = front.xid;
    if front.version == MOUNT_VERSION {
        procedure_called(alloc, who, xid, front.procedure, bytes, at)
    } else {
        answer(alloc, &[xid, 1, 0, 0, 0, 2, 1, 1])
    }
}
