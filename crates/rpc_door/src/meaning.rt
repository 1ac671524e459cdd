//! What a record means.

ghost use Rattle.std.specs.Prelude.{◌≡◌, ◌≤◌, ◌∷◌, [], length, IfOk};
ghost use Rattle.rpc_door.specs.Meaning.{accepted, call_of, called, called_or_silent, denied, meaning_of, no_arguments, no_procedure, no_program, no_version, opened, opened_or_silent, procedure_with};
ghost use Rattle.rpc_door.specs.declared.meaning.RpcIn.TheVariants as rpc;
ghost use Rattle.rpc_door.specs.Xdr.{words};

use crate::arguments::arguments_at;
use crate::header::{Header, Opening, header_at, opening_at};
use crate::xdr::put_words;
use harp_base::Misread;
use harp_types::{Bytes, Call, Procedure};
use std::alloc::{AllocError, Global};

/// A record that is a call has 0 here.
const CALL: u32 = 0;

/// The version of RPC that is served.
const RPC_VERSION: u32 = 2;

/// NFS, as a program.
const NFS_PROGRAM: u32 = 100_003;

/// The version of NFS that is served.
const NFS_VERSION: u32 = 2;

/// What a record means.
#[derive(Drop)]
pub enum RpcIn {
    /// Nothing that can be answered.
    Silent,
    /// What is answered in any case.
    Fixed(Bytes),
    /// A call, with the number that its answer has to have.
    Ask { xid: u32, call: Call },
}

/// An answer of these words.
fn fixed(alloc: Global, answer: &[u32]) -> Result<RpcIn, AllocError>
    ensures { IfOk result (λ r. r ≡ rpc.Fixed (words answer.now)) }
{
    let mut out = Vec::new(alloc);
    put_words(&mut out, answer)?;
    Ok(RpcIn::Fixed(Bytes::from_vec(out)))
}

/// The procedure of a number, where it is served.
fn procedure_with(number: u32) -> Option<Procedure>
    ensures { result ≡ procedure_with number }
{
    if number > 255 {
        return None;
    }
    Procedure::numbered(number as u8)
}

/// What the call of a procedure with this number means.
fn call_of(
    alloc: Global,
    xid: u32,
    number: u32,
    bytes: &[u8],
    at: usize,
) -> Result<RpcIn, AllocError>
    requires { at ≤ length bytes.now }
    ensures { IfOk result (λ r. r ≡ call_of xid (procedure_with number) bytes.now at) }
{
    let Some(procedure) = procedure_with(number) else {
        return fixed(alloc, &[xid, 1, 0, 0, 0, 3]);
    };
    match arguments_at(alloc, procedure, bytes, at) {
        Ok((call, _)) => Ok(RpcIn::Ask { xid, call }),
        Err(Misread::NoMemory) => Err(AllocError),
        Err(Misread::Ends { .. }) => fixed(alloc, &[xid, 1, 0, 0, 0, 4]),
        Err(Misread::BadTag(_)) => fixed(alloc, &[xid, 1, 0, 0, 0, 4]),
        Err(Misread::TooLong(_)) => fixed(alloc, &[xid, 1, 0, 0, 0, 4]),
    }
}

/// What a call with this header means.
#[tactic(auto, unfolding(crate::specs::Meaning::called))]
fn called(
    alloc: Global,
    xid: u32,
    header: Header,
    bytes: &[u8],
    at: usize,
) -> Result<RpcIn, AllocError>
    requires { at ≤ length bytes.now }
    ensures { IfOk result (λ r. r ≡ called xid header bytes.now at) }
{
    if header.program != NFS_PROGRAM {
        return fixed(alloc, &[xid, 1, 0, 0, 0, 1]);
    }
    if header.version != NFS_VERSION {
        return fixed(alloc, &[xid, 1, 0, 0, 0, 2, 2, 2]);
    }
    call_of(alloc, xid, header.procedure, bytes, at)
}

/// What a record means that opens so.
#[tactic(auto, unfolding(crate::specs::Meaning::opened))]
fn opened(alloc: Global, opening: Opening, bytes: &[u8], at: usize) -> Result<RpcIn, AllocError>
    requires { at ≤ length bytes.now }
    ensures { IfOk result (λ r. r ≡ opened opening bytes.now at) }
{
    let Opening { xid, kind, version } = opening;
    if kind != CALL {
        return Ok(RpcIn::Silent);
    }
    if version != RPC_VERSION {
        return fixed(alloc, &[xid, 1, 1, 0, 2, 2]);
    }
    match header_at(bytes, at) {
        Ok((header, at)) => called(alloc, xid, header, bytes, at),
        Err(_) => Ok(RpcIn::Silent),
    }
}

/// What a record means: nothing where it is no call; an answer where the versions, the program, the
/// procedure or the arguments are none that are served; and otherwise a call of NFS. Bytes behind
/// its arguments are passed over.
#[tactic(auto, unfolding(crate::specs::Meaning::meaning_of))]
pub fn read_rpc(alloc: Global, bytes: &[u8]) -> Result<RpcIn, AllocError>
    ensures { IfOk result (λ r. r ≡ meaning_of bytes.now) }
{
    match opening_at(bytes, 0) {
        Ok((opening, at)) => opened(alloc, opening, bytes, at),
        Err(_) => Ok(RpcIn::Silent),
    }
}
