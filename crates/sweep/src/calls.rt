//! The calls that are drawn.

ghost use Rattle.std.specs.Prelude.{◌≡◌, IfOk};
ghost use Rattle.sweep.specs.Calls.{handle, name, entry, with_mode, call_kind, call_of_entry, write};
ghost use Rattle.sweep.specs.Calls.{rename, call_of_kind, any_call};

use crate::draws::Draws;
use harp_types::{Bounded, Call, FIELD_LEFT, LONGEST_ARGUMENT, SetAttr, Time};
use std::alloc::{AllocError, Global};

type Name = Bounded<LONGEST_ARGUMENT>;

/// The calls of one entry of a directory.
#[derive(Clone, Copy)]
pub enum EntryCall {
    Create,
    MkDir,
    Remove,
    Lookup,
}

/// The calls of which one is drawn.
#[derive(Clone, Copy)]
pub enum CallKind {
    OfEntry(EntryCall),
    Write,
    Rename,
    Read,
    ReadDir,
}

impl CallKind {
    fn of(number: u64) -> CallKind
        ensures { result ≡ call_kind number }
    {
        match number {
            0 => CallKind::OfEntry(EntryCall::Create),
            1 => CallKind::OfEntry(EntryCall::MkDir),
            2 => CallKind::Write,
            3 => CallKind::OfEntry(EntryCall::Remove),
            4 => CallKind::Rename,
            5 => CallKind::OfEntry(EntryCall::Lookup),
            6 => CallKind::Read,
            _ => CallKind::ReadDir,
        }
    }
}

/// Attributes of which only the mode is set.
fn with_mode(mode: u32) -> SetAttr
    ensures { result ≡ with_mode mode }
{
    let left = Time {
        seconds: FIELD_LEFT,
        micros: FIELD_LEFT,
    };
    SetAttr {
        mode,
        uid: FIELD_LEFT,
        gid: FIELD_LEFT,
        size: FIELD_LEFT,
        atime: left,
        mtime: left,
    }
}

/// The number of an object.
fn handle(draws: &mut Draws) -> u32
    ensures { handle draws.old ≡ (result, draws.new) }
{
    draws.below(8) as u32 + 1
}

/// A name of one letter.
fn name(alloc: Global, draws: &mut Draws) -> Result<Name, AllocError>
    ensures { IfOk result (λ n. name draws.old ≡ (n, draws.new)) }
{
    let letter = draws.below(4) as u8 + b'a';
    Ok(Bounded::new(vec![in alloc; letter; 1]?))
}

/// A directory, and a name in it.
#[tactic(auto, unfolding(crate::specs::Calls::entry))]
fn entry(alloc: Global, draws: &mut Draws) -> Result<(u32, Name), AllocError>
    ensures { IfOk result (λ place. entry draws.old ≡ (place, draws.new)) }
{
    let dir = handle(draws);
    let name = name(alloc, draws)?;
    Ok((dir, name))
}

/// A call of this entry.
fn call_of_entry(kind: EntryCall, dir: u32, name: Name) -> Call
    ensures { result ≡ call_of_entry kind dir name }
{
    match kind {
        EntryCall::Create => Call::Create {
            dir,
            name,
            attr: with_mode(0o644),
        },
        EntryCall::MkDir => Call::MkDir {
            dir,
            name,
            attr: with_mode(0o755),
        },
        EntryCall::Remove => Call::Remove { dir, name },
        EntryCall::Lookup => Call::Lookup { dir, name },
    }
}

/// A write of four bytes to a file.
#[tactic(auto, unfolding(crate::specs::Calls::write))]
fn write(alloc: Global, draws: &mut Draws) -> Result<Call, AllocError>
    ensures { IfOk result (λ call. write draws.old ≡ (call, draws.new)) }
{
    let handle = handle(draws);
    let offset = draws.below(10_000) as u32;
    let bytes = Vec::from_slice(alloc, &[0xaa, 0xbb, 0xcc, 0xdd])?;
    Ok(Call::Write {
        handle,
        offset,
        bytes: Bounded::new(bytes),
    })
}

/// An entry moves.
#[tactic(auto, unfolding(crate::specs::Calls::rename))]
fn rename(alloc: Global, draws: &mut Draws) -> Result<Call, AllocError>
    ensures { IfOk result (λ call. rename draws.old ≡ (call, draws.new)) }
{
    let (dir, name) = entry(alloc, draws)?;
    let (to_dir, to_name) = entry(alloc, draws)?;
    Ok(Call::Rename {
        dir,
        name,
        to_dir,
        to_name,
    })
}

/// A call of this kind.
#[tactic(auto, unfolding(crate::specs::Calls::call_of_kind))]
fn call_of_kind(alloc: Global, draws: &mut Draws, kind: CallKind) -> Result<Call, AllocError>
    ensures { IfOk result (λ call. call_of_kind kind draws.old ≡ (call, draws.new)) }
{
    match kind {
        CallKind::OfEntry(kind) => {
            let (dir, name) = entry(alloc, draws)?;
            Ok(call_of_entry(kind, dir, name))
        }
        CallKind::Write => write(alloc, draws),
        CallKind::Rename => rename(alloc, draws),
        CallKind::Read => Ok(Call::Read {
            handle: handle(draws),
            offset: 0,
            count: 100,
        }),
        CallKind::ReadDir => Ok(Call::ReadDir {
            dir: handle(draws),
            cookie: 0,
            count: 500,
        }),
    }
}

/// Any of the calls.
#[tactic(auto, unfolding(crate::specs::Calls::any_call))]
pub fn any_call(alloc: Global, draws: &mut Draws) -> Result<Call, AllocError>
    ensures { IfOk result (λ call. any_call draws.old ≡ (call, draws.new)) }
{
    let number = draws.below(8);
    call_of_kind(alloc, draws, CallKind::of(number))
}
