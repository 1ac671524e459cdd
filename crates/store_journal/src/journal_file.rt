//! The file of the journal.

ghost use Rattle.std.specs.Prelude.{◌≡◌, ◌≤◌, ◌<◌, ◌^◌, ◌++◌, ℕ, List, Err, drop, length, take, IfNone, IfOk, IfSome, OnOk};
ghost use Rattle.harp_base.specs.Fields.{AllFit, Gives, GivesAs, many_at, many_bytes};
ghost use Rattle.harp_cells.specs.declared.change.Change.{Change as AnyChange};
ghost use Rattle.harp_cells.specs.CellBytes.{ChangeFits, change_at, change_bytes};
ghost use Rattle.store_journal.specs.JournalFile.{ChangesFit, IsFrame, IsTorn, changes_at, changes_bytes, check_sum, entry_bytes, frame_bytes};
ghost use Rattle.store_journal.specs.Waiting.{TakesEntry, TakesUp};

use crate::waiting::Waiting;
use harp_base::Misread;
use harp_base::fields::{put_u64, u64_at};
use harp_cells::Change;
use harp_cells::fields::{change_at, put_change};
use harp_store::StoreFault;
use std::alloc::{AllocError, Global};

/// No journal is longer.
pub const LONGEST_JOURNAL: usize = 1 << 40;

/// A number that tells bytes from others.
#[tactic(auto, unfolding(crate::specs::JournalFile::check_sum))]
fn check_sum(bytes: &[u8]) -> u64
    ensures { result ≡ check_sum bytes.now }
{
    let mut sum = 1;
    for byte in bytes {
        sum = (sum * 2_654_435_761 + u64::from(*byte) + 1) % 4_294_967_291;
    }
    sum
}

// ---- writing

#[tactic(auto, unfolding(harp_base::specs::Fields::many_bytes))]
fn put_each(out: &mut Vec<u8>, changes: &[Change]) -> Result<(), AllocError>
    ensures value { OnOk result (out.new.items
        ≡ out.old.items ++ many_bytes change_bytes changes.now) }
    ensures fits { OnOk result (AllFit ChangeFits changes.now) }
{
    for change in changes {
        put_change(out, change)?;
    }
    Ok(())
}

#[tactic(auto, unfolding(crate::specs::JournalFile::changes_bytes))]
fn put_changes(out: &mut Vec<u8>, changes: &[Change]) -> Result<(), AllocError>
    ensures value { OnOk result (out.new.items ≡ out.old.items ++ changes_bytes changes.now) }
    ensures fits { OnOk result (ChangesFit changes.now) }
{
    put_u64(out, changes.len() as u64)?;
    put_each(out, changes)
}

/// The entry of these changes.
#[tactic(auto, unfolding(crate::specs::JournalFile::frame_bytes))]
pub fn write_entry(alloc: Global, changes: &[Change]) -> Result<Vec<u8>, AllocError>
    ensures { IfOk result (λ bytes. bytes.items ≡ entry_bytes changes.now) }
{
    let mut inner = Vec::new(alloc);
    put_changes(&mut inner, changes)?;
    let mut bytes = Vec::with_capacity(alloc, 16)?;
    put_u64(&mut bytes, inner.len() as u64)?;
    put_u64(&mut bytes, check_sum(&inner))?;
    bytes.extend_from_slice(&inner)?;
    Ok(bytes)
}

// ---- reading

#[tactic(auto, unfolding(harp_base::specs::Fields::many_at))]
fn each_at(
    alloc: Global,
    count: u64,
    bytes: &[u8],
    from: usize,
) -> Result<(Vec<Change>, usize), Misread>
    requires { from ≤ length bytes.now }
    ensures step { GivesAs (λ x. (x.0.items, x.1)) result (many_at change_at count bytes.now from) }
    ensures within { IfOk result (λ x. x.1 ≤ length bytes.now) }
{
    let mut changes = Vec::new(alloc);
    let mut at = from;
    for _ in 0..count {
        let (change, next) = change_at(alloc, bytes, at)?;
        changes.push(change)?;
        at = next;
    }
    Ok((changes, at))
}

#[tactic(auto, unfolding(crate::specs::JournalFile::changes_at))]
fn changes_at(alloc: Global, bytes: &[u8], at: usize) -> Result<(Vec<Change>, usize), Misread>
    requires { at ≤ length bytes.now }
    ensures step { GivesAs (λ x. (x.0.items, x.1)) result (changes_at bytes.now at) }
    ensures within { IfOk result (λ x. x.1 ≤ length bytes.now) }
{
    let (count, next) = u64_at(bytes, at)?;
    each_at(alloc, count, bytes, next)
}

/// The changes that all these bytes spell.
fn read_changes(alloc: Global, bytes: &[u8]) -> Result<Vec<Change>, StoreFault>
    // What is read is spelled so.
    ensures found { IfOk result (λ changes. bytes.now ≡ changes_bytes changes.items) }
    // What is spelled so isn't a failure.
    ensures only { (changes : List AnyChange) → ChangesFit changes
        → bytes.now ≡ changes_bytes changes → result ≡ Err StoreFault.Failed → ⊥ }
{
    match changes_at(alloc, bytes, 0) {
        Ok((changes, end)) => {
            if end == bytes.len() {
                Ok(changes)
            } else {
                Err(StoreFault::Failed)
            }
        }
        Err(Misread::NoMemory) => Err(StoreFault::NoMemory),
        Err(Misread::Ends { .. }) => Err(StoreFault::Failed),
        Err(Misread::BadTag(_)) => Err(StoreFault::Failed),
        Err(Misread::TooLong(_)) => Err(StoreFault::Failed),
    }
}

// Where the bytes of an entry that begins at a place stand, and what stands behind it. None where
// it is torn.
fn frame_at(bytes: &[u8], at: usize) -> Option<(usize, usize)>
    requires { at ≤ length bytes.now }
    ensures found { IfSome result (λ x. IsFrame bytes.now at x.0 x.1) }
    ensures torn { IfNone result (IsTorn (drop at bytes.now)) }
{
    let (size, next) = u64_at(bytes, at).ok()?;
    let (sum, from) = u64_at(bytes, next).ok()?;
    if size > (bytes.len() - from) as u64 {
        return None;
    }
    let end = from + size as usize;
    if check_sum(&bytes[from..end]) == sum {
        Some((from, end))
    } else {
        None
    }
}

// The changes of the entry that begins at a place wait, and the place after it is returned. None
// where it is torn.
fn take_entry(
    alloc: Global,
    bytes: &[u8],
    at: usize,
    waiting: &mut Waiting,
) -> Result<Option<usize>, StoreFault>
    requires { at ≤ length bytes.now }
    ensures taken { IfOk result (λ next. TakesEntry bytes.now at next waiting.old waiting.new) }
{
    let Some((from, end)) = frame_at(bytes, at) else {
        return Ok(None);
    };
    let changes = read_changes(alloc, &bytes[from..end])?;
    waiting.add_all(alloc, &changes)?;
    Ok(Some(end))
}

/// The whole entries of a journal's bytes wait. Returned is where they end. An entry that is whole
/// and spells no changes is a failure of the disk.
pub fn take_up(alloc: Global, bytes: &[u8], waiting: &mut Waiting) -> Result<usize, StoreFault>
    ensures taken { IfOk result (λ end. TakesUp bytes.now end waiting.old waiting.new) }
    ensures within { IfOk result (λ end. end ≤ length bytes.now) }
{
    let mut at = 0;
    loop {
        match take_entry(alloc, bytes, at, waiting) {
            Ok(Some(next)) => at = next,
            Ok(None) => return Ok(at),
            Err(fault) => return Err(fault),
        }
    }
}
