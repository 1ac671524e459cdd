//! Records that are read.

ghost use Rattle.std.specs.Prelude.{◌≡◌, ◌≤◌, ◌<◌, ◌++◌, ◌+◌, ℕ, List, length, take, IfOk, Ok};
ghost use Rattle.harp_base.specs.Fields.{Gives, GivesAs, Spells, Tells, at_front, many_at};
ghost use Rattle.harp_cells.specs.CellBytes.{change_at};
ghost use Rattle.harp_cells.specs.ValueBytes.{longest_record};
ghost use Rattle.event_record.specs.declared.record.RecordFields.{RecordFields};
ghost use Rattle.event_record.specs.Bytes.{OldRecordFits, RecordFits, changes_at, head_at, index_at, item_at, old_item_at, old_record_bytes, record_bytes, record_from, tail_at};
ghost use Rattle.event_record.specs.Forms.{caller_at, fields_at};

use crate::changes::{Changes, MOST_CHANGES};
use crate::numbers::Index;
use crate::record::{Record, RecordFields};
use harp_base::fields::{
    below_at, call_at, cred_at, reply_at, told, u16_at, u32_at, u64_at, view_at,
};
use harp_base::{FieldFault, Misread};
use harp_cells::fields::change_at;
use harp_cells::{Change, LONGEST_OLD_RECORD, LONGEST_RECORD, Moment};
use harp_types::{Call, Cred, Reply, SUPERUSER, ViewNo};
use std::alloc::Global;
use std::rc::Rc;

// Moments are below this.
const MOMENT_LIMIT: u64 = (1 << 62) + 2000;

/// What stands before the credential.
#[derive(Clone, Copy)]
pub(crate) struct Head {
    stamped: ViewNo,
    index: Index,
    client: u32,
    number: u64,
}

/// What stands behind the credential.
#[derive(Drop)]
pub(crate) struct Tail {
    call: Call,
    stamp: Moment,
    reply: Reply,
    changes: Changes,
}

#[tactic(auto, unfolding(crate::specs::Bytes::index_at))]
fn index_at(bytes: &[u8], at: usize) -> Result<(Index, usize), Misread>
    requires { at ≤ length bytes.now }
    ensures step { Gives result (index_at bytes.now at) }
    ensures within { IfOk result (λ x. x.1 ≤ length bytes.now) }
{
    let (number, next) = u64_at(bytes, at)?;
    match Index::of(number) {
        Some(index) => Ok((index, next)),
        None => Err(Misread::BadTag(at)),
    }
}

#[tactic(auto, unfolding(harp_base::specs::Fields::many_at))]
fn each_at(
    alloc: Global,
    count: u16,
    bytes: &[u8],
    from: usize,
) -> Result<(Vec<Change>, usize), Misread>
    requires { from ≤ length bytes.now }
    ensures step { GivesAs (λ x. (x.0.items, x.1)) result (many_at change_at count bytes.now from) }
    ensures count { IfOk result (λ x. length x.0.items ≡ count) }
    ensures within { IfOk result (λ x. x.1 ≤ length bytes.now) }
{
    let mut changes = Vec::with_capacity(alloc, usize::from(count))?;
    let mut at = from;
    for _ in 0..count {
        let (change, next) = change_at(alloc, bytes, at)?;
        changes.push(change)?;
        at = next;
    }
    Ok((changes, at))
}

#[tactic(auto, unfolding(crate::specs::Bytes::changes_at))]
fn changes_at(alloc: Global, bytes: &[u8], at: usize) -> Result<(Changes, usize), Misread>
    requires { at ≤ length bytes.now }
    ensures step { Gives result (changes_at bytes.now at) }
    ensures within { IfOk result (λ x. x.1 ≤ length bytes.now) }
{
    let (count, next) = u16_at(bytes, at)?;
    if usize::from(count) > MOST_CHANGES {
        return Err(Misread::BadTag(at));
    }
    let (changes, next) = each_at(alloc, count, bytes, next)?;
    Ok((Changes::new(changes), next))
}

#[tactic(auto, unfolding(crate::specs::Bytes::head_at))]
fn head_at(bytes: &[u8], at: usize) -> Result<(Head, usize), Misread>
    requires { at ≤ length bytes.now }
    ensures step { Gives result (head_at bytes.now at) }
    ensures within { IfOk result (λ x. x.1 ≤ length bytes.now) }
{
    let (stamped, at) = view_at(bytes, at)?;
    let (index, at) = index_at(bytes, at)?;
    let (client, at) = u32_at(bytes, at)?;
    let (number, at) = u64_at(bytes, at)?;
    let head = Head {
        stamped,
        index,
        client,
        number,
    };
    Ok((head, at))
}

#[tactic(auto, unfolding(crate::specs::Bytes::tail_at))]
fn tail_at(alloc: Global, bytes: &[u8], at: usize) -> Result<(Tail, usize), Misread>
    requires { at ≤ length bytes.now }
    ensures step { Gives result (tail_at bytes.now at) }
    ensures within { IfOk result (λ x. x.1 ≤ length bytes.now) }
{
    let (call, at) = call_at(alloc, bytes, at)?;
    let (stamp, at) = below_at(MOMENT_LIMIT, bytes, at)?;
    let (reply, at) = reply_at(alloc, bytes, at)?;
    let (changes, at) = changes_at(alloc, bytes, at)?;
    let tail = Tail {
        call,
        stamp: Moment::new(stamp),
        reply,
        changes,
    };
    Ok((tail, at))
}

fn fields_of(head: Head, cred: Cred, tail: Tail) -> RecordFields
    ensures { result ≡ record_from head cred tail }
{
    let Head {
        stamped,
        index,
        client,
        number,
    } = head;
    let Tail {
        call,
        stamp,
        reply,
        changes,
    } = tail;
    RecordFields {
        stamped,
        index,
        client,
        number,
        cred,
        call,
        stamp,
        reply,
        changes,
    }
}

/// The credential of a record: the superuser's where the record is of the old form, without one.
#[tactic(auto, unfolding(crate::specs::Forms::caller_at))]
fn caller_at(is_old: bool, bytes: &[u8], at: usize) -> Result<(Cred, usize), Misread>
    requires { at ≤ length bytes.now }
    ensures step { result ≡ caller_at is_old bytes.now at }
    ensures within { IfOk result (λ x. x.1 ≤ length bytes.now) }
{
    if is_old {
        Ok((SUPERUSER, at))
    } else {
        cred_at(bytes, at)
    }
}

/// The fields of a record, which may be of the old form.
#[tactic(auto, unfolding(crate::specs::Forms::fields_at))]
fn fields_at(
    alloc: Global,
    is_old: bool,
    bytes: &[u8],
    at: usize,
) -> Result<(Rc<RecordFields>, usize), Misread>
    requires { at ≤ length bytes.now }
    ensures step { GivesAs (λ x. (x.0.value, x.1)) result (fields_at is_old bytes.now at) }
    ensures within { IfOk result (λ x. x.1 ≤ length bytes.now) }
{
    let (head, at) = head_at(bytes, at)?;
    let (cred, at) = caller_at(is_old, bytes, at)?;
    let (tail, at) = tail_at(alloc, bytes, at)?;
    let fields = Rc::new(alloc, fields_of(head, cred, tail))?;
    Ok((fields, at))
}

/// The bytes before a limit.
fn front(bytes: &[u8], limit: usize) -> &[u8]
    ensures { result.now ≡ take limit bytes.now }
{
    &bytes[..limit.min(bytes.len())]
}

/// A record that begins at a place, and the place after it.
pub fn item_at(alloc: Global, bytes: &[u8], at: usize) -> Result<(Record, usize), Misread>
    requires { at ≤ length bytes.now }
    ensures step { Gives result (item_at bytes.now at) }
    ensures within { IfOk result (λ x. x.1 ≤ length bytes.now) }
{
    let limit = at + LONGEST_RECORD;
    match fields_at(alloc, false, front(bytes, limit), at) {
        Ok((fields, next)) => Ok((Record::new(fields), next)),
        Err(misread) => Err(misread.within(limit)),
    }
}

/// A record without a credential that begins at a place, as the superuser's, and the place after
/// it.
fn old_item_at(alloc: Global, bytes: &[u8], at: usize) -> Result<(Record, usize), Misread>
    requires { at ≤ length bytes.now }
    ensures { Gives result (old_item_at bytes.now at) }
{
    let limit = at + LONGEST_OLD_RECORD;
    match fields_at(alloc, true, front(bytes, limit), at) {
        Ok((fields, next)) => Ok((Record::new(fields), next)),
        Err(misread) => Err(misread.within(limit)),
    }
}

/// The record at the front of the bytes, and its length. A field that would pass the 60,008 bytes
/// of a record is too long.
pub fn read_item(alloc: Global, bytes: &[u8]) -> Result<(Record, usize), FieldFault>
    // What is read is spelled so.
    ensures found { IfOk result
        (λ x. Spells bytes.now 0 (record_bytes x.0) x.1 × RecordFits x.0) }
    // What is spelled so is read, whatever follows, unless memory runs out.
    ensures only { (r : RecordFields) (rest : List ℕ) → RecordFits r
        → bytes.now ≡ record_bytes r ++ rest → Tells result (Ok (r, length (record_bytes r))) }
    // Which fault it is, and where.
    ensures exact { Tells result (at_front item_at bytes.now) }
{
    told(item_at(alloc, bytes, 0), bytes.len())
}

/// The record of the old form, without a credential and of at most 60,000 bytes, at the front of
/// the bytes, as the superuser's, and its length.
pub fn read_old_item(alloc: Global, bytes: &[u8]) -> Result<(Record, usize), FieldFault>
    // What is read is spelled so.
    ensures found { IfOk result
        (λ x. Spells bytes.now 0 (old_record_bytes x.0) x.1 × OldRecordFits x.0) }
    // What is spelled so is read, whatever follows, unless memory runs out.
    ensures only { (r : RecordFields) (rest : List ℕ) → OldRecordFits r
        → bytes.now ≡ old_record_bytes r ++ rest
        → Tells result (Ok (r, length (old_record_bytes r))) }
    // Which fault it is, and where.
    ensures exact { Tells result (at_front old_item_at bytes.now) }
{
    told(old_item_at(alloc, bytes, 0), bytes.len())
}
