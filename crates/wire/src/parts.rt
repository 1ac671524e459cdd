//! The parts of messages, read from a place on and written.

ghost use Rattle.std.specs.Prelude.{◌≡◌, ◌≤◌, ◌+◌, ◌^◌, ◌++◌, length, IfOk, OnOk};
ghost use Rattle.harp_base.specs.Fields.{Gives, GivesAs, field_as, many_at, many_bytes, AllFit};
ghost use Rattle.event_record.specs.Bytes.{RecordFits, record_bytes, item_at};
ghost use Rattle.wire.specs.declared.forms.Reason.TheVariants as reason;
ghost use Rattle.wire.specs.Parts.{deadline_at, held_number, held_at, storers_bytes, storers_at, hint_number, no_hint_at, hint_of, cause_bytes, hint_at, cause_at, RecordsFit, records_bytes, records_at};

use crate::forms::{Reason, reason_at, reason_number};
use crate::records::Records;
use crate::storers::Storers;
use event_record::Record;
use event_record::fields::{item_at, put_item};
use harp_base::Misread;
use harp_base::fields::{below_at, byte_at, put_u16, u16_at};
use harp_types::{Cause, Held, ServerId};
use promise::Deadline;
use std::alloc::{AllocError, Global};

// The end of a promise is below this.
const DEADLINES: u64 = (1 << 62) + 100_000;

/// The end of a promise.
pub(crate) fn deadline_at(bytes: &[u8], at: usize) -> Result<(Deadline, usize), Misread>
    requires { at ≤ length bytes.now }
    ensures step { result ≡ deadline_at bytes.now at }
    ensures within { IfOk result (λ x. x.1 ≤ length bytes.now) }
{
    let (millis, next) = below_at(DEADLINES, bytes, at)?;
    Ok((Deadline::new(millis), next))
}

/// What a server has.
pub(crate) fn held_at(bytes: &[u8], at: usize) -> Result<(Held, usize), Misread>
    requires { at ≤ length bytes.now }
    ensures step { result ≡ held_at bytes.now at }
    ensures within { IfOk result (λ x. x.1 ≤ length bytes.now) }
{
    let (number, next) = byte_at(bytes, at)?;
    match number {
        0 => Ok((Held::Empty, next)),
        1 => Ok((Held::Held, next)),
        2 => Ok((Held::Lost, next)),
        _ => Err(Misread::BadTag(at)),
    }
}

/// The number of what a server has.
pub(crate) fn held_number(held: Held) -> u8
    ensures { result ≡ held_number held }
{
    match held {
        Held::Empty => 0,
        Held::Held => 1,
        Held::Lost => 2,
    }
}

/// A leader and its partner. A pair that no view has is a fault of its first byte.
#[tactic(auto, unfolding(crate::specs::Parts::storers_at))]
pub(crate) fn storers_at(bytes: &[u8], at: usize) -> Result<(Storers, usize), Misread>
    requires { at ≤ length bytes.now }
    ensures step { result ≡ storers_at bytes.now at }
    ensures within { IfOk result (λ x. x.1 ≤ length bytes.now) }
{
    let (leader, next) = byte_at(bytes, at)?;
    if leader > 1 {
        return Err(Misread::BadTag(at));
    }
    let (partner, next) = byte_at(bytes, next)?;
    match (leader, partner) {
        (0, 1) => Ok((Storers::ZeroOne, next)),
        (0, 2) => Ok((Storers::ZeroTwo, next)),
        (1, 2) => Ok((Storers::OneTwo, next)),
        _ => Err(Misread::BadTag(at)),
    }
}

/// Appends a leader and its partner.
pub(crate) fn put_storers(out: &mut Vec<u8>, storers: Storers) -> Result<(), AllocError>
    ensures { OnOk result (out.new.items ≡ out.old.items ++ storers_bytes storers) }
{
    out.push(storers.leader().number())?;
    out.push(storers.partner().number())?;
    Ok(())
}

/// The hint of a server that doesn't lead.
#[tactic(auto, unfolding(crate::specs::Parts::hint_at))]
fn leader_hint_at(bytes: &[u8], at: usize) -> Result<(Cause, usize), Misread>
    requires { at ≤ length bytes.now }
    ensures step { result ≡ hint_at reason.NotLeader bytes.now at }
    ensures within { IfOk result (λ x. x.1 ≤ length bytes.now) }
{
    let (number, next) = byte_at(bytes, at)?;
    match number {
        0 => Ok((
            Cause::NotLeader {
                hint: Some(ServerId::Zero),
            },
            next,
        )),
        1 => Ok((
            Cause::NotLeader {
                hint: Some(ServerId::One),
            },
            next,
        )),
        2 => Ok((
            Cause::NotLeader {
                hint: Some(ServerId::Two),
            },
            next,
        )),
        3 => Ok((Cause::NotLeader { hint: None }, next)),
        _ => Err(Misread::BadTag(at)),
    }
}

/// A cause that has no hint, behind its number.
fn unhinted(cause: Cause, bytes: &[u8], at: usize) -> Result<(Cause, usize), Misread>
    requires { at ≤ length bytes.now }
    ensures step { result ≡ field_as (λ h. cause) no_hint_at bytes.now at }
    ensures within { IfOk result (λ x. x.1 ≤ length bytes.now) }
{
    let (number, next) = byte_at(bytes, at)?;
    match number {
        3 => Ok((cause, next)),
        _ => Err(Misread::BadTag(at)),
    }
}

#[tactic(auto, unfolding(crate::specs::Parts::hint_at))]
fn hint_at(reason: Reason, bytes: &[u8], at: usize) -> Result<(Cause, usize), Misread>
    requires { at ≤ length bytes.now }
    ensures step { result ≡ hint_at reason bytes.now at }
    ensures within { IfOk result (λ x. x.1 ≤ length bytes.now) }
{
    match reason {
        Reason::NotLeader => leader_hint_at(bytes, at),
        Reason::NotYetOpen => unhinted(Cause::NotYetOpen, bytes, at),
        Reason::NoPromise => unhinted(Cause::NoPromise, bytes, at),
        Reason::LogFull => unhinted(Cause::LogFull, bytes, at),
        Reason::Old => unhinted(Cause::Old, bytes, at),
        Reason::BadClient => unhinted(Cause::BadClient, bytes, at),
    }
}

/// A cause and its hint.
#[tactic(auto, unfolding(crate::specs::Parts::cause_at))]
pub(crate) fn cause_at(bytes: &[u8], at: usize) -> Result<(Cause, usize), Misread>
    requires { at ≤ length bytes.now }
    ensures step { result ≡ cause_at bytes.now at }
    ensures within { IfOk result (λ x. x.1 ≤ length bytes.now) }
{
    let (reason, at) = reason_at(bytes, at)?;
    hint_at(reason, bytes, at)
}

/// The byte of a cause's hint.
fn hint_number(cause: Cause) -> u8
    ensures { result ≡ hint_number (hint_of cause) }
{
    match cause {
        Cause::NotLeader { hint: Some(server) } => server.number(),
        Cause::NotLeader { hint: None } => 3,
        Cause::NotYetOpen => 3,
        Cause::NoPromise => 3,
        Cause::LogFull => 3,
        Cause::Old => 3,
        Cause::BadClient => 3,
    }
}

/// Appends a cause and its hint.
pub(crate) fn put_cause(out: &mut Vec<u8>, cause: Cause) -> Result<(), AllocError>
    ensures { OnOk result (out.new.items ≡ out.old.items ++ cause_bytes cause) }
{
    out.push(reason_number(cause))?;
    out.push(hint_number(cause))?;
    Ok(())
}

/// So many records.
#[tactic(auto, unfolding(harp_base::specs::Fields::many_at))]
fn each_at(
    alloc: Global,
    count: u16,
    bytes: &[u8],
    from: usize,
) -> Result<(Vec<Record>, usize), Misread>
    requires { from ≤ length bytes.now }
    ensures step { GivesAs (λ x. (x.0.items, x.1)) result (many_at item_at count bytes.now from) }
    ensures count { IfOk result (λ x. length x.0.items ≡ count) }
    ensures within { IfOk result (λ x. x.1 ≤ length bytes.now) }
{
    let mut records = Vec::new(alloc);
    let mut at = from;
    for _ in 0..count {
        let (item, next) = item_at(alloc, bytes, at)?;
        records.push(item)?;
        at = next;
    }
    Ok((records, at))
}

/// A number of records, at least 1, and the records.
#[tactic(auto, unfolding(crate::specs::Parts::records_at))]
pub(crate) fn records_at(
    alloc: Global,
    bytes: &[u8],
    at: usize,
) -> Result<(Records, usize), Misread>
    requires { at ≤ length bytes.now }
    ensures step { Gives result (records_at bytes.now at) }
    ensures within { IfOk result (λ x. x.1 ≤ length bytes.now) }
{
    let (count, next) = u16_at(bytes, at)?;
    let (records, next) = each_at(alloc, count, bytes, next)?;
    if records.is_empty() {
        return Err(Misread::BadTag(at));
    }
    Ok((Records::new(records), next))
}

#[tactic(auto, unfolding(harp_base::specs::Fields::many_bytes))]
fn put_each(out: &mut Vec<u8>, records: &[Record]) -> Result<(), AllocError>
    ensures value { OnOk result (out.new.items ≡ out.old.items
        ++ many_bytes record_bytes records.now) }
    ensures fits { OnOk result (AllFit RecordFits records.now) }
{
    for item in records {
        put_item(out, item)?;
    }
    Ok(())
}

/// Appends the number of records, and the records.
#[tactic(auto, unfolding(crate::specs::Parts::records_bytes))]
pub(crate) fn put_records(out: &mut Vec<u8>, records: &Records) -> Result<(), AllocError>
    ensures value { OnOk result (out.new.items ≡ out.old.items ++ records_bytes records.now) }
    ensures fits { OnOk result (RecordsFit records.now) }
{
    let records = records.as_slice();
    put_u16(out, records.len() as u16)?;
    put_each(out, records)?;
    Ok(())
}
