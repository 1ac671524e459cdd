//! Serving the records of a source.

ghost use Rattle.std.specs.Prelude.{◌≡◌, ◌≢◌, ◌≤◌, ◌<◌, ◌++◌, [], ℕ, List, Option, drop, length, Some, IfOk, IfErr, OnOk, MatchResult};
ghost use Rattle.rpc_door.specs.Group.{IsCounted, NoneFell};
ghost use Rattle.rpc_door.specs.Records.{bytes_left};
ghost use Rattle.rpc_door.specs.Marks.{Whole, front};
ghost use Rattle.rpc_door.specs.Meaning.{meaning_of};
ghost use Rattle.rpc_door.specs.Results.{answer_bytes};
ghost use Rattle.rpc_door.specs.declared.meaning.RpcIn.TheVariants.{Ask};
ghost use Rattle.rpc_door.specs.Serving.{AnswersInPartBy, AnswersOne, DoorEnds, FaultsStay, IsCaused, MakesBy, RunsAfter, TurnGives, TurnStops, faults, sent, side};

use crate::fault::{DoorFault, of_group, of_read, of_sink};
use crate::group::{Group, GroupFault};
use crate::meaning::{RpcIn, read_rpc};
use crate::records::{Next, RecordReader};
use crate::results::put_answer;
use byteorder::{BigEndian, ByteOrder};
use harp_base::fields::put_u32;
use harp_types::{Call, Cred, Failed, Reply, Sink, Source, write_all};
use std::alloc::{AllocError, Global};

/// The most records of an input.
const MOST_RECORDS: u64 = 1_048_575;

/// The mark of a record of one fragment, but for its length.
const LAST: u32 = 1 << 31;

/// What stands where a mark is put as soon as the length of its record is known.
const ROOM: [u8; 4] = [0; 4];

/// Where records are read and answered.
#[derive(Drop)]
struct Desk {
    reader: RecordReader,
    /// Room for a record that doesn't lie whole where it was read, which the next one uses anew.
    record: Vec<u8>,
    /// Room for an answer, which the next one uses anew.
    sent: Vec<u8>,
}

impl Desk {
    fn new(alloc: Global) -> Result<Desk, AllocError>
        ensures { IfOk result (λ desk. desk.reader ≡ []) }
    {
        Ok(Desk {
            reader: RecordReader::new(alloc)?,
            record: Vec::new(alloc),
            sent: Vec::new(alloc),
        })
    }
}

/// What a record led to.
#[derive(Clone, Copy)]
enum Turn {
    /// It was answered.
    GoesOn,
    /// There is none any more.
    Ended,
}

/// Appends an answer as a record of one fragment. One of 2^31 bytes, which there is none of, would
/// count as want of memory.
#[tactic(auto, unfolding(crate::specs::Serving::sent))]
pub fn put_sent(out: &mut Vec<u8>, answer: &[u8]) -> Result<(), AllocError>
    ensures { OnOk result (out.new.items ≡ out.old.items ++ sent answer.now) }
{
    if answer.len() >= LAST as usize {
        return Err(AllocError);
    }
    put_u32(out, LAST + answer.len() as u32)?;
    out.extend_from_slice(answer)
}

/// Makes an answer a record of one fragment: its mark is put over the room before it. One of 2^31
/// bytes, which there is none of, would count as want of memory.
#[tactic(auto, unfolding(crate::specs::Serving::sent, harp_base::specs::Fields::u32_bytes))]
fn put_mark(out: &mut Vec<u8>) -> Result<(), AllocError>
    requires { 4 ≤ length out.old.items }
    ensures { OnOk result (out.new.items ≡ sent (drop 4 out.old.items)) }
{
    let size = out.len() - ROOM.len();
    if size >= LAST as usize {
        return Err(AllocError);
    }
    BigEndian::write_u32(out.as_mut_slice(), LAST + size as u32);
    Ok(())
}

/// The answer to a call by this reply, as it is sent. It is spelled where it is sent from, since it
/// may be long.
fn send_reply(xid: u32, call: &Call, reply: &Reply, out: &mut Vec<u8>) -> Result<(), AllocError>
    requires { out.old.items ≡ [] }
    ensures { OnOk result (out.new.items ≡ sent (answer_bytes xid call.now reply.now)) }
{
    out.extend_from_slice(&ROOM)?;
    put_answer(out, xid, call, reply)?;
    put_mark(out)
}

/// Makes a call, and gives its answer as it is sent.
fn answer_call<G: Group>(
    alloc: Global,
    cred: Cred,
    xid: u32,
    call: &Call,
    group: &mut G,
    out: &mut Vec<u8>,
) -> Result<(), GroupFault>
    requires none { out.old.items ≡ [] }
    requires runs { G.runs group.old }
    ensures runs { OnOk result (G.runs group.new) }
    ensures ok { OnOk result (MakesBy cred (Ask xid call.now) (G.told group.old)
        (G.told group.new) out.new.items) }
    ensures err { IfErr result (AnswersInPartBy cred (Ask xid call.now) (G.told group.old)
        (G.told group.new) (G.unanswered group.new)) }
    ensures counted { IfErr result (λ why. IsCounted why (G.counts group.old)
        (G.counts group.new)) }
    ensures counts { NoneFell (G.counts group.old) (G.counts group.new) }
    ensures on { (o : G.Basis) → G.on group.old o → G.on group.new o }
{
    let reply = match group.call(alloc, cred, call) {
        Ok(reply) => reply,
        Err(fault) => return Err(fault),
    };
    match send_reply(xid, call, &reply, out) {
        Ok(()) => Ok(()),
        Err(_) => Err(GroupFault::NoMemory),
    }
}

/// The answer to a record as it is sent, nothing where it means nothing.
fn answer_record<G: Group>(
    alloc: Global,
    cred: Cred,
    bytes: &[u8],
    group: &mut G,
    out: &mut Vec<u8>,
) -> Result<(), GroupFault>
    requires { G.runs group.old }
    ensures runs { OnOk result (G.runs group.new) }
    ensures ok { OnOk result (MakesBy cred (meaning_of bytes.now) (G.told group.old)
        (G.told group.new) out.new.items) }
    ensures err { IfErr result (AnswersInPartBy cred (meaning_of bytes.now)
        (G.told group.old) (G.told group.new) (G.unanswered group.new)) }
    ensures counted { IfErr result (λ why. IsCounted why (G.counts group.old)
        (G.counts group.new)) }
    ensures counts { NoneFell (G.counts group.old) (G.counts group.new) }
    ensures on { (o : G.Basis) → G.on group.old o → G.on group.new o }
{
    out.clear();
    match read_rpc(alloc, bytes) {
        Ok(RpcIn::Silent) => Ok(()),
        Ok(RpcIn::Fixed(fixed)) => match put_sent(out, fixed.as_slice()) {
            Ok(()) => Ok(()),
            Err(_) => Err(GroupFault::NoMemory),
        },
        Ok(RpcIn::Ask { xid, call }) => answer_call(alloc, cred, xid, &call, group, out),
        Err(_) => Err(GroupFault::NoMemory),
    }
}

/// Answers a record, and writes the answer. `room` is room for it.
fn serve_bytes<K: Sink, G: Group>(
    alloc: Global,
    cred: Cred,
    bytes: &[u8],
    room: &mut Vec<u8>,
    sink: &mut K,
    group: &mut G,
) -> Result<(), DoorFault>
    requires { G.runs group.old }
    ensures runs { MatchResult result (λ _. G.runs group.new) (RunsAfter (G.runs group.new)) }
    ensures ends { (all rest : List ℕ) (left source : Option (List ℕ)) (number : ℕ)
        → front all ≡ Whole bytes.now rest → left ≡ Some rest
        → MatchResult result (λ _. AnswersOne cred all left
        (side (G.told group.old) (G.unanswered group.old) (K.written sink.old))
        (side (G.told group.new) (G.unanswered group.new) (K.written sink.new)))
        (TurnStops cred all number source
        (side (G.told group.old) (G.unanswered group.old) (K.written sink.old))
        (side (G.told group.new) (G.unanswered group.new) (K.written sink.new))) }
    ensures cause { (reads : ℕ) → IfErr result (λ why. IsCaused why
        (faults reads (K.faults sink.old) (G.counts group.old))
        (faults reads (K.faults sink.new) (G.counts group.new))) }
    ensures counts { FaultsStay (faults 0 (K.faults sink.old) (G.counts group.old))
        (faults 0 (K.faults sink.new) (G.counts group.new)) }
    ensures on { (o : G.Basis) → G.on group.old o → G.on group.new o }
{
    match answer_record(alloc, cred, bytes, group, room) {
        Ok(()) => {}
        Err(fault) => return Err(of_group(fault)),
    }
    match write_all(sink, room.as_slice()) {
        Ok(()) => Ok(()),
        Err(fault) => Err(of_sink(fault)),
    }
}

/// Reads the record with this number, whose first byte is at hand, and answers it: where it lies,
/// if it is whole there.
fn serve_record<S: Source, K: Sink, G: Group>(
    alloc: Global,
    cred: Cred,
    number: u64,
    desk: &mut Desk,
    source: &mut S,
    sink: &mut K,
    group: &mut G,
) -> Result<(), DoorFault>
    requires some { 0 < length desk.old.reader }
    requires runs { G.runs group.old }
    ensures runs { MatchResult result (λ _. G.runs group.new) (RunsAfter (G.runs group.new)) }
    ensures ends { (bytes : List ℕ) → bytes_left desk.old.reader (S.left source.old) ≡ Some bytes
        → MatchResult result (λ _. AnswersOne cred bytes
        (bytes_left desk.new.reader (S.left source.new))
        (side (G.told group.old) (G.unanswered group.old) (K.written sink.old))
        (side (G.told group.new) (G.unanswered group.new) (K.written sink.new)))
        (TurnStops cred bytes number (S.left source.new)
        (side (G.told group.old) (G.unanswered group.old) (K.written sink.old))
        (side (G.told group.new) (G.unanswered group.new) (K.written sink.new))) }
    ensures cause { IfErr result (λ why. IsCaused why
        (faults (S.faults source.old) (K.faults sink.old) (G.counts group.old))
        (faults (S.faults source.new) (K.faults sink.new) (G.counts group.new))) }
    ensures counts { FaultsStay
        (faults (S.faults source.old) (K.faults sink.old) (G.counts group.old))
        (faults (S.faults source.new) (K.faults sink.new) (G.counts group.new)) }
    ensures on { (o : G.Basis) → G.on group.old o → G.on group.new o }
{
    if let Some(size) = desk.reader.whole() {
        let bytes = desk.reader.record(size);
        let done = serve_bytes(alloc, cred, bytes, &mut desk.sent, sink, group);
        desk.reader.pass(size);
        return done;
    }
    match desk.reader.next(source, &mut desk.record) {
        Ok(Next::Record) => {}
        Ok(Next::Broken) => return Err(DoorFault::BadRecord(number)),
        Err(fault) => return Err(of_read(fault)),
    }
    serve_bytes(
        alloc,
        cred,
        desk.record.as_slice(),
        &mut desk.sent,
        sink,
        group,
    )
}

/// Reads the record with this number and answers it. One past the limit is refused at its first
/// byte.
fn serve_next<S: Source, K: Sink, G: Group>(
    alloc: Global,
    cred: Cred,
    number: u64,
    desk: &mut Desk,
    source: &mut S,
    sink: &mut K,
    group: &mut G,
) -> Result<Turn, DoorFault>
    requires { G.runs group.old }
    ensures runs { MatchResult result (λ _. G.runs group.new) (RunsAfter (G.runs group.new)) }
    ensures ends { (bytes : List ℕ) → bytes_left desk.old.reader (S.left source.old) ≡ Some bytes
        → MatchResult result (TurnGives cred bytes
        (bytes_left desk.new.reader (S.left source.new)) (S.left source.new)
        (side (G.told group.old) (G.unanswered group.old) (K.written sink.old))
        (side (G.told group.new) (G.unanswered group.new) (K.written sink.new)))
        (TurnStops cred bytes number (S.left source.new)
        (side (G.told group.old) (G.unanswered group.old) (K.written sink.old))
        (side (G.told group.new) (G.unanswered group.new) (K.written sink.new))) }
    ensures last { 1048575 < number → IfOk result (λ turn. turn ≢ Turn.GoesOn) }
    ensures cause { IfErr result (λ why. IsCaused why
        (faults (S.faults source.old) (K.faults sink.old) (G.counts group.old))
        (faults (S.faults source.new) (K.faults sink.new) (G.counts group.new))) }
    ensures counts { FaultsStay
        (faults (S.faults source.old) (K.faults sink.old) (G.counts group.old))
        (faults (S.faults source.new) (K.faults sink.new) (G.counts group.new)) }
    ensures on { (o : G.Basis) → G.on group.old o → G.on group.new o }
{
    match desk.reader.begins(source) {
        Ok(true) => {}
        Ok(false) => return Ok(Turn::Ended),
        Err(Failed) => return Err(DoorFault::ReadFault),
    }
    if number > MOST_RECORDS {
        return Err(DoorFault::BadRecord(number));
    }
    match serve_record(alloc, cred, number, desk, source, sink, group) {
        Ok(()) => Ok(Turn::GoesOn),
        Err(fault) => Err(fault),
    }
}

/// Answers the records of a source, one after the other, by the replies that a group gives to their
/// calls, all by this user and group, and gives the number of records at the end of the source.
///
/// It is shut early at a record that is none, at the first fault of the source or the sink, at the
/// first call that the group doesn't answer, and without memory. By then the records before were
/// answered, each once. Of a source that doesn't tell its bytes only the causes are said, and of
/// such a sink nothing of what was written.
pub fn serve_rpc<S: Source, K: Sink, G: Group>(
    alloc: Global,
    cred: Cred,
    source: &mut S,
    sink: &mut K,
    group: &mut G,
) -> Result<u64, DoorFault>
    requires { G.runs group.old }
    // What was read and written by then, and which calls were made.
    ensures ends { (input : List ℕ) → S.left source.old ≡ Some input
        → DoorEnds cred input (S.left source.new)
        (side (G.told group.old) (G.unanswered group.old) (K.written sink.old))
        (side (G.told group.new) (G.unanswered group.new) (K.written sink.new))
        result }
    ensures runs { MatchResult result (λ _. G.runs group.new) (RunsAfter (G.runs group.new)) }
    ensures cause { IfErr result (λ why. IsCaused why
        (faults (S.faults source.old) (K.faults sink.old) (G.counts group.old))
        (faults (S.faults source.new) (K.faults sink.new) (G.counts group.new))) }
    ensures counts { FaultsStay
        (faults (S.faults source.old) (K.faults sink.old) (G.counts group.old))
        (faults (S.faults source.new) (K.faults sink.new) (G.counts group.new)) }
    ensures on { (o : G.Basis) → G.on group.old o → G.on group.new o }
{
    let mut desk = match Desk::new(alloc) {
        Ok(desk) => desk,
        Err(_) => return Err(DoorFault::NoMemory),
    };
    let mut number = 1;
    loop {
        match serve_next(alloc, cred, number, &mut desk, source, sink, group) {
            Ok(Turn::GoesOn) => number += 1,
            Ok(Turn::Ended) => return Ok(number - 1),
            Err(fault) => return Err(fault),
        }
    }
}
