//! The records of a source, one after the other (RFC 1057, section 10).

ghost use Rattle.std.specs.Prelude.{◌≡◌, ◌≤◌, ◌<◌, ◌+◌, [], true, false, length, take, drop, IfOk, IfSome, OnErr, Ok, Err};
ghost use Rattle.std.specs.Int.{w32, from_be_bytes};
ghost use Rattle.std.specs.Io.KnownBytes.{IsAtEnd, Keeps};
ghost use Rattle.harp_types.specs.Streams.{Rose};
ghost use Rattle.rpc_door.specs.Records.{BreaksOff, EndsInFragment, Finds, GivesKnown, StandsWhole, TakesMark, TakesNoMark, TakesPiece, bytes_left};

use crate::fault::ReadFault;
use crate::held::Held;
use harp_types::{Failed, Source};
use std::alloc::{AllocError, Global};
use std::marker::Model;

/// The most bytes of a record.
const LONGEST: usize = 20_000;

/// The most fragments of a record.
const FRAGMENTS: u32 = 1000;

/// The highest bit of a mark, which its last fragment has.
const LAST: u32 = 1 << 31;

/// How many bytes a mark has.
const MARK: usize = 4;

/// What came of a fragment.
#[derive(Clone, Copy)]
enum Piece {
    /// It is its record's last one.
    Last,
    /// Others of its record follow.
    More,
    /// The source ended within it.
    Ends,
    /// Its record has too many bytes with it.
    Long,
}

/// What came of a record.
#[derive(Clone, Copy)]
enum Found {
    Record,
    /// The source ended within it.
    Short,
    /// It has too many bytes or fragments.
    Large,
}

/// What stands at the front of the bytes of a source.
#[derive(Clone, Copy)]
pub enum Next {
    /// A record.
    Record,
    /// Bytes that are no record: the source ends within one, or it has more than 20,000 bytes or
    /// 1000 fragments.
    Broken,
}

/// The number that a mark is.
fn mark_of(bytes: &[u8]) -> u32
    requires { length bytes.now ≡ 4 }
    ensures { result ≡ from_be_bytes w32 bytes.now }
{
    u32::from_be_bytes([bytes[0], bytes[1], bytes[2], bytes[3]])
}

/// Takes a mark; None where the source ends before. `room` is room for it.
fn read_mark<S: Source>(
    held: &mut Held,
    source: &mut S,
    room: &mut Vec<u8>,
) -> Result<Option<u32>, ReadFault>
    ensures ok { IfOk result (TakesMark (bytes_left held.old (S.left source.old))
        (bytes_left held.new (S.left source.new))) }
    ensures err { OnErr result (TakesNoMark (bytes_left held.old (S.left source.old))
        (bytes_left held.new (S.left source.new))) }
    ensures failed { result ≡ Err ReadFault.Failed → held.new ≡ [] }
    ensures rose { result ≡ Err ReadFault.Failed
        → Rose (S.faults source.old) (S.faults source.new) }
    ensures count { S.faults source.old ≤ S.faults source.new }
{
    room.clear();
    match held.take_exactly(source, room, MARK) {
        Ok(true) => {}
        Ok(false) => return Ok(None),
        Err(fault) => return Err(fault),
    }
    Ok(Some(mark_of(room.as_slice())))
}

/// Takes a fragment behind earlier ones of its record.
fn read_piece<S: Source>(
    held: &mut Held,
    source: &mut S,
    room: &mut Vec<u8>,
    out: &mut Vec<u8>,
) -> Result<Piece, ReadFault>
    requires { length out.old.items ≤ 20000 }
    ensures ok { IfOk result (TakesPiece (bytes_left held.old (S.left source.old))
        (bytes_left held.new (S.left source.new)) out.old.items out.new.items) }
    ensures err { OnErr result (EndsInFragment (bytes_left held.old (S.left source.old))
        (bytes_left held.new (S.left source.new)) out.old.items) }
    ensures failed { result ≡ Err ReadFault.Failed → held.new ≡ [] }
    ensures rose { result ≡ Err ReadFault.Failed
        → Rose (S.faults source.old) (S.faults source.new) }
    ensures count { S.faults source.old ≤ S.faults source.new }
{
    let mark = match read_mark(held, source, room) {
        Ok(Some(mark)) => mark,
        Ok(None) => return Ok(Piece::Ends),
        Err(fault) => return Err(fault),
    };
    let size = (mark % LAST) as usize;
    if size > LONGEST - out.len() {
        return Ok(Piece::Long);
    }
    match held.take_exactly(source, out, size) {
        Ok(true) if mark >= LAST => Ok(Piece::Last),
        Ok(true) => Ok(Piece::More),
        Ok(false) => Ok(Piece::Ends),
        Err(fault) => Err(fault),
    }
}

/// Takes a record.
fn read_record<S: Source>(
    held: &mut Held,
    source: &mut S,
    room: &mut Vec<u8>,
    out: &mut Vec<u8>,
) -> Result<Found, ReadFault>
    requires { out.old.items ≡ [] }
    ensures ok { IfOk result (Finds (bytes_left held.old (S.left source.old))
        (bytes_left held.new (S.left source.new)) out.new.items) }
    ensures err { OnErr result (BreaksOff (bytes_left held.old (S.left source.old))
        (bytes_left held.new (S.left source.new))) }
    ensures failed { result ≡ Err ReadFault.Failed → held.new ≡ [] }
    ensures rose { result ≡ Err ReadFault.Failed
        → Rose (S.faults source.old) (S.faults source.new) }
    ensures count { S.faults source.old ≤ S.faults source.new }
{
    for _ in 0..FRAGMENTS {
        match read_piece(held, source, room, out) {
            Ok(Piece::More) => {}
            Ok(Piece::Last) => return Ok(Found::Record),
            Ok(Piece::Ends) => return Ok(Found::Short),
            Ok(Piece::Long) => return Ok(Found::Large),
            Err(fault) => return Err(fault),
        }
    }
    match read_mark(held, source, room) {
        Ok(Some(_)) => Ok(Found::Large),
        Ok(None) => Ok(Found::Short),
        Err(fault) => Err(fault),
    }
}

/// How many bytes the record has that stands at the front of these, where it stands there whole
/// and in one fragment.
fn whole_size(bytes: &[u8]) -> Option<usize>
    ensures { IfSome result (λ size. StandsWhole size bytes.now) }
{
    if bytes.len() < MARK {
        return None;
    }
    let mark = mark_of(&bytes[..MARK]);
    if mark < LAST {
        return None;
    }
    let size = (mark % LAST) as usize;
    if size > LONGEST {
        return None;
    }
    if size > bytes.len() - MARK {
        return None;
    }
    Some(size)
}

/// A reader of records. It holds one chunk of the source.
#[derive(Drop)]
pub struct RecordReader {
    held: Held,
    mark: Vec<u8>,
}

impl Model for RecordReader {
    ghost use Rattle.std.specs.Prelude.{ℕ, List};

    ghost Value = { List ℕ };

    ghost view = { λ r. r.held };
}

impl RecordReader {
    pub fn new(alloc: Global) -> Result<RecordReader, AllocError>
        ensures { IfOk result (λ reader. reader ≡ []) }
    {
        Ok(RecordReader {
            held: Held::new(alloc)?,
            mark: Vec::new(alloc),
        })
    }

    /// Whether there is a byte more. The source is read where none is at hand.
    pub fn begins<S: Source>(&mut self, source: &mut S) -> Result<bool, Failed>
        ensures left { Keeps (bytes_left self.old (S.left source.old))
            (bytes_left self.new (S.left source.new)) }
        ensures some { result ≡ Ok true → 0 < length self.new }
        ensures none { result ≡ Ok false → IsAtEnd (bytes_left self.old (S.left source.old)) }
        ensures failed { OnErr result (self.new ≡ []) }
        ensures rose { OnErr result (Rose (S.faults source.old) (S.faults source.new)) }
        ensures count { S.faults source.old ≤ S.faults source.new }
    {
        self.held.fill(source)
    }

    /// How many bytes the next record has, where it lies whole in the chunk, in one fragment.
    pub fn whole(&self) -> Option<usize>
        ensures { IfSome result (λ size. StandsWhole size self.now) }
    {
        whole_size(self.held.as_slice())
    }

    /// The next record, which lies whole in the chunk.
    pub fn record(&self, size: usize) -> &[u8]
        requires { StandsWhole size self.now }
        ensures { result.now ≡ take size (drop 4 self.now) }
    {
        let at_hand = self.held.as_slice();
        &at_hand[MARK..MARK + size]
    }

    /// Passes over the next record, which lies whole in the chunk.
    pub fn pass(&mut self, size: usize)
        requires { StandsWhole size self.old }
        ensures { self.new ≡ drop (4 + size) self.old }
    {
        self.held.pass(MARK + size);
    }

    /// What comes next; a record is put in `out`, whatever that held. After a fault the first bytes
    /// of a record may be taken and lost.
    pub fn next<S: Source>(&mut self, source: &mut S, out: &mut Vec<u8>) -> Result<Next, ReadFault>
        requires { 0 < length self.old }
        ensures ok { IfOk result (GivesKnown (bytes_left self.old (S.left source.old))
            (bytes_left self.new (S.left source.new)) out.new.items) }
        ensures err { OnErr result (BreaksOff (bytes_left self.old (S.left source.old))
            (bytes_left self.new (S.left source.new))) }
        ensures failed { result ≡ Err ReadFault.Failed → self.new ≡ [] }
        ensures rose { result ≡ Err ReadFault.Failed
            → Rose (S.faults source.old) (S.faults source.new) }
        ensures count { S.faults source.old ≤ S.faults source.new }
    {
        out.clear();
        match read_record(&mut self.held, source, &mut self.mark, out) {
            Ok(Found::Record) => Ok(Next::Record),
            Ok(Found::Short) => Ok(Next::Broken),
            Ok(Found::Large) => Ok(Next::Broken),
            Err(fault) => Err(fault),
        }
    }
}
