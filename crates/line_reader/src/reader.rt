//! The lines of a source, one after the other.

ghost use Rattle.std.specs.Prelude.{◌≡◌, ◌≢◌, ◌≤◌, ◌<◌, ℕ, List, [], ◌∷◌, ◌++◌, length, IfOk, OnOk, OnErr, Err};
ghost use Rattle.std.specs.Io.KnownBytes.{Keeps};
ghost use Rattle.harp_types.specs.Limits.{longest_line};
ghost use Rattle.harp_types.specs.Streams.{Rose};
ghost use Rattle.line_reader.specs.Lines.{Feedless};
ghost use Rattle.line_reader.specs.Reading.{text_left, GivesKnown, IsShort};

use crate::chunk::Chunk;
use harp_types::{Failed, LONGEST_LINE, Source};
use std::alloc::{AllocError, AllocFailed, Global};
use std::marker::Model;
use std::mem;

/// What comes next in a text.
#[derive(Drop)]
pub enum Next {
    /// A line, without its line feed.
    Line(Vec<u8>),
    /// A line of more than 20,000 bytes. It stays the next one.
    TooLong,
    /// Nothing more.
    End,
}

/// Why nothing was read.
#[derive(Clone, Copy, PartialEq, Eq)]
pub enum ReadFault {
    Failed,
    NoMemory,
}

impl From<AllocError> for ReadFault {
    ghost use Rattle.line_reader.specs.declared.reader.ReadFault.TheVariants.{NoMemory};

    ghost from_gives = { λ _ fault. fault ≡ NoMemory };

    fn from(_: AllocError) -> ReadFault {
        ReadFault::NoMemory
    }
}

impl<T: Drop> From<AllocFailed<T>> for ReadFault {
    ghost use Rattle.line_reader.specs.declared.reader.ReadFault.TheVariants.{NoMemory};

    ghost from_gives = { λ _ fault. fault ≡ NoMemory };

    fn from(_: AllocFailed<T>) -> ReadFault {
        ReadFault::NoMemory
    }
}

impl From<Failed> for ReadFault {
    ghost use Rattle.line_reader.specs.declared.reader.ReadFault.TheVariants as fault;

    ghost from_gives = { λ _ e. e ≡ fault.Failed };

    fn from(_: Failed) -> ReadFault {
        ReadFault::Failed
    }
}

/// A reader of lines. It holds one line, of at most 20,001 bytes, and one chunk of the source.
#[derive(Drop)]
pub struct LineReader {
    line: Vec<u8>,
    /// A line that was taken back: the next one to be held has its room.
    spare: Vec<u8>,
    chunk: Chunk,
}

impl Model for LineReader {
    ghost use Rattle.std.specs.Prelude.{ℕ, List, ◌++◌, length, ◌≤◌, ◌≡◌, ◌==◌, false};
    ghost use Rattle.std.specs.List.{AllByRecursion};

    ghost Value = { List ℕ };

    ghost view = { λ r. r.line.items ++ r.chunk };

    ghost invariant = { λ r. (length r.line.items ≤ 20001) × AllByRecursion (λ b. (b == 10) ≡ false) r.line.items };
}

/// Takes the bytes at hand before the next line feed to a line, as far as it has room. It goes into
/// its caller: a line is short, and a call for each piece costs as much as the piece.
#[inline(always)]
fn take_plain(line: &mut Vec<u8>, chunk: &mut Chunk) -> Result<(), AllocError>
    requires { length line.old.items ≤ longest_line }
    ensures whole { line.new.items ++ chunk.new ≡ line.old.items ++ chunk.old }
    ensures feedless { Feedless line.old.items → Feedless line.new.items }
    ensures few { length line.new.items ≤ 20001 }
    // Some come where the next byte is no line feed.
    ensures more { OnOk result ((b : ℕ) (rest : List ℕ) → chunk.old ≡ b ∷ rest → b ≢ 10
        → length line.old.items < length line.new.items) }
{
    let piece = chunk.plain(LONGEST_LINE + 1 - line.len());
    let count = piece.len();
    line.extend_from_slice(piece)?;
    chunk.take(count);
    Ok(())
}

/// The line that is held. An empty one with the room of the spare one is held now.
fn hand_out(alloc: Global, line: &mut Vec<u8>, spare: &mut Vec<u8>) -> Vec<u8>
    ensures line { result ≡ line.old }
    ensures empty { line.new.items ≡ [] }
{
    let mut next = mem::replace(spare, Vec::new(alloc));
    next.clear();
    mem::replace(line, next)
}

impl LineReader {
    pub fn new(alloc: Global) -> Result<LineReader, AllocError>
        ensures { IfOk result (λ reader. reader ≡ []) }
    {
        Ok(LineReader {
            line: Vec::new(alloc),
            spare: Vec::new(alloc),
            chunk: Chunk::new(alloc)?,
        })
    }

    /// The next line of the text that is left. After a fault the text left is as before. When the source fails, each
    /// line was given that came whole. It goes into its callers, since what it gives is large.
    #[inline(always)]
    pub fn next<S: Source>(&mut self, alloc: Global, source: &mut S) -> Result<Next, ReadFault>
        ensures ok { IfOk result (λ next. GivesKnown (text_left self.old (S.left source.old)) (text_left self.new (S.left source.new)) next) }
        ensures short { IfOk result IsShort }
        ensures err { OnErr result (Keeps (text_left self.old (S.left source.old)) (text_left self.new (S.left source.new))) }
        ensures begun { result ≡ Err ReadFault.Failed → Feedless self.new }
        ensures rose { result ≡ Err ReadFault.Failed → Rose (S.faults source.old) (S.faults source.new) }
        ensures count { S.faults source.old ≤ S.faults source.new }
    {
        while self.line.len() <= LONGEST_LINE {
            match self.chunk.peek(source)? {
                None if self.line.is_empty() => return Ok(Next::End),
                None => return Ok(Next::Line(hand_out(alloc, &mut self.line, &mut self.spare))),
                Some(b'\n') => {
                    self.chunk.take(1);
                    return Ok(Next::Line(hand_out(alloc, &mut self.line, &mut self.spare)));
                }
                Some(_) => take_plain(&mut self.line, &mut self.chunk)?,
            }
        }
        Ok(Next::TooLong)
    }

    /// Takes back a line that was given, so that a later one has its room.
    pub fn take_back(&mut self, line: Vec<u8>)
        ensures { self.new ≡ self.old }
    {
        self.spare = line;
    }
}
