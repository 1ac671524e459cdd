//! Sources and sinks over the readers and writers of std.

ghost use Rattle.std.specs.Prelude.{◌≡◌, ◌≤◌, length, None, Err, IfOk, OnErr};
ghost use Rattle.std.specs.Io.KnownBytes.{ReadConsumes, WriteAppends};
ghost use Rattle.harp_types.specs.Streams.{Rose, Taken, Given};
ghost use Rattle.harp_types.specs.Standard.{read_faults, write_faults, reader_of, writer_of};

use crate::streams::{Failed, Sink, SinkFault, Source};
use std::io::{Read, Write};

/// A source over a reader, as standard input. It tells no bytes; each error of the reader is a
/// fault.
#[derive(Drop)]
pub struct ReaderSource<R> {
    reader: R,
    faults: u64,
}

impl<R> ReaderSource<R> {
    /// A source over a reader, with no fault so far.
    pub fn new(reader: R) -> ReaderSource<R>
        ensures reader { reader_of result ≡ reader }
        ensures faults { read_faults result ≡ 0 }
    {
        ReaderSource { reader, faults: 0 }
    }
}

impl<R: Read> Source for ReaderSource<R> {
    ghost left = { λ _. None };

    ghost faults = { read_faults };

    fn read(&mut self, into: &mut [u8]) -> Result<usize, Failed>
        ensures within { IfOk result (λ n. n ≤ length into.new) }
        ensures taken { IfOk result (λ n. Taken None None into.new n) }
        ensures rose { OnErr result (Rose (read_faults self.old) (read_faults self.new)) }
        ensures count { read_faults self.old ≤ read_faults self.new }

        // Where the reader's bytes are known, these are what was read.
        ensures passed { ReadConsumes (R.remaining (reader_of self.old))
            (R.remaining (reader_of self.new)) result into.new }
    {
        match self.reader.read(into) {
            Ok(n) => Ok(n),
            Err(_) => {
                self.faults = self.faults.saturating_add(1);
                Err(Failed)
            }
        }
    }
}

/// A sink over a writer, as standard output. It tells no bytes; each error of the writer is a
/// fault, and so is a write that takes nothing of a piece with bytes in it.
#[derive(Drop)]
pub struct WriterSink<W> {
    writer: W,
    faults: u64,
}

impl<W> WriterSink<W> {
    /// A sink over a writer, with no fault so far.
    pub fn new(writer: W) -> WriterSink<W>
        ensures writer { writer_of result ≡ writer }
        ensures faults { write_faults result ≡ 0 }
    {
        WriterSink { writer, faults: 0 }
    }
}

impl<W: Write> Sink for WriterSink<W> {
    ghost written = { λ _. None };

    ghost faults = { write_faults };

    fn write(&mut self, piece: &[u8]) -> Result<usize, SinkFault>
        ensures given { IfOk result (λ n. Given None None piece.now n) }
        ensures rose { result ≡ Err SinkFault.Failed
            → Rose (write_faults self.old) (write_faults self.new) }
        ensures count { write_faults self.old ≤ write_faults self.new }

        // Where the writer's bytes are known, they grew by what was written.
        ensures passed { WriteAppends (W.contents (writer_of self.old))
            (W.contents (writer_of self.new)) result piece.now }
    {
        match self.writer.write(piece) {
            Ok(n) if n > 0 || piece.is_empty() => Ok(n),
            _ => {
                self.faults = self.faults.saturating_add(1);
                Err(SinkFault::Failed)
            }
        }
    }
}
