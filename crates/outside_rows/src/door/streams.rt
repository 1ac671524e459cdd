//! Sources and sinks, in memory and over std's readers and writers, that fail too.

use crate::digits::bytes_of;
use crate::door::words::put_bytes;
use harp_types::{Bytes, Failed, MemSink, MemSource, ReaderSource, Sink, Source, WriterSink};
use std::alloc::{AllocError, Global};
use std::io::{self, ErrorKind, Read, Write};

/// Its reads fail, and its writes take nothing.
#[derive(Drop)]
struct Broken;

impl Read for Broken {
    fn read(&mut self, _into: &mut [u8]) -> io::Result<usize> {
        Err(io::Error::from(ErrorKind::BrokenPipe))
    }
}

impl Write for Broken {
    fn write(&mut self, _piece: &[u8]) -> io::Result<usize> {
        Ok(0)
    }

    fn flush(&mut self) -> io::Result<()> {
        Ok(())
    }
}

/// This call alone fails.
pub(crate) fn fails(alloc: Global, number: u64) -> Result<Vec<u64>, AllocError> {
    let mut numbers = Vec::new(alloc);
    numbers.push(number)?;
    Ok(numbers)
}

/// What a read of two bytes gives.
fn put_read<S: Source>(alloc: Global, out: &mut String, source: &mut S) -> Result<(), AllocError> {
    let mut piece = [0; 2];
    match source.read(&mut piece) {
        Ok(count) => put_bytes(alloc, out, &piece[..count]),
        Err(Failed) => out.push_str("failed\n"),
    }
}

/// What four reads of two bytes give.
fn put_reads<S: Source>(alloc: Global, out: &mut String, source: &mut S) -> Result<(), AllocError> {
    for _ in 0..4 {
        put_read(alloc, out, source)?;
    }
    Ok(())
}

/// How many bytes of a piece a write takes.
fn put_write<K: Sink>(
    alloc: Global,
    out: &mut String,
    sink: &mut K,
    piece: &[u8],
) -> Result<(), AllocError> {
    match sink.write(piece) {
        Ok(count) => out.push_str(format!(in alloc; "wrote {count}\n")?.as_str()),
        Err(_) => out.push_str("failed\n"),
    }
}

/// How a write of nothing ends, and one of each byte.
fn put_writes<K: Sink>(
    alloc: Global,
    out: &mut String,
    sink: &mut K,
    bytes: &[u8],
) -> Result<(), AllocError> {
    put_write(alloc, out, sink, b"")?;
    for byte in bytes {
        put_write(alloc, out, sink, &[*byte])?;
    }
    Ok(())
}

/// A kind, the number of a call, and bytes. None where these words are none.
fn stream_of(alloc: Global, words: &str) -> Option<(&str, u64, Vec<u8>)> {
    let (kind, words) = words.split_once(' ')?;
    let (number, digits) = words.split_once(' ')?;
    let number = number.parse::<u64>().ok()?;
    Some((kind, number, bytes_of(alloc, digits)?))
}

/// What comes from a source.
pub(crate) fn put_source(alloc: Global, out: &mut String, words: &str) -> Result<(), AllocError> {
    let Some((kind, number, bytes)) = stream_of(alloc, words) else {
        return out.push_str("no source\n");
    };
    match kind {
        "reader" => put_reads(alloc, out, &mut ReaderSource::new(bytes.as_slice())),
        "broken" => put_reads(alloc, out, &mut ReaderSource::new(Broken)),
        _ => {
            let fails = fails(alloc, number)?;
            put_reads(
                alloc,
                out,
                &mut MemSource::new(Bytes::from_vec(bytes), fails),
            )
        }
    }
}

/// What becomes of writes into a sink.
pub(crate) fn put_sink(alloc: Global, out: &mut String, words: &str) -> Result<(), AllocError> {
    let Some((kind, number, bytes)) = stream_of(alloc, words) else {
        return out.push_str("no sink\n");
    };
    match kind {
        "writer" => put_writes(alloc, out, &mut WriterSink::new(Vec::new(alloc)), &bytes),
        "broken" => put_writes(alloc, out, &mut WriterSink::new(Broken), &bytes),
        _ => {
            let mut sink = MemSink::new(alloc, fails(alloc, number)?)?;
            put_writes(alloc, out, &mut sink, &bytes)?;
            put_bytes(alloc, out, sink.written())
        }
    }
}
