//! The summaries of a sweep as text.

ghost use Rattle.std.specs.Prelude.{◌≡◌, ◌≤◌, ◌<◌, ◌+◌, ◌^◌, ◌++◌, ◌∷◌, codes, decimal, length, IfOk, OnOk, OnErr, Err};
ghost use Rattle.std.specs.Io.KnownBytes.{Appends};
ghost use Rattle.harp_types.specs.Streams.{GrewByPart, Rose};
ghost use Rattle.text_spelling.specs.Text.{spaced};
ghost use Rattle.sweep.specs.Texts.{count_of, word_of, counted, run_text, runs_text, total};
ghost use Rattle.sweep.specs.Texts.{sum_text, summaries_text};

use crate::Summary;
use harp_types::{Sink, SinkFault, write_all};
use itoa::Buffer;
use std::alloc::{AllocError, Global};
use text_writer::{put_named, put_number};

/// The counts of a run.
#[derive(Clone, Copy)]
pub enum Count {
    Entered,
    Answered,
    Refused,
    Opened,
}

impl Count {
    fn of(self, summary: &Summary) -> u64
        ensures { result ≡ count_of self summary.now }
    {
        match self {
            Count::Entered => summary.entered,
            Count::Answered => summary.answered,
            Count::Refused => summary.refused,
            Count::Opened => summary.opened,
        }
    }

    fn word(self) -> &'static [u8]
        ensures { result.now ≡ word_of self }
    {
        match self {
            Count::Entered => b"entered",
            Count::Answered => b"answered",
            Count::Refused => b"refused",
            Count::Opened => b"opened",
        }
    }

    /// The count of all runs together. No sum of fewer than 2^64 counts passes 128 bits.
    fn total(self, all: &[Summary]) -> u128
        ensures { result ≡ total self all.now }
    {
        let mut total = 0;
        for summary in all {
            total += u128::from(self.of(summary));
        }
        total
    }
}

/// A count of a run behind its word.
fn put_count(out: &mut Vec<u8>, count: Count, summary: &Summary) -> Result<(), AllocError>
    ensures { OnOk result (out.new.items ≡ out.old.items ++ counted count summary.now) }
{
    out.push(b' ')?;
    put_named(out, count.word(), count.of(summary))
}

/// The counts of the run of a seed.
#[tactic(auto, unfolding(crate::specs::Texts::run_text))]
fn put_run(out: &mut Vec<u8>, seed: u64, summary: &Summary) -> Result<(), AllocError>
    ensures { OnOk result (out.new.items ≡ out.old.items ++ run_text seed summary.now) }
{
    put_named(out, b"run".as_slice(), seed)?;
    put_count(out, Count::Entered, summary)?;
    put_count(out, Count::Answered, summary)?;
    put_count(out, Count::Refused, summary)?;
    put_count(out, Count::Opened, summary)
}

/// The counts of each run, by seeds from this one on.
fn put_runs(out: &mut Vec<u8>, seed: u64, all: &[Summary]) -> Result<(), AllocError>
    requires { seed + length all.now < 2 ^ 64 }
    ensures { OnOk result (out.new.items ≡ out.old.items ++ runs_text seed all.now) }
{
    for (run, summary) in all.iter().enumerate() {
        put_run(out, seed + run as u64, summary)?;
        out.push(b'\n')?;
    }
    Ok(())
}

/// A total behind a space.
fn put_total(out: &mut Vec<u8>, count: Count, all: &[Summary]) -> Result<(), AllocError>
    ensures { OnOk result (out.new.items ≡ out.old.items
        ++ spaced (decimal (total count all.now))) }
{
    let mut buffer = Buffer::new();
    out.push(b' ')?;
    out.extend_from_slice(buffer.format(count.total(all)).as_bytes())
}

/// How many runs there are, and the totals of their counts.
#[tactic(auto, unfolding(crate::specs::Texts::sum_text))]
fn put_sum(out: &mut Vec<u8>, all: &[Summary]) -> Result<(), AllocError>
    ensures { OnOk result (out.new.items ≡ out.old.items ++ sum_text all.now) }
{
    put_named(out, b"sum".as_slice(), all.len() as u64)?;
    put_total(out, Count::Entered, all)?;
    put_total(out, Count::Answered, all)?;
    put_total(out, Count::Refused, all)?;
    put_total(out, Count::Opened, all)
}

/// The lines of all runs, and the last line.
#[tactic(auto, unfolding(crate::specs::Texts::summaries_text))]
fn text_of(alloc: Global, seed: u64, all: &[Summary]) -> Result<Vec<u8>, AllocError>
    requires { seed + length all.now < 2 ^ 64 }
    ensures { IfOk result (λ text. text.items ≡ summaries_text seed all.now) }
{
    let mut text = Vec::new(alloc);
    put_runs(&mut text, seed, all)?;
    put_sum(&mut text, all)?;
    text.push(b'\n')?;
    Ok(text)
}

/// Writes the summaries of the runs by seeds from this one on, a line for each run, and a last line
/// of their totals; after a fault a first part of the text was written.
pub fn write_summaries<K: Sink>(
    alloc: Global,
    seed: u64,
    all: &[Summary],
    sink: &mut K,
) -> Result<(), SinkFault>
    requires { seed + length all.now < 2 ^ 64 }
    ensures all { OnOk result (Appends (K.written sink.old) (K.written sink.new)
        (summaries_text seed all.now)) }
    ensures part { OnErr result (GrewByPart (K.written sink.old) (K.written sink.new)
        (summaries_text seed all.now)) }
    ensures rose { result ≡ Err SinkFault.Failed → Rose (K.faults sink.old) (K.faults sink.new) }
    ensures count { K.faults sink.old ≤ K.faults sink.new }
{
    let text = text_of(alloc, seed, all)?;
    write_all(sink, text.as_slice())
}
