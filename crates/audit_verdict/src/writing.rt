//! Writing a verdict.

ghost use Rattle.std.specs.Prelude.{◌≡◌, ◌≤◌, Err, OnErr, OnOk};
ghost use Rattle.std.specs.Io.KnownBytes.{Appends};
ghost use Rattle.harp_types.specs.Streams.{GrewByPart, Rose};
ghost use Rattle.audit_verdict.specs.Texts.{verdict_text};

use crate::text::text_of;
use crate::verdict::Verdict;
use harp_types::{Sink, SinkFault, write_all};
use std::alloc::Global;

/// Writes a verdict; after a fault a first part of its text was written.
pub fn write_verdict<K: Sink>(
    alloc: Global,
    verdict: Verdict,
    sink: &mut K,
) -> Result<(), SinkFault>
    ensures all { OnOk result (Appends (K.written sink.old) (K.written sink.new)
        (verdict_text verdict)) }
    ensures part { OnErr result (GrewByPart (K.written sink.old) (K.written sink.new)
        (verdict_text verdict)) }
    ensures rose { result ≡ Err SinkFault.Failed → Rose (K.faults sink.old) (K.faults sink.new) }
    ensures count { K.faults sink.old ≤ K.faults sink.new }
{
    let text = text_of(alloc, verdict)?;
    write_all(sink, text.as_slice())
}
