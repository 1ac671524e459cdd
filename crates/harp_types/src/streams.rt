//! Where bytes come from and go to.

ghost use Rattle.std.specs.Prelude.{◌≡◌, ◌≤◌, ℕ, List, Option, length, IfOk, OnOk, OnErr, Err};
ghost use Rattle.std.specs.Io.KnownBytes.{Appends};
ghost use Rattle.harp_types.specs.Streams.{Rose, Taken, Given, GrewByPart};

use std::alloc::AllocError;

/// A call failed outside of the program.
#[derive(Clone, Copy, PartialEq, Eq)]
pub struct Failed;

/// Why a sink took nothing.
#[derive(Clone, Copy, PartialEq, Eq)]
pub enum SinkFault {
    Failed,
    NoMemory,
}

impl From<AllocError> for SinkFault {
    ghost use Rattle.harp_types.specs.declared.streams.SinkFault.TheVariants.{NoMemory};

    ghost from_gives = { λ _ fault. fault ≡ NoMemory };

    fn from(_: AllocError) -> SinkFault {
        SinkFault::NoMemory
    }
}

/// Where bytes come from.
pub trait Source {
    // The bytes that are left, where the source tells them.
    ghost left: { Self → Option (List ℕ) };

    // How many calls failed, which never falls.
    ghost faults: { Self → ℕ };

    /// Reads into the front of a piece, and gives the number of bytes read. It is 0 only at the
    /// end of the source, or for an empty piece. A fault takes nothing.
    fn read(&mut self, into: &mut [u8]) -> Result<usize, Failed>
        ensures within { IfOk result (λ n. n ≤ length into.new) }
        ensures taken { IfOk result (λ n. Taken (left self.old) (left self.new) into.new n) }
        ensures kept { OnErr result (left self.new ≡ left self.old) }
        ensures rose { OnErr result (Rose (faults self.old) (faults self.new)) }
        ensures count { faults self.old ≤ faults self.new };
}

/// Where bytes go to.
pub trait Sink {
    // The bytes written, where the sink tells them.
    ghost written: { Self → Option (List ℕ) };

    // How many calls failed, which never falls.
    ghost faults: { Self → ℕ };

    /// Writes a first part of a piece, and gives its length, which is 0 only for an empty piece.
    /// A fault takes nothing.
    fn write(&mut self, piece: &[u8]) -> Result<usize, SinkFault>
        ensures given { IfOk result (λ n. Given (written self.old) (written self.new) piece.now n) }
        ensures kept { OnErr result (written self.new ≡ written self.old) }
        ensures rose { result ≡ Err SinkFault.Failed → Rose (faults self.old) (faults self.new) }
        ensures count { faults self.old ≤ faults self.new };
}

/// Writes all the bytes; after a fault a first part of them was written.
pub fn write_all<K: Sink>(sink: &mut K, bytes: &[u8]) -> Result<(), SinkFault>
    ensures all { OnOk result (Appends (K.written sink.old) (K.written sink.new) bytes.now) }
    ensures part { OnErr result (GrewByPart (K.written sink.old) (K.written sink.new) bytes.now) }
    ensures rose { result ≡ Err SinkFault.Failed → Rose (K.faults sink.old) (K.faults sink.new) }
    ensures count { K.faults sink.old ≤ K.faults sink.new }
{
    let mut at = 0;
    while at < bytes.len() {
        at += sink.write(&bytes[at..])?;
    }
    Ok(())
}
