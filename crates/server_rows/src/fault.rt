//! Why a row comes to nothing.

use harp_base::FieldFault;
use harp_cells::CellFault;
use schedule_text::TextFault;
use std::alloc::AllocError;
use text_writer::put_number;

/// Why a row comes to nothing.
#[derive(Clone, Copy)]
pub enum Fault {
    /// The row is out of the grammar at this place.
    Grammar(usize),
    /// A number is out of its bounds.
    Bounds,
    /// A fetch failed.
    Store,
    /// Bytes are no call, or no reply.
    Bytes(FieldFault),
    NoMemory,
}

impl From<AllocError> for Fault {
    fn from(_: AllocError) -> Fault {
        Fault::NoMemory
    }
}

impl From<TextFault> for Fault {
    fn from(fault: TextFault) -> Fault {
        match fault {
            TextFault::Grammar(at) => Fault::Grammar(at),
            TextFault::NoMemory => Fault::NoMemory,
        }
    }
}

impl From<CellFault> for Fault {
    fn from(fault: CellFault) -> Fault {
        match fault {
            CellFault::StoreFailed => Fault::Store,
            CellFault::NoMemory => Fault::NoMemory,
        }
    }
}

impl From<FieldFault> for Fault {
    fn from(fault: FieldFault) -> Fault {
        Fault::Bytes(fault)
    }
}

/// What it is.
fn name(fault: Fault) -> &'static [u8] {
    match fault {
        Fault::Grammar(_) => b"grammar",
        Fault::Bounds => b"bounds",
        Fault::Store => b"store",
        Fault::Bytes(FieldFault::Short(_)) => b"short",
        Fault::Bytes(FieldFault::BadTag(_)) => b"tag",
        Fault::Bytes(FieldFault::TooLong(_)) => b"long",
        Fault::Bytes(FieldFault::NoMemory) => b"memory",
        Fault::NoMemory => b"memory",
    }
}

/// Its place, where it has one.
fn place(fault: Fault) -> Option<usize> {
    match fault {
        Fault::Grammar(at) => Some(at),
        Fault::Bytes(FieldFault::Short(at)) => Some(at),
        Fault::Bytes(FieldFault::BadTag(at)) => Some(at),
        Fault::Bytes(FieldFault::TooLong(at)) => Some(at),
        Fault::Bytes(FieldFault::NoMemory) => None,
        Fault::Bounds | Fault::Store | Fault::NoMemory => None,
    }
}

/// A fault, and its place where it has one.
pub fn put_fault(out: &mut Vec<u8>, fault: Fault) -> Result<(), AllocError> {
    out.extend_from_slice(name(fault))?;
    if let Some(at) = place(fault) {
        put_number(out, at as u64)?;
    }
    out.extend_from_slice(b"\n")
}
