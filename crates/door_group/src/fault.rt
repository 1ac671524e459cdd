//! Why a door to three servers is shut.

ghost use Rattle.std.specs.Prelude.{◌≡◌, Option};
ghost use Rattle.door_group.specs.Served.{by_door, by_loop};

use node_loop::LoopFault;
use rpc_door::DoorFault;

/// Why a door to three servers was shut before the end of its input.
#[derive(Clone, Copy, PartialEq, Eq)]
pub enum ServedFault {
    /// The source failed.
    SourceFailed,
    /// The sink failed.
    SinkFailed,
    /// The record with this number, from 1, is too large, or the input ends within it, or there are
    /// too many.
    BadRecord(u64),
    /// A disk failed.
    DiskFailed,
    /// The link failed.
    LinkFailed,
    /// The turns of a call are over, and it isn't answered.
    CallSpent,
    NoMemory,
}

/// The fault of a door that one of its servers is.
pub(crate) fn by_loop(fault: LoopFault) -> ServedFault
    ensures { result ≡ by_loop fault }
{
    match fault {
        LoopFault::StoreFailed => ServedFault::DiskFailed,
        LoopFault::LinkFailed => ServedFault::LinkFailed,
        LoopFault::NoMemory => ServedFault::NoMemory,
    }
}

/// The fault of a door that this one is, where this ended its servers.
pub(crate) fn by_door(fault: DoorFault, ended: Option<LoopFault>) -> ServedFault
    ensures { result ≡ by_door fault ended }
{
    match fault {
        DoorFault::ReadFault => ServedFault::SourceFailed,
        DoorFault::WriteFault => ServedFault::SinkFailed,
        DoorFault::BadRecord(number) => ServedFault::BadRecord(number),
        DoorFault::GroupSpent => ServedFault::CallSpent,
        DoorFault::NoMemory => ServedFault::NoMemory,
        DoorFault::GroupFailed => match ended {
            Some(fault) => by_loop(fault),
            None => ServedFault::NoMemory,
        },
    }
}
