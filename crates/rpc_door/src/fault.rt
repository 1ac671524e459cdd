//! Why nothing more is read or answered.

ghost use Rattle.std.specs.Prelude.{◌≡◌};
ghost use Rattle.rpc_door.specs.Serving.{of_group, of_read, of_sink};

use crate::group::GroupFault;
use harp_types::SinkFault;
use std::alloc::AllocError;

/// Why a record wasn't read.
#[derive(Clone, Copy)]
pub enum ReadFault {
    Failed,
    NoMemory,
}

impl From<AllocError> for ReadFault {
    ghost use Rattle.rpc_door.specs.declared.fault.ReadFault.TheVariants.{NoMemory};

    ghost from_gives = { λ _ fault. fault ≡ NoMemory };

    fn from(_: AllocError) -> ReadFault {
        ReadFault::NoMemory
    }
}

/// Why a door was shut before the end of its input.
#[derive(Clone, Copy)]
pub enum DoorFault {
    /// The source failed.
    ReadFault,
    /// The sink failed.
    WriteFault,
    /// The record with this number, from 1, is too large, or the input ends within it, or there are
    /// too many.
    BadRecord(u64),
    /// The group failed at a call.
    GroupFailed,
    /// The group gave up a call.
    GroupSpent,
    NoMemory,
}

impl From<AllocError> for DoorFault {
    ghost use Rattle.rpc_door.specs.declared.fault.DoorFault.TheVariants.{NoMemory};

    ghost from_gives = { λ _ fault. fault ≡ NoMemory };

    fn from(_: AllocError) -> DoorFault {
        DoorFault::NoMemory
    }
}

/// The fault of a door that one of reading is.
pub fn of_read(fault: ReadFault) -> DoorFault
    ensures { result ≡ of_read fault }
{
    match fault {
        ReadFault::Failed => DoorFault::ReadFault,
        ReadFault::NoMemory => DoorFault::NoMemory,
    }
}

/// The fault of a door that one of its sink is.
pub fn of_sink(fault: SinkFault) -> DoorFault
    ensures { result ≡ of_sink fault }
{
    match fault {
        SinkFault::Failed => DoorFault::WriteFault,
        SinkFault::NoMemory => DoorFault::NoMemory,
    }
}

/// The fault of a door that one of its group is.
pub fn of_group(fault: GroupFault) -> DoorFault
    ensures { result ≡ of_group fault }
{
    match fault {
        GroupFault::Failed => DoorFault::GroupFailed,
        GroupFault::Spent => DoorFault::GroupSpent,
        GroupFault::NoMemory => DoorFault::NoMemory,
    }
}
