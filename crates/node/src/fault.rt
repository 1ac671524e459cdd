//! Why a call of a server gives nothing.

ghost use Rattle.std.specs.Prelude.{◌≡◌};

use harp_cells::CellFault;
use harp_store::StoreFault;
use std::alloc::AllocError;

/// Why a call fails. The server is halted then.
#[derive(Clone, Copy, PartialEq, Eq)]
pub enum NodeFault {
    /// A call of the store failed.
    StoreFailed,
    /// An earlier call failed.
    Halted,
    NoMemory,
}

impl From<AllocError> for NodeFault {
    ghost use Rattle.node.specs.declared.fault.NodeFault.TheVariants.{NoMemory};

    ghost from_gives = { λ _ fault. fault ≡ NoMemory };

    fn from(_: AllocError) -> NodeFault {
        NodeFault::NoMemory
    }
}

impl From<StoreFault> for NodeFault {
    ghost use Rattle.node.specs.Disk.{fault_of};

    ghost from_gives = { λ given fault. fault ≡ fault_of given };

    fn from(fault: StoreFault) -> NodeFault {
        match fault {
            StoreFault::Failed => NodeFault::StoreFailed,
            StoreFault::NoMemory => NodeFault::NoMemory,
        }
    }
}

impl From<CellFault> for NodeFault {
    ghost use Rattle.node.specs.Disk.{fault_read};

    ghost from_gives = { λ given fault. fault ≡ fault_read given };

    fn from(fault: CellFault) -> NodeFault {
        match fault {
            CellFault::StoreFailed => NodeFault::StoreFailed,
            CellFault::NoMemory => NodeFault::NoMemory,
        }
    }
}
