//! Why a call isn't done.

ghost use Rattle.std.specs.Prelude.{◌≡◌};
ghost use Rattle.harp_cells.specs.declared.reads.CellFault.TheVariants.{NoMemory};
ghost use Rattle.nfs_calls.specs.declared.error.CallError.TheVariants as error;

use harp_cells::CellFault;
use harp_types::Status;
use std::alloc::{AllocError, AllocFailed};

/// The status that a call is refused with, or why cells couldn't be read.
#[derive(Drop)]
pub enum CallError {
    Status(Status),
    Fault(CellFault),
}

impl From<Status> for CallError {
    ghost from_gives = { λ status e. e ≡ error.Status status };

    fn from(status: Status) -> CallError {
        CallError::Status(status)
    }
}

impl From<CellFault> for CallError {
    ghost from_gives = { λ fault e. e ≡ error.Fault fault };

    fn from(fault: CellFault) -> CallError {
        CallError::Fault(fault)
    }
}

impl From<AllocError> for CallError {
    ghost from_gives = { λ _ e. e ≡ error.Fault NoMemory };

    fn from(_e: AllocError) -> CallError {
        CallError::Fault(CellFault::NoMemory)
    }
}

impl<T: Drop> From<AllocFailed<T>> for CallError {
    ghost from_gives = { λ _ e. e ≡ error.Fault NoMemory };

    fn from(_e: AllocFailed<T>) -> CallError {
        CallError::Fault(CellFault::NoMemory)
    }
}
