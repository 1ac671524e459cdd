//! Why a call has no effect.

ghost use Rattle.std.specs.Prelude.{◌≡◌};
ghost use Rattle.plain_tree.specs.declared.error.TreeError.TheVariants.{NoMemory};

use harp_types::Status;
use std::alloc::{AllocError, AllocFailed};

/// Want of memory, or the status that a call is refused with.
#[derive(Drop)]
pub enum TreeError {
    NoMemory,
    Status(Status),
}

impl From<AllocError> for TreeError {
    ghost from_gives = { λ _ e. e ≡ NoMemory };

    fn from(_e: AllocError) -> TreeError {
        TreeError::NoMemory
    }
}

impl<T: Drop> From<AllocFailed<T>> for TreeError {
    ghost from_gives = { λ _ e. e ≡ NoMemory };

    fn from(_e: AllocFailed<T>) -> TreeError {
        TreeError::NoMemory
    }
}
