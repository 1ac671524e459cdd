//! Why a loop ended before its turns.

ghost use Rattle.std.specs.Prelude.{◌≡◌};
ghost use Rattle.node_loop.specs.Turns.{of_link};

use node_link::LinkFault;
use std::alloc::AllocError;

/// Why a loop ended before its turns.
#[derive(Clone, Copy, PartialEq, Eq)]
pub enum LoopFault {
    /// A disk failed.
    StoreFailed,
    /// The link failed.
    LinkFailed,
    NoMemory,
}

impl From<AllocError> for LoopFault {
    ghost use Rattle.node_loop.specs.declared.fault.LoopFault.TheVariants.{NoMemory};

    ghost from_gives = { λ _ fault. fault ≡ NoMemory };

    fn from(_: AllocError) -> LoopFault {
        LoopFault::NoMemory
    }
}

/// The fault of a loop that a fault of its link is.
pub fn of_link(fault: LinkFault) -> LoopFault
    ensures { result ≡ of_link fault }
{
    match fault {
        LinkFault::Failed => LoopFault::LinkFailed,
        LinkFault::NoMemory => LoopFault::NoMemory,
    }
}
