//! How the program ends.

ghost use Rattle.std.specs.Prelude.{◌≡◌};
ghost use Rattle.harpd.specs.Exit.{exit_of_loop, exit_of_store, status_of};

use harp_store::StoreFault;
use node_loop::LoopFault;

/// How the program ended.
#[derive(Clone, Copy, PartialEq, Eq)]
pub enum Exit {
    /// All was done.
    Done,
    /// The words are none that the program knows.
    RefusedWords,
    /// The sink failed.
    SinkFailed,
    /// There was no memory.
    NoMemory,
    /// A folder was refused, or it or the disk failed.
    DiskFailed,
    /// The link failed.
    LinkFailed,
}

impl Exit {
    /// The exit status.
    pub fn status(self) -> u8
        ensures { result ≡ status_of self }
    {
        match self {
            Exit::Done => 0,
            Exit::RefusedWords => 2,
            Exit::SinkFailed => 4,
            Exit::NoMemory => 6,
            Exit::DiskFailed => 7,
            Exit::LinkFailed => 8,
        }
    }
}

/// How the program ends where a server was cut off.
pub fn exit_of_loop(fault: LoopFault) -> Exit
    ensures { result ≡ exit_of_loop fault }
{
    match fault {
        LoopFault::StoreFailed => Exit::DiskFailed,
        LoopFault::LinkFailed => Exit::LinkFailed,
        LoopFault::NoMemory => Exit::NoMemory,
    }
}

/// How the program ends where a folder or a disk failed.
pub fn exit_of_store(fault: StoreFault) -> Exit
    ensures { result ≡ exit_of_store fault }
{
    match fault {
        StoreFault::Failed => Exit::DiskFailed,
        StoreFault::NoMemory => Exit::NoMemory,
    }
}
