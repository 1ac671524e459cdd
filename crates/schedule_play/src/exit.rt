//! How a play ends.

ghost use Rattle.std.specs.Prelude.{◌≡◌, MatchResult};
ghost use Rattle.schedule_play.specs.Exit.{exit_of};

use harp_types::SinkFault;
use std::alloc::AllocError;

/// How a play ended.
#[derive(Clone, Copy, PartialEq, Eq)]
pub enum Exit {
    /// The schedule was read to its end, and no line was refused.
    Done,
    /// A line was refused.
    RefusedLine,
    /// The source failed.
    SourceFailed,
    /// The sink failed.
    SinkFailed,
    /// There was no memory.
    NoMemory,
}

/// Why a play stops before its last line is written.
#[derive(Clone, Copy, PartialEq, Eq)]
pub enum Stop {
    SourceFailed,
    SinkFailed,
    NoMemory,
}

/// The exit of a play that ended so, or that was stopped.
pub fn exit_after(ended: Result<Exit, Stop>) -> Exit
    ensures { MatchResult ended (λ exit. result ≡ exit) (λ stop. result ≡ exit_of stop) }
{
    match ended {
        Ok(exit) => exit,
        Err(Stop::SourceFailed) => Exit::SourceFailed,
        Err(Stop::SinkFailed) => Exit::SinkFailed,
        Err(Stop::NoMemory) => Exit::NoMemory,
    }
}

impl From<AllocError> for Stop {
    ghost use Rattle.schedule_play.specs.declared.exit.Stop.TheVariants.{NoMemory};

    ghost from_gives = { λ _ stop. stop ≡ NoMemory };

    fn from(_: AllocError) -> Stop {
        Stop::NoMemory
    }
}

impl From<SinkFault> for Stop {
    ghost use Rattle.schedule_play.specs.Exit.{stop_of_sink};

    ghost from_gives = { λ fault stop. stop ≡ stop_of_sink fault };

    fn from(fault: SinkFault) -> Stop {
        match fault {
            SinkFault::Failed => Stop::SinkFailed,
            SinkFault::NoMemory => Stop::NoMemory,
        }
    }
}
