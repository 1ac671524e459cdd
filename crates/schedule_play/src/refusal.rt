//! Why a step isn't taken.

ghost use Rattle.std.specs.Prelude.{◌≡◌};
ghost use Rattle.schedule_play.specs.Stage.{fault_of};

use trace_types::LineFault;

/// Why a world doesn't take a step.
#[derive(Clone, Copy, PartialEq, Eq)]
pub enum Refusal {
    /// No packet has the number.
    NoPacket,
    /// The server is down.
    ServerDown,
    /// The server to boot is up.
    ServerUp,
    /// The clock would go back.
    ClockBack,
    /// Two clocks would be more than 50 milliseconds apart.
    ClockApart,
    /// The bytes of a noise are a message.
    NoiseIsMessage,
    /// The packets sent take too many bytes.
    NetFull,
    /// There was no memory.
    NoMemory,
}

impl Refusal {
    /// The fault of the step's line; want of memory is none of it.
    pub fn fault(self) -> Option<LineFault>
        ensures { result ≡ fault_of self }
    {
        match self {
            Refusal::NoPacket => Some(LineFault::NoPacket),
            Refusal::ServerDown => Some(LineFault::ServerDown),
            Refusal::ServerUp => Some(LineFault::ServerUp),
            Refusal::ClockBack => Some(LineFault::ClockBack),
            Refusal::ClockApart => Some(LineFault::ClockApart),
            Refusal::NoiseIsMessage => Some(LineFault::NoiseIsMessage),
            Refusal::NetFull => Some(LineFault::NetFull),
            Refusal::NoMemory => None,
        }
    }
}
