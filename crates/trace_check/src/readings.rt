//! What single lines tell.

ghost use Rattle.std.specs.Prelude.{◌≡◌};
ghost use Rattle.trace_types.specs.declared.line.Line.TheVariants as line;
ghost use Rattle.trace_claims.specs.Trace.{is_last};
ghost use Rattle.trace_check.specs.Readings.{begins_step, clock_told, packet_told, state_told};

use harp_types::{ServerId, StateLine};
use trace_types::{Line, ShownMessage, Step};

/// What a line tells of packets.
#[derive(Clone, Copy)]
pub enum PacketTold {
    /// A packet with this number is sent.
    Sent {
        packet: u64,
        from: ServerId,
        to: ServerId,
        message: ShownMessage,
    },
    /// The packet of this number is delivered.
    Delivered {
        packet: u64,
    },
}

/// What a line tells of clocks.
#[derive(Clone, Copy)]
pub enum ClockTold {
    /// The clock of this server is set, in milliseconds.
    Set { server: ServerId, reading: u64 },
    /// All clocks go on by these milliseconds.
    Advanced { millis: u64 },
}

/// The server whose state a line tells, and its state: none where it is down.
pub fn state_told(line: &Line) -> Option<(ServerId, Option<StateLine>)>
    ensures { result ≡ state_told line.now }
{
    match line {
        Line::State { server, state } => Some((*server, Some(*state))),
        Line::Down { server } => Some((*server, None)),
        Line::Event { .. }
        | Line::Entered { .. }
        | Line::Answered { .. }
        | Line::Refused { .. }
        | Line::Sent { .. }
        | Line::Listed { .. }
        | Line::Unlisted { .. }
        | Line::Object { .. }
        | Line::Slot { .. }
        | Line::Block { .. }
        | Line::Text { .. }
        | Line::Bad { .. }
        | Line::End { .. } => None,
    }
}

fn packet_of_step(step: &Step) -> Option<PacketTold>
    ensures { result ≡ packet_told (line.Event step.now) }
{
    match step {
        Step::Deliver { packet } => Some(PacketTold::Delivered { packet: *packet }),
        Step::Ask { .. }
        | Step::Pump { .. }
        | Step::Tick { .. }
        | Step::Suspect { .. }
        | Step::Apply { .. }
        | Step::Flush { .. }
        | Step::List { .. }
        | Step::Boot { .. }
        | Step::Power { .. }
        | Step::PowerCut { .. }
        | Step::Crash { .. }
        | Step::Stop { .. }
        | Step::Noise { .. }
        | Step::Clock { .. }
        | Step::Advance { .. }
        | Step::Delta { .. } => None,
    }
}

/// What a line tells of packets.
pub fn packet_told(line: &Line) -> Option<PacketTold>
    ensures { result ≡ packet_told line.now }
{
    match line {
        Line::Sent {
            packet,
            from,
            to,
            message,
        } => Some(PacketTold::Sent {
            packet: *packet,
            from: *from,
            to: *to,
            message: *message,
        }),
        Line::Event { step } => packet_of_step(step),
        Line::Entered { .. }
        | Line::Answered { .. }
        | Line::Refused { .. }
        | Line::State { .. }
        | Line::Down { .. }
        | Line::Listed { .. }
        | Line::Unlisted { .. }
        | Line::Object { .. }
        | Line::Slot { .. }
        | Line::Block { .. }
        | Line::Text { .. }
        | Line::Bad { .. }
        | Line::End { .. } => None,
    }
}

fn clock_of_step(step: &Step) -> Option<ClockTold>
    ensures { result ≡ clock_told (line.Event step.now) }
{
    match step {
        Step::Clock { server, reading } => Some(ClockTold::Set {
            server: *server,
            reading: *reading,
        }),
        Step::Advance { millis } => Some(ClockTold::Advanced { millis: *millis }),
        Step::Ask { .. }
        | Step::Deliver { .. }
        | Step::Pump { .. }
        | Step::Tick { .. }
        | Step::Suspect { .. }
        | Step::Apply { .. }
        | Step::Flush { .. }
        | Step::List { .. }
        | Step::Boot { .. }
        | Step::Power { .. }
        | Step::PowerCut { .. }
        | Step::Crash { .. }
        | Step::Stop { .. }
        | Step::Noise { .. }
        | Step::Delta { .. } => None,
    }
}

/// What a line tells of clocks.
pub fn clock_told(line: &Line) -> Option<ClockTold>
    ensures { result ≡ clock_told line.now }
{
    match line {
        Line::Event { step } => clock_of_step(step),
        Line::Entered { .. }
        | Line::Answered { .. }
        | Line::Refused { .. }
        | Line::Sent { .. }
        | Line::State { .. }
        | Line::Down { .. }
        | Line::Listed { .. }
        | Line::Unlisted { .. }
        | Line::Object { .. }
        | Line::Slot { .. }
        | Line::Block { .. }
        | Line::Text { .. }
        | Line::Bad { .. }
        | Line::End { .. } => None,
    }
}

/// Whether a step begins with the line.
pub fn begins_step(line: &Line) -> bool
    ensures { result ≡ begins_step line.now }
{
    match line {
        Line::Event { .. } => true,
        Line::Entered { .. }
        | Line::Answered { .. }
        | Line::Refused { .. }
        | Line::Sent { .. }
        | Line::State { .. }
        | Line::Down { .. }
        | Line::Listed { .. }
        | Line::Unlisted { .. }
        | Line::Object { .. }
        | Line::Slot { .. }
        | Line::Block { .. }
        | Line::Text { .. }
        | Line::Bad { .. }
        | Line::End { .. } => false,
    }
}

/// Whether the line may stand last alone.
pub fn is_last(line: &Line) -> bool
    ensures { result ≡ is_last line.now }
{
    match line {
        Line::Bad { .. } | Line::End { .. } => true,
        Line::Event { .. }
        | Line::Entered { .. }
        | Line::Answered { .. }
        | Line::Refused { .. }
        | Line::Sent { .. }
        | Line::State { .. }
        | Line::Down { .. }
        | Line::Listed { .. }
        | Line::Unlisted { .. }
        | Line::Object { .. }
        | Line::Slot { .. }
        | Line::Block { .. }
        | Line::Text { .. } => false,
    }
}
