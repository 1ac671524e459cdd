//! Which steps aren't taken, and why.

ghost use Rattle.std.specs.Prelude.{◌≡◌, ◌<◌, ◌^◌, length, true, None, Some, IfNone, if◌then◌else◌};
ghost use Rattle.group_trace.specs.DiskCalls.{measures_of};
ghost use Rattle.group_trace.specs.DiskRun.{DiskScene};
ghost use Rattle.schedule_play.specs.Stage.{AreReadings, clocks_after};
ghost use Rattle.group_rules.specs.Names.{place_of};
ghost use Rattle.group_trace.specs.Refusals.{clock_refusal, net_refusal, own_refusal};
ghost use Rattle.group_trace.specs.Refusals.{passes_full_net, refusal, where_down};
ghost use Rattle.group_trace.specs.Run.{is_elementary};
ghost use Rattle.world_rules.specs.Spellings.{is_read, spellings};
ghost use Rattle.trace_types.specs.declared.line.LineFault.TheVariants as fault;
ghost use Rattle.trace_types.specs.declared.step.Step.TheVariants as step_is;
ghost use Rattle.wire.specs.Messages.{decoded};
ghost use Rattle.world.specs.Steps.{IsReady, IsReason};
ghost use Rattle.world.specs.World.{IsWorld, clocks_in};

use crate::world::World;
use harp_types::ServerId;
use schedule_play::Refusal;
use std::alloc::Global;
use trace_types::Step;
use wire::{DecodeFault, decode};

/// The most bytes of packets after which servers still step.
const NET_LIMIT: u64 = 532_676_608;

impl World {
    /// Why a step isn't taken. It goes into its caller, since there the step's kind is known.
    #[inline(always)]
    pub(crate) fn refusal(&self, alloc: Global, step: &Step) -> Option<Refusal>
        requires elementary { is_elementary step.now ≡ true }
        requires readings { AreReadings (clocks_after (clocks_in self.now) step.now) }
        requires now { AreReadings (clocks_in self.now) }
        ensures reason { (w : DiskScene) → IsWorld w self.now
            → IsReason result (refusal (measures_of spellings) w.scene step.now) }
        ensures ready { IfNone result (IsReady self.now step.now) }
    {
        match self.own_refusal(alloc, step) {
            Some(refusal) => Some(refusal),
            None => self.net_refusal(step),
        }
    }

    /// Why a step isn't taken, whatever was sent.
    fn own_refusal(&self, alloc: Global, step: &Step) -> Option<Refusal>
        requires elementary { is_elementary step.now ≡ true }
        requires readings { AreReadings (clocks_after (clocks_in self.now) step.now) }
        requires now { AreReadings (clocks_in self.now) }
        ensures reason { (w : DiskScene) → IsWorld w self.now
            → IsReason result (own_refusal (measures_of spellings) w.scene.group step.now) }
        ensures ready { IfNone result (IsReady self.now step.now) }
    {
        match step {
            Step::Ask { server, .. } => self.where_down(*server),
            Step::Deliver { packet } => self.where_unsent(*packet),
            Step::Pump { .. } => None,
            Step::Tick { server } => self.where_down(*server),
            Step::Suspect { server } => self.where_down(*server),
            Step::Apply { server, .. } => self.where_down(*server),
            Step::Flush { server } => self.where_down(*server),
            Step::List { server } => self.where_down(*server),
            Step::Boot { server } => self.where_up(*server),
            Step::Power { server } => self.where_down(*server),
            Step::PowerCut { server, .. } => self.where_down(*server),
            Step::Crash { server, .. } => self.where_down(*server),
            Step::Stop { server, .. } => self.where_down(*server),
            Step::Noise { bytes, .. } => where_message(alloc, bytes.as_slice()),
            Step::Clock { server, reading } => self.clock_refusal(*server, *reading),
            Step::Advance { .. } => None,
            Step::Delta { .. } => None,
        }
    }

    /// Refused after too many bytes.
    fn net_refusal(&self, step: &Step) -> Option<Refusal>
        ensures { (w : DiskScene) → IsWorld w self.now
            → IsReason result (net_refusal w.scene step.now) }
    {
        if !passes_full_net(step) && self.packets.bytes() > NET_LIMIT {
            Some(Refusal::NetFull)
        } else {
            None
        }
    }

    /// Refused at a server that is down.
    fn where_down(&self, server: ServerId) -> Option<Refusal>
        ensures { (w : DiskScene) → IsWorld w self.now
            → IsReason result (where_down w.scene.group server) }
    {
        if self.is_up(server) {
            None
        } else {
            Some(Refusal::ServerDown)
        }
    }

    /// Refused at a server that is up.
    fn where_up(&self, server: ServerId) -> Option<Refusal>
        ensures { (w : DiskScene) → IsWorld w self.now
            → IsReason result (own_refusal (measures_of spellings) w.scene.group
            (step_is.Boot server)) }
    {
        if self.is_up(server) {
            Some(Refusal::ServerUp)
        } else {
            None
        }
    }

    /// Refused of a packet that wasn't sent.
    fn where_unsent(&self, packet: u64) -> Option<Refusal>
        ensures reason { (w : DiskScene) → IsWorld w self.now
            → IsReason result (own_refusal (measures_of spellings) w.scene.group
            (step_is.Deliver packet)) }
        ensures sent { IfNone result (packet < length self.now.packets) }
    {
        if packet < self.packets.count() {
            None
        } else {
            Some(Refusal::NoPacket)
        }
    }

    /// Why a clock isn't set.
    fn clock_refusal(&self, server: ServerId, reading: u64) -> Option<Refusal>
        requires reading { reading < 2 ^ 62 }
        requires now { AreReadings (clocks_in self.now) }
        ensures { (w : DiskScene) → IsWorld w self.now
            → IsReason result (clock_refusal w.scene.group (place_of server) reading) }
    {
        if reading < *self.clocks.get(server) {
            Some(Refusal::ClockBack)
        } else if self.stays_near(server, reading) {
            None
        } else {
            Some(Refusal::ClockApart)
        }
    }
}

/// Refused of bytes that are a message.
fn where_message(alloc: Global, bytes: &[u8]) -> Option<Refusal>
    ensures { IsReason result
        (if is_read (decoded bytes.now) then Some fault.NoiseIsMessage else None) }
{
    match decode(alloc, bytes) {
        Ok(_) => Some(Refusal::NoiseIsMessage),
        Err(DecodeFault::Short(_)) => None,
        Err(DecodeFault::BadTag(_)) => None,
        Err(DecodeFault::Trailing(_)) => None,
        Err(DecodeFault::TooLong(_)) => None,
        Err(DecodeFault::NoMemory) => Some(Refusal::NoMemory),
    }
}

/// Whether a step is taken however much was sent.
fn passes_full_net(step: &Step) -> bool
    ensures { result ≡ passes_full_net step.now }
{
    match step {
        Step::Ask { .. } => false,
        Step::Deliver { .. } => false,
        Step::Pump { .. } => false,
        Step::Tick { .. } => false,
        Step::Suspect { .. } => false,
        Step::Apply { .. } => false,
        Step::Flush { .. } => false,
        Step::List { .. } => false,
        Step::Boot { .. } => false,
        Step::Power { .. } => false,
        Step::PowerCut { .. } => false,
        Step::Crash { .. } => true,
        Step::Stop { .. } => true,
        Step::Noise { .. } => false,
        Step::Clock { .. } => true,
        Step::Advance { .. } => true,
        Step::Delta { .. } => true,
    }
}
