//! A world in which steps are taken.

ghost use Rattle.std.specs.Prelude.{◌≡◌, ◌≢◌, ℕ, true, [], length, OnOk, IfErr};
ghost use Rattle.group_trace.specs.DiskCalls.{Spellings, measures_of};
ghost use Rattle.group_trace.specs.DiskRun.{DiskScene};
ghost use Rattle.group_rules.specs.Places.{Place, Trio, get};
ghost use Rattle.group_trace.specs.Pump.{due};
ghost use Rattle.group_trace.specs.Run.{is_elementary};
ghost use Rattle.schedule_play.specs.Stage.{AreReadings, IsReached, IsRefused, IsTaken, clocks_after};

use crate::refusal::Refusal;
use harp_types::ServerId;
use std::alloc::Global;
use trace_types::{Line, Step};

/// A world in which steps are taken. Its clauses hold of each scene at which it stands and to which
/// steps lead that only a full net may refuse; after want of memory it may stand at none.
pub trait Stage {
    // How its servers spell records and messages.
    ghost spellings: { Spellings };

    // What its clocks read.
    ghost clocks: { Self → Trio ℕ };

    // It stands at this scene.
    ghost stands: { Self → DiskScene → Type 0 };

    /// Takes a step, and gives its lines behind its event line. A step that is refused changes
    /// nothing of the world.
    fn step(&mut self, alloc: Global, step: Step, lines: &mut Vec<Line>) -> Result<(), Refusal>
        requires elementary { is_elementary step ≡ true }
        requires readings { AreReadings (clocks_after (clocks self.old) step) }
        requires now { AreReadings (clocks self.old) }
        requires none { lines.old.items ≡ [] }
        ensures ok { OnOk result ((w : DiskScene) → IsReached spellings w
            → stands self.old w → IsTaken spellings w step lines.new.items (stands self.new)) }
        ensures clocks { OnOk result (clocks self.new ≡ clocks_after (clocks self.old) step) }
        ensures err { IfErr result (λ why. (w : DiskScene) → IsReached spellings w
            → stands self.old w → IsRefused spellings w step why) }
        ensures kept { IfErr result (λ why. why ≢ Refusal.NoMemory → self.new ≡ self.old) };

    /// The lowest number of a packet that was never delivered, among two servers where they are
    /// given. None comes exactly where there is none.
    fn next(&self, among: Option<(ServerId, ServerId)>) -> Option<u64>
        ensures { (w : DiskScene) → IsReached spellings w → stands self.now w
            → result ≡ due among w.scene };

    /// How many entries the book has.
    fn entered(&self) -> u64
        ensures { (w : DiskScene) → IsReached spellings w → stands self.now w
            → result ≡ length w.scene.group.book };

    // The clocks are those of the scene.
    ghost clocks_are: { (world : Self) (w : DiskScene) → stands world w → (q : Place)
        → get (clocks world) q ≡ w.scene.group.clock q };
}
