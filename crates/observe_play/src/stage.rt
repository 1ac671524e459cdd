//! A world in which steps are taken, and whose servers show what is wanted of them.

ghost use Rattle.std.specs.Prelude.{◌≡◌, ◌⊎◌, ◌↔◌, Err, IfErr, IfOk, IfSome, OnOk, false};
ghost use Rattle.std.specs.Prelude.{option_map};
ghost use Rattle.group_trace.specs.DiskCalls.{measures_of};
ghost use Rattle.group_trace.specs.DiskRun.{DiskScene};
ghost use Rattle.group_rules.specs.Names.{place_of};
ghost use Rattle.record_changes.specs.Records.{history_of};
ghost use Rattle.schedule_play.specs.Stage.{IsReached};
ghost use Rattle.shown.specs.Rule.{outline_of, shown_by};
ghost use Rattle.shown.specs.Truth.{IsLowShown, IsShownOf};

use harp_types::ServerId;
use schedule_play::{Refusal, Stage};
use shown::{Shown, Want};
use std::alloc::Global;
use world::World;

/// A stage whose servers show what is wanted of them. Nothing changes there but what servers keep
/// in memory; after want of memory it may stand at no scene.
pub trait ShowingStage: Stage {
    /// Whether a server is up.
    fn is_up(&self, server: ServerId) -> bool
        ensures { (w : DiskScene) → Self.stands self.now w
            → result ≡ (w.scene.group.server (place_of server)).up };

    /// Shows what is wanted of a server. It is refused where the server is down.
    fn show(
        &mut self,
        alloc: Global,
        server: ServerId,
        want: &Want,
    ) -> Result<Option<Shown>, Refusal>
        ensures down { (w : DiskScene) → Self.stands self.old w → (result ≡ Err Refusal.ServerDown)
            ↔ ((w.scene.group.server (place_of server)).up ≡ false) }
        ensures rule { (w : DiskScene) → IsReached Self.spellings w → Self.stands self.old w
            → IfOk result (λ o. option_map outline_of o
            ≡ shown_by (measures_of Self.spellings).size w.scene.group (place_of server) want.now) }
        ensures truly { (w : DiskScene) → IsReached Self.spellings w → Self.stands self.old w
            → IfOk result (λ o. IfSome o (IsShownOf (history_of w.scene.group.committed))) }
        ensures low { IfOk result (λ o. IfSome o IsLowShown) }
        ensures stands { OnOk result ((w : DiskScene) → Self.stands self.old w
            → Self.stands self.new w) }
        ensures clocks { OnOk result (Self.clocks self.new ≡ Self.clocks self.old) }
        ensures err { IfErr result (λ why. (why ≡ Refusal.NoMemory)
            ⊎ ((why ≡ Refusal.ServerDown) × (self.new ≡ self.old))) };
}

impl ShowingStage for World {
    fn is_up(&self, server: ServerId) -> bool {
        World::is_up(self, server)
    }

    fn show(
        &mut self,
        alloc: Global,
        server: ServerId,
        want: &Want,
    ) -> Result<Option<Shown>, Refusal> {
        World::show(self, alloc, server, want)
    }
}
