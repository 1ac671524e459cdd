//! The choice of a view, as a Form tells it.

ghost use Rattle.std.specs.Prelude.{◌≡◌};
ghost use Rattle.group_rules.specs.State.{Plan as Chosen};
ghost use Rattle.harp_types.specs.View.{View};
ghost use Rattle.idle_log.specs.Kept.{plan_of};
ghost use Rattle.view_form.specs.Choice.{plan};

use harp_types::ServerId;
use promise::Deadline;
use view_form::Plan;
use wire::Storers;

/// The choice of a view: its storers, the server whose log it starts with, the indices up to which
/// records may be dropped and are known to be committed, how many records it starts with, and
/// until when older promises may run.
#[derive(Clone, Copy)]
pub struct Form {
    pub storers: Storers,
    pub source: ServerId,
    pub base: u64,
    pub cp: u64,
    pub start: u64,
    pub horizon: Deadline,
}

impl Form {
    /// The Form of a choice.
    pub fn of(choice: &Plan) -> Form
        ensures { (from : View) (chosen : Chosen) → choice.now ≡ plan from chosen → plan_of result
            ≡ chosen }
    {
        let storers = match (choice.leader, choice.partner) {
            (ServerId::Zero, ServerId::One) => Storers::ZeroOne,
            (ServerId::Zero, _) => Storers::ZeroTwo,
            (_, _) => Storers::OneTwo,
        };
        Form {
            storers,
            source: choice.source,
            base: choice.base,
            cp: choice.cp,
            start: choice.start,
            horizon: choice.horizon,
        }
    }
}
