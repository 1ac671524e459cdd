//! What a coordinator chooses.

ghost use Rattle.std.specs.Prelude.{◌≡◌};
ghost use Rattle.group_rules.specs.Names.{id_of};
ghost use Rattle.group_rules.specs.Places.{leader, partner};
ghost use Rattle.view_form.specs.Choice.{pair};

use harp_types::{ServerId, ViewNo};
use promise::Deadline;

/// The choice of a view, as a Form tells it.
#[derive(Clone, Copy)]
pub struct Plan {
    pub leader: ServerId,
    pub partner: ServerId,
    /// The server whose log the view starts with.
    pub source: ServerId,
    /// The view that it starts from: the greatest that a joined server had accepted.
    pub from: ViewNo,
    /// The index up to which the storers may drop records.
    pub base: u64,
    /// The index up to which records are known to be committed.
    pub cp: u64,
    /// How many records the view starts with.
    pub start: u64,
    /// Up to when the promises of all servers that joined may run.
    pub horizon: Deadline,
}

/// The two storers of a view. The first named leads.
#[derive(Clone, Copy)]
pub(crate) enum Storers {
    ZeroOne,
    ZeroTwo,
    OneTwo,
}

impl Storers {
    pub(crate) fn leader(self) -> ServerId
        ensures { result ≡ id_of (leader (pair self)) }
    {
        match self {
            Storers::ZeroOne => ServerId::Zero,
            Storers::ZeroTwo => ServerId::Zero,
            Storers::OneTwo => ServerId::One,
        }
    }

    pub(crate) fn partner(self) -> ServerId
        ensures { result ≡ id_of (partner (pair self)) }
    {
        match self {
            Storers::ZeroOne => ServerId::One,
            Storers::ZeroTwo => ServerId::Two,
            Storers::OneTwo => ServerId::Two,
        }
    }
}
