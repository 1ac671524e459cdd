//! The storers of a view.

ghost use Rattle.std.specs.Prelude.{◌≡◌};
ghost use Rattle.wire.specs.Storers.{leader_of, partner_of, storers_of};

use harp_types::ServerId;

/// The two servers that store a view's updates: its leader, and then its partner.
#[derive(Clone, Copy, PartialEq, Eq)]
pub enum Storers {
    ZeroOne,
    ZeroTwo,
    OneTwo,
}

impl Storers {
    /// The storers with this leader and this partner. None where no view has them.
    pub fn of(leader: ServerId, partner: ServerId) -> Option<Storers>
        ensures { result ≡ storers_of leader partner }
    {
        match (leader, partner) {
            (ServerId::Zero, ServerId::One) => Some(Storers::ZeroOne),
            (ServerId::Zero, ServerId::Two) => Some(Storers::ZeroTwo),
            (ServerId::One, ServerId::Two) => Some(Storers::OneTwo),
            (ServerId::Zero, ServerId::Zero) => None,
            (ServerId::One, ServerId::Zero) => None,
            (ServerId::One, ServerId::One) => None,
            (ServerId::Two, _) => None,
        }
    }

    /// The server that leads.
    pub fn leader(self) -> ServerId
        ensures { result ≡ leader_of self }
    {
        match self {
            Storers::ZeroOne => ServerId::Zero,
            Storers::ZeroTwo => ServerId::Zero,
            Storers::OneTwo => ServerId::One,
        }
    }

    /// The leader's partner.
    pub fn partner(self) -> ServerId
        ensures { result ≡ partner_of self }
    {
        match self {
            Storers::ZeroOne => ServerId::One,
            Storers::ZeroTwo => ServerId::Two,
            Storers::OneTwo => ServerId::Two,
        }
    }
}
