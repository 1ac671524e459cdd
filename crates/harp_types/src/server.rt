//! Servers and views.

ghost use Rattle.std.specs.Prelude.{◌≡◌, ◌<◌, ◌+◌, ◌^◌, ◌↔◌, IsSome, IfSome, IsTrue, IfNone, ℕ};
ghost use Rattle.harp_types.specs.Server.{number_of, same_server};
ghost use Rattle.harp_types.specs.View.{View, above};

use std::marker::Model;

/// One of the three servers of a group. Servers 0 and 1 store copies, and server 2 is the witness.
#[derive(Clone, Copy, PartialEq, Eq, PartialOrd, Ord)]
pub enum ServerId {
    Zero,
    One,
    Two,
}

impl ServerId {
    /// The server of a number below 3.
    pub fn of(n: u8) -> Option<ServerId>
        ensures found { IsSome result ↔ (n < 3) }
        ensures value { IfSome result (λ s. number_of s ≡ n) }
    {
        match n {
            0 => Some(ServerId::Zero),
            1 => Some(ServerId::One),
            2 => Some(ServerId::Two),
            _ => None,
        }
    }

    /// Whether two servers are one.
    pub fn is(self, other: ServerId) -> bool
        ensures { result ≡ same_server self other }
    {
        self.number() == other.number()
    }

    /// The server's number: 0, 1 or 2.
    pub fn number(self) -> u8
        ensures { result ≡ number_of self }
    {
        match self {
            ServerId::Zero => 0,
            ServerId::One => 1,
            ServerId::Two => 2,
        }
    }
}

/// The number of a view: a count below 2^62, and the server that coordinated its making. Views are
/// ordered by count, and then by coordinator.
#[derive(Clone, Copy, PartialEq, Eq, PartialOrd, Ord)]
pub struct ViewNo {
    count: u64,
    coordinator: ServerId,
}

impl Model for ViewNo {
    ghost use Rattle.std.specs.Prelude.{ℕ, ◌<◌, ◌^◌};
    ghost use Rattle.harp_types.specs.View.{View};

    ghost Value = { View };

    ghost view = { λ v. record { count = v.count; coordinator = v.coordinator } };

    ghost invariant = { λ v. v.count < 2 ^ 62 };

    ghost inverse = { λ v. record { count = v.count; coordinator = v.coordinator } };
}

impl ViewNo {
    /// The view of a count that is below 2^62.
    pub fn of(count: u64, coordinator: ServerId) -> Option<ViewNo>
        ensures found { IsSome result ↔ (count < 2 ^ 62) }
        ensures value { IfSome result
            (λ v. v ≡ record { count = count; coordinator = coordinator }) }
    {
        if count < 1 << 62 {
            Some(ViewNo { count, coordinator })
        } else {
            None
        }
    }

    /// The view of a count that is known to be below 2^62.
    pub fn new(count: u64, coordinator: ServerId) -> ViewNo
        requires { count < 2 ^ 62 }
        ensures { result ≡ record { count = count; coordinator = coordinator } }
    {
        ViewNo { count, coordinator }
    }

    /// The count, below 2^62.
    pub fn count(self) -> u64
        ensures value { result ≡ self.count }
        ensures bound { self.count < 2 ^ 62 }
    {
        self.count
    }

    /// The server that coordinated the making of the view.
    pub fn coordinator(self) -> ServerId
        ensures { result ≡ self.coordinator }
    {
        self.coordinator
    }

    /// Whether this view is later than the other one.
    pub fn is_above(self, other: ViewNo) -> bool
        ensures { result ≡ above self other }
    {
        if self.count == other.count {
            self.coordinator.number() > other.coordinator.number()
        } else {
            self.count > other.count
        }
    }

    /// Whether the two are one view.
    pub fn is_same(self, other: ViewNo) -> bool
        ensures { IsTrue result ↔ (self ≡ other) }
    {
        self == other
    }
}
