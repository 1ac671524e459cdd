//! Whether two servers are one, and two views.

ghost use Rattle.std.specs.Prelude.{◌≡◌, ◌==◌};
ghost use Rattle.group_rules.specs.Names.{number_of_view, place_of};
ghost use Rattle.group_rules.specs.Places.{is_p2, same};

use harp_types::{ServerId, ViewNo};

/// Whether two servers are one.
pub fn is_one(a: ServerId, b: ServerId) -> bool
    ensures { result ≡ same (place_of a) (place_of b) }
{
    match a {
        ServerId::Zero => match b {
            ServerId::Zero => true,
            ServerId::One => false,
            ServerId::Two => false,
        },
        ServerId::One => match b {
            ServerId::Zero => false,
            ServerId::One => true,
            ServerId::Two => false,
        },
        ServerId::Two => match b {
            ServerId::Zero => false,
            ServerId::One => false,
            ServerId::Two => true,
        },
    }
}

/// Whether this is the witness's place.
pub fn is_witness(me: ServerId) -> bool
    ensures { result ≡ is_p2 (place_of me) }
{
    match me {
        ServerId::Zero => false,
        ServerId::One => false,
        ServerId::Two => true,
    }
}

/// Whether two views are one.
pub fn is_view(a: ViewNo, b: ViewNo) -> bool
    ensures { result ≡ (number_of_view a == number_of_view b) }
{
    a.is_same(b)
}
