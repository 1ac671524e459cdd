//! Servers and views by their numbers.

ghost use Rattle.std.specs.Prelude.{◌≡◌, ◌/◌, [], ◌∷◌, nat_lt, option_map, IfSome, None, Some, if◌then◌else◌};
ghost use Rattle.group_rules.specs.Limits.{limit};
ghost use Rattle.group_rules.specs.Names.{number_of_view, place_of};
ghost use Rattle.group_rules.specs.Places.{next_view, others};

use harp_types::{ServerId, ViewNo};

/// The next view of this coordinator, where there is one.
pub(crate) fn next_view(promised: ViewNo, me: ServerId) -> Option<ViewNo>
    ensures value { option_map number_of_view result
        ≡ (if nat_lt (number_of_view promised / 3) limit then Some
        (next_view (number_of_view promised) (place_of me)) else None) }
    ensures me { IfSome result (λ v. v.coordinator ≡ me) }
{
    ViewNo::of(promised.count() + 1, me)
}

/// The other two servers, the lower number first.
pub(crate) fn others(me: ServerId) -> (ServerId, ServerId)
    ensures { others (place_of me) ≡ place_of result.0 ∷ place_of result.1 ∷ [] }
{
    match me {
        ServerId::Zero => (ServerId::One, ServerId::Two),
        ServerId::One => (ServerId::Zero, ServerId::Two),
        ServerId::Two => (ServerId::Zero, ServerId::One),
    }
}
