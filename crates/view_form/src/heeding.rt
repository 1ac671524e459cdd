//! Whom a server heeds in its accepted view.

ghost use Rattle.std.specs.Prelude.{◌≡◌, ◌==◌, ◌∷◌, []};
ghost use Rattle.group_rules.specs.Names.{number_of_view};
ghost use Rattle.group_rules.specs.Places.{all_of};

use crate::same::is_view;
use harp_types::ViewNo;

/// Whether a server heeds what the leader of a view sends to its partner, which it acknowledges
/// with a promise: where the view is its accepted one, and it follows that view's leader since. A
/// boot leaves it the accepted view, but then it follows nobody, and promises nothing.
#[tactic(auto, unfolding(group_rules::specs::Places::all_of))]
pub fn heeds_leader(view: ViewNo, accepted: ViewNo, follows: bool) -> bool
    ensures { result ≡ all_of ((number_of_view view == number_of_view accepted) ∷ follows ∷ []) }
{
    follows && is_view(view, accepted)
}
