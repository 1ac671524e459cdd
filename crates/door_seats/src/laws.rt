//! What the definitions mean.

ghost use Rattle.std.specs.Prelude.{◌≡◌, ℕ, List};
ghost use Rattle.door_seats.specs.Answers.{AreRight};
ghost use Rattle.door_seats.specs.Events.{AllHappen, Event, Scene, first_seating};
ghost use Rattle.door_seats.specs.declared.rule.Rule.{Rule};

/// What happens at a door from its first moment on is right: each connection gets a front of the
/// answers to its records, in their order, each by what servers replied to its calls; and no
/// number has two calls.
pub fn events_are_right()
    ensures { (rule : Rule) (client first : ℕ) (es : List Event) (a c : Scene)
        → a.seating ≡ first_seating client first → a.now ≡ 0 → AllHappen rule es a c
        → AreRight rule es }
{}
