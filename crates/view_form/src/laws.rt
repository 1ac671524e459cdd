//! What choices are, in words.

ghost use Rattle.view_form.specs.Laws.{ChoosesNone, ChoosesSo, NoneSo, SomeSo};

/// Joins allow a choice exactly where two servers joined and a held one has the greatest accepted
/// view, and the choice is then the one of the rule: its storers, its source with the longest log,
/// its start, CP, horizon and base.
pub fn choices_are_right()
    ensures some { ChoosesSo }
    ensures only { SomeSo }
    ensures none { ChoosesNone }
    ensures only_none { NoneSo }
{}
