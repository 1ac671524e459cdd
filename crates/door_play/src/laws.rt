//! Laws of a door's calls in a group that is played.

ghost use Rattle.door_play.specs.Laws.{AnswersAreReplies, AnswersGoOn, OneAnswerMore, OneCallMore};
ghost use Rattle.door_play.specs.Laws.{OnlyFullNetRefuses, ReadStepsAreTaken, RefusedStays};
ghost use Rattle.door_play.specs.Laws.{RepliesFit};

/// The calls of a door in a group that is played: each is answered once, in order, by the reply of
/// the one tree, unless a step is refused since the network is full.
pub fn played_calls()
    ensures answers { AnswersAreReplies }
    ensures refused { OnlyFullNetRefuses }
    ensures taken { ReadStepsAreTaken }
{}

/// The steps of one call more are read where the steps of the calls before lead, and it is answered
/// once.
pub fn one_call_more()
    ensures further { OneCallMore }
    ensures behind { AnswersGoOn }
    ensures stays { RefusedStays }
    ensures answered { OneAnswerMore }
{}

/// The reply to each call is of a form that the call can get.
pub fn replies_fit()
    ensures forms { RepliesFit }
{}
