//! What holds of the lengths of messages.

ghost use Rattle.accept_laws.specs.MessageLaws.{GivesAreShort, GivesAreWithin, TicksAreShort};
ghost use Rattle.accept_laws.specs.StepMessages.{StepsSendLittle};

/// What a server gives to one that pulls takes at most 48,000 bytes, or is one record alone; so its
/// Give has at most 60,028 bytes. A Beat and 64 Events take less than 2^22 bytes, and so does all
/// that one step of a server sends, whatever it begins with.
pub fn size_laws()
    ensures within { GivesAreWithin }
    ensures gives { GivesAreShort }
    ensures ticks { TicksAreShort }
    ensures steps { StepsSendLittle }
{}
