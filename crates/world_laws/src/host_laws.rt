//! What holds of the hosts of a played group in every run.

ghost use Rattle.world_laws.specs.HostLaws.{HostsCanFail, HostsCanTake, ReachedAreWhole};
ghost use Rattle.world_laws.specs.Sizes.{MessagesAreSized};
ghost use Rattle.world_laws.specs.Waits.{RestingWait, StepsWait};

/// In every scene to which steps lead, each host can take a step, and its power can fail.
pub fn hosts_can()
    ensures whole { ReachedAreWhole }
    ensures take { HostsCanTake }
    ensures fail { HostsCanFail }
{}

/// Each call that a step answers or refuses has somebody who waits for it, where each update above
/// CP at an open leader has; and each step leaves it so, a fall and a boot too.
pub fn steps_wait()
    ensures wait { StepsWait }
    ensures rest { RestingWait }
{}

/// What a step sends has as many bytes as a run says.
pub fn messages_are_sized()
    ensures sized { MessagesAreSized }
{}
