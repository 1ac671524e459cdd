//! How many lines runs have.

ghost use Rattle.accept_laws.specs.CountLaws.{ListingsAreFew, RunsAreShort};

/// The listing of a tree has at most 2^22 lines. A run has at most 2^29 lines of packets, two more
/// for each step, and 2^22 more for each step that is no delivery: what it lists, or what comes of
/// an ask, at once or later.
pub fn count_laws()
    ensures listings { ListingsAreFew }
    ensures runs { RunsAreShort }
{}
