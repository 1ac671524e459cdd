//! That calls are put together as their moves are.

ghost use Rattle.node_outputs.specs.Makes.{MakesThen};

/// Two calls, of which the second answers and refuses nobody, make the moves of both.
pub fn calls_join()
    ensures { MakesThen }
{}
