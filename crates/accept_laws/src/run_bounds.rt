//! The bounds of the lines of every run.

ghost use Rattle.accept_laws.specs.Laws.{BooksAreFew, RunsFit};

/// Each line of each run has a spelling, where its steps have one, each message has bytes, and all
/// but deliveries are at most half a million: the numbers of views and records stay within the
/// steps, moments within what clocks are set and go on to, attributes within the tree's limits.
pub fn run_laws()
    ensures fit { RunsFit }
    ensures few { BooksAreFew }
{}
