//! What the texts of traces are read as.

ghost use Rattle.accept_laws.specs.TextLaws.{TextsHaveTheirLines, TracesAreFew, TracesFit};

/// The text of a trace has just the lines of the trace: no spelling of a line has a line feed in it.
/// Each line of the trace of a schedule fits and has at most 20,000 bytes, where no line of the
/// schedule has more than 19,998 and each message has bytes; and then the trace has at most 2^40
/// lines.
pub fn text_laws()
    ensures lines { TextsHaveTheirLines }
    ensures fit { TracesFit }
    ensures few { TracesAreFew }
{}
