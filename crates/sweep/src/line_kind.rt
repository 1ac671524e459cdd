//! The kinds of lines of which one is drawn.

ghost use Rattle.std.specs.Prelude.{◌≡◌};
ghost use Rattle.sweep.specs.Lines.{line_kind};

/// The kinds of lines for one server.
#[derive(Clone, Copy)]
pub enum ServerLine {
    /// The server crashes, or its power fails.
    Fail,
    Suspect,
    Apply,
    Flush,
    Tick,
}

/// The kinds of lines. A kind is drawn as often as numbers below 16 stand for it.
#[derive(Clone, Copy)]
pub enum LineKind {
    Ask,
    /// A line for any of the servers.
    AtAny(ServerLine),
    Advance,
    PumpTwo,
    PumpAll,
}

impl LineKind {
    /// The kind that a number below 16 stands for.
    pub fn of(number: u64) -> LineKind
        ensures { result ≡ line_kind number }
    {
        match number {
            0..=6 => LineKind::Ask,
            7 => LineKind::AtAny(ServerLine::Fail),
            8 => LineKind::AtAny(ServerLine::Suspect),
            9 => LineKind::AtAny(ServerLine::Apply),
            10 => LineKind::AtAny(ServerLine::Flush),
            11 => LineKind::AtAny(ServerLine::Tick),
            12 => LineKind::Advance,
            13 => LineKind::PumpTwo,
            _ => LineKind::PumpAll,
        }
    }
}
