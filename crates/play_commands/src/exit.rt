//! How a command ends.

ghost use Rattle.std.specs.Prelude.{◌≡◌};
ghost use Rattle.play_commands.specs.Exit.{status_of};

/// How a command ended.
#[derive(Clone, Copy, PartialEq, Eq)]
pub enum Exit {
    /// All was done: the input was read to its end, and no line was refused, nor a trace.
    Done,
    /// A line of the trace that was checked breaks something.
    SaysNo,
    /// The words are none that the program knows.
    RefusedWords,
    /// The source failed.
    SourceFailed,
    /// The sink failed.
    SinkFailed,
    /// A line was refused, or the trace that was checked lacks its last line.
    RefusedLine,
    /// A record was refused.
    RefusedRecord,
    /// There was no memory.
    NoMemory,
    /// A disk failed.
    DiskFailed,
    /// The link failed.
    LinkFailed,
    /// The turns of a call are over, and it isn't answered.
    CallSpent,
    /// The network of the servers in memory was full.
    NetFull,
}

impl Exit {
    /// The exit status.
    pub fn status(self) -> u8
        ensures { result ≡ status_of self }
    {
        match self {
            Exit::Done => 0,
            Exit::SaysNo => 1,
            Exit::RefusedWords => 2,
            Exit::SourceFailed => 3,
            Exit::SinkFailed => 4,
            Exit::RefusedLine => 5,
            Exit::RefusedRecord => 5,
            Exit::NoMemory => 6,
            Exit::DiskFailed => 7,
            Exit::LinkFailed => 8,
            Exit::CallSpent => 9,
            Exit::NetFull => 10,
        }
    }
}
