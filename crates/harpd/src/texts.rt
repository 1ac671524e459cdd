//! What is written.

ghost use Rattle.std.specs.Prelude.{◌≡◌, ◌++◌, ◌∷◌, [], codes, IfOk};
ghost use Rattle.harp_types.specs.Streams.{Rose};
ghost use Rattle.harpd.specs.Texts.{UsageEnds, Writes, WritesSome, sight_line, stopped_line, usage_text, version_text};

use crate::exit::Exit;
use harp_types::{Sink, SinkFault, write_all};
use node_loop::{Sight, Stayed};
use std::alloc::{AllocError, Global};
use text_writer::{put_at, put_decimal, put_named, put_state};

/// How the program is called, a line for each form.
#[tactic(auto, unfolding(crate::specs::Texts::usage_text))]
fn usage() -> &'static [u8]
    ensures { result.now ≡ usage_text }
{
    b"usage: harpd server S PORT DIR
usage: harpd server S PORT DIR DELTA
usage: harpd serve PORT DOOR CLIENT
usage: harpd serve PORT DOOR CLIENT U G
usage: harpd init DIR
usage: harpd help
usage: harpd version
"
}

/// Which program this is.
#[tactic(auto, unfolding(crate::specs::Texts::version_text))]
fn version() -> &'static [u8]
    ensures { result.now ≡ version_text }
{
    b"harpd 0.1
"
}

/// What the words may be.
const HELP: &[u8] = b"harpd runs one of the three servers of a group that keeps a file tree, or
a door to them for clients of NFS.

harpd server S PORT DIR
harpd server S PORT DIR DELTA
    runs server S over the folder DIR, at 127.0.0.1, UDP port PORT + S, until the
    file DIR/stop stands. Then it saves its log in DIR, takes the file away, writes
    `stopped turns T taken N sent M dropped D unsent U`, and ends with 0: its turns,
    and the datagrams that it took, sent, took for nothing, and couldn't send. It
    writes a line `MILLIS state S ..` behind its start and each change of its state:
    its clock, which server it is, its mode, the views it promised and accepted, its
    role, what it holds, and five numbers, of which a change alone writes nothing.
      S      which server it is, 0 to 2
      PORT   the port of server 0, 1024 to 65533, the same for all three
      DIR    a folder that `harpd init DIR` made, for this server alone
      DELTA  how many milliseconds a promise lasts, 500 to 100000; 2000 if left out
harpd serve PORT DOOR CLIENT
harpd serve PORT DOOR CLIENT U G
    serves those who connect to 127.0.0.1, TCP port DOOR, with calls of MOUNT version
    1 and NFS version 2, until it is killed. It answers by asking the three servers
    at 127.0.0.1, UDP ports PORT to PORT + 2, from a port that the system gives it;
    16 connections at once, while others wait. It writes nothing.
      PORT    the port of server 0, 1024 to 65533
      DOOR    the port of the door, 1024 to 65535
      CLIENT  0 to 4080: it asks as this client and the 15 behind it, which nobody
              else may be
      U, G    as whom all calls are made, a user and a group, 0 to 4294967295; as
              whom each one says, if left out
harpd init DIR
    makes the folder DIR, but none above it, and in it the file `new`; it writes
    nothing else. A folder in which a server has run is refused.
harpd help
    writes this.
harpd version
    writes which program this is.

Nothing is read from standard input. Numbers are decimal, without leading zeros.
Status: 0 done, 2 other words than these, 4 standard output failed, 6 no memory,
7 the folder is refused or its disk failed, 8 the port can't be used. Where it is
above 1, a line on standard error says why.
";

/// Writes a text.
fn write_text<K: Sink>(text: &[u8], sink: &mut K) -> Exit
    ensures ends { Writes text.now (K.written sink.old) (K.written sink.new) result }
    ensures rose { result ≡ Exit.SinkFailed → Rose (K.faults sink.old) (K.faults sink.new) }
{
    match write_all(sink, text) {
        Ok(()) => Exit::Done,
        Err(SinkFault::Failed) => Exit::SinkFailed,
        Err(SinkFault::NoMemory) => Exit::NoMemory,
    }
}

/// Writes which program this is.
pub fn write_version<K: Sink>(sink: &mut K) -> Exit
    ensures ends { Writes version_text (K.written sink.old) (K.written sink.new) result }
    ensures rose { result ≡ Exit.SinkFailed → Rose (K.faults sink.old) (K.faults sink.new) }
{
    write_text(version(), sink)
}

/// Writes what the words may be.
pub fn write_help<K: Sink>(sink: &mut K) -> Exit
    ensures ends { WritesSome (K.written sink.old) (K.written sink.new) result }
    ensures rose { result ≡ Exit.SinkFailed → Rose (K.faults sink.old) (K.faults sink.new) }
{
    write_text(HELP, sink)
}

/// Writes how the program is called.
pub fn write_usage<K: Sink>(sink: &mut K) -> Exit
    ensures ends { UsageEnds (K.written sink.old) (K.written sink.new) result }
    ensures rose { result ≡ Exit.SinkFailed → Rose (K.faults sink.old) (K.faults sink.new) }
{
    match write_all(sink, usage()) {
        Ok(()) => Exit::RefusedWords,
        Err(SinkFault::Failed) => Exit::SinkFailed,
        Err(SinkFault::NoMemory) => Exit::NoMemory,
    }
}

/// The line that tells what a server did that stayed up.
#[tactic(auto, unfolding(crate::specs::Texts::stopped_line))]
pub fn line_of(alloc: Global, served: Stayed) -> Result<Vec<u8>, AllocError>
    ensures { IfOk result (λ line. line.items ≡ stopped_line served) }
{
    let mut line = Vec::new(alloc);
    put_named(&mut line, b"stopped turns", served.turns)?;
    put_named(&mut line, b" taken", served.taken)?;
    put_named(&mut line, b" sent", served.sent)?;
    put_named(&mut line, b" dropped", served.dropped)?;
    put_named(&mut line, b" unsent", served.unsent)?;
    line.push(b'\n')?;
    Ok(line)
}

/// The line that tells what a server shows.
#[tactic(auto, unfolding(crate::specs::Texts::sight_line))]
pub fn line_of_sight(alloc: Global, sight: &Sight) -> Result<Vec<u8>, AllocError>
    ensures { IfOk result (λ line. line.items ≡ sight_line sight.now) }
{
    let mut line = Vec::new(alloc);
    put_decimal(&mut line, sight.millis)?;
    put_at(&mut line, b" state", sight.place)?;
    put_state(&mut line, &sight.state)?;
    line.push(b'\n')?;
    Ok(line)
}
