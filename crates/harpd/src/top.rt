//! The top call.

ghost use Rattle.std.specs.Prelude.{◌≡◌, ◌⊎◌};
ghost use Rattle.harp_types.specs.Streams.{Rose};
ghost use Rattle.door_seats.specs.Doors.{tells_of};
ghost use Rattle.node_loop.specs.Stay.{outer_of};
ghost use Rattle.harpd.specs.Door.{doorway};
ghost use Rattle.harpd.specs.Run.{Ends};
ghost use Rattle.harpd.specs.Serve.{outer};
ghost use Rattle.harpd.specs.Words.{AskForDoor, AskForServer, texts, word_at};

use crate::door::serve_door;
use crate::exit::Exit;
use crate::folders::Folders;
use crate::serve::{init, serve};
use crate::texts::{write_help, write_usage, write_version};
use crate::words::{Command, command_of};
use door_seats::Connections;
use harp_store::Store;
use harp_types::Sink;
use node_link::{Clock, Link};
use node_loop::{Orders, Outside, Watcher};
use std::alloc::Global;

/// The word at a place, from 0; an empty one where there is none.
pub fn word_at(words: &[String], place: usize) -> &str
    ensures { result.now ≡ word_at (texts words.now) place }
{
    match words.get(place) {
        Some(word) => word.as_str(),
        None => "",
    }
}

/// Does what the words ask for. `server` runs a server that stays up until it is told to stop, and
/// writes `stopped turns T taken N sent M dropped D unsent U`: its turns, and how many datagrams were
/// taken, sent, taken for nothing, and not sent by the link.
/// Meanwhile it shows itself to who watches it, behind its boot and each change of its state.
/// `serve` serves the connections that come at a port, by asking three servers, and writes nothing.
/// `init` makes a folder for a server. It and `server` take the folder that the words name. `help`
/// and `version` write a text. On words of no form the usage text is written. All but `server`
/// leave what is outside of one: the link, the disk, the clock, who gives orders, and who watches.
/// All but `serve` leave what a door has around it: connections, a link and a clock of its own.
///
/// Nothing is said of what these and a sink don't tell.
pub fn run<K: Sink, F: Folders, L, D, C, O, W, N, M, B>(
    alloc: Global,
    words: &[String],
    sink: &mut K,
    folders: &mut F,
    outside: &mut Outside<L, D, C, O, W>,
    door: &mut door_seats::Outside<N, M, B>,
) -> Exit
where
    L: Link,
    D: Store,
    C: Clock,
    O: Orders,
    W: Watcher,
    N: Connections,
    M: Link,
    B: Clock,
    ensures ends { Ends words.now
        (doorway (tells_of N.told M.told B.told M.faults) door.old door.new)
        (outer (outer_of L.told L.unsent D.told C.told O.told W.told outside.old) (F.done folders.old)
        (K.written sink.old))
        (outer (outer_of L.told L.unsent D.told C.told O.told W.told outside.new) (F.done folders.new)
        (K.written sink.new)) result }
    ensures apart { (AskForServer words.now → ⊥) → outside.new ≡ outside.old }
    ensures door_apart { (AskForDoor words.now → ⊥) → door.new ≡ door.old }
    ensures sink_rose { result ≡ Exit.SinkFailed → Rose (K.faults sink.old) (K.faults sink.new) }
    ensures disk_rose { result ≡ Exit.DiskFailed
        → Rose (F.faults folders.old) (F.faults folders.new)
        ⊎ Rose (D.faults outside.old.disk) (D.faults outside.new.disk) }
    ensures link_rose { result ≡ Exit.LinkFailed → (AskForDoor words.now → ⊥)
        → Rose (L.faults outside.old.link) (L.faults outside.new.link) }
    ensures door_rose { result ≡ Exit.LinkFailed → AskForDoor words.now
        → Rose (N.faults door.old.connections) (N.faults door.new.connections)
        ⊎ Rose (M.faults door.old.link) (M.faults door.new.link) }
{
    match command_of(words) {
        Some(Command::Server { place, runs }) => {
            let folder = word_at(words, 3);
            serve(alloc, place, runs, folder, sink, folders, outside)
        }
        Some(Command::Door { serves }) => serve_door(alloc, serves, door),
        Some(Command::Init) => init(alloc, word_at(words, 1), folders),
        Some(Command::Help) => write_help(sink),
        Some(Command::Version) => write_version(sink),
        None => write_usage(sink),
    }
}
