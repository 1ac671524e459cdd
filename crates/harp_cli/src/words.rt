//! The words of a command.

ghost use Rattle.std.specs.Prelude.{◌≡◌, [], MatchOption, codes};
ghost use Rattle.harp_types.specs.Streams.{Rose};
ghost use Rattle.harp_cli.specs.declared.words.Command.{Command as Asked};
ghost use Rattle.harp_cli.specs.Words.{AsksFor, IsForm, Named, UsageEnds, texts, usage_text};

use crate::door_words::{Doorway, door_of};
use crate::loop_words::{Loop, group_of, node_of};
use crate::number::number_within;
use harp_types::{ServerId, Sink, SinkFault, write_all};
use play_commands::Exit;

/// The greatest seed of a schedule.
pub(crate) const LAST_SEED: u64 = 999_999_999_999_999_999;

/// The most lines that are drawn.
pub(crate) const MOST_LINES: u64 = 40_000;

/// The most runs of a sweep.
pub(crate) const MOST_RUNS: u64 = 10_000;

/// What the words of a command ask for.
#[derive(Clone, Copy, PartialEq, Eq)]
pub enum Command {
    Play,
    Check,
    /// A play with an observer beside it.
    Observe,
    /// The schedule of a seed, with so many drawn lines.
    Gen { seed: u64, lines: u32 },
    /// Runs of the schedules of so many seeds from this one on, with so many drawn lines each.
    Sweep { seed: u64, runs: u32, lines: u32 },
    /// One server.
    Node { place: ServerId, runs: Loop },
    /// All three servers.
    Group { runs: Loop },
    /// The audit of a folder.
    Audit,
    /// A door to servers in memory, for this user and group.
    DoorPlay { uid: u32, gid: u32 },
    /// A door to all three servers.
    Door { door: Doorway },
}

/// The command of this one name, where no words stand behind it.
fn alone(command: Command, words: &[String]) -> Option<Command>
    ensures { MatchOption result (texts words.now ≡ [] → ⊥)
        (λ c. (c ≡ command) × (texts words.now ≡ [])) }
{
    if words.is_empty() {
        Some(command)
    } else {
        None
    }
}

/// The schedule that the words behind `gen` ask for.
fn gen_of(words: &[String]) -> Option<Command>
    ensures { MatchOption result
        ((c : Asked) → Named (codes "gen") (texts words.now) c → ⊥)
        (Named (codes "gen") (texts words.now)) }
{
    let [seed, lines] = words else {
        return None;
    };
    let seed = number_within(seed.as_str(), 0, LAST_SEED)?;
    let lines = number_within(lines.as_str(), 0, MOST_LINES)?;
    Some(Command::Gen {
        seed,
        lines: lines as u32,
    })
}

/// The runs that the words behind `sweep` ask for.
fn sweep_of(words: &[String]) -> Option<Command>
    ensures { MatchOption result
        ((c : Asked) → Named (codes "sweep") (texts words.now) c → ⊥)
        (Named (codes "sweep") (texts words.now)) }
{
    let [seed, runs, lines] = words else {
        return None;
    };
    let seed = number_within(seed.as_str(), 0, LAST_SEED)?;
    let runs = number_within(runs.as_str(), 1, MOST_RUNS)?;
    let lines = number_within(lines.as_str(), 0, MOST_LINES)?;
    Some(Command::Sweep {
        seed,
        runs: runs as u32,
        lines: lines as u32,
    })
}

/// The audit that the words behind `audit` ask for.
fn audit_of(words: &[String]) -> Option<Command>
    ensures { MatchOption result
        ((c : Asked) → Named (codes "audit") (texts words.now) c → ⊥)
        (Named (codes "audit") (texts words.now)) }
{
    let [folder] = words else {
        return None;
    };
    if folder.is_empty() {
        return None;
    }
    Some(Command::Audit)
}

/// What the words ask for, if they are one of the forms.
pub fn command_of(words: &[String]) -> Option<Command>
    ensures { MatchOption result (IsForm words.now → ⊥) (AsksFor words.now) }
{
    let [word, rest @ ..] = words else {
        return None;
    };
    let word = word.as_str();
    if word == "play" {
        alone(Command::Play, rest)
    } else if word == "check" {
        alone(Command::Check, rest)
    } else if word == "observe" {
        alone(Command::Observe, rest)
    } else if word == "gen" {
        gen_of(rest)
    } else if word == "sweep" {
        sweep_of(rest)
    } else if word == "node" {
        node_of(rest)
    } else if word == "group" {
        group_of(rest)
    } else if word == "audit" {
        audit_of(rest)
    } else if word == "door" {
        door_of(rest)
    } else {
        None
    }
}

/// How the program is called, a line for each form.
#[tactic(auto, unfolding(crate::specs::Words::usage_text))]
fn usage() -> &'static [u8]
    ensures { result.now ≡ usage_text }
{
    b"usage: harp play
usage: harp check
usage: harp gen SEED LINES
usage: harp sweep SEED RUNS LINES
usage: harp node S PORT DIR TURNS
usage: harp group PORT DIR TURNS
usage: harp node S PORT DIR TURNS DELTA
usage: harp group PORT DIR TURNS DELTA
usage: harp door play U G
usage: harp door U G CLIENT PORT DIR TURNS
usage: harp observe
usage: harp audit DIR
"
}

/// Writes how the program is called.
pub fn write_usage<K: Sink>(sink: &mut K) -> Exit
    ensures ends { UsageEnds (K.written sink.old) (K.written sink.new) result }
    ensures rose { result ≡ Exit.SinkFailed → Rose (K.faults sink.old) (K.faults sink.new) }
{
    match write_all(sink, usage()) {
        Ok(()) => Exit::RefusedWords,
        Err(SinkFault::Failed) => Exit::SinkFailed,
        Err(SinkFault::NoMemory) => Exit::NoMemory,
    }
}
