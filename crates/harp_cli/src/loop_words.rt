//! The words that say which servers are run, and how.

ghost use Rattle.std.specs.Prelude.{◌≡◌, ℕ, ◌∷◌, MatchOption, codes, decimal};
ghost use Rattle.harp_types.specs.Server.{number_of as place_number};
ghost use Rattle.harp_types.specs.declared.server.ServerId.{ServerId as Place};
ghost use Rattle.promise.specs.Promise.{IsDelta};
ghost use Rattle.harp_cli.specs.declared.loop_words.Loop.{Loop as Runs};
ghost use Rattle.harp_cli.specs.declared.words.Command.{Command as Asked};
ghost use Rattle.harp_cli.specs.Words.{LoopWords, Named, delta_of, delta_words, texts};

use crate::number::number_within;
use crate::words::Command;
use harp_types::ServerId;
use node_link::LAST_PORT;
use promise::Delta;

/// No server has a lower port.
pub(crate) const FIRST_PORT: u16 = 1024;

/// The most turns of a server.
pub(crate) const MOST_TURNS: u64 = 1_000_000_000;

/// How servers are run: place s has this port plus s, each server takes so many turns, and promises
/// last so long, where it is told.
#[derive(Clone, Copy, PartialEq, Eq)]
pub struct Loop {
    pub port: u16,
    pub turns: u64,
    pub delta: Option<Delta>,
}

impl Loop {
    /// How long promises last, told or not.
    pub fn promises(self) -> Delta
        ensures { result ≡ delta_of self.delta }
    {
        match self.delta {
            Some(delta) => delta,
            None => Delta::first(),
        }
    }
}

/// The server whose number a word spells.
fn place_of(word: &str) -> Option<ServerId>
    ensures { MatchOption result
        ((place : Place) → word.now ≡ decimal (place_number place) → ⊥)
        (λ place. word.now ≡ decimal (place_number place)) }
{
    let number = number_within(word, 0, 2)?;
    ServerId::of(number as u8)
}

/// The length of promises that a word spells.
fn delta_of(word: &str) -> Option<Delta>
    ensures { MatchOption result
        ((delta : ℕ) → IsDelta delta → word.now ≡ decimal delta → ⊥)
        (λ delta. IsDelta delta × (word.now ≡ decimal delta)) }
{
    let number = number_within(word, 0, u64::from(u32::MAX))?;
    Delta::of(number as u32)
}

/// How servers are run by these words, in a folder of this name, with promises of this length.
fn loop_with(port: &str, folder: &str, turns: &str, delta: Option<Delta>) -> Option<Loop>
    ensures { MatchOption result
        ((runs : Runs) → LoopWords runs
        (port.now ∷ folder.now ∷ turns.now ∷ delta_words delta) → ⊥)
        (λ runs. LoopWords runs
        (port.now ∷ folder.now ∷ turns.now ∷ delta_words delta)) }
{
    let port = number_within(port, u64::from(FIRST_PORT), u64::from(LAST_PORT))?;
    let turns = number_within(turns, 1, MOST_TURNS)?;
    if folder.is_empty() {
        return None;
    }
    Some(Loop {
        port: port as u16,
        turns,
        delta,
    })
}

/// How servers are run, by these words.
fn loop_of(words: &[String]) -> Option<Loop>
    ensures { MatchOption result
        ((runs : Runs) → LoopWords runs (texts words.now) → ⊥)
        (λ runs. LoopWords runs (texts words.now)) }
{
    match words {
        [port, folder, turns] => { loop_with(port.as_str(), folder.as_str(), turns.as_str(), None) }
        [port, folder, turns, delta] => {
            let delta = delta_of(delta.as_str())?;
            loop_with(port.as_str(), folder.as_str(), turns.as_str(), Some(delta))
        }
        _ => None,
    }
}

/// The server that the words behind `node` ask for.
pub fn node_of(words: &[String]) -> Option<Command>
    ensures { MatchOption result
        ((c : Asked) → Named (codes "node") (texts words.now) c → ⊥)
        (Named (codes "node") (texts words.now)) }
{
    let [place, rest @ ..] = words else {
        return None;
    };
    let place = place_of(place.as_str())?;
    let runs = loop_of(rest)?;
    Some(Command::Node { place, runs })
}

/// The servers that the words behind `group` ask for.
pub fn group_of(words: &[String]) -> Option<Command>
    ensures { MatchOption result
        ((c : Asked) → Named (codes "group") (texts words.now) c → ⊥)
        (Named (codes "group") (texts words.now)) }
{
    let runs = loop_of(words)?;
    Some(Command::Group { runs })
}
