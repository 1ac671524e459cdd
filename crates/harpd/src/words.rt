//! The words of the program.

ghost use Rattle.std.specs.Prelude.{◌≡◌, ℕ, ◌<◌, ◌^◌, ◌∷◌, [], MatchOption, codes, decimal};
ghost use Rattle.harp_types.specs.Server.{number_of as place_number};
ghost use Rattle.harp_types.specs.declared.server.ServerId.{ServerId as Place};
ghost use Rattle.promise.specs.Promise.{IsDelta};
ghost use Rattle.harpd.specs.declared.words.Command.{Command as Asked};
ghost use Rattle.harpd.specs.declared.words.Loop.{Loop as Runs};
ghost use Rattle.harpd.specs.declared.words.Serving.{Serving as Serves};
ghost use Rattle.harpd.specs.Words.{AsksFor, DoorWords, IsForm, LoopWords, Named, cred_words, delta_of, delta_words, texts};

use crate::number::number_within;
use harp_types::{Cred, ServerId};
use node_link::LAST_PORT;
use promise::Delta;

/// No server and no door has a lower port.
pub const FIRST_PORT: u16 = 1024;

/// The greatest number of the first of sixteen clients.
pub const LAST_CLIENT: u32 = 4080;

/// How a server is run: place s has this port plus s, and promises last so long, where it is told.
#[derive(Clone, Copy)]
pub struct Loop {
    pub port: u16,
    pub delta: Option<Delta>,
}

/// How connections are served: by the servers from this port on, at the port of the door, as
/// sixteen clients from this one on, and as this user and group alone, where they are told.
#[derive(Clone, Copy)]
pub struct Serving {
    pub port: u16,
    pub door: u16,
    pub client: u32,
    pub everyone: Option<Cred>,
}

/// What the words ask for.
#[derive(Clone, Copy)]
pub enum Command {
    /// A server that stays up.
    Server { place: ServerId, runs: Loop },
    /// That connections be served.
    Door { serves: Serving },
    /// A folder for a server.
    Init,
    /// What the words may be.
    Help,
    /// Which program this is.
    Version,
}

impl Loop {
    /// How long promises last, told or not.
    pub fn promises(self) -> Delta
        ensures { result ≡ delta_of self.delta }
    {
        match self.delta {
            Some(delta) => delta,
            None => Delta::first(),
        }
    }
}

/// The command of this one name, where no words stand behind it.
fn alone(command: Command, words: &[String]) -> Option<Command>
    ensures { MatchOption result (texts words.now ≡ [] → ⊥)
        (λ c. (c ≡ command) × (texts words.now ≡ [])) }
{
    if words.is_empty() {
        Some(command)
    } else {
        None
    }
}

/// The server whose number a word spells.
fn place_of(word: &str) -> Option<ServerId>
    ensures { MatchOption result
        ((place : Place) → word.now ≡ decimal (place_number place) → ⊥)
        (λ place. word.now ≡ decimal (place_number place)) }
{
    let number = number_within(word, 0, 2)?;
    ServerId::of(number as u8)
}

/// The length of promises that a word spells.
fn delta_of(word: &str) -> Option<Delta>
    ensures { MatchOption result
        ((delta : ℕ) → IsDelta delta → word.now ≡ decimal delta → ⊥)
        (λ delta. IsDelta delta × (word.now ≡ decimal delta)) }
{
    let number = number_within(word, 0, u64::from(u32::MAX))?;
    Delta::of(number as u32)
}

/// How a server is run by these words, in a folder of this name, with promises of this length.
fn loop_with(port: &str, folder: &str, delta: Option<Delta>) -> Option<Loop>
    ensures { MatchOption result
        ((runs : Runs) → LoopWords runs (port.now ∷ folder.now ∷ delta_words delta) → ⊥)
        (λ runs. LoopWords runs (port.now ∷ folder.now ∷ delta_words delta)) }
{
    let port = number_within(port, u64::from(FIRST_PORT), u64::from(LAST_PORT))?;
    if folder.is_empty() {
        return None;
    }
    Some(Loop {
        port: port as u16,
        delta,
    })
}

/// How a server is run, by these words.
fn loop_of(words: &[String]) -> Option<Loop>
    ensures { MatchOption result
        ((runs : Runs) → LoopWords runs (texts words.now) → ⊥)
        (λ runs. LoopWords runs (texts words.now)) }
{
    match words {
        [port, folder] => loop_with(port.as_str(), folder.as_str(), None),
        [port, folder, delta] => {
            let delta = delta_of(delta.as_str())?;
            loop_with(port.as_str(), folder.as_str(), Some(delta))
        }
        _ => None,
    }
}

/// The server that the words behind `server` ask for.
fn server_of(words: &[String]) -> Option<Command>
    ensures { MatchOption result
        ((c : Asked) → Named (codes "server") (texts words.now) c → ⊥)
        (Named (codes "server") (texts words.now)) }
{
    let [place, rest @ ..] = words else {
        return None;
    };
    let place = place_of(place.as_str())?;
    let runs = loop_of(rest)?;
    Some(Command::Server { place, runs })
}

/// The user and the group that these words spell.
fn cred_of(uid: &str, gid: &str) -> Option<Cred>
    ensures { MatchOption result
        ((u g : ℕ) → u < 2 ^ 32 → g < 2 ^ 32 → uid.now ≡ decimal u → gid.now ≡ decimal g → ⊥)
        (λ cred. (cred.uid < 2 ^ 32) × (cred.gid < 2 ^ 32) × (uid.now ≡ decimal cred.uid)
        × (gid.now ≡ decimal cred.gid)) }
{
    let uid = number_within(uid, 0, u64::from(u32::MAX))?;
    let gid = number_within(gid, 0, u64::from(u32::MAX))?;
    Some(Cred {
        uid: uid as u32,
        gid: gid as u32,
    })
}

/// How connections are served by these words, as this user and group.
fn serving_as(port: &str, door: &str, client: &str, everyone: Option<Cred>) -> Option<Serving>
    ensures { MatchOption result
        ((serves : Serves) → DoorWords serves
        (port.now ∷ door.now ∷ client.now ∷ cred_words everyone) → ⊥)
        (λ serves. DoorWords serves (port.now ∷ door.now ∷ client.now ∷ cred_words everyone)) }
{
    let port = number_within(port, u64::from(FIRST_PORT), u64::from(LAST_PORT))?;
    let door = number_within(door, u64::from(FIRST_PORT), u64::from(u16::MAX))?;
    let client = number_within(client, 0, u64::from(LAST_CLIENT))?;
    Some(Serving {
        port: port as u16,
        door: door as u16,
        client: client as u32,
        everyone,
    })
}

/// How connections are served, by these words.
fn serving_of(words: &[String]) -> Option<Serving>
    ensures { MatchOption result
        ((serves : Serves) → DoorWords serves (texts words.now) → ⊥)
        (λ serves. DoorWords serves (texts words.now)) }
{
    match words {
        [port, door, client] => { serving_as(port.as_str(), door.as_str(), client.as_str(), None) }
        [port, door, client, uid, gid] => {
            let cred = cred_of(uid.as_str(), gid.as_str())?;
            serving_as(port.as_str(), door.as_str(), client.as_str(), Some(cred))
        }
        _ => None,
    }
}

/// How connections are served that the words behind `serve` ask for.
fn door_of(words: &[String]) -> Option<Command>
    ensures { MatchOption result
        ((c : Asked) → Named (codes "serve") (texts words.now) c → ⊥)
        (Named (codes "serve") (texts words.now)) }
{
    let serves = serving_of(words)?;
    Some(Command::Door { serves })
}

/// The folder that the words behind `init` ask for.
fn init_of(words: &[String]) -> Option<Command>
    ensures { MatchOption result
        ((c : Asked) → Named (codes "init") (texts words.now) c → ⊥)
        (Named (codes "init") (texts words.now)) }
{
    let [folder] = words else {
        return None;
    };
    if folder.is_empty() {
        return None;
    }
    Some(Command::Init)
}

/// What the words ask for, if they are one of the forms.
pub fn command_of(words: &[String]) -> Option<Command>
    ensures { MatchOption result (IsForm words.now → ⊥) (AsksFor words.now) }
{
    let [word, rest @ ..] = words else {
        return None;
    };
    let word = word.as_str();
    if word == "server" {
        server_of(rest)
    } else if word == "serve" {
        door_of(rest)
    } else if word == "init" {
        init_of(rest)
    } else if word == "help" {
        alone(Command::Help, rest)
    } else if word == "version" {
        alone(Command::Version, rest)
    } else {
        None
    }
}
