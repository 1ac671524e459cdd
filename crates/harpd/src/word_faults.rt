//! What is wrong with words that are no form, for whoever wrote them.

ghost use Rattle.std.specs.Prelude.{MatchOption};
ghost use Rattle.harpd.specs.Words.{IsForm};

use crate::number::number_within;
use crate::words::{FIRST_PORT, LAST_CLIENT, command_of};
use node_link::LAST_PORT;
use std::fmt;

/// What stands at a place behind the name of a form.
#[derive(Clone, Copy)]
pub enum Wanted {
    Server,
    Port,
    Folder,
    Delta,
    Door,
    Client,
    User,
    Group,
}

/// What is wrong with words that are no form. Places count from 1.
#[derive(Clone, Copy)]
pub enum WordFault {
    /// There are none.
    NoWords,
    /// The first one names no form.
    NoForm,
    /// The word at this place isn't what stands there.
    Wrong { place: usize, wanted: Wanted },
    /// No word stands at this place, where one has to.
    Missing { place: usize, wanted: Wanted },
    /// The word at this place is one too many.
    Extra { place: usize },
}

const NOTHING: &[Wanted] = &[];

const INIT: &[Wanted] = &[Wanted::Folder];

const SERVER: &[Wanted] = &[Wanted::Server, Wanted::Port, Wanted::Folder, Wanted::Delta];

const DOOR: &[Wanted] = &[
    Wanted::Port,
    Wanted::Door,
    Wanted::Client,
    Wanted::User,
    Wanted::Group,
];

impl Wanted {
    // Its name in the usage text.
    fn name(self) -> &'static str {
        match self {
            Wanted::Server => "S",
            Wanted::Port => "PORT",
            Wanted::Folder => "DIR",
            Wanted::Delta => "DELTA",
            Wanted::Door => "DOOR",
            Wanted::Client => "CLIENT",
            Wanted::User => "U",
            Wanted::Group => "G",
        }
    }

    // From which number to which it goes, where it is one.
    fn range(self) -> Option<(u64, u64)> {
        match self {
            Wanted::Folder => None,
            Wanted::Server => Some((0, 2)),
            Wanted::Port => Some((u64::from(FIRST_PORT), u64::from(LAST_PORT))),
            Wanted::Delta => Some((500, 100_000)),
            Wanted::Door => Some((u64::from(FIRST_PORT), u64::from(u16::MAX))),
            Wanted::Client => Some((0, u64::from(LAST_CLIENT))),
            Wanted::User | Wanted::Group => Some((0, u64::from(u32::MAX))),
        }
    }

    // Whether a word is one.
    fn takes(self, word: &str) -> bool {
        match self.range() {
            Some((least, most)) => number_within(word, least, most).is_some(),
            None => !word.is_empty(),
        }
    }

    // Whether it may be left out, with all behind it.
    fn may_lack(self) -> bool {
        matches!(self, Wanted::Delta | Wanted::User)
    }
}

// What stands behind the name of a form.
fn behind(name: &str) -> Option<&'static [Wanted]> {
    if name == "server" {
        Some(SERVER)
    } else if name == "serve" {
        Some(DOOR)
    } else if name == "init" {
        Some(INIT)
    } else if name == "help" || name == "version" {
        Some(NOTHING)
    } else {
        None
    }
}

// What is wrong at a place where this is wanted and no word stands, where it may not be left out.
fn missing(place: usize, wanted: Wanted) -> Option<WordFault> {
    if wanted.may_lack() {
        None
    } else {
        Some(WordFault::Missing { place, wanted })
    }
}

// The first place behind the name where a word is wrong or missing, or there is one too many.
fn misplaced(wanted: &[Wanted], rest: &[String]) -> Option<WordFault> {
    for before in 0..wanted.len() {
        let place = before + 2;
        let wanted = wanted[before];
        let Some(word) = rest.get(before) else {
            return missing(place, wanted);
        };
        if !wanted.takes(word.as_str()) {
            return Some(WordFault::Wrong { place, wanted });
        }
    }
    if rest.len() > wanted.len() {
        Some(WordFault::Extra {
            place: wanted.len() + 2,
        })
    } else {
        None
    }
}

// What is wrong with words that are no form.
fn fault_of(words: &[String]) -> WordFault {
    let [name, rest @ ..] = words else {
        return WordFault::NoWords;
    };
    match behind(name.as_str()) {
        Some(wanted) => match misplaced(wanted, rest) {
            Some(fault) => fault,
            None => WordFault::NoForm,
        },
        None => WordFault::NoForm,
    }
}

/// What is wrong with words, exactly where they are no form.
pub fn word_fault(words: &[String]) -> Option<WordFault>
    ensures { MatchOption result (IsForm words.now) (λ fault. IsForm words.now → ⊥) }
{
    match command_of(words) {
        Some(_) => None,
        None => Some(fault_of(words)),
    }
}

impl fmt::Display for Wanted {
    fn fmt<W: fmt::Write>(&self, f: &mut fmt::Formatter<W>) -> fmt::Result {
        match self.range() {
            Some((least, most)) => write!(f, "{} ({least} to {most})", self.name()),
            None => f.write_str(self.name()),
        }
    }
}

impl fmt::Display for WordFault {
    fn fmt<W: fmt::Write>(&self, f: &mut fmt::Formatter<W>) -> fmt::Result {
        match self {
            WordFault::NoWords => f.write_str("no word names a form"),
            WordFault::NoForm => f.write_str("word 1 names no form"),
            WordFault::Wrong { place, wanted } => write!(f, "word {place} is no {wanted}"),
            WordFault::Missing { place, wanted } => write!(f, "word {place} is missing, {wanted}"),
            WordFault::Extra { place } => write!(f, "word {place} is one too many"),
        }
    }
}
