//! Rows with words on promises, views and logs: the name of a case, and its words, each with its
//! numbers behind colons. The modules have the words. What is written of a row is its name, and
//! each word with what came of it.

mod active;
mod kept;
mod placed;
mod pulls;
mod views;
mod words;

use crate::logs::kept::Logs;
use crate::logs::views::{Choices, Promises};
use crate::logs::words::{Answer, parsed};
use std::alloc::Global;
use std::io;

/// What the words of a row are about.
#[derive(Drop)]
struct Player {
    promises: Promises,
    choices: Choices,
    logs: Logs,
}

impl Player {
    /// Takes a word. None where nothing takes it.
    fn step(&mut self, alloc: Global, text: &str) -> Option<Answer> {
        let (name, numbers) = parsed(text);
        if let Some(answer) = self.promises.step(name, numbers) {
            return Some(answer);
        }
        if let Some(answer) = self.choices.step(name, numbers) {
            return Some(answer);
        }
        self.logs.step(alloc, name, numbers)
    }
}

/// Writes a word, and a text behind a mark.
fn tell_text(rt: HostRuntime, word: &str, mark: &str, text: &str) -> io::Result<()> {
    print!(rt; " {word}{mark}{text}")
}

/// Writes a word and a number.
fn tell_number(rt: HostRuntime, word: &str, number: u64) -> io::Result<()> {
    print!(rt; " {word}={number}")
}

/// Writes a word and numbers.
fn tell_numbers(rt: HostRuntime, word: &str, numbers: &[u64]) -> io::Result<()> {
    print!(rt; " {word}={numbers:?}")
}

/// Writes a word, and what came of it.
fn tell(rt: HostRuntime, word: &str, answer: Option<Answer>) -> io::Result<()> {
    match answer {
        None => tell_text(rt, word, " ", "failed"),
        Some(Answer::Nothing) => tell_text(rt, word, "", ""),
        Some(Answer::Says(text)) => tell_text(rt, word, "=", text),
        Some(Answer::One(number)) => tell_number(rt, word, number),
        Some(Answer::Two(numbers)) => tell_numbers(rt, word, &numbers),
        Some(Answer::Five(numbers)) => tell_numbers(rt, word, &numbers),
        Some(Answer::Seven(numbers)) => tell_numbers(rt, word, &numbers),
    }
}

/// Plays a row.
pub(crate) fn play(rt: HostRuntime, line: &str) -> io::Result<()> {
    let mut player = Player {
        promises: Promises::new(),
        choices: Choices::new(),
        logs: Logs::new(),
    };
    let mut words = line.split(' ');
    if let Some(name) = words.next() {
        print!(rt; "{name}")?;
    }
    for word in words {
        let answer = player.step(rt.alloc(), word);
        tell(rt, word, answer)?;
    }
    println!(rt; "")
}
