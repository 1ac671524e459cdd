//! Rows with words on a store, and on a log over it: the name of a case, and its words, each with
//! its numbers behind colons. The modules have the words. What is written of a row is its name, and
//! the words of which something came, with that. Cells hold numbers, by their places, and a dash
//! stands for none.

mod cells;
mod disk;
mod indexed;
mod records;
mod saved;
mod walks;
mod words;

use crate::disks::cells::Numbers;
use crate::disks::disk::Disk;
use crate::disks::walks::Overlay;
use crate::disks::words::{Answer, parsed, told};
use std::alloc::Global;
use std::io;

/// What the words of a row are about.
#[derive(Drop)]
struct Player {
    numbers: Numbers,
    disk: Disk,
    overlay: Overlay,
}

impl Player {
    fn new(alloc: Global) -> Option<Player> {
        let disk = Disk::new(alloc)?;
        let overlay = Overlay::new(alloc)?;
        let numbers = Numbers { state: 0 };
        Some(Player {
            numbers,
            disk,
            overlay,
        })
    }

    /// Takes random steps of the store, and tells a digest and all that it has then.
    fn steps(&mut self, alloc: Global, count: u32, text: &mut String) -> Option<Answer> {
        let digest = self.disk.steps(alloc, &mut self.numbers, count)?;
        told(write!(text, "{digest} "))?;
        self.disk.reads(alloc, text)
    }

    /// Takes random steps of the log over the store, and tells a digest.
    fn walks(&mut self, alloc: Global, count: u32, text: &mut String) -> Option<Answer> {
        let digest = self
            .overlay
            .walks(alloc, &mut self.numbers, &mut self.disk, count)?;
        told(write!(text, "{digest}"))
    }

    /// Takes a word. Random numbers begin with a `seed`; then come random `steps` of the store, or
    /// of the log over it, which `walks`.
    fn step(&mut self, alloc: Global, word: &str, text: &mut String) -> Option<Answer> {
        let (name, numbers) = parsed(word);
        let [first, ..] = numbers;
        match name {
            "seed" => {
                self.numbers.state = u64::from(first);
                Some(Answer::Says(""))
            }
            "steps" => self.steps(alloc, first, text),
            "walks" => self.walks(alloc, first, text),
            _ => self.plain(alloc, name, numbers, text),
        }
    }

    fn plain(
        &mut self,
        alloc: Global,
        name: &str,
        numbers: [u32; 7],
        text: &mut String,
    ) -> Option<Answer> {
        if let Some(answer) = self.disk.change(alloc, name, numbers[0], numbers[1]) {
            return Some(answer);
        }
        if let Some(answer) = self.disk.look(alloc, name, numbers[0], text) {
            return Some(answer);
        }
        if let Some(answer) = self.disk.save(alloc, name, numbers, text) {
            return Some(answer);
        }
        self.overlay
            .step(alloc, &mut self.disk, name, numbers, text)
    }
}

/// Writes a word and what came of it.
fn write(rt: HostRuntime, word: &str, answer: Option<Answer>, text: &str) -> io::Result<()> {
    let text = match answer {
        None => return print!(rt; " {word} failed"),
        Some(Answer::Says(text)) => text,
        Some(Answer::Told) => text,
    };
    if text.is_empty() {
        return Ok(());
    }
    print!(rt; " {word}={text}")
}

/// Takes a word, and writes it and what came of it.
fn take(rt: HostRuntime, player: &mut Player, word: &str) -> io::Result<()> {
    let mut text = String::new(rt.alloc());
    let answer = player.step(rt.alloc(), word, &mut text);
    write(rt, word, answer, text.as_str())
}

/// Plays a row.
pub(crate) fn play(rt: HostRuntime, line: &str) -> io::Result<()> {
    let mut words = line.split(' ');
    if let Some(name) = words.next() {
        print!(rt; "{name}")?;
    }
    let Some(mut player) = Player::new(rt.alloc()) else {
        return println!(rt; " no memory");
    };
    for word in words {
        take(rt, &mut player, word)?;
    }
    println!(rt; "")
}
