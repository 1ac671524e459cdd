//! Words, and what comes of them.

use harp_types::ServerId;

/// What came of a word.
#[derive(Clone, Copy)]
pub(crate) enum Answer {
    Nothing,
    Says(&'static str),
    One(u64),
    Two([u64; 2]),
    Five([u64; 5]),
    Seven([u64; 7]),
}

impl Answer {
    /// Yes or no.
    pub(crate) fn of(holds: bool) -> Answer {
        Answer::Says(if holds { "yes" } else { "no" })
    }
}

/// A word's name and the numbers behind it, 0 where there are fewer than seven.
pub(crate) fn parsed(word: &str) -> (&str, [u64; 7]) {
    let mut numbers = [0; 7];
    let Some((name, rest)) = word.split_once(':') else {
        return (word, numbers);
    };
    for (place, digits) in numbers.iter_mut().zip(rest.split(':')) {
        *place = digits.parse().unwrap_or(0);
    }
    (name, numbers)
}

/// The server of a number, the witness where it is above 1.
pub(crate) fn server(number: u64) -> ServerId {
    match number {
        0 => ServerId::Zero,
        1 => ServerId::One,
        _ => ServerId::Two,
    }
}

/// The number of a server.
pub(crate) fn number_of(server: ServerId) -> u64 {
    match server {
        ServerId::Zero => 0,
        ServerId::One => 1,
        ServerId::Two => 2,
    }
}
