//! A clock in memory, the day's clock, and one that goes back or can't be read.

use crate::folder::words::{Answer, halves, number, told};
use harp_types::ServerId;
use node_link::{Clock, ListClock, WallClock, readings_rise};
use std::alloc::{AllocError, Global};
use std::time::Duration;
use std::{cell, io, time};

/// So many seconds on a clock, which can't be read at 0.
fn of_seconds(seconds: u64) -> io::Result<Duration> {
    match seconds {
        0 => Err(io::Error::from(io::ErrorKind::Unsupported)),
        n => Ok(Duration::from_secs(n)),
    }
}

/// The seconds that the day's clock and the monotonic one are told to read.
#[derive(Drop)]
pub(crate) struct Seconds {
    day: cell::Cell<u64>,
    steady: cell::Cell<u64>,
}

impl Seconds {
    /// Neither can be read.
    pub(crate) fn new() -> Seconds {
        Seconds {
            day: cell::Cell::new(0),
            steady: cell::Cell::new(0),
        }
    }
}

/// A clock that reads what it is told.
#[derive(Drop)]
struct Told<'a>(&'a Seconds);

impl time::Clock for Told<'_> {
    fn monotonic(&self) -> io::Result<Duration> {
        of_seconds(self.0.steady.get())
    }

    fn since_1970(&self) -> io::Result<Duration> {
        of_seconds(self.0.day.get())
    }
}

/// The clocks, and the least that the day's clock can read next.
#[derive(Drop)]
pub struct Clocks<'a, R> {
    list: ListClock,
    day: WallClock<R>,
    least: u64,
    seconds: &'a Seconds,
    told: WallClock<Told<'a>>,
}

impl<'a, R: Drop> Clocks<'a, R> {
    /// Clocks that weren't read. The day is one after September 2020.
    pub(crate) fn new(
        rt: R,
        alloc: Global,
        seconds: &'a Seconds,
    ) -> Result<Clocks<'a, R>, AllocError> {
        let list = ListClock::new(alloc, Vec::new(alloc))?;
        Ok(Clocks {
            list,
            day: WallClock::new(rt),
            least: 1_600_000_000_000,
            seconds,
            told: WallClock::new(Told(seconds)),
        })
    }
}

/// The readings of a line.
fn readings_of(alloc: Global, line: &str) -> Result<Vec<u64>, AllocError> {
    let mut readings = Vec::new(alloc);
    for word in line.split(' ') {
        if let Some(reading) = number(word) {
            readings.push(reading)?;
        }
    }
    Ok(readings)
}

/// Has the clock in memory give the readings of a line, where they never fall.
fn set_readings(alloc: Global, list: &mut ListClock, line: &str) -> Answer {
    let Ok(readings) = readings_of(alloc, line) else {
        return Answer::NoMemory;
    };
    if !readings_rise(readings.as_slice()) {
        return Answer::Nothing;
    }
    match ListClock::new(alloc, readings) {
        Ok(clock) => {
            *list = clock;
            Answer::Done
        }
        Err(_) => Answer::NoMemory,
    }
}

/// A reading of the clock in memory, and how many it told.
fn tell_reading(list: &mut ListClock, place: ServerId, text: &mut String) -> Answer {
    let now = list.now(place);
    let count = list.told().map_or(0, |told| told.len());
    told(write!(text, "{now}, {count} told"))
}

/// Whether the day's clock reads no less than before, and how often it failed.
fn tell_day<R: time::Clock>(
    clocks: &mut Clocks<'_, R>,
    place: ServerId,
    text: &mut String,
) -> Answer {
    let now = clocks.day.now(place);
    let (rises, faults) = (now >= clocks.least, clocks.day.faults());
    clocks.least = now;
    told(write!(text, "rises {rises}, {faults} faults"))
}

/// A reading of the clock that is told its seconds, and how often it failed.
fn tell_seconds<R>(
    clocks: &mut Clocks<'_, R>,
    place: ServerId,
    number: u64,
    text: &mut String,
) -> Answer {
    clocks.seconds.day.set(number);
    let (now, faults) = (clocks.told.now(place), clocks.told.faults());
    told(write!(text, "{now}, {faults} faults"))
}

/// What came of a line about clocks.
pub(crate) fn clock_answer<R: time::Clock>(
    alloc: Global,
    clocks: &mut Clocks<'_, R>,
    line: &str,
    text: &mut String,
) -> Answer {
    let (word, rest) = halves(line);
    if word == "readings" {
        return set_readings(alloc, &mut clocks.list, rest);
    }
    let Some(number) = number(rest) else {
        return Answer::Nothing;
    };
    let place = match number {
        0 => ServerId::Zero,
        1 => ServerId::One,
        _ => ServerId::Two,
    };
    match word {
        "reading" => tell_reading(&mut clocks.list, place, text),
        "day" => tell_day(clocks, place, text),
        "seconds" => tell_seconds(clocks, place, number, text),
        "steady" => {
            clocks.seconds.steady.set(number);
            Answer::Done
        }
        _ => Answer::Nothing,
    }
}
