//! The journal of a folder, cut and damaged.

use crate::folder::words::{Answer, number, told};
use harp_cells::{Cell, Value};
use harp_store::Store;
use std::alloc::Global;
use std::{fs, io};
use store_folder::FolderStore;

/// What the cut journals of a folder gave: the sync before the last one, the last one, or neither.
#[derive(Clone, Copy)]
struct Counts {
    before: u32,
    last: u32,
    neither: u32,
}

/// Whether block N of object 7 holds these bytes, or is absent where there are none.
fn holds<D: Store>(alloc: Global, store: &mut D, block: u32, wanted: Option<&[u8]>) -> bool {
    match store.read(alloc, Cell::Block { object: 7, block }) {
        Ok(Some(value)) => match (value.get(), wanted) {
            (Value::Block { bytes }, Some(wanted)) => bytes.as_slice() == wanted,
            _ => false,
        },
        Ok(None) => wanted.is_none(),
        Err(_) => false,
    }
}

/// A store over a new folder with this journal.
fn store_with(
    rt: HostRuntime,
    folder: &str,
    journal: &[u8],
) -> io::Result<FolderStore<store_folder::SystemFiles<HostRuntime>>> {
    let alloc = rt.alloc();
    fs::create_dir(&rt, folder)?;
    fs::write(
        &rt,
        format!(in alloc; "{folder}/journal")?.as_str(),
        journal,
    )?;
    let mut store = FolderStore::new(rt);
    match store.attach(alloc, folder) {
        Ok(()) => Ok(store),
        Err(_) => Err(io::Error::from(io::ErrorKind::Other)),
    }
}

impl Counts {
    /// Counts what a store over a new folder with this journal reads.
    fn look(&mut self, rt: HostRuntime, folder: &str, journal: &[u8]) {
        let alloc = rt.alloc();
        let Ok(mut store) = store_with(rt, folder, journal) else {
            self.neither = self.neither.saturating_add(1);
            return;
        };
        if holds(alloc, &mut store, 0, Some(&[1, 1, 1])) && holds(alloc, &mut store, 1, None) {
            self.before = self.before.saturating_add(1);
        } else if holds(alloc, &mut store, 0, Some(&[2, 2, 2]))
            && holds(alloc, &mut store, 1, Some(&[3, 3, 3]))
        {
            self.last = self.last.saturating_add(1);
        } else {
            self.neither = self.neither.saturating_add(1);
        }
    }
}

/// Cuts the journal at each byte from one on.
fn cut(
    rt: HostRuntime,
    folder: &str,
    from: usize,
    bytes: &[u8],
    counts: &mut Counts,
) -> io::Result<()> {
    let alloc = rt.alloc();
    for end in from..=bytes.len() {
        let (front, _) = bytes.split_at(end);
        let copy = format!(in alloc; "{folder}-cut-{end}")?;
        counts.look(rt, copy.as_str(), front);
    }
    Ok(())
}

/// Damages each byte of the journal from one on.
fn damage(
    rt: HostRuntime,
    folder: &str,
    from: usize,
    bytes: &mut [u8],
    counts: &mut Counts,
) -> io::Result<()> {
    let alloc = rt.alloc();
    for at in from..bytes.len() {
        let whole = bytes[at];
        bytes[at] = whole.wrapping_add(1);
        let copy = format!(in alloc; "{folder}-damaged-{at}")?;
        counts.look(rt, copy.as_str(), bytes);
        bytes[at] = whole;
    }
    Ok(())
}

/// Does what a word says to copies of a folder's journal, from a byte on.
fn try_word(
    rt: HostRuntime,
    word: &str,
    folder: &str,
    from: usize,
    counts: &mut Counts,
) -> io::Result<()> {
    let path = format!(in rt.alloc(); "{folder}/journal")?;
    let mut bytes = fs::read(&rt, path.as_str())?;
    if word == "cut-each" {
        cut(rt, folder, from, &bytes, counts)
    } else {
        damage(rt, folder, from, &mut bytes, counts)
    }
}

/// What came of a line about a journal.
pub(crate) fn journal_answer(
    rt: HostRuntime,
    word: &str,
    folder: &str,
    digits: &str,
    text: &mut String,
) -> Answer {
    if word != "cut-each" && word != "damage-each" {
        return Answer::Nothing;
    }
    let Some(from) = number(digits) else {
        return Answer::Nothing;
    };
    let mut counts = Counts {
        before: 0,
        last: 0,
        neither: 0,
    };
    if try_word(rt, word, folder, from as usize, &mut counts).is_err() {
        return Answer::Failed;
    }
    let Counts {
        before,
        last,
        neither,
    } = counts;
    told(write!(text, "before {before} last {last} neither {neither}"))
}
