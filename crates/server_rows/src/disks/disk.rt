//! The words of a store.

use crate::disks::cells::{Numbers, cell, folded, number, value};
use crate::disks::words::{Answer, passed, tell, tell_read, told};
use harp_cells::SharedValue;
use harp_store::{Bits, Mark, MemStore, Pick, Store, StoreFault};
use harp_types::{Role, ServerId, ViewNo};
use std::alloc::Global;

/// How many places random steps take.
const PLACES: u32 = 6;

/// A store in memory, and the mark that its server has.
#[derive(Drop)]
pub(crate) struct Disk {
    pub(crate) store: MemStore,
    pub(crate) mark: Mark,
}

/// A mark with this LB and no saved log.
pub(crate) fn unsaved(lb: u64) -> Option<Mark> {
    let view = ViewNo::of(0, ServerId::Zero)?;
    Mark::of(view, view, Role::Leads(ServerId::One), lb, Some(2000), None)
}

/// Six bits of a number.
fn six(alloc: Global, bits: u32) -> Option<Vec<bool>> {
    let mut items = Vec::new(alloc);
    for place in 0..6u32 {
        items.push((bits >> place) & 1 == 1).ok()?;
    }
    Some(items)
}

/// The pick of six bits, which is repeated along the changes that aren't synced.
fn pick(alloc: Global, bits: u32) -> Option<Pick> {
    Some(Pick::Bits(Bits::of(six(alloc, bits)?)?))
}

// ---- calls of a store

fn put<D: Store>(alloc: Global, store: &mut D, place: u32, number: u32) -> Option<Answer> {
    let value = SharedValue::new(alloc, value(number)).ok()?;
    Some(passed(store.put(alloc, cell(place), &value)))
}

fn erase<D: Store>(alloc: Global, store: &mut D, place: u32) -> Answer {
    passed(store.erase(alloc, cell(place)))
}

/// Erases the blocks of object 2 from one on.
fn erase_from<D: Store>(alloc: Global, store: &mut D, first: u32) -> Answer {
    passed(store.erase_from(alloc, 2, first))
}

fn sync<D: Store>(alloc: Global, store: &mut D) -> Answer {
    passed(store.sync(alloc))
}

fn write_mark<D: Store>(alloc: Global, store: &mut D, mark: &Mark) -> Answer {
    passed(store.write_mark(alloc, mark))
}

fn attach<D: Store>(alloc: Global, store: &mut D) -> Answer {
    passed(store.attach(alloc, "disk"))
}

/// The number that a store has in a place.
fn read<D: Store>(alloc: Global, store: &mut D, place: u32) -> Result<Option<u32>, StoreFault> {
    match store.read(alloc, cell(place))? {
        Some(shared) => Ok(number(Some(shared.get()))),
        None => Ok(None),
    }
}

/// The mark that a store has.
pub(crate) fn read_mark<D: Store>(
    alloc: Global,
    store: &mut D,
) -> Result<Option<Mark>, StoreFault> {
    store.read_mark(alloc)
}

/// The LB of a store's mark.
fn lb<D: Store>(alloc: Global, store: &mut D) -> Result<Option<u32>, StoreFault> {
    match read_mark(alloc, store)? {
        Some(mark) => Ok(u32::try_from(mark.lb()).ok()),
        None => Ok(None),
    }
}

/// A digest with all that is read.
fn digest<D: Store>(alloc: Global, store: &mut D, before: u64) -> Option<u64> {
    let mut digest = before;
    for place in 0..PLACES {
        digest = folded(digest, read(alloc, store, place).ok()?);
    }
    Some(folded(digest, lb(alloc, store).ok()?))
}

// ---- what is done to a store in memory

fn crash(store: &mut MemStore, pick: &Pick) {
    store.crash(pick);
}

fn crash_some(alloc: Global, store: &mut MemStore, bits: u32) -> Option<()> {
    let pick = pick(alloc, bits)?;
    crash(store, &pick);
    Some(())
}

fn settle(store: &mut MemStore) {
    store.settle();
}

fn stop_after(store: &mut MemStore, calls: u32) {
    store.stop_after(calls);
}

fn fail_read(store: &mut MemStore, calls: u32) {
    store.fail_read(calls);
}

fn stop(alloc: Global, store: &mut MemStore, name: &str, first: u32) -> Option<Answer> {
    match name {
        "settle" => settle(store),
        "passes" => stop_after(store, first),
        "fails-read" => fail_read(store, first),
        "crash" => crash_some(alloc, store, first)?,
        "all" => crash(store, &Pick::All),
        "none" => crash(store, &Pick::None),
        _ => return None,
    }
    Some(Answer::Says(""))
}

impl Disk {
    pub(crate) fn new(alloc: Global) -> Option<Disk> {
        let mark = unsaved(0)?;
        Some(Disk {
            store: MemStore::new(alloc),
            mark,
        })
    }

    /// Writes the mark with this LB and no saved log.
    fn write_mark(&mut self, alloc: Global, lb: u32) -> Option<Answer> {
        self.mark = unsaved(u64::from(lb))?;
        Some(write_mark(alloc, &mut self.store, &self.mark))
    }

    /// Changes the store: a `put` of a number in a place, an `erase`, the blocks of object 2 that
    /// it `erases` from one on, a `sync`, the LB of a `mark` that it writes; it may `settle`,
    /// `attach`, stop after so many calls that it `passes`, and `crash` with a pick or with `all`
    /// or `none`.
    pub(crate) fn change(
        &mut self,
        alloc: Global,
        name: &str,
        first: u32,
        second: u32,
    ) -> Option<Answer> {
        match name {
            "put" => put(alloc, &mut self.store, first, second),
            "erase" => Some(erase(alloc, &mut self.store, first)),
            "erases" => Some(erase_from(alloc, &mut self.store, first)),
            "sync" => Some(sync(alloc, &mut self.store)),
            "mark" => self.write_mark(alloc, first),
            "attach" => Some(attach(alloc, &mut self.store)),
            _ => stop(alloc, &mut self.store, name, first),
        }
    }

    /// Tells all numbers that the store has, and the LB of its mark.
    pub(crate) fn reads(&mut self, alloc: Global, text: &mut String) -> Option<Answer> {
        for place in 0..PLACES {
            tell(text, read(alloc, &mut self.store, place).ok()?)?;
            told(text.push_str(","))?;
        }
        tell(text, lb(alloc, &mut self.store).ok()?)
    }

    /// What it `reads` of all, of one `cell`, and of the mark's `lb`.
    pub(crate) fn look(
        &mut self,
        alloc: Global,
        name: &str,
        place: u32,
        text: &mut String,
    ) -> Option<Answer> {
        match name {
            "reads" => self.reads(alloc, text),
            "cell" => tell_read(text, read(alloc, &mut self.store, place)),
            "lb" => tell_read(text, lb(alloc, &mut self.store)),
            _ => None,
        }
    }

    /// A random step, and a crash behind about every eighth.
    fn random(&mut self, alloc: Global, numbers: &mut Numbers) -> Option<()> {
        let place = numbers.next() % PLACES;
        let number = numbers.next();
        let (name, first) = match numbers.next() % 16 {
            0..8 => ("put", place),
            8..11 => ("erase", place),
            11 => ("erases", place % 4),
            12 => ("sync", 0),
            13 => ("mark", number),
            _ => ("settle", 0),
        };
        match self.change(alloc, name, first, number)? {
            Answer::Says("") => {}
            _ => return None,
        }
        if numbers.next() % 8 == 0 {
            let bits = numbers.next() % 64;
            crash_some(alloc, &mut self.store, bits)?;
        }
        Some(())
    }

    /// Takes so many random steps, and gives a digest of what is read after each.
    pub(crate) fn steps(
        &mut self,
        alloc: Global,
        numbers: &mut Numbers,
        count: u32,
    ) -> Option<u64> {
        let mut sum = 0;
        for _ in 0..count {
            self.random(alloc, numbers)?;
            sum = digest(alloc, &mut self.store, sum)?;
        }
        Some(sum)
    }
}
