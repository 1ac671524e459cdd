//! The words of a log over a store: its cells through an index, what applies it, and caches.

ghost use Rattle.std.specs.Prelude.{◌≡◌, ◌≤◌};
ghost use Rattle.volatile_log.specs.Log.{top};

use crate::disks::cells::{Numbers, PLACES, cell, folded, number, value};
use crate::disks::disk::Disk;
use crate::disks::indexed::Indexed;
use crate::disks::words::{Answer, passed, tell, told};
use applier::{apply_some, flush};
use cell_cache::{Cached, CellCache};
use harp_cells::{CellRead, Change};
use harp_store::{Mark, Store, StoreFault};
use overlay::At;
use std::alloc::Global;
use std::mem;
use volatile_log::ActiveLog;

/// A log with its index, and the changes of its next record.
#[derive(Drop)]
pub(crate) struct Overlay {
    all: Indexed,
    changes: Vec<Change>,
}

impl Numbers {
    fn change(&mut self, alloc: Global) -> Option<Change> {
        let place = self.next() % PLACES;
        let number = self.next();
        match self.next() % 8 {
            0..5 => Change::put(alloc, cell(place), value(number)).ok(),
            5..7 => Some(Change::Erase { cell: cell(place) }),
            _ => Some(Change::EraseFrom {
                object: 2 + number % 2,
                first: place % 4,
            }),
        }
    }
}

/// What the index gives of a place up to a record, over other cells.
fn indexed_over<U: CellRead>(
    under: &mut U,
    all: &Indexed,
    upto: u64,
    place: u32,
) -> Option<Option<u32>>
    requires from { all.now.log.base ≤ upto }
    requires to { upto ≤ top all.now.log }
    ensures left { U.left under.new ≡ U.left under.old }
{
    let mut at = At::new(under, &all.index, &all.log, upto);
    at.fetch(cell(place)).ok()?;
    Some(number(at.value()))
}

/// What the index gives of a place up to a record, over a store behind a cache.
fn indexed_at<D: Store>(
    alloc: Global,
    all: &Indexed,
    store: &mut D,
    upto: u64,
    place: u32,
) -> Option<Option<u32>> {
    if upto < all.log.base() || upto > all.log.top() {
        return None;
    }
    let mut cache = CellCache::new(alloc, 2).ok()?;
    let mut cells = Cached::new(alloc, store, &mut cache);
    indexed_over(&mut cells, all, upto, place)
}

/// A digest with each place up to a record.
fn digest_at<D: Store>(
    alloc: Global,
    all: &Indexed,
    store: &mut D,
    upto: u64,
    before: u64,
) -> Option<u64> {
    let mut digest = before;
    for place in 0..PLACES {
        digest = folded(digest, indexed_at(alloc, all, store, upto, place)?);
    }
    Some(digest)
}

/// A digest with each place up to each record.
fn digest_all<D: Store>(alloc: Global, all: &Indexed, store: &mut D, before: u64) -> Option<u64> {
    let mut digest = before;
    for upto in all.log.base()..=all.log.top() {
        digest = digest_at(alloc, all, store, upto, digest)?;
    }
    Some(digest)
}

/// Tells what fetches of these places give, up to the first that fails.
fn fetched_by<U: CellRead>(cells: &mut U, places: [u32; 7], text: &mut String) -> Option<Answer>
    ensures left { U.left cells.new ≡ U.left cells.old }
{
    for place in places {
        if cells.fetch(cell(place)).is_err() {
            return told(text.push_str("failed"));
        }
        tell(text, number(cells.value()))?;
        told(text.push_str(","))?;
    }
    Some(Answer::Told)
}

/// Tells what a cache with two places fetches of these places, up to the first that fails.
fn fetched<D: Store>(
    alloc: Global,
    store: &mut D,
    places: [u32; 7],
    text: &mut String,
) -> Option<Answer> {
    let mut cache = CellCache::new(alloc, 2).ok()?;
    let mut cells = Cached::new(alloc, store, &mut cache);
    fetched_by(&mut cells, places, text)
}

/// Lowers a mark's LB, behind a sync.
fn flushed<D: Store>(alloc: Global, store: &mut D, mark: &mut Mark, lb: u32) -> Answer {
    passed(flush(alloc, store, mark, u64::from(lb)))
}

/// Applies some records of a log behind an index, up to another.
fn applied<D: Store>(
    alloc: Global,
    log: &ActiveLog,
    from: u64,
    to: u64,
    most: u32,
    store: &mut D,
) -> Option<Result<u64, StoreFault>> {
    if from < log.base() || to < from || to > log.top() {
        return None;
    }
    Some(apply_some(alloc, log, from, to, most, store))
}

impl Overlay {
    /// No record.
    pub(crate) fn new(alloc: Global) -> Option<Overlay> {
        Some(Overlay {
            all: Indexed::new(alloc)?,
            changes: Vec::new(alloc),
        })
    }

    fn append(&mut self, alloc: Global) -> Option<()> {
        let all = mem::replace(&mut self.all, Indexed::new(alloc)?);
        let changes = mem::replace(&mut self.changes, Vec::new(alloc));
        self.all = all.append(alloc, changes)?;
        Some(())
    }

    fn drop_to(&mut self, alloc: Global, n: u64) -> Option<()> {
        let all = mem::replace(&mut self.all, Indexed::new(alloc)?);
        self.all = all.drop_to(n)?;
        Some(())
    }

    /// One record more of one to four changes, or about once in eight times some of them fewer.
    fn random(&mut self, alloc: Global, numbers: &mut Numbers) -> Option<()> {
        if numbers.next() % 8 > 0 {
            for _ in 0..numbers.next() % 4 + 1 {
                self.changes.push(numbers.change(alloc)?).ok()?;
            }
            return self.append(alloc);
        }
        let (base, top) = (self.all.log.base(), self.all.log.top());
        self.drop_to(
            alloc,
            base.wrapping_add(u64::from(numbers.next()) % (top - base + 1)),
        )
    }

    /// Takes so many random steps, and gives a digest of what all cells are behind each.
    pub(crate) fn walks(
        &mut self,
        alloc: Global,
        numbers: &mut Numbers,
        disk: &mut Disk,
        count: u32,
    ) -> Option<u64> {
        let mut digest = 0;
        for _ in 0..count {
            self.random(alloc, numbers)?;
            digest = digest_all(alloc, &self.all, &mut disk.store, digest)?;
        }
        Some(digest)
    }

    /// A record's changes that are `new-put`, `new-erase` and `new-erases`, and its `append`; what
    /// is `at` a place up to a record; what it applies, `some` records behind an index up to
    /// another; a `flush` of an LB; and what a cache `fetches`.
    pub(crate) fn step(
        &mut self,
        alloc: Global,
        disk: &mut Disk,
        name: &str,
        numbers: [u32; 7],
        text: &mut String,
    ) -> Option<Answer> {
        let [first, second, third, ..] = numbers;
        match name {
            "new-put" => self.put(alloc, first, second),
            "new-erases" => self.erase_from(first, second),
            "append" => {
                self.append(alloc)?;
                Some(Answer::Says(""))
            }
            "at" => {
                let upto = u64::from(first);
                tell(
                    text,
                    indexed_at(alloc, &self.all, &mut disk.store, upto, second)?,
                )
            }
            "some" => self.apply(alloc, disk, [first, second, third], text),
            "flush" => Some(flushed(alloc, &mut disk.store, &mut disk.mark, first)),
            "fetches" => fetched(alloc, &mut disk.store, numbers, text),
            _ => None,
        }
    }

    fn put(&mut self, alloc: Global, place: u32, number: u32) -> Option<Answer> {
        let put = Change::put(alloc, cell(place), value(number)).ok()?;
        self.changes.push(put).ok()?;
        Some(Answer::Says(""))
    }

    fn erase_from(&mut self, object: u32, first: u32) -> Option<Answer> {
        self.changes.push(Change::EraseFrom { object, first }).ok()?;
        Some(Answer::Says(""))
    }

    fn apply(
        &mut self,
        alloc: Global,
        disk: &mut Disk,
        numbers: [u32; 3],
        text: &mut String,
    ) -> Option<Answer> {
        let [from, to, most] = numbers;
        let (from, to) = (u64::from(from), u64::from(to));
        match applied(alloc, &self.all.log, from, to, most, &mut disk.store)? {
            Ok(index) => told(write!(text, "{index}")),
            Err(StoreFault::Failed) => Some(Answer::Says("failed")),
            Err(StoreFault::NoMemory) => None,
        }
    }
}
