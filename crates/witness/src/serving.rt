//! Records for a server that pulls.

ghost use Rattle.std.specs.Prelude.{◌≡◌, ℕ, ◌+◌, ◌<◌, ◌≤◌, ◌^◌, ◌↔◌, IfOk, IsSome, Some, option_map, min};
ghost use Rattle.std.specs.Option.{option_copied};
ghost use Rattle.volatile_log.specs.Log.{LogValue, record_at, top};
ghost use Rattle.witness.specs.Serving.{asked_for, given, one_or_more, record_size};

use event_record::Record;
use event_record::fields::record_size;
use std::alloc::{AllocError, Global};
use volatile_log::{ActiveLog, FrozenLog};

/// A log whose records are read.
trait Holds {
    // The numbers and the records.
    ghost log: { Self → LogValue };

    /// The record of an index.
    fn held(&self, index: u64) -> Option<&Record>
        ensures found { IsSome result ↔ (((log self.now).base < index) × (index ≤ top
            (log self.now))) }
        ensures value { option_copied result ≡ record_at (log self.now) index };

    /// The index before the first record.
    fn before(&self) -> u64
        ensures { result ≡ (log self.now).base };

    /// The index of the last record.
    fn last(&self) -> u64
        ensures value { result ≡ top (log self.now) }
        ensures bound { result < 2 ^ 62 };
}

impl Holds for FrozenLog {
    ghost log = { λ l. l };

    fn held(&self, index: u64) -> Option<&Record> {
        self.item(index)
    }

    fn before(&self) -> u64 {
        self.base()
    }

    fn last(&self) -> u64 {
        self.top()
    }
}

impl Holds for ActiveLog {
    ghost log = { λ l. l };

    fn held(&self, index: u64) -> Option<&Record> {
        self.item(index)
    }

    fn before(&self) -> u64 {
        self.base()
    }

    fn last(&self) -> u64 {
        self.top()
    }
}

/// The most bytes of records that are given at once.
const MOST: usize = 48_000;

/// The records from `first` on that a server gives which joined a view, or accepted it, up to
/// `start`: as many as their spellings take at most 48,000 bytes, and at least one. None exactly
/// where the log doesn't hold the first one, or where it comes after `start`.
pub fn serve(
    alloc: Global,
    log: &FrozenLog,
    first: u64,
    start: u64,
) -> Result<Option<Vec<Record>>, AllocError>
    ensures { IfOk result (λ found.
        option_map (λ v. v.items) found ≡ given record_size log.now first start) }
{
    collect(alloc, log, first, start)
}

/// The same of a server that is active.
pub fn serve_active(
    alloc: Global,
    log: &ActiveLog,
    first: u64,
    start: u64,
) -> Result<Option<Vec<Record>>, AllocError>
    ensures { IfOk result (λ found.
        option_map (λ v. v.items) found ≡ given record_size log.now first start) }
{
    collect(alloc, log, first, start)
}

/// The records from `first` on, up to `start`.
fn collect<L: Holds>(
    alloc: Global,
    log: &L,
    first: u64,
    start: u64,
) -> Result<Option<Vec<Record>>, AllocError>
    ensures { IfOk result (λ found.
        option_map (λ v. v.items) found ≡ given record_size (L.log log.now) first start) }
{
    let last = start.min(log.last());
    if first <= log.before() || last < first {
        return Ok(None);
    }
    match log.held(first) {
        None => unreachable!(),
        Some(item) => Ok(Some(beginning(alloc, log, item, first, last)?)),
    }
}

/// The record of an index that is held, and those after it. The bytes of the records are counted,
/// and not spelled.
fn beginning<L: Holds>(
    alloc: Global,
    log: &L,
    item: &Record,
    first: u64,
    last: u64,
) -> Result<Vec<Record>, AllocError>
    requires first { record_at (L.log log.now) first ≡ Some item.now }
    requires within { ((L.log log.now).base < first) × (first ≤ last) }
    requires last { (last ≤ top (L.log log.now)) × (last < 2 ^ 62) }
    ensures { IfOk result (λ v.
        v.items ≡ one_or_more record_size (asked_for (L.log log.now) first last)) }
{
    let mut given = Vec::new(alloc);
    given.push(item.copy(alloc)?)?;
    let mut used = record_size(item);
    for index in first + 1..last + 1 {
        match log.held(index) {
            None => unreachable!(),
            Some(item) => {
                used += record_size(item);
                if used > MOST {
                    return Ok(given);
                }
                given.push(item.copy(alloc)?)?;
            }
        }
    }
    Ok(given)
}
