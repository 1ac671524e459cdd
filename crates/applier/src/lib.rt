//! Applying the changes of committed records to a store, and flushing it; and what calls of a store,
//! crashes and boots make of disks whose cells are fuzzy between two points of a history.
//!
//! # What is proved
//!
//! Apply and flush over any store.
//!
//! - `apply_some` makes each change of the records after AP up to the smaller of AP + most and CP,
//!   in their order, by one call each, whatever the cells hold (`done`, `index`); at each moment,
//!   and where it fails, a first part of them is made (`part`, `moments`, `crashes`). A disk that
//!   is fuzzy between LB and m stays so, up to the larger of m and the new AP, at each moment and
//!   after a crash at any (`fuzzy`); at the end AP is the new one, and where that is at least m
//!   each cell is exact (`reached`).
//! - `flush` syncs and then writes the mark with LB = AP (`done`); where it fails, a first part of
//!   the two calls is made (`part`). At each moment the mark is the old one, or all cells are
//!   synced (`moments`), and the disk is fuzzy from its own mark's LB on (`fuzzy`). What reads give
//!   of the cells stays, also where it fails (`cells`).
//! - `flush_laws`: the same moments and cells follow from any first part of the two calls
//!   (`at_once`).
//! - `fuzzy_disk_laws`: laws of a store's disk that is fuzzy (`IsFuzzyDisk`): what reads give of a
//!   cell is of a moment between AP and m, and each value that a crash may leave of it between LB
//!   and m. So the disk stays when records are applied (`applied`) or cut off in their middle
//!   (`cut_off`), when it is synced or marked, while a log is saved beside (`saved`), and after a
//!   crash and a boot (`crashed`). Once all is gone over that it may be ahead, reads give each cell
//!   exactly (`exact`).
#![tactic(auto)]

mod disks;
mod syncs;

ghost use Rattle.std.specs.Prelude.{◌≡◌, ◌≤◌, ◌<◌, ◌^◌, ◌+◌, ◌⊎◌, ℕ, min, length, Option, Some, None, IfOk, OnOk, OnErr, Err};
ghost use Rattle.harp_types.specs.Streams.{Rose};
ghost use Rattle.harp_store.specs.declared.store.StoreFault.TheVariants.{Failed};
ghost use Rattle.harp_store.specs.Disk.{AtEachMoment, Moments, Now, MayHaveMade, after_step, cells_told, changed_by};
ghost use Rattle.fuzzy_cells.specs.History.{AllSetOnce, History};
ghost use Rattle.applier.specs.FuzzyDisk.{AreRecordsOf, IsFuzzyByMark, IsFuzzyDisk};
ghost use Rattle.applier.specs.Fuzzy.{IsFuzzyTo, StaysFuzzy};
ghost use Rattle.applier.specs.Applied.{after_changes, AfterPart, CrashesLeave, IsAfterPart, IsLeftInPart, changes_at, changes_between, lower, flushed, FlushesInPart, IsOldOrSynced};

pub use disks::fuzzy_disk_laws;
use harp_cells::{Change, ChangeLog};
use harp_store::{Mark, Store, StoreFault};
use std::alloc::Global;
pub use syncs::flush_laws;

/// Syncs the store, and then writes the mark with this number as the one up to which all updates
/// are on the disk. At each moment the mark on the disk is the old one, or all cells are synced.
/// Where it fails, a first part of the two calls is made.
pub fn flush<D: Store>(
    alloc: Global,
    store: &mut D,
    mark: &mut Mark,
    ap: u64,
) -> Result<(), StoreFault>
    requires { ap < 2 ^ 62 }
    ensures done { OnOk result (D.told store.new ≡ flushed (lower ap mark.old) (D.told store.old)) }
    ensures mark { OnOk result (mark.new ≡ lower ap mark.old) }
    ensures kept { OnErr result (mark.new ≡ mark.old) }
    ensures part { FlushesInPart (lower ap mark.old) (D.told store.old) (D.told store.new) }
    ensures moments { (h : Moments) → D.told store.old ≡ Some h
        → AtEachMoment (IsOldOrSynced h.now.mark) (D.told store.old) (D.told store.new) }
    ensures fuzzy { (history : History) (m : ℕ) (h : Moments) → D.told store.old ≡ Some h
        → h.now.mark ≡ Some mark.old → IsFuzzyDisk history mark.old.lb ap m h.now
        → AtEachMoment (IsFuzzyByMark history ap m) (D.told store.old) (D.told store.new) }
    ensures cells { cells_told (D.told store.new) ≡ cells_told (D.told store.old) }
    ensures rose { result ≡ Err Failed → Rose (D.faults store.old) (D.faults store.new) }
    ensures count { D.faults store.old ≤ D.faults store.new }
{
    store.sync(alloc)?;
    let lowered = mark.with_lb(ap);
    store.write_mark(alloc, &lowered)?;
    *mark = lowered;
    Ok(())
}

// Makes one change.
fn make_change<D: Store>(alloc: Global, store: &mut D, change: &Change) -> Result<(), StoreFault>
    ensures done { OnOk result (D.told store.new
        ≡ after_step (changed_by change.now) (D.told store.old)) }
    ensures part { OnErr result (MayHaveMade (changed_by change.now) (D.told store.old)
        (D.told store.new)) }
    ensures rose { result ≡ Err Failed → Rose (D.faults store.old) (D.faults store.new) }
    ensures count { D.faults store.old ≤ D.faults store.new }
{
    match change {
        Change::Put { cell, value } => store.put(alloc, *cell, value),
        Change::Erase { cell } => store.erase(alloc, *cell),
        Change::EraseFrom { object, first } => store.erase_from(alloc, *object, *first),
    }
}

// Makes these changes, one after the other.
fn make_changes<D: Store>(
    alloc: Global,
    store: &mut D,
    changes: &[Change],
) -> Result<(), StoreFault>
    ensures done { OnOk result (D.told store.new ≡ after_changes changes.now (D.told store.old)) }
    ensures part { OnErr result (AfterPart changes.now (D.told store.old) (D.told store.new)) }
    ensures rose { result ≡ Err Failed → Rose (D.faults store.old) (D.faults store.new) }
    ensures count { D.faults store.old ≤ D.faults store.new }
{
    for change in changes {
        make_change(alloc, store, change)?;
    }
    Ok(())
}

// Applies one record.
fn apply_record<L: ChangeLog, D: Store>(
    alloc: Global,
    log: &L,
    index: u64,
    store: &mut D,
) -> Result<(), StoreFault>
    requires from { L.base log.now < index }
    requires to { index ≤ L.base log.now + length (L.records log.now) }
    ensures done { OnOk result (D.told store.new
        ≡ after_changes (changes_at (L.base log.now) (L.records log.now) index)
        (D.told store.old)) }
    ensures part { OnErr result (AfterPart (changes_at (L.base log.now)
        (L.records log.now) index) (D.told store.old) (D.told store.new)) }
    ensures rose { result ≡ Err Failed → Rose (D.faults store.old) (D.faults store.new) }
    ensures count { D.faults store.old ≤ D.faults store.new }
{
    make_changes(alloc, store, log.changes(index))
}

// Applies the records after one index up to another. Where it fails, it has made a first part of
// their changes.
fn apply_records<L: ChangeLog, D: Store>(
    alloc: Global,
    log: &L,
    from: u64,
    to: u64,
    store: &mut D,
) -> Result<(), StoreFault>
    requires first { L.base log.now ≤ from }
    requires order { from ≤ to }
    requires last { to ≤ L.base log.now + length (L.records log.now) }
    ensures done { OnOk result (D.told store.new
        ≡ after_changes (changes_between (L.base log.now) (L.records log.now) from to)
        (D.told store.old)) }
    ensures part { AfterPart (changes_between (L.base log.now) (L.records log.now) from to)
        (D.told store.old) (D.told store.new) }
    ensures rose { result ≡ Err Failed → Rose (D.faults store.old) (D.faults store.new) }
    ensures count { D.faults store.old ≤ D.faults store.new }
{
    let mut at = from;
    while at < to {
        apply_record(alloc, log, at + 1, store)?;
        at += 1;
    }
    Ok(())
}

/// Applies at most so many records after the index up to which all are applied, up to the commit
/// point, and gives the index up to which all are applied then. Each change is made whatever the
/// cells hold, in the order of the records. So a disk that is fuzzy stays so at each moment, and
/// after a crash at any.
pub fn apply_some<L: ChangeLog, D: Store>(
    alloc: Global,
    log: &L,
    ap: u64,
    cp: u64,
    most: u32,
    store: &mut D,
) -> Result<u64, StoreFault>
    requires first { L.base log.now ≤ ap }
    requires order { ap ≤ cp }
    requires last { cp ≤ L.base log.now + length (L.records log.now) }
    ensures index { IfOk result (λ n. n ≡ min (ap + most) cp) }
    ensures done { OnOk result (D.told store.new
        ≡ after_changes (changes_between (L.base log.now) (L.records log.now) ap
        (min (ap + most) cp)) (D.told store.old)) }
    ensures part { AfterPart (changes_between (L.base log.now) (L.records log.now) ap
        (min (ap + most) cp)) (D.told store.old) (D.told store.new) }
    ensures moments { (h : Moments) → D.told store.old ≡ Some h
        → AtEachMoment (IsAfterPart (changes_between (L.base log.now) (L.records log.now) ap
        (min (ap + most) cp)) h.now) (D.told store.old) (D.told store.new) }
    ensures crashes { (h : Moments) → D.told store.old ≡ Some h
        → CrashesLeave (IsLeftInPart (changes_between (L.base log.now) (L.records log.now) ap
        (min (ap + most) cp)) h.now) h (D.told store.new) }
    ensures fuzzy { (history : History) (lb m : ℕ) (h : Moments) → D.told store.old ≡ Some h
        → AllSetOnce history → AreRecordsOf history (L.base log.now) (L.records log.now)
        → IsFuzzyDisk history lb ap m h.now
        → StaysFuzzy history lb ap (min (ap + most) cp) m h (D.told store.new) }
    ensures reached { (history : History) (lb m : ℕ) (h : Moments) → D.told store.old ≡ Some h
        → AllSetOnce history → AreRecordsOf history (L.base log.now) (L.records log.now)
        → IsFuzzyDisk history lb ap m h.now
        → OnOk result (Now (IsFuzzyTo history lb (min (ap + most) cp) m) (D.told store.new)) }
    ensures rose { result ≡ Err Failed → Rose (D.faults store.old) (D.faults store.new) }
    ensures count { D.faults store.old ≤ D.faults store.new }
{
    let to = ap.saturating_add(u64::from(most)).min(cp);
    apply_records(alloc, log, ap, to, store)?;
    Ok(to)
}
