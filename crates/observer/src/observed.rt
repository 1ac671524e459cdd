//! An observer of a group.

ghost use Rattle.std.specs.Prelude.{◌≡◌, ◌+◌, ◌<◌, ◌≤◌, ◌^◌, List, length, map, take, Option, Some};
ghost use Rattle.std.specs.Prelude.{None, IfOk, IfSome, OnOk, true, false};
ghost use Rattle.std.specs.Option.{option_map};
ghost use Rattle.file_tree.specs.Book.{Entry, tree_after};
ghost use Rattle.file_tree.specs.Calls.{outcome};
ghost use Rattle.harp_types.specs.Update.{is_update};
ghost use Rattle.event_record.specs.Bytes.{superuser};
ghost use Rattle.record_changes.specs.Records.{AreUpdates, history_of};
ghost use Rattle.fuzzy_cells.specs.History.{History, in_a_row};
ghost use Rattle.harp_cells.specs.Memory.{BecomesBy};
ghost use Rattle.shown.specs.declared.shown.Shown.TheVariants as shown;
ghost use Rattle.shown.specs.Truth.{IsLowShown, IsShownOf};
ghost use Rattle.observer.specs.Phases.{has_cells, wanted_in};
ghost use Rattle.observer.specs.Progress.{after_cell, after_records, blind, copied_anew};
ghost use Rattle.observer.specs.Progress.{is_ripe_copy, ripened_with, taken, taken_cell};
ghost use Rattle.observer.specs.Progress.{taken_records, want_of};
ghost use Rattle.observer.specs.Sound.{IsSoundObserver, IsWith};

use crate::progress::{Copied, Progress};
use harp_cells::{Cell, MemCells, Value};
use harp_types::{Call, Reply, SUPERUSER};
use nfs_calls::answer;
use shown::{Shown, Want};
use std::alloc::{AllocError, Global};
use std::marker::Model;
use std::mem;
use wire::Records;

/// A copy of the tree of a group, kept outside of it, and the next one, which is under way.
/// Contracts see how far both are, and their cells. A cell that is taken costs a logarithm of their
/// number, as does each change of a record; nothing walks a copy. After want of memory it may be
/// anything.
#[derive(Drop)]
pub struct Observer {
    progress: Progress,
    finished: MemCells,
    copied: MemCells,
}

impl Model for Observer {
    ghost use Rattle.observer.specs.Progress.{IsLow};
    ghost use Rattle.observer.specs.Sound.{ObserverValue};

    ghost Value = { ObserverValue };

    ghost view = { λ o. record {
      progress = o.progress;
      finished = o.finished;
      copied = o.copied;
    } };

    ghost invariant = { λ o. IsLow o.progress };
}

/// The cell holds what was shown of it.
fn put(cells: &mut MemCells, cell: Cell, value: Option<Value>) -> Result<(), AllocError>
    ensures { OnOk result (IsWith cell value cells.old cells.new) }
{
    match value {
        Some(value) => cells.put(cell, value),
        None => {
            cells.erase(cell);
            Ok(())
        }
    }
}

/// Makes the changes of records, one after the other.
fn apply(alloc: Global, cells: &mut MemCells, records: &Records) -> Result<(), AllocError>
    ensures { OnOk result (BecomesBy (in_a_row (map (λ r. r.changes) records.now))
        cells.old cells.new) }
{
    for record in records.as_slice() {
        cells.apply(alloc, record.fields().changes.as_slice())?;
    }
    Ok(())
}

impl Observer {
    /// An observer that has no copy.
    pub fn new(alloc: Global) -> Observer
        ensures progress { result.progress ≡ blind }
        ensures sound { (history : History) → IsSoundObserver history result }
    {
        Observer {
            progress: Progress {
                finished: None,
                copy: None,
            },
            finished: MemCells::new(alloc),
            copied: MemCells::new(alloc),
        }
    }

    /// Begins a new copy, and drops an unfinished one. A finished one goes on answering.
    pub fn copy(&mut self, alloc: Global)
        ensures progress { self.new.progress ≡ copied_anew self.old.progress }
        ensures sound { (history : History) → IsSoundObserver history self.old
            → IsSoundObserver history self.new }
    {
        self.copied = MemCells::new(alloc);
        self.progress.copy = Some(Copied::new());
    }

    /// What is wanted next, None exactly before the first copy.
    pub fn want(&self) -> Option<Want>
        ensures { result ≡ want_of self.now.progress }
    {
        self.progress.want()
    }

    /// How many updates the finished copy has, None exactly where there is none.
    pub fn top(&self) -> Option<u64>
        ensures { result ≡ self.now.progress.finished }
    {
        self.progress.finished
    }

    /// The new copy is so far now; it replaces the finished one as soon as it is ripe.
    fn go_on(&mut self, alloc: Global, copy: Copied)
        requires { copy.top < 2 ^ 62 }
        ensures progress { self.new.progress ≡ ripened_with self.old.progress.finished copy }
        ensures ripe { is_ripe_copy self.old.progress.finished (Some copy) ≡ true
            → self.new.finished ≡ self.old.copied }
        ensures unripe { is_ripe_copy self.old.progress.finished (Some copy) ≡ false
            → (self.new.finished ≡ self.old.finished) × (self.new.copied ≡ self.old.copied) }
    {
        let progress = Progress {
            finished: self.progress.finished,
            copy: Some(copy),
        };
        if progress.is_ripe() {
            self.progress = Progress {
                finished: Some(copy.top),
                copy: None,
            };
            self.finished = mem::replace(&mut self.copied, MemCells::new(alloc));
        } else {
            self.progress = progress;
        }
    }

    /// What was shown of the cell that is wanted by a copy under way.
    fn take_wanted(
        &mut self,
        alloc: Global,
        copy: Copied,
        cell: Cell,
        value: Option<Value>,
        cp: u64,
    ) -> Result<(), AllocError>
        requires copy { self.now.progress.copy ≡ Some copy }
        requires low { cp < 2 ^ 62 }
        ensures progress { OnOk result (self.new.progress
            ≡ ripened_with self.old.progress.finished (after_cell copy value cp)) }
        ensures sound { (entries : List Entry) → AreUpdates entries
            → wanted_in copy.phase ≡ Some cell
            → IsShownOf (history_of entries) (shown.Cell cell value cp)
            → IsSoundObserver (history_of entries) self.old
            → OnOk result (IsSoundObserver (history_of entries) self.new) }
    {
        let copy = copy.after_cell(&value, cp);
        put(&mut self.copied, cell, value)?;
        self.go_on(alloc, copy);
        Ok(())
    }

    fn take_cell(
        &mut self,
        alloc: Global,
        cell: Cell,
        value: Option<Value>,
        cp: u64,
    ) -> Result<(), AllocError>
        requires { cp < 2 ^ 62 }
        ensures progress { OnOk result (self.new.progress
            ≡ taken_cell self.old.progress.finished self.old.progress.copy cell value cp) }
        ensures sound { (entries : List Entry) → AreUpdates entries
            → IsShownOf (history_of entries) (shown.Cell cell value cp)
            → IsSoundObserver (history_of entries) self.old
            → OnOk result (IsSoundObserver (history_of entries) self.new) }
    {
        let Some(copy) = self.progress.copy else {
            return Ok(());
        };
        if !copy.wants_cell(cell) {
            return Ok(());
        }
        self.take_wanted(alloc, copy, cell, value, cp)
    }

    /// Records that follow on a copy under way.
    fn take_on(&mut self, alloc: Global, copy: Copied, records: &Records) -> Result<(), AllocError>
        requires copy { self.now.progress.copy ≡ Some copy }
        requires low { copy.top + length records.now < 2 ^ 62 }
        ensures progress { OnOk result (self.new.progress
            ≡ ripened_with self.old.progress.finished (after_records copy (length records.now))) }
        ensures sound { (history : History) → has_cells copy.phase ≡ true
            → IsShownOf history (shown.Records (copy.top + 1) records.now)
            → IsSoundObserver history self.old
            → OnOk result (IsSoundObserver history self.new) }
    {
        apply(alloc, &mut self.copied, records)?;
        let count = records.as_slice().len() as u64;
        self.go_on(alloc, copy.after_records(count));
        Ok(())
    }

    /// Records that follow on the finished copy, while no new one is under way.
    fn take_after(&mut self, alloc: Global, top: u64, records: &Records) -> Result<(), AllocError>
        requires finished { self.now.progress ≡ record { finished = Some top; copy = None } }
        requires low { top + length records.now < 2 ^ 62 }
        ensures progress { OnOk result (self.new.progress
            ≡ record { finished = Some (top + length records.now); copy = None }) }
        ensures sound { (history : History)
            → IsShownOf history (shown.Records (top + 1) records.now)
            → IsSoundObserver history self.old
            → OnOk result (IsSoundObserver history self.new) }
    {
        apply(alloc, &mut self.finished, records)?;
        let count = records.as_slice().len() as u64;
        self.progress.finished = Some(top + count);
        Ok(())
    }

    fn take_records(
        &mut self,
        alloc: Global,
        first: u64,
        records: &Records,
    ) -> Result<(), AllocError>
        requires { first + length records.now ≤ 2 ^ 62 }
        ensures progress { OnOk result (self.new.progress ≡ taken_records
            self.old.progress.finished self.old.progress.copy first (length records.now)) }
        ensures sound { (history : History)
            → IsShownOf history (shown.Records first records.now)
            → IsSoundObserver history self.old
            → OnOk result (IsSoundObserver history self.new) }
    {
        match (self.progress.copy, self.progress.finished) {
            (Some(copy), _) => {
                if copy.wants_records(first) {
                    self.take_on(alloc, copy, records)
                } else {
                    Ok(())
                }
            }
            (None, Some(top)) => {
                if first == top + 1 {
                    self.take_after(alloc, top, records)
                } else {
                    Ok(())
                }
            }
            (None, None) => Ok(()),
        }
    }

    /// Takes what was shown: the wanted cell, or records that begin at the wanted index. All else
    /// is ignored.
    pub fn take(&mut self, alloc: Global, shown: Shown) -> Result<(), AllocError>
        requires { IsLowShown shown }
        ensures progress { OnOk result (self.new.progress ≡ taken self.old.progress shown) }
        ensures sound { (entries : List Entry) → AreUpdates entries
            → IsShownOf (history_of entries) shown
            → IsSoundObserver (history_of entries) self.old
            → OnOk result (IsSoundObserver (history_of entries) self.new) }
    {
        match shown {
            Shown::Cell { cell, value, cp } => self.take_cell(alloc, cell, value, cp),
            Shown::Records { first, records } => self.take_records(alloc, first, &records),
            Shown::Gone { .. } => Ok(()),
        }
    }

    /// The reply to a read of the superuser, on the finished copy, and how many updates that has.
    pub fn read(&mut self, alloc: Global, call: &Call) -> Result<Option<(u64, Reply)>, AllocError>
        requires { is_update call.now ≡ false }
        ensures top { IfOk result (λ r. option_map (λ p. p.0) r ≡ self.old.progress.finished) }
        ensures reply { (entries : List Entry) → AreUpdates entries
            → IsSoundObserver (history_of entries) self.old
            → IfOk result (λ r. IfSome r (λ p. p.1
            ≡ (outcome (tree_after (take p.0 entries)) superuser call.now 0).0)) }
        ensures progress { self.new.progress ≡ self.old.progress }
        ensures sound { (history : History) → IsSoundObserver history self.old
            → IsSoundObserver history self.new }
    {
        let Some(top) = self.progress.finished else {
            return Ok(None);
        };
        match answer(alloc, &mut self.finished, SUPERUSER, call) {
            Ok(reply) => Ok(Some((top, reply))),
            Err(_) => Err(AllocError),
        }
    }
}
