//! The verdict on a store.

ghost use Rattle.std.specs.Prelude.{◌≡◌, ◌≤◌, List, Err, IfOk, Some};
ghost use Rattle.file_tree.specs.Book.{Entry};
ghost use Rattle.harp_cells.specs.Effect.{Cells};
ghost use Rattle.harp_store.specs.Disk.{Moments, reads};
ghost use Rattle.harp_types.specs.Streams.{Rose};
ghost use Rattle.overlay.specs.Index.{IsIndexOf};
ghost use Rattle.volatile_log.specs.Log.{LogValue};
ghost use Rattle.audit_verdict.specs.Audited.{changes_of, committed_over, fault_of};
ghost use Rattle.audit_verdict.specs.Left.{IsLeftByPower, TellsTree};
ghost use Rattle.audit_verdict.specs.Verdicts.{IsVerdictOf, IsVerdictOn};

use crate::judging::judge;
use crate::verdict::Verdict;
use cell_cache::{Cached, CellCache};
use harp_cells::{CellFault, CellRead, ChangeLog};
use harp_store::{Mark, Store, StoreFault};
use harp_types::Role;
use overlay::{At, CellIndex};
use power_save::{SaveFault, SeenRecords, load};
use std::alloc::{AllocError, Global};
use std::thread::Threads;
use volatile_log::FrozenLog;

/// How many cells are kept in memory that were read last.
const PLACES: u32 = 4096;

/// What a fault of a cell is to a store.
fn fault_of(fault: CellFault) -> StoreFault
    ensures { result ≡ fault_of fault }
{
    match fault {
        CellFault::StoreFailed => StoreFault::Failed,
        CellFault::NoMemory => StoreFault::NoMemory,
    }
}

/// An index over the records of a log.
fn index_of(alloc: Global, log: &FrozenLog) -> Result<CellIndex, AllocError>
    ensures { IfOk result (λ index. IsIndexOf index log.now.base (changes_of log.now)) }
{
    let mut index = CellIndex::new(alloc);
    let mut at = log.base();
    while at < log.top() {
        index.add(at + 1, log.changes(at + 1))?;
        at += 1;
    }
    Ok(index)
}

/// The verdict on the cells after the committed records of a log, over other cells.
fn judge_over<R: Threads + Sync, U: CellRead>(
    rt: &R,
    alloc: Global,
    log: &FrozenLog,
    under: &mut U,
) -> Result<Verdict, CellFault>
    ensures verdict { (held : Cells) → U.cells under.old ≡ Some held
        → IfOk result (IsVerdictOn log.now.cp (committed_over log.now held)) }
    ensures left { U.left under.new ≡ U.left under.old }
    ensures rose { result ≡ Err CellFault.StoreFailed
        → Rose (U.faults under.old) (U.faults under.new) }
    ensures count { U.faults under.old ≤ U.faults under.new }
{
    let index = index_of(alloc, log)?;
    let mut cells = At::new(under, &index, log, log.cp());
    judge(rt, alloc, log.cp(), &mut cells)
}

/// The verdict on the cells of a store as they are.
fn audit_bare<R: Threads + Sync, D: Store>(
    rt: &R,
    alloc: Global,
    store: &mut D,
) -> Result<Verdict, StoreFault>
    ensures verdict { (h : Moments) → D.told store.old ≡ Some h
        → IfOk result (IsVerdictOn 0 (reads h.now)) }
    ensures kept { D.told store.new ≡ D.told store.old }
    ensures rose { result ≡ Err StoreFault.Failed → Rose (D.faults store.old) (D.faults store.new) }
    ensures count { D.faults store.old ≤ D.faults store.new }
{
    let mut cache = CellCache::new(alloc, PLACES)?;
    let mut cells = Cached::new(alloc, store, &mut cache);
    match judge(rt, alloc, 0, &mut cells) {
        Ok(verdict) => Ok(verdict),
        Err(fault) => Err(fault_of(fault)),
    }
}

/// The verdict on the cells of a store after the committed records of its saved log.
fn audit_logged<R: Threads + Sync, D: Store>(
    rt: &R,
    alloc: Global,
    log: &FrozenLog,
    store: &mut D,
) -> Result<Verdict, StoreFault>
    ensures verdict { (h : Moments) → D.told store.old ≡ Some h
        → IfOk result (IsVerdictOn log.now.cp (committed_over log.now (reads h.now))) }
    ensures kept { D.told store.new ≡ D.told store.old }
    ensures rose { result ≡ Err StoreFault.Failed → Rose (D.faults store.old) (D.faults store.new) }
    ensures count { D.faults store.old ≤ D.faults store.new }
{
    let mut cache = CellCache::new(alloc, PLACES)?;
    let mut cells = Cached::new(alloc, store, &mut cache);
    match judge_over(rt, alloc, log, &mut cells) {
        Ok(verdict) => Ok(verdict),
        Err(fault) => Err(fault_of(fault)),
    }
}

/// The verdict on a store with this mark.
fn audit_marked<R: Threads + Sync, D: Store>(
    rt: &R,
    alloc: Global,
    mark: &Mark,
    store: &mut D,
) -> Result<Verdict, StoreFault>
    ensures verdict { (h : Moments) → D.told store.old ≡ Some h → h.now.mark ≡ Some mark.now
        → IfOk result (IsVerdictOf h.now) }
    ensures tree { (list : List Entry) (log : LogValue) (h : Moments)
        → D.told store.old ≡ Some h → h.now.mark ≡ Some mark.now
        → IsLeftByPower list log h → IfOk result (TellsTree list log) }
    ensures kept { D.told store.new ≡ D.told store.old }
    ensures rose { result ≡ Err StoreFault.Failed → Rose (D.faults store.old) (D.faults store.new) }
    ensures count { D.faults store.old ≤ D.faults store.new }
{
    if mark.role() == Role::Outside {
        return Ok(Verdict::Unsaved);
    }
    let mut seen = SeenRecords::new(alloc);
    match load::<D>(alloc, mark, store, &mut seen) {
        Ok(log) => audit_logged(rt, alloc, &log, store),
        Err(SaveFault::NotSaved) => Ok(Verdict::Unsaved),
        Err(SaveFault::StoreFailed) => Err(StoreFault::Failed),
        Err(SaveFault::NoMemory) => Err(StoreFault::NoMemory),
    }
}

/// The verdict on a store: on its cells as they are where it has no mark, and else on those after
/// the committed records of its saved log. It changes nothing.
pub fn audit_store<R: Threads + Sync, D: Store>(
    rt: &R,
    alloc: Global,
    store: &mut D,
) -> Result<Verdict, StoreFault>
    ensures verdict { (h : Moments) → D.told store.old ≡ Some h
        → IfOk result (IsVerdictOf h.now) }
    // Where a whole power failure left the disk of a data server, the tree after the committed
    // updates is listed.
    ensures tree { (list : List Entry) (log : LogValue) (h : Moments)
        → D.told store.old ≡ Some h → IsLeftByPower list log h
        → IfOk result (TellsTree list log) }
    ensures kept { D.told store.new ≡ D.told store.old }
    ensures rose { result ≡ Err StoreFault.Failed → Rose (D.faults store.old) (D.faults store.new) }
    ensures count { D.faults store.old ≤ D.faults store.new }
{
    match store.read_mark(alloc)? {
        None => audit_bare(rt, alloc, store),
        Some(mark) => audit_marked(rt, alloc, &mark, store),
    }
}
