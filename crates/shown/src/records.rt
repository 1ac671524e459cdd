//! The committed records of a log, from an index on.

ghost use Rattle.std.specs.Prelude.{◌≡◌, ◌==◌, ◌||◌, ◌<◌, ◌≤◌, ◌^◌, length, nat_le, nat_lt, option_map, IfOk, IfSome, None, Some, if◌then◌else◌};
ghost use Rattle.fuzzy_cells.specs.History.{History};
ghost use Rattle.idle_log.specs.Kept.{log_in};
ghost use Rattle.shown.specs.Truth.{IsLowShown, IsShownOf};
ghost use Rattle.shown.specs.declared.shown.Shown.TheVariants as shown;
ghost use Rattle.shown.specs.Records.{AreCommittedOf, records_from, records_kept as kept_records};

use crate::shown::Shown;
use event_record::Record;
use idle_log::Kept;
use std::alloc::{AllocError, Global};
use volatile_log::{ActiveLog, FrozenLog};
use wire::Records;

/// The records that a server shows which is active in no view.
pub fn records_kept(alloc: Global, kept: &Kept, first: u64) -> Result<Option<Shown>, AllocError>
    ensures shown { IfOk result (λ o. o ≡ kept_records kept.now first) }
    ensures truly { (history : History) → AreCommittedOf history (log_in kept.now)
        → IfOk result (λ o. IfSome o (IsShownOf history)) }
    ensures low { IfOk result (λ o. IfSome o IsLowShown) }
{
    match kept {
        Kept::Held(log) => records_frozen(alloc, log, first),
        Kept::Lost(_) => Ok(None),
        Kept::Empty(_) => Ok(None),
    }
}

/// The records that a log shows which is only read.
fn records_frozen(alloc: Global, log: &FrozenLog, first: u64) -> Result<Option<Shown>, AllocError>
    ensures shown { IfOk result (λ o. o ≡ records_from log.now first) }
    ensures truly { (history : History) → AreCommittedOf history log.now
        → IfOk result (λ o. IfSome o (IsShownOf history)) }
    ensures low { IfOk result (λ o. IfSome o IsLowShown) }
{
    let _ = log.top();
    let found = witness::serve(alloc, log, first, log.cp())?;
    Ok(shown_of(log.base(), log.cp(), first, found))
}

/// The records that a server shows which is active in a view.
pub fn records_active(
    alloc: Global,
    log: &ActiveLog,
    first: u64,
) -> Result<Option<Shown>, AllocError>
    ensures shown { IfOk result (λ o. o ≡ records_from log.now first) }
    ensures truly { (history : History) → AreCommittedOf history log.now
        → IfOk result (λ o. IfSome o (IsShownOf history)) }
    ensures low { IfOk result (λ o. IfSome o IsLowShown) }
{
    let _ = log.top();
    let found = witness::serve_active(alloc, log, first, log.cp())?;
    Ok(shown_of(log.base(), log.cp(), first, found))
}

/// What is shown of found records, if any, of a log with this base and CP.
fn shown_of(base: u64, cp: u64, first: u64, found: Option<Vec<Record>>) -> Option<Shown>
    requires { IfSome found (λ v. (1 ≤ length v.items) × (length v.items < 2 ^ 16)) }
    ensures { result ≡ (if first == 0 || nat_lt cp first then None
        else (if nat_le first base then Some (shown.Gone base)
        else option_map (λ v. shown.Records first v.items) found)) }
{
    if first == 0 || cp < first {
        return None;
    }
    if first <= base {
        return Some(Shown::Gone { base });
    }
    match found {
        None => None,
        Some(items) => Some(Shown::Records {
            first,
            records: Records::new(items),
        }),
    }
}
