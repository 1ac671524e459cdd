//! How a witness takes part in a view, and leaves it.

ghost use Rattle.std.specs.Prelude.{◌≡◌, ◌+◌, ◌<◌, ◌≤◌, IfOk, IfErr};
ghost use Rattle.volatile_log.specs.Log.{adopted_by_empty, next, room};

use volatile_log::{ActiveLog, EmptyLog, FrozenLog, Staged};

/// A witness accepts a view with this base and CP: it has the staged records, and LB and AP at the
/// base. It fails only for want of memory, and then both values come back.
pub fn promote(
    log: EmptyLog,
    staged: Staged,
    base: u64,
    cp: u64,
) -> Result<ActiveLog, (EmptyLog, Staged)>
    requires full { staged.start < next staged }
    requires first { staged.first ≡ base + 1 }
    requires base { base ≤ staged.start }
    requires cp { cp ≤ staged.start }
    requires room { staged.start ≤ base + room }
    ensures ok { IfOk result (λ new. new ≡ adopted_by_empty staged.records base cp) }
    ensures err { IfErr result (λ both. (both.0 ≡ log) × (both.1 ≡ staged)) }
{
    log.adopt(staged, base, cp)
}

/// A witness that is told that the data servers hold a view drops its log.
pub fn demote(log: FrozenLog) -> EmptyLog {
    log.forget()
}
