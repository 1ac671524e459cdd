//! The records that a fetch is given.

ghost use Rattle.std.specs.Prelude.{◌≡◌, ◌<◌, ◌≤◌, ◌^◌, length, option_map, IfOk, IfSome};
ghost use Rattle.file_tree.specs.Book.{Entry};
ghost use Rattle.group_rules.specs.State.{Server};
ghost use Rattle.idle_log.specs.Gives.{FoundIn, GivesFound};
ghost use Rattle.idle_log.specs.Kept.{log_in, with_kept};
ghost use Rattle.idle_log.specs.LogLaws.{with_log};

use crate::kept::Kept;
use event_record::Record;
use std::alloc::{AllocError, Global};
use volatile_log::ActiveLog;
use wire::Records;

impl Kept {
    /// The records from `first` on that a server gives, up to `last`: its top where it only joined
    /// the view, and its view's start where it accepted it. They are as many as take at most 48,000
    /// bytes as they are spelled, and at least one; None where the first one isn't held.
    pub fn serve(&self, alloc: Global, first: u64, last: u64) -> Result<Option<Records>, AllocError>
        ensures given { IfOk result (λ found. (s : Server Entry)
            → GivesFound (with_kept s self.now) (log_in self.now) first last found) }
        ensures own { IfOk result (FoundIn (log_in self.now)) }
    {
        match self {
            Kept::Held(log) => {
                let _ = log.top();
                Ok(as_records(witness::serve(alloc, log, first, last)?))
            }
            Kept::Lost(_) => Ok(None),
            Kept::Empty(_) => Ok(None),
        }
    }
}

/// The same of a server that is active: up to its view's start.
pub fn serve_active(
    alloc: Global,
    log: &ActiveLog,
    first: u64,
    last: u64,
) -> Result<Option<Records>, AllocError>
    ensures given { IfOk result (λ found. (s : Server Entry)
        → GivesFound (with_log s log.now) log.now first last found) }
    ensures own { IfOk result (FoundIn log.now) }
{
    let _ = log.top();
    Ok(as_records(witness::serve_active(alloc, log, first, last)?))
}

/// Found records, as a Give has them.
fn as_records(found: Option<Vec<Record>>) -> Option<Records>
    requires { IfSome found (λ v. (1 ≤ length v.items) × (length v.items < 2 ^ 16)) }
    ensures { result ≡ option_map (λ v. v.items) found }
{
    match found {
        Some(items) => Some(Records::new(items)),
        None => None,
    }
}
