//! Records and logs.

ghost use Rattle.std.specs.Prelude.{◌≡◌, IfSome};

use event_record::{Changes, Index, Moment, Record, RecordFields};
use harp_cells::Change;
use harp_types::{Bounded, Call, Cred, Reply, ServerId, ViewNo};
use std::alloc::{AllocError, Global};
use volatile_log::{ActiveLog, FrozenLog};

/// A write of eight bytes.
fn write(alloc: Global) -> Option<Call> {
    let nines = vec![in alloc; 9; 8].ok()?;
    Some(Call::Write {
        handle: 2,
        offset: 0,
        bytes: Bounded::of(nines)?,
    })
}

/// An update with this index and these changes, of client 7 as the user 5: a write of eight bytes.
pub(crate) fn record(alloc: Global, index: Index, changes: Vec<Change>) -> Option<Record>
    ensures { IfSome result (λ r. r.index ≡ index) }
{
    let stamped = ViewNo::of(1, ServerId::Zero)?;
    let changes = Changes::of(changes)?;
    let call = write(alloc)?;
    let fields = RecordFields {
        stamped,
        index,
        client: 7,
        number: 1,
        cred: Cred { uid: 5, gid: 6 },
        call,
        stamp: Moment::new(2050),
        reply: Reply::Done,
        changes,
    };
    Record::of(alloc, fields).ok()?
}

fn append_next(alloc: Global, log: &mut ActiveLog) -> Option<()> {
    let index = log.top() + 1;
    if index >= 1 << 62 {
        return None;
    }
    let item = record(alloc, Index::new(index), Vec::new(alloc))?;
    log.append(item).ok()
}

/// A log with the records 2 to 5, the first one dropped: on the disk up to 2, applied up to 3, and
/// committed up to 4.
pub(crate) fn four(alloc: Global) -> Option<FrozenLog> {
    let mut log = ActiveLog::start(alloc).ok()?;
    for _ in 0..5 {
        append_next(alloc, &mut log)?;
    }
    if log.cp() != 0 || log.top() != 5 {
        return None;
    }
    log.commit_to(4);
    log.applied_to(3);
    log.lower_to(2);
    log.drop_to(1);
    Some(log.freeze())
}

/// Appends the bytes of an update of client 7 with this index, a remove of "a" in the root at 2050,
/// by the user 5 of the group 6 where it has a credential.
fn spell(bytes: &mut Vec<u8>, index: u32, cred: bool) -> Result<(), AllocError> {
    bytes.extend_from_slice(&[0, 0, 0, 0, 0, 0, 0, 1, 0, 0, 0, 0, 0])?;
    bytes.extend_from_slice(&index.to_be_bytes())?;
    bytes.extend_from_slice(&[0, 0, 0, 7, 0, 0, 0, 0, 0, 0, 0, 1])?;
    if cred {
        bytes.extend_from_slice(&[0, 0, 0, 5, 0, 0, 0, 6])?;
    }
    bytes.extend_from_slice(&[10, 0, 0, 0, 1, 0, 1, 0x61])?;
    bytes.extend_from_slice(&[0, 0, 0, 0, 0, 0, 8, 2, 1, 0, 0])
}

/// The bytes of such an update.
pub(crate) fn spelled(alloc: Global, index: u32, cred: bool) -> Option<Vec<u8>> {
    let mut bytes = Vec::new(alloc);
    spell(&mut bytes, index, cred).ok()?;
    Some(bytes)
}
