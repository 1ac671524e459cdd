//! The records of a Give, at a server that pulls.

ghost use Rattle.std.specs.Prelude.{◌≡◌, ◌+◌, ◌≤◌, ◌++◌, ◌==◌, length, map, nat_le, true, if◌then◌else◌, IfOk, OnOk};
ghost use Rattle.event_record.specs.Record.{entry_of};
ghost use Rattle.group_rules.specs.Misfits.{follow};
ghost use Rattle.volatile_log.specs.Log.{next};

use crate::form::Form;
use event_record::Record;
use std::alloc::AllocError;
use std::collections::VecDeque;
use volatile_log::Staged;
use wire::Records;

/// Whether the records of a Give follow each other, from this index on.
pub fn follow(first: u64, records: &[Record]) -> bool
    ensures { result ≡ follow first (map entry_of records.now) }
{
    let mut next = first;
    for item in records {
        if item.index().get() != next {
            return false;
        }
        next += 1;
    }
    true
}

/// Whether the records of a Give, from this index on, are within the start of the view that they
/// are pulled for.
pub fn is_within(form: &Form, first: u64, records: &Records) -> bool
    ensures { result ≡ nat_le (first + length records.now) (form.now.start + 1) }
{
    let count = records.as_slice().len() as u64;
    first <= form.start && count - 1 <= form.start - first
}

/// Takes the records of a Give, from this index on, which follow each other and are within the
/// start. True exactly where it begins with the record that is wanted next; another one is ignored.
/// For want of memory the list has some of them.
pub fn give(staged: &mut Staged, first: u64, records: Records) -> Result<bool, AllocError>
    requires follow { follow first (map entry_of records) ≡ true }
    requires within { first + length records ≤ staged.old.start + 1 }
    ensures taken { IfOk result (λ taken. taken ≡ (first == next staged.old)) }
    ensures staged { IfOk result (λ taken. staged.new ≡ (if taken
        then record staged.old { records = staged.old.records ++ records } else staged.old)) }
{
    if first != staged.next() {
        return Ok(false);
    }
    stage(staged, records)?;
    Ok(true)
}

/// Stages records that begin with the one that is wanted next.
fn stage(staged: &mut Staged, records: Records) -> Result<(), AllocError>
    requires follow { follow (next staged.old) (map entry_of records) ≡ true }
    requires within { next staged.old + length records ≤ staged.old.start + 1 }
    ensures { OnOk result
        (staged.new ≡ record staged.old { records = staged.old.records ++ records }) }
{
    let mut given = VecDeque::from_vec(records.into_vec());
    while let Some(item) = given.pop_front() {
        match staged.take(item) {
            Ok(()) => {}
            Err(_) => return Err(AllocError),
        }
    }
    Ok(())
}
