//! Records in a deque.

ghost use Rattle.std.specs.Prelude.{◌≡◌, ◌≤◌, length, drop, OnOk};
ghost use Rattle.std.specs.VecDeque.{deque_capacity};
ghost use Rattle.volatile_log.specs.Log.{room};

use event_record::Record;
use harp_types::LOG_ROOM;
use std::alloc::AllocError;
use std::collections::VecDeque;

/// Drops the first n records.
pub(crate) fn drop_front(records: &mut VecDeque<Record>, n: usize)
    ensures rest { records.new.items ≡ drop n records.old.items }
    ensures capacity { deque_capacity records.new ≡ deque_capacity records.old }
{
    for _ in 0..n {
        records.pop_front();
    }
}

/// Takes the memory for all records that a log has room for.
pub(crate) fn take_room(records: &mut VecDeque<Record>) -> Result<(), AllocError>
    requires { length records.old.items ≤ room }
    ensures same { records.new.items ≡ records.old.items }
    ensures room { OnOk result (room ≤ deque_capacity records.new) }
{
    records.reserve(LOG_ROOM - records.len())
}
