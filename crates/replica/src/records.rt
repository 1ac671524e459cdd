//! Records as entries and as messages.

ghost use Rattle.std.specs.Prelude.{◌≡◌, ◌+◌, ◌-◌, ◌<◌, ◌≤◌, ◌∷◌, [], drop, Some, IfOk};
ghost use Rattle.event_record.specs.Record.{entry_of};
ghost use Rattle.group_rules.specs.Names.{number_of_view};
ghost use Rattle.group_rules.specs.State.{Event};
ghost use Rattle.node_outputs.specs.Messages.{heard};
ghost use Rattle.node_outputs.specs.Records.{carried};
ghost use Rattle.node_outputs.specs.Said.{entered};
ghost use Rattle.replica.specs.Leading.{entries};
ghost use Rattle.volatile_log.specs.Log.{top};

use event_record::Record;
use harp_types::{BookEntry, ViewNo};
use std::alloc::{AllocError, Global};
use volatile_log::ActiveLog;
use wire::Message;

/// The record with the index n + 1.
pub(crate) fn record_after(log: &ActiveLog, n: u64) -> &Record
    requires from { log.now.base ≤ n }
    requires within { n < top log.now }
    ensures next { drop (n - log.now.base) (entries log.now)
        ≡ entry_of result.now ∷ drop (n + 1 - log.now.base) (entries log.now) }
    ensures there { drop (n - log.now.base) log.now.records
        ≡ result.now ∷ drop (n + 1 - log.now.base) log.now.records }
    ensures index { result.now.index ≡ n + 1 }
{
    let _ = log.top();
    match log.item(n + 1) {
        Some(item) => item,
        None => unreachable!(),
    }
}

/// The entry of the book for a record.
pub(crate) fn entry_copy(alloc: Global, item: &Record) -> Result<BookEntry, AllocError>
    ensures { IfOk result (λ entry. entered entry ≡ entry_of item.now) }
{
    let fields = item.fields();
    Ok(BookEntry {
        index: fields.index.get(),
        client: fields.client,
        number: fields.number,
        cred: fields.cred,
        stamp: fields.stamp.get(),
        call: fields.call.copy(alloc)?,
        reply: fields.reply.copy(alloc)?,
    })
}

/// The Event of a record in this view, with this CP and base.
pub(crate) fn event_of(view: ViewNo, cp: u64, base: u64, item: Record) -> Message
    ensures heard { heard result
        ≡ Some (Event (number_of_view view) item.index cp base (entry_of item)) }
    ensures record { carried result ≡ item ∷ [] }
{
    let record = item;
    Message::Event {
        view,
        cp,
        base,
        record,
    }
}
