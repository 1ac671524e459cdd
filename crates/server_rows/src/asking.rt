//! Asks and clocks, as rows tell them, and the records of updates.

ghost use Rattle.std.specs.Prelude.{◌≡◌, ◌≤◌, length, true};
ghost use Rattle.harp_types.specs.Update.{is_update};

use crate::fault::Fault;
use event_record::{Index, Record};
use harp_cells::{CellFault, CellRead, Moment};
use harp_types::{Call, Cred, ServerId, ViewNo};
use schedule_text::{TextFault, asked_at, asker_at, end_at, spaced_count_at, spaced_server_at};
use std::alloc::Global;
use tree_log::new_record;

/// Who asks: the client, the number that it gives its call, and for whom.
#[derive(Clone, Copy)]
pub(crate) struct Asker {
    client: u32,
    number: u64,
    pub(crate) cred: Cred,
}

/// What the clock is set to.
fn reading_of(line: &[u8]) -> Result<u64, TextFault> {
    let (_, at) = spaced_server_at(line, 5)?;
    let (reading, at) = spaced_count_at(line, at)?;
    end_at(line, at)?;
    Ok(reading)
}

/// The moment that a row sets the clock to.
pub(crate) fn moment_of(line: &[u8]) -> Result<Moment, Fault> {
    match Moment::of(reading_of(line)?) {
        Some(now) => Ok(now),
        None => Err(Fault::Bounds),
    }
}

/// The call that ends a row, and for whom it is made.
pub(crate) fn asked(alloc: Global, line: &[u8], at: usize) -> Result<(Cred, Call), TextFault>
    requires { at ≤ length line.now }
{
    let (asked, at) = asked_at(alloc, line, at)?;
    match end_at(line, at) {
        Ok(()) => Ok(asked),
        Err(fault) => Err(fault),
    }
}

/// Who asks by a row, and the call.
pub(crate) fn ask_of(alloc: Global, line: &[u8]) -> Result<(Asker, Call), TextFault> {
    let (((_, client), number), at) = asker_at(line, 3)?;
    let (cred, call) = asked(alloc, line, at)?;
    let asker = Asker {
        client,
        number,
        cred,
    };
    Ok((asker, call))
}

/// The record of an update over these cells.
pub(crate) fn recorded<R: CellRead>(
    alloc: Global,
    cells: &mut R,
    index: Index,
    now: Moment,
    asker: Asker,
    call: &Call,
) -> Result<Record, CellFault>
    requires { is_update call.now ≡ true }
{
    let Asker {
        client,
        number,
        cred,
    } = asker;
    let view = ViewNo::new(3, ServerId::Zero);
    new_record(alloc, cells, view, index, client, number, cred, call, now)
}
