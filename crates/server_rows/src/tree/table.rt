//! A tree in cells and the same one as a plain list, and the calls that are made on them.

ghost use Rattle.std.specs.Prelude.{◌≡◌, true, false};
ghost use Rattle.harp_types.specs.Update.{is_update};

use crate::asking::{Asker, ask_of, recorded};
use crate::fault::Fault;
use crate::tree::spelled::{put_answer, put_changes};
use crate::tree::watched::Watched;
use event_record::{Changes, Index, Record, RecordFields, read_item, write_item};
use harp_base::FieldFault;
use harp_cells::{CellFault, MemCells, Moment};
use harp_types::{Bytes, Call, Cred, Reply, is_update};
use nfs_calls::answer;
use plain_tree::PlainTree;
use std::alloc::{AllocError, Global};
use text_writer::put_named;

/// Both trees, what the clock reads, and the index of the next record.
#[derive(Drop)]
pub struct Table {
    pub cells: Watched,
    plain: PlainTree,
    pub now: Moment,
    index: Index,
}

impl Table {
    /// Two trees with the root alone, at time 0.
    pub fn new(alloc: Global) -> Result<Table, AllocError> {
        let plain = PlainTree::new(alloc)?;
        Ok(Table {
            cells: Watched::new(alloc),
            plain,
            now: Moment::new(0),
            index: Index::new(1),
        })
    }

    /// The bytes of an update's record.
    fn spelled(&mut self, alloc: Global, asker: Asker, call: &Call) -> Result<Bytes, Fault>
        requires { is_update call.now ≡ true }
    {
        let made = recorded(alloc, &mut self.cells, self.index, self.now, asker, call)?;
        Ok(bytes_of(alloc, &made)?)
    }

    /// Makes an update. The changes are those of its record, as it is read back from its bytes.
    fn update(
        &mut self,
        alloc: Global,
        out: &mut Vec<u8>,
        asker: Asker,
        call: &Call,
    ) -> Result<Reply, Fault>
        requires { is_update call.now ≡ true }
    {
        let bytes = self.spelled(alloc, asker, call)?;
        self.make(alloc, out, bytes.as_slice())
    }

    /// Reads a record, and makes it.
    fn make(&mut self, alloc: Global, out: &mut Vec<u8>, bytes: &[u8]) -> Result<Reply, Fault> {
        let (record, length) = record_of(alloc, bytes)?;
        self.make_record(alloc, out, record.fields(), length)
    }

    /// Makes the changes of a record that has so many bytes, and gives its reply.
    fn make_record(
        &mut self,
        alloc: Global,
        out: &mut Vec<u8>,
        fields: &RecordFields,
        length: usize,
    ) -> Result<Reply, Fault> {
        put_changes(alloc, out, fields.changes.as_slice())?;
        put_named(out, b"bytes", length as u64)?;
        out.extend_from_slice(b"\n")?;
        change(alloc, &mut self.cells.cells, &fields.changes)?;
        self.count()?;
        Ok(fields.reply.copy(alloc)?)
    }

    /// The next record has the next index.
    fn count(&mut self) -> Result<(), Fault> {
        let Some(index) = Index::of(self.index.get() + 1) else {
            return Err(Fault::Bounds);
        };
        self.index = index;
        Ok(())
    }

    /// The reply to a read over the cells.
    fn read(&mut self, alloc: Global, cred: Cred, call: &Call) -> Result<Reply, CellFault>
        requires { is_update call.now ≡ false }
    {
        answer(alloc, &mut self.cells, cred, call)
    }

    /// The reply over the cells.
    fn reply(
        &mut self,
        alloc: Global,
        out: &mut Vec<u8>,
        asker: Asker,
        call: &Call,
    ) -> Result<Reply, Fault> {
        if is_update(call) {
            return self.update(alloc, out, asker, call);
        }
        Ok(self.read(alloc, asker.cred, call)?)
    }

    /// The reply of the plain tree.
    fn plain_reply(&mut self, alloc: Global, cred: Cred, call: &Call) -> Result<Reply, AllocError> {
        self.plain.apply(alloc, cred, call, self.now.get())
    }

    /// Makes a call: of an update its changes and the bytes of its record, the replies over the
    /// cells and of the plain tree, and how many blocks and slots were fetched.
    fn call(
        &mut self,
        alloc: Global,
        out: &mut Vec<u8>,
        asker: Asker,
        call: &Call,
    ) -> Result<(), Fault> {
        self.cells.fetched = 0;
        let reply = self.reply(alloc, out, asker, call)?;
        put_answer(alloc, out, b"cells", reply)?;
        let reply = self.plain_reply(alloc, asker.cred, call)?;
        put_answer(alloc, out, b"plain", reply)?;
        put_named(out, b"fetched", u64::from(self.cells.fetched))?;
        Ok(out.extend_from_slice(b"\n")?)
    }

    /// Makes the call of an ask.
    pub fn ask(&mut self, alloc: Global, out: &mut Vec<u8>, line: &[u8]) -> Result<(), Fault> {
        let (asker, call) = ask_of(alloc, line)?;
        self.call(alloc, out, asker, &call)
    }
}

/// The bytes of a record.
fn bytes_of(alloc: Global, made: &Record) -> Result<Bytes, AllocError> {
    let mut bytes = Bytes::new(alloc);
    write_item(alloc, made, &mut bytes)?;
    Ok(bytes)
}

/// The record that these bytes begin with, and how many they are.
fn record_of(alloc: Global, bytes: &[u8]) -> Result<(Record, usize), FieldFault> {
    read_item(alloc, bytes)
}

/// Makes equal changes.
fn change(alloc: Global, cells: &mut MemCells, changes: &Changes) -> Result<(), AllocError> {
    let copy = changes.copy(alloc)?;
    cells.apply(alloc, copy.as_slice())
}
