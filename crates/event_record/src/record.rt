//! Event records.

ghost use Rattle.std.specs.Prelude.{◌≡◌, ◌≤◌, ◌↔◌, length, IfOk, IfSome, IsSome, OnOk};
ghost use Rattle.event_record.specs.Bytes.{FieldsFit, RecordFits, record_bytes};
ghost use Rattle.harp_cells.specs.ValueBytes.{longest_record};

use crate::changes::Changes;
use crate::numbers::Index;
use crate::writing::{USUAL_RECORD, put_fields};
use harp_cells::{LONGEST_RECORD, Moment};
use harp_types::{Call, Cred, Reply, ViewNo};
use std::alloc::{AllocError, Global};
use std::marker::Model;
use std::rc::Rc;

/// What an event record holds: an update in the log, with the reply that its client gets once the
/// record is committed (Harp paper).
#[derive(Drop)]
pub struct RecordFields {
    /// The view in which the record was appended.
    pub stamped: ViewNo,
    /// The place in the log, from 1 to 2^62 - 1.
    pub index: Index,
    /// The number of the client.
    pub client: u32,
    /// The client's own number of the call.
    pub number: u64,
    /// Who made the call.
    pub cred: Cred,
    pub call: Call,
    /// The time of the update in milliseconds, below 2^62 + 2000.
    pub stamp: Moment,
    pub reply: Reply,
    /// What the update makes of the cells of the tree and of its clients.
    pub changes: Changes,
}

impl RecordFields {
    /// Equal fields.
    pub fn copy(&self, alloc: Global) -> Result<RecordFields, AllocError>
        ensures { IfOk result (λ copy. copy ≡ self.now) }
    {
        Ok(RecordFields {
            stamped: self.stamped,
            index: self.index,
            client: self.client,
            number: self.number,
            cred: self.cred,
            call: self.call.copy(alloc)?,
            stamp: self.stamp,
            reply: self.reply.copy(alloc)?,
            changes: self.changes.copy(alloc)?,
        })
    }
}

/// An event record: fields whose bytes are at most 60,008. Copies share them, and the bytes where
/// the record keeps those too. Contracts see it as its fields.
#[derive(Drop)]
pub struct Record {
    fields: Rc<RecordFields>,
    bytes: Option<Rc<Vec<u8>>>,
}

impl Model for Record {
    ghost use Rattle.std.specs.Prelude.{◌≡◌, length, ◌≤◌, IfSome};
    ghost use Rattle.event_record.specs.declared.record.RecordFields.{RecordFields};
    ghost use Rattle.event_record.specs.Bytes.{RecordFits, record_bytes};
    ghost use Rattle.harp_cells.specs.ValueBytes.{longest_record};

    ghost Value = { RecordFields };

    ghost view = { λ r. r.fields.value };

    ghost invariant = { λ r. (length (record_bytes r.fields.value) ≤ longest_record)
        × IfSome r.bytes (λ bytes. (bytes.value.items ≡ record_bytes r.fields.value)
        × RecordFits r.fields.value) };
}

impl Record {
    /// The record of fields, where their bytes are at most 60,008. The fields aren't copied; their
    /// bytes are written to be counted.
    pub fn of(alloc: Global, fields: RecordFields) -> Result<Option<Record>, AllocError>
        ensures found { IfOk result
            (λ found. IsSome found ↔ (length (record_bytes fields) ≤ longest_record)) }
        ensures value { IfOk result (λ found. IfSome found (λ r. r ≡ fields)) }
        ensures fits { OnOk result (FieldsFit fields) }
    {
        let mut bytes = Vec::with_capacity(alloc, USUAL_RECORD)?;
        put_fields(&mut bytes, &fields)?;
        if bytes.len() <= LONGEST_RECORD {
            Ok(Some(Record {
                fields: Rc::new(alloc, fields)?,
                bytes: None,
            }))
        } else {
            Ok(None)
        }
    }

    /// The record of fields whose bytes are known to be at most 60,008. They aren't copied.
    pub fn new(fields: Rc<RecordFields>) -> Record
        requires { length (record_bytes fields.value) ≤ longest_record }
        ensures { result ≡ fields.value }
    {
        Record {
            fields,
            bytes: None,
        }
    }

    /// An equal record, which keeps its bytes: these.
    pub fn with_bytes(&self, bytes: Rc<Vec<u8>>) -> Result<Record, AllocError>
        requires bytes { bytes.value.items ≡ record_bytes self.now }
        requires fits { RecordFits self.now }
        ensures { IfOk result (λ copy. copy ≡ self.now) }
    {
        Ok(Record {
            fields: self.fields.clone()?,
            bytes: Some(bytes),
        })
    }

    /// Its bytes, where it keeps them.
    pub fn bytes(&self) -> Option<&[u8]>
        ensures { IfSome result (λ bytes. (bytes.now ≡ record_bytes self.now)
            × RecordFits self.now) }
    {
        match &self.bytes {
            Some(bytes) => Some(bytes.as_slice()),
            None => None,
        }
    }

    /// The fields.
    pub fn fields(&self) -> &RecordFields
        ensures value { result.now ≡ self.now }
        ensures bound { length (record_bytes self.now) ≤ longest_record }
    {
        &self.fields
    }

    /// The place in the log.
    pub fn index(&self) -> Index
        ensures { result ≡ self.now.index }
    {
        self.fields.index
    }

    /// An equal record, which shares the fields, and the bytes that are kept.
    pub fn copy(&self, _alloc: Global) -> Result<Record, AllocError>
        ensures { IfOk result (λ copy. copy ≡ self.now) }
    {
        Ok(Record {
            fields: self.fields.clone()?,
            bytes: self.shared_bytes()?,
        })
    }

    /// The bytes that it keeps, shared.
    fn shared_bytes(&self) -> Result<Option<Rc<Vec<u8>>>, AllocError>
        ensures { IfOk result (λ found. IfSome found (λ bytes.
            (bytes.value.items ≡ record_bytes self.now) × RecordFits self.now)) }
    {
        match &self.bytes {
            Some(bytes) => Ok(Some(bytes.clone()?)),
            None => Ok(None),
        }
    }
}
