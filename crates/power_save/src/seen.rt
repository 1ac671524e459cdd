//! Records that were read before.

ghost use Rattle.std.specs.Prelude.{◌≡◌, [], true, IfOk, IfSome};
ghost use Rattle.event_record.specs.Bytes.{RecordFits, record_bytes};

use event_record::Record;
use std::alloc::{AllocError, Global};

// How many records are kept in mind.
const PLACES: usize = 64;

/// Whether bytes are the same. All are compared, without a way out in between: so many can be at
/// once.
fn are_same(some: &[u8], others: &[u8]) -> bool
    ensures { result ≡ true → some.now ≡ others.now }
{
    if some.len() != others.len() {
        return false;
    }
    let mut same = true;
    for place in 0..some.len() {
        if some[place] != others[place] {
            same = false;
        }
    }
    same
}

/// An equal record, where it keeps its bytes and these are they.
fn where_same(alloc: Global, record: &Record, bytes: &[u8]) -> Result<Option<Record>, AllocError>
    ensures { IfOk result (λ found. IfSome found
        (λ r. (bytes.now ≡ record_bytes r) × RecordFits r)) }
{
    let Some(own) = record.bytes() else {
        return Ok(None);
    };
    if are_same(own, bytes) {
        Ok(Some(record.copy(alloc)?))
    } else {
        Ok(None)
    }
}

/// Records that were read, which keep their bytes. Where the bytes of one come again, it is shared
/// and not read anew. No result depends on what is kept in mind.
#[derive(Drop)]
pub struct SeenRecords {
    places: Vec<Option<Record>>,
}

impl SeenRecords {
    /// No record is kept in mind.
    pub fn new(alloc: Global) -> SeenRecords
        ensures { result.places.items ≡ [] }
    {
        SeenRecords {
            places: Vec::new(alloc),
        }
    }

    /// The record of an index that has these bytes, where it is kept in mind.
    pub(crate) fn record_of(
        &self,
        alloc: Global,
        index: u64,
        bytes: &[u8],
    ) -> Result<Option<Record>, AllocError>
        ensures { IfOk result (λ found. IfSome found
            (λ r. (bytes.now ≡ record_bytes r) × RecordFits r)) }
    {
        match self.places.get(place_of(index)) {
            Some(Some(record)) => where_same(alloc, record, bytes),
            Some(None) => Ok(None),
            None => Ok(None),
        }
    }

    fn make_places(&mut self) -> Result<(), AllocError> {
        for _ in self.places.len()..PLACES {
            self.places.push(None)?;
        }
        Ok(())
    }

    /// Keeps a record in mind. It keeps its bytes, or is of no use.
    pub(crate) fn note(&mut self, record: Record) -> Result<(), AllocError> {
        self.make_places()?;
        let place = place_of(record.index().get());
        if place < self.places.len() {
            self.places[place] = Some(record);
        }
        Ok(())
    }
}

/// The place of an index.
fn place_of(index: u64) -> usize {
    (index % PLACES as u64) as usize
}
