//! A call in the book.

ghost use Rattle.std.specs.Prelude.{◌≡◌, IfOk};

use crate::call::Call;
use crate::cred::Cred;
use crate::reply::Reply;
use std::alloc::{AllocError, Global};

/// A call that stands in the book, with its reply. A read has the index 0 and the stamp 0.
#[derive(Drop)]
pub struct BookEntry {
    /// The place among the updates, from 1.
    pub index: u64,
    pub client: u32,
    /// The client's own number of the call.
    pub number: u64,
    /// Who made the call.
    pub cred: Cred,
    /// Milliseconds of the clock at which the update was appended.
    pub stamp: u64,
    pub call: Call,
    pub reply: Reply,
}

impl BookEntry {
    /// An equal entry.
    pub fn copy(&self, alloc: Global) -> Result<BookEntry, AllocError>
        ensures { IfOk result (λ copy. copy ≡ self.now) }
    {
        Ok(BookEntry {
            index: self.index,
            client: self.client,
            number: self.number,
            cred: self.cred,
            stamp: self.stamp,
            call: self.call.copy(alloc)?,
            reply: self.reply.copy(alloc)?,
        })
    }
}
