//! The values that all crates speak of: servers and views, the calls and replies of NFS version 2,
//! times and limits, and the places where bytes come from and go to.
//!
//! # What is proved
//!
//! Each limit is one constant in the code (`limits`) and one in the definitions (`Limits`).
//!
//! - `Source::read` and `Sink::write`: what is taken and given, byte by byte where they tell it; a
//!   fault takes nothing and comes only where the count of faults rose. `MemSource` and `MemSink`
//!   fail exactly at the calls that they were told.
//! - `Procedure` is a served procedure of RFC 1094, section 2.2: `of` a call, its `number` and its
//!   `name` are those of the definitions, and `numbered` and `named` give the procedure that has
//!   the number or the name, where one does.
//! - `copy` gives an equal value. `is_update`, `changes_entries`, `time_of`, `is` and `keeps` equal
//!   their definitions.
#![tactic(auto)]

mod attr;
mod book;
mod bytes;
mod call;
mod cause;
mod cred;
mod limits;
mod memory;
mod peer;
mod pick;
mod procedure;
mod reply;
mod server;
mod standard;
mod state;
mod streams;
mod trio;
mod update;

pub use attr::{Attr, Kind, SetAttr, Time};
pub use book::BookEntry;
pub use bytes::{Bounded, Bytes};
pub use call::Call;
pub use cause::Cause;
pub use cred::{Cred, SUPERUSER};
pub use limits::{
    BLOCK_SIZE, CLOCK_SKEW, FIELD_LEFT, FIRST_PROMISE, LARGEST_FILE, LAST_CLIENT, LOG_ROOM,
    LONGEST_ARGUMENT, LONGEST_LINE, LONGEST_NAME, LONGEST_PATH, LONGEST_TRANSFER, MOST_LINES,
    OBJECT_NUMBERS, SLOT_SIZE, TREE_BLOCKS,
};
pub use memory::{FailingCalls, MemSink, MemSource};
pub use peer::Peer;
pub use pick::{Bits, Pick};
pub use procedure::{PROCEDURES, Procedure};
pub use reply::{DirEntry, Entries, Reply, Status};
pub use server::{ServerId, ViewNo};
pub use standard::{ReaderSource, WriterSink};
pub use state::{Held, Mode, Role, StateLine};
pub use streams::{Failed, Sink, SinkFault, Source, write_all};
pub use trio::Trio;
pub use update::{changes_entries, is_update, time_of};
