//! The values of cells.

ghost use Rattle.std.specs.Prelude.{◌≡◌, IfOk};

use crate::bounds::{Moment, NonEmpty, OtherKind};
use harp_types::{BLOCK_SIZE, Kind, LONGEST_NAME, Reply, Time};
use std::alloc::{AllocError, Global};

// The most bytes of a block.
const BLOCK_BYTES: usize = BLOCK_SIZE as usize;

/// The most bytes of a record.
pub const LONGEST_RECORD: usize = 60_008;

/// The most bytes of a record of the old form, which has no credential.
pub const LONGEST_OLD_RECORD: usize = 60_000;

/// The attributes of an object. The mode has 12 bits, the parent is 0 of what is no directory, the
/// size is in bytes, and the slots are those of a directory, free ones too.
#[derive(Clone, Copy, PartialEq, Eq)]
pub struct Inode {
    pub kind: Kind,
    pub mode: u16,
    pub uid: u32,
    pub gid: u32,
    pub links: u32,
    pub parent: u32,
    pub size: u32,
    pub slots: u32,
    pub atime: Time,
    pub mtime: Time,
    pub ctime: Time,
}

/// The attributes of an object whose kind is none of the three. No call makes such an object.
#[derive(Clone, Copy, PartialEq, Eq)]
pub struct UnformedInode {
    pub kind: OtherKind,
    pub mode: u16,
    pub uid: u32,
    pub gid: u32,
    pub links: u32,
    pub parent: u32,
    pub size: u32,
    pub slots: u32,
    pub atime: Time,
    pub mtime: Time,
    pub ctime: Time,
}

/// The value of a cell.
#[derive(Drop)]
pub enum Value {
    /// The next object's number, the used blocks of 4096 bytes, and the stamp of the last update.
    Meta {
        next: u32,
        used: u32,
        stamp: Moment,
    },
    /// An object's attributes.
    Object {
        inode: Inode,
    },
    /// Attributes that are those of no object.
    Unformed {
        inode: UnformedInode,
    },
    /// Bytes of a block. Those missing at its end are zeros.
    Block {
        bytes: NonEmpty<BLOCK_BYTES>,
    },
    /// An entry of a directory: the object that it names, and its name.
    Slot {
        object: u32,
        name: NonEmpty<LONGEST_NAME>,
    },
    /// A client's last update: the number that the client gave it, its place among the updates, and
    /// its reply.
    Client {
        number: u64,
        index: u64,
        reply: Reply,
    },
    /// The bytes of a record of the old form, which has no credential.
    Saved {
        bytes: NonEmpty<LONGEST_OLD_RECORD>,
    },
    /// The bytes of a record.
    SavedCred {
        bytes: NonEmpty<LONGEST_RECORD>,
    },
}

impl Value {
    /// An equal value.
    pub fn copy(&self, alloc: Global) -> Result<Value, AllocError>
        ensures { IfOk result (λ copy. copy ≡ self.now) }
    {
        match self {
            Value::Meta { next, used, stamp } => Ok(Value::Meta {
                next: *next,
                used: *used,
                stamp: *stamp,
            }),
            Value::Object { inode } => Ok(Value::Object { inode: *inode }),
            Value::Unformed { inode } => Ok(Value::Unformed { inode: *inode }),
            Value::Block { bytes } => Ok(Value::Block {
                bytes: bytes.copy(alloc)?,
            }),
            Value::Slot { object, name } => Ok(Value::Slot {
                object: *object,
                name: name.copy(alloc)?,
            }),
            Value::Client {
                number,
                index,
                reply,
            } => Ok(Value::Client {
                number: *number,
                index: *index,
                reply: reply.copy(alloc)?,
            }),
            Value::Saved { bytes } => Ok(Value::Saved {
                bytes: bytes.copy(alloc)?,
            }),
            Value::SavedCred { bytes } => Ok(Value::SavedCred {
                bytes: bytes.copy(alloc)?,
            }),
        }
    }
}
