//! The replies to a client.

ghost use Rattle.std.specs.Prelude.{◌≡◌, ◌<◌, ◌^◌, IfOk, IfSome, IsSome, ◌↔◌, length};

use crate::attr::Attr;
use crate::bytes::Bounded;
use crate::limits::{LONGEST_NAME, LONGEST_PATH, LONGEST_TRANSFER};
use std::alloc::{AllocError, Global};
use std::marker::Model;

/// Why a call was refused (`stat`, RFC 1094, section 2.3.1).
#[derive(Clone, Copy, PartialEq, Eq)]
pub enum Status {
    /// The caller doesn't own it.
    Perm,
    /// There is no such entry.
    NoEnt,
    /// A hard error.
    Io,
    /// There is no such device.
    NxIo,
    /// Permission is denied, or the name can't be one.
    Acces,
    /// There is such an entry already.
    Exist,
    /// It is no directory.
    NotDir,
    /// It is a directory.
    IsDir,
    /// The file would be too large.
    FBig,
    /// No space is left.
    NoSpc,
    /// The name is too long.
    NameTooLong,
    /// The directory has entries.
    NotEmpty,
    /// The handle names no object.
    Stale,
}

impl Status {
    ghost use Rattle.harp_types.specs.Numbered.{value_with_number};
    ghost use Rattle.harp_types.specs.Statuses.{status_number, statuses};

    /// The status of a number, where it is one of the thirteen.
    pub fn of(number: u8) -> Option<Status>
        ensures { result ≡ value_with_number status_number statuses number }
    {
        match number {
            1 => Some(Status::Perm),
            2 => Some(Status::NoEnt),
            5 => Some(Status::Io),
            6 => Some(Status::NxIo),
            13 => Some(Status::Acces),
            17 => Some(Status::Exist),
            20 => Some(Status::NotDir),
            21 => Some(Status::IsDir),
            27 => Some(Status::FBig),
            28 => Some(Status::NoSpc),
            63 => Some(Status::NameTooLong),
            66 => Some(Status::NotEmpty),
            70 => Some(Status::Stale),
            _ => None,
        }
    }

    /// The number of the status in RFC 1094.
    pub fn number(self) -> u8
        ensures { result ≡ status_number self }
    {
        match self {
            Status::Perm => 1,
            Status::NoEnt => 2,
            Status::Io => 5,
            Status::NxIo => 6,
            Status::Acces => 13,
            Status::Exist => 17,
            Status::NotDir => 20,
            Status::IsDir => 21,
            Status::FBig => 27,
            Status::NoSpc => 28,
            Status::NameTooLong => 63,
            Status::NotEmpty => 66,
            Status::Stale => 70,
        }
    }
}

/// An entry of a directory's page: the object's number, the entry's name, and the cookie from which
/// the next page goes on (RFC 1094, section 2.2.17).
#[derive(Drop)]
pub struct DirEntry {
    pub fileid: u32,
    pub name: Bounded<LONGEST_NAME>,
    pub cookie: u32,
}

impl DirEntry {
    /// An equal entry.
    pub fn copy(&self, alloc: Global) -> Result<DirEntry, AllocError>
        ensures { IfOk result (λ copy. copy ≡ self.now) }
    {
        Ok(DirEntry {
            fileid: self.fileid,
            name: self.name.copy(alloc)?,
            cookie: self.cookie,
        })
    }
}

/// The entries of one page, fewer than 2^16.
#[derive(Drop)]
pub struct Entries {
    items: Vec<DirEntry>,
}

impl Model for Entries {
    ghost use Rattle.std.specs.Prelude.{List, length, ◌<◌, ◌^◌};
    ghost use Rattle.harp_types.specs.declared.reply.DirEntry.{DirEntry};

    ghost Value = { List DirEntry };

    ghost view = { λ e. e.items.items };

    ghost invariant = { λ e. length e.items.items < 2 ^ 16 };
}

impl Entries {
    /// The entries of a vector that is known to have fewer than 2^16. It isn't copied.
    pub fn new(items: Vec<DirEntry>) -> Entries
        requires { length items.items < 2 ^ 16 }
        ensures { result ≡ items.items }
    {
        Entries { items }
    }

    /// The entries of a vector, where there are fewer than 2^16. It isn't copied.
    pub fn of(items: Vec<DirEntry>) -> Option<Entries>
        ensures found { IsSome result ↔ (length items.items < 2 ^ 16) }
        ensures value { IfSome result (λ e. e ≡ items.items) }
    {
        if items.len() < 65536 {
            Some(Entries { items })
        } else {
            None
        }
    }

    /// The entries as a slice.
    pub fn as_slice(&self) -> &[DirEntry]
        ensures value { result.now ≡ self.now }
        ensures bound { length self.now < 2 ^ 16 }
    {
        self.items.as_slice()
    }

    /// Equal entries.
    pub fn copy(&self, alloc: Global) -> Result<Entries, AllocError>
        ensures { IfOk result (λ copy. copy ≡ self.now) }
    {
        let mut items = Vec::new(alloc);
        for entry in self.items.as_slice() {
            items.push(entry.copy(alloc)?)?;
        }
        Ok(Entries { items })
    }
}

/// A reply (RFC 1094, section 2.2).
#[derive(Drop)]
pub enum Reply {
    /// The call was refused.
    Refused {
        status: Status,
    },
    /// The call was done, and there is nothing to tell.
    Done,
    /// The attributes of the object.
    Attr {
        attr: Attr,
    },
    /// The number and the attributes of the object that was found or made.
    Node {
        handle: u32,
        attr: Attr,
    },
    /// The text of a symbolic link.
    Path {
        text: Bounded<LONGEST_PATH>,
    },
    /// The attributes of a file, and the bytes read.
    Bytes {
        attr: Attr,
        bytes: Bounded<LONGEST_TRANSFER>,
    },
    /// Entries of a directory, and whether no entry is left after them.
    Page {
        entries: Entries,
        eof: bool,
    },
    /// The most bytes of one transfer, the bytes of a block, and the numbers of all blocks, of free
    /// ones and of those that a caller may use.
    Space {
        transfer: u32,
        block: u32,
        blocks: u32,
        free: u32,
        available: u32,
    },
}

impl Reply {
    /// An equal reply.
    pub fn copy(&self, alloc: Global) -> Result<Reply, AllocError>
        ensures { IfOk result (λ copy. copy ≡ self.now) }
    {
        match self {
            Reply::Refused { status } => Ok(Reply::Refused { status: *status }),
            Reply::Done => Ok(Reply::Done),
            Reply::Attr { attr } => Ok(Reply::Attr { attr: *attr }),
            Reply::Node { handle, attr } => Ok(Reply::Node {
                handle: *handle,
                attr: *attr,
            }),
            Reply::Path { text } => Ok(Reply::Path {
                text: text.copy(alloc)?,
            }),
            Reply::Bytes { attr, bytes } => Ok(Reply::Bytes {
                attr: *attr,
                bytes: bytes.copy(alloc)?,
            }),
            Reply::Page { entries, eof } => Ok(Reply::Page {
                entries: entries.copy(alloc)?,
                eof: *eof,
            }),
            Reply::Space {
                transfer,
                block,
                blocks,
                free,
                available,
            } => Ok(Reply::Space {
                transfer: *transfer,
                block: *block,
                blocks: *blocks,
                free: *free,
                available: *available,
            }),
        }
    }
}
