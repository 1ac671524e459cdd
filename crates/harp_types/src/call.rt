//! The calls of a client.

ghost use Rattle.std.specs.Prelude.{◌≡◌, IfOk, true, false};
ghost use Rattle.harp_types.specs.Update.{changes_entries, is_update};

use crate::attr::SetAttr;
use crate::bytes::Bounded;
use crate::limits::{LONGEST_ARGUMENT, LONGEST_TRANSFER};
use crate::update::{changes_entries, is_update};
use std::alloc::{AllocError, Global};

/// A call of NFS version 2 (RFC 1094, section 2.2). Handles and directories are object numbers, and
/// offsets and counts are in bytes. A name has at most 4096 bytes here; a shorter limit is the
/// server's to refuse.
#[derive(Drop)]
pub enum Call {
    /// Does nothing (section 2.2.1).
    Null,
    /// Gets attributes (section 2.2.2).
    GetAttr {
        handle: u32,
    },
    /// Sets attributes (section 2.2.3).
    SetAttr {
        handle: u32,
        attr: SetAttr,
    },
    /// Finds a name in a directory (section 2.2.5).
    Lookup {
        dir: u32,
        name: Bounded<LONGEST_ARGUMENT>,
    },
    /// Gets the text of a symbolic link (section 2.2.6).
    ReadLink {
        handle: u32,
    },
    /// Reads from a file (section 2.2.7).
    Read {
        handle: u32,
        offset: u32,
        count: u32,
    },
    /// Writes to a file (section 2.2.9).
    Write {
        handle: u32,
        offset: u32,
        bytes: Bounded<LONGEST_TRANSFER>,
    },
    /// Makes a file (section 2.2.10).
    Create {
        dir: u32,
        name: Bounded<LONGEST_ARGUMENT>,
        attr: SetAttr,
    },
    /// Removes an entry that is no directory (section 2.2.11).
    Remove {
        dir: u32,
        name: Bounded<LONGEST_ARGUMENT>,
    },
    /// Moves an entry (section 2.2.12).
    Rename {
        dir: u32,
        name: Bounded<LONGEST_ARGUMENT>,
        to_dir: u32,
        to_name: Bounded<LONGEST_ARGUMENT>,
    },
    /// Makes another entry for an object (section 2.2.13).
    Link {
        handle: u32,
        dir: u32,
        name: Bounded<LONGEST_ARGUMENT>,
    },
    /// Makes a symbolic link (section 2.2.14).
    SymLink {
        dir: u32,
        name: Bounded<LONGEST_ARGUMENT>,
        text: Bounded<LONGEST_ARGUMENT>,
        attr: SetAttr,
    },
    /// Makes a directory (section 2.2.15).
    MkDir {
        dir: u32,
        name: Bounded<LONGEST_ARGUMENT>,
        attr: SetAttr,
    },
    /// Removes an empty directory (section 2.2.16).
    RmDir {
        dir: u32,
        name: Bounded<LONGEST_ARGUMENT>,
    },
    /// Lists entries from a cookie on (section 2.2.17).
    ReadDir {
        dir: u32,
        cookie: u32,
        count: u32,
    },
    /// Gets the space of the file system (section 2.2.18).
    StatFs {
        handle: u32,
    },
}

impl Call {
    /// An equal call.
    pub fn copy(&self, alloc: Global) -> Result<Call, AllocError>
        ensures { IfOk result (λ copy. copy ≡ self.now) }
    {
        if !is_update(self) {
            self.copy_read(alloc)
        } else if changes_entries(self) {
            self.copy_of_entries(alloc)
        } else {
            self.copy_of_content(alloc)
        }
    }

    /// An equal read.
    fn copy_read(&self, alloc: Global) -> Result<Call, AllocError>
        requires { is_update self.now ≡ false }
        ensures { IfOk result (λ copy. copy ≡ self.now) }
    {
        match self {
            Call::Null => Ok(Call::Null),
            Call::GetAttr { handle } => Ok(Call::GetAttr { handle: *handle }),
            Call::Lookup { dir, name } => Ok(Call::Lookup {
                dir: *dir,
                name: name.copy(alloc)?,
            }),
            Call::ReadLink { handle } => Ok(Call::ReadLink { handle: *handle }),
            Call::Read {
                handle,
                offset,
                count,
            } => Ok(Call::Read {
                handle: *handle,
                offset: *offset,
                count: *count,
            }),
            Call::ReadDir { dir, cookie, count } => Ok(Call::ReadDir {
                dir: *dir,
                cookie: *cookie,
                count: *count,
            }),
            Call::StatFs { handle } => Ok(Call::StatFs { handle: *handle }),
            _ => unreachable!(),
        }
    }

    /// An equal update, one that changes entries alone.
    fn copy_of_entries(&self, alloc: Global) -> Result<Call, AllocError>
        requires { changes_entries self.now ≡ true }
        ensures { IfOk result (λ copy. copy ≡ self.now) }
    {
        match self {
            Call::Remove { dir, name } => Ok(Call::Remove {
                dir: *dir,
                name: name.copy(alloc)?,
            }),
            Call::Rename {
                dir,
                name,
                to_dir,
                to_name,
            } => Ok(Call::Rename {
                dir: *dir,
                name: name.copy(alloc)?,
                to_dir: *to_dir,
                to_name: to_name.copy(alloc)?,
            }),
            Call::Link { handle, dir, name } => Ok(Call::Link {
                handle: *handle,
                dir: *dir,
                name: name.copy(alloc)?,
            }),
            Call::RmDir { dir, name } => Ok(Call::RmDir {
                dir: *dir,
                name: name.copy(alloc)?,
            }),
            _ => unreachable!(),
        }
    }

    /// An equal update, one that sets attributes or bytes.
    fn copy_of_content(&self, alloc: Global) -> Result<Call, AllocError>
        requires update { is_update self.now ≡ true }
        requires content { changes_entries self.now ≡ false }
        ensures { IfOk result (λ copy. copy ≡ self.now) }
    {
        match self {
            Call::SetAttr { handle, attr } => Ok(Call::SetAttr {
                handle: *handle,
                attr: *attr,
            }),
            Call::Write {
                handle,
                offset,
                bytes,
            } => Ok(Call::Write {
                handle: *handle,
                offset: *offset,
                bytes: bytes.copy(alloc)?,
            }),
            Call::Create { dir, name, attr } => Ok(Call::Create {
                dir: *dir,
                name: name.copy(alloc)?,
                attr: *attr,
            }),
            Call::SymLink {
                dir,
                name,
                text,
                attr,
            } => Ok(Call::SymLink {
                dir: *dir,
                name: name.copy(alloc)?,
                text: text.copy(alloc)?,
                attr: *attr,
            }),
            Call::MkDir { dir, name, attr } => Ok(Call::MkDir {
                dir: *dir,
                name: name.copy(alloc)?,
                attr: *attr,
            }),
            _ => unreachable!(),
        }
    }
}
