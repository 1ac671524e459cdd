//! The procedures of NFS version 2 that are served.

ghost use Rattle.std.specs.Prelude.{◌≡◌, find};
ghost use Rattle.std.specs.Str.{bytes_eq};
ghost use Rattle.harp_types.specs.Numbered.{value_with_number};
ghost use Rattle.harp_types.specs.Procedures.{procedure_of, procedure_name, procedure_named, procedure_number, procedures};

use crate::call::Call;

/// A procedure (RFC 1094, section 2.2); ROOT (3) and WRITECACHE (7) are not served.
#[derive(Clone, Copy, PartialEq, Eq)]
pub enum Procedure {
    Null,
    GetAttr,
    SetAttr,
    Lookup,
    ReadLink,
    Read,
    Write,
    Create,
    Remove,
    Rename,
    Link,
    SymLink,
    MkDir,
    RmDir,
    ReadDir,
    StatFs,
}

/// Each procedure, in the order of the numbers.
pub const PROCEDURES: [Procedure; 16] = [
    Procedure::Null,
    Procedure::GetAttr,
    Procedure::SetAttr,
    Procedure::Lookup,
    Procedure::ReadLink,
    Procedure::Read,
    Procedure::Write,
    Procedure::Create,
    Procedure::Remove,
    Procedure::Rename,
    Procedure::Link,
    Procedure::SymLink,
    Procedure::MkDir,
    Procedure::RmDir,
    Procedure::ReadDir,
    Procedure::StatFs,
];

impl Procedure {
    /// The procedure of a call.
    pub fn of(call: &Call) -> Procedure
        ensures { result ≡ procedure_of call.now }
    {
        match call {
            Call::Null => Procedure::Null,
            Call::GetAttr { .. } => Procedure::GetAttr,
            Call::SetAttr { .. } => Procedure::SetAttr,
            Call::Lookup { .. } => Procedure::Lookup,
            Call::ReadLink { .. } => Procedure::ReadLink,
            Call::Read { .. } => Procedure::Read,
            Call::Write { .. } => Procedure::Write,
            Call::Create { .. } => Procedure::Create,
            Call::Remove { .. } => Procedure::Remove,
            Call::Rename { .. } => Procedure::Rename,
            Call::Link { .. } => Procedure::Link,
            Call::SymLink { .. } => Procedure::SymLink,
            Call::MkDir { .. } => Procedure::MkDir,
            Call::RmDir { .. } => Procedure::RmDir,
            Call::ReadDir { .. } => Procedure::ReadDir,
            Call::StatFs { .. } => Procedure::StatFs,
        }
    }

    /// The procedure of a number, where it is served.
    pub fn numbered(number: u8) -> Option<Procedure>
        ensures { result ≡ value_with_number procedure_number procedures number }
    {
        match number {
            0 => Some(Procedure::Null),
            1 => Some(Procedure::GetAttr),
            2 => Some(Procedure::SetAttr),
            4 => Some(Procedure::Lookup),
            5 => Some(Procedure::ReadLink),
            6 => Some(Procedure::Read),
            8 => Some(Procedure::Write),
            9 => Some(Procedure::Create),
            10 => Some(Procedure::Remove),
            11 => Some(Procedure::Rename),
            12 => Some(Procedure::Link),
            13 => Some(Procedure::SymLink),
            14 => Some(Procedure::MkDir),
            15 => Some(Procedure::RmDir),
            16 => Some(Procedure::ReadDir),
            17 => Some(Procedure::StatFs),
            _ => None,
        }
    }

    /// The procedure's number.
    pub fn number(self) -> u8
        ensures { result ≡ procedure_number self }
    {
        match self {
            Procedure::Null => 0,
            Procedure::GetAttr => 1,
            Procedure::SetAttr => 2,
            Procedure::Lookup => 4,
            Procedure::ReadLink => 5,
            Procedure::Read => 6,
            Procedure::Write => 8,
            Procedure::Create => 9,
            Procedure::Remove => 10,
            Procedure::Rename => 11,
            Procedure::Link => 12,
            Procedure::SymLink => 13,
            Procedure::MkDir => 14,
            Procedure::RmDir => 15,
            Procedure::ReadDir => 16,
            Procedure::StatFs => 17,
        }
    }

    /// The procedure of a name in small letters, where it is served.
    pub fn named(word: &[u8]) -> Option<Procedure>
        ensures { result ≡ procedure_named word.now }
    {
        PROCEDURES
            .iter()
            .copied()
            .find(|procedure| word == procedure.name())
    }

    /// The procedure's name in small letters, as `getattr`.
    pub fn name(self) -> &'static [u8]
        ensures { result.now ≡ procedure_name self }
    {
        match self {
            Procedure::Null => b"null",
            Procedure::GetAttr => b"getattr",
            Procedure::SetAttr => b"setattr",
            Procedure::Lookup => b"lookup",
            Procedure::ReadLink => b"readlink",
            Procedure::Read => b"read",
            Procedure::Write => b"write",
            Procedure::Create => b"create",
            Procedure::Remove => b"remove",
            Procedure::Rename => b"rename",
            Procedure::Link => b"link",
            Procedure::SymLink => b"symlink",
            Procedure::MkDir => b"mkdir",
            Procedure::RmDir => b"rmdir",
            Procedure::ReadDir => b"readdir",
            Procedure::StatFs => b"statfs",
        }
    }
}
