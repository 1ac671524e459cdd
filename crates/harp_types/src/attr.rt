//! What a caller sees and sets of an object beside its content.

ghost use Rattle.std.specs.Prelude.{◌≡◌};

/// A point in time: seconds and microseconds (`timeval`, RFC 1094, section 2.3.4).
#[derive(Clone, Copy, PartialEq, Eq)]
pub struct Time {
    pub seconds: u32,
    pub micros: u32,
}

/// Attributes to set (`sattr`, RFC 1094, section 2.3.6). A field of 2^32 - 1 is left as it is, and
/// so is a time with that many seconds. Of the mode the low 12 bits count.
#[derive(Clone, Copy, PartialEq, Eq)]
pub struct SetAttr {
    pub mode: u32,
    pub uid: u32,
    pub gid: u32,
    pub size: u32,
    pub atime: Time,
    pub mtime: Time,
}

/// What an object is (`ftype`, RFC 1094, section 2.3.2).
#[derive(Clone, Copy, PartialEq, Eq)]
pub enum Kind {
    Regular,
    Directory,
    Link,
}

impl Kind {
    ghost use Rattle.harp_types.specs.Numbered.{value_with_number};
    ghost use Rattle.harp_types.specs.Kinds.{kind_number, kinds};

    /// The kind of a number: 1, 2 or 5.
    pub fn of(number: u8) -> Option<Kind>
        ensures { result ≡ value_with_number kind_number kinds number }
    {
        match number {
            1 => Some(Kind::Regular),
            2 => Some(Kind::Directory),
            5 => Some(Kind::Link),
            _ => None,
        }
    }

    /// 1 for a regular file, 2 for a directory, 5 for a symbolic link.
    pub fn number(self) -> u8
        ensures { result ≡ kind_number self }
    {
        match self {
            Kind::Regular => 1,
            Kind::Directory => 2,
            Kind::Link => 5,
        }
    }
}

/// The attributes of an object (`fattr`, RFC 1094, section 2.3.5, without the fields that are the
/// same for all objects). The size is in bytes, and the blocks are of 4096 bytes.
#[derive(Clone, Copy, PartialEq, Eq)]
pub struct Attr {
    pub kind: Kind,
    pub mode: u16,
    pub links: u32,
    pub uid: u32,
    pub gid: u32,
    pub size: u32,
    pub blocks: u32,
    pub fileid: u32,
    pub atime: Time,
    pub mtime: Time,
    pub ctime: Time,
}
