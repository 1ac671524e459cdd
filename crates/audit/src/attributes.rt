//! The attributes that stand in a value.

ghost use Rattle.std.specs.Prelude.{◌≡◌};
ghost use Rattle.audit.specs.Pictures.{attributes, is_directory_kind, is_link_kind};

use harp_cells::Value;
use harp_types::Kind;

/// The stored attributes of an object that an audit looks at. The kind is none where it is none of
/// the three.
#[derive(Clone, Copy)]
pub struct Attributes {
    pub kind: Option<Kind>,
    pub mode: u16,
    pub links: u32,
    pub parent: u32,
    pub size: u32,
    pub slots: u32,
}

/// What stands in a value that is no object's.
const NONE: Attributes = Attributes {
    kind: None,
    mode: 0,
    links: 0,
    parent: 0,
    size: 0,
    slots: 0,
};

/// The attributes in a value, none in one that is no object's.
pub fn attributes_in(value: &Value) -> Attributes
    ensures { result ≡ attributes value.now }
{
    match value {
        Value::Object { inode } => Attributes {
            kind: Some(inode.kind),
            mode: inode.mode,
            links: inode.links,
            parent: inode.parent,
            size: inode.size,
            slots: inode.slots,
        },
        Value::Unformed { inode } => Attributes {
            kind: None,
            mode: inode.mode,
            links: inode.links,
            parent: inode.parent,
            size: inode.size,
            slots: inode.slots,
        },
        Value::Meta { .. }
        | Value::Block { .. }
        | Value::Slot { .. }
        | Value::Client { .. }
        | Value::Saved { .. }
        | Value::SavedCred { .. } => NONE,
    }
}

/// Whether a kind is that of directories.
pub fn is_directory(kind: Option<Kind>) -> bool
    ensures { result ≡ is_directory_kind kind }
{
    match kind {
        Some(Kind::Directory) => true,
        Some(Kind::Regular) => false,
        Some(Kind::Link) => false,
        None => false,
    }
}

/// Whether a kind is that of symbolic links.
pub fn is_link(kind: Option<Kind>) -> bool
    ensures { result ≡ is_link_kind kind }
{
    match kind {
        Some(Kind::Link) => true,
        Some(Kind::Regular) => false,
        Some(Kind::Directory) => false,
        None => false,
    }
}
