//! What a caller may do: Unix permissions by owner, group and others. User 0 may do all.

ghost use Rattle.std.specs.Prelude.{◌≡◌, ◌==◌, bit_and};
ghost use Rattle.file_tree.specs.Permissions.{class_bits, may, is_given, sets_more, differs, gives_away, may_set, may_give, heeded};

use harp_types::{Cred, FIELD_LEFT, SetAttr, Time};

/// The bit that is wanted to read an object.
pub const TO_READ: u8 = 4;

/// The bit that is wanted to write an object.
pub const TO_WRITE: u8 = 2;

/// The bit that is wanted to search a directory.
pub const TO_SEARCH: u8 = 1;

/// The bits of a mode that count for a caller.
fn class_bits(cred: Cred, mode: u16, uid: u32, gid: u32) -> u16
    ensures { result ≡ class_bits cred mode uid gid }
{
    if cred.uid == uid {
        mode / 64 % 8
    } else if cred.gid == gid {
        mode / 8 % 8
    } else {
        mode % 8
    }
}

fn has_bits(bits: u16, want: u16) -> bool
    ensures { result ≡ (bit_and bits want == want) }
{
    bits & want == want
}

/// Whether a caller may do all that is wanted with an object of this mode, user and group: 4 to
/// read it, 2 to write it, 1 to search it. The owner's bits count for its user, else the group's
/// for its group, else those of others.
pub fn may(cred: Cred, mode: u16, uid: u32, gid: u32, want: u8) -> bool
    ensures { result ≡ may cred mode uid gid want }
{
    cred.uid == 0 || has_bits(class_bits(cred, mode, uid, gid), u16::from(want))
}

fn is_given(field: u32) -> bool
    ensures { result ≡ is_given field }
{
    field != FIELD_LEFT
}

fn sets_more(a: &SetAttr) -> bool
    ensures { result ≡ sets_more a.now }
{
    is_given(a.mode)
        || is_given(a.uid)
        || is_given(a.gid)
        || is_given(a.atime.seconds)
        || is_given(a.mtime.seconds)
}

fn differs(field: u32, value: u32) -> bool
    ensures { result ≡ differs field value }
{
    is_given(field) && field != value
}

fn gives_away(cred: Cred, a: &SetAttr, uid: u32, gid: u32) -> bool
    ensures { result ≡ gives_away cred a.now uid gid }
{
    differs(a.uid, uid) || differs(a.gid, gid) && differs(a.gid, cred.gid)
}

/// Whether a caller may set these fields of an object of this user and group.
pub fn may_set(cred: Cred, a: &SetAttr, uid: u32, gid: u32) -> bool
    ensures { result ≡ may_set cred a.now uid gid }
{
    if cred.uid == 0 {
        true
    } else if cred.uid == uid {
        !gives_away(cred, a, uid, gid)
    } else {
        !sets_more(a)
    }
}

/// Whether a caller may make an object with these fields.
pub fn may_give(cred: Cred, a: &SetAttr) -> bool
    ensures { result ≡ may_give cred a.now }
{
    cred.uid == 0 || !(differs(a.uid, cred.uid) || differs(a.gid, cred.gid))
}

/// The fields of a CREATE that count for a file of this user that is there.
pub fn heeded(cred: Cred, uid: u32, a: &SetAttr) -> SetAttr
    ensures value { result ≡ heeded cred uid a.now }
    ensures size { result.size ≡ a.now.size }
{
    if cred.uid == 0 || cred.uid == uid {
        return *a;
    }
    let left = Time {
        seconds: FIELD_LEFT,
        micros: FIELD_LEFT,
    };
    SetAttr {
        mode: FIELD_LEFT,
        uid: FIELD_LEFT,
        gid: FIELD_LEFT,
        size: a.size,
        atime: left,
        mtime: left,
    }
}
