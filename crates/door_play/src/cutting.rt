//! Calls with their modes cut.

ghost use Rattle.std.specs.Prelude.{◌≡◌};
ghost use Rattle.door_play.specs.Steps.{cut, cut_attr, cut_mode};

use harp_types::{Call, SetAttr};

/// The low 12 bits of a mode; 2^32 - 1, which sets none, stays.
fn cut_mode(mode: u32) -> u32
    ensures { result ≡ cut_mode mode }
{
    if mode == u32::MAX { mode } else { mode % 4096 }
}

/// Attributes with their mode cut.
fn cut_attr(attr: SetAttr) -> SetAttr
    ensures { result ≡ cut_attr attr }
{
    SetAttr {
        mode: cut_mode(attr.mode),
        ..attr
    }
}

/// A call with its mode cut, where it has one.
pub fn cut(call: Call) -> Call
    ensures { result ≡ cut call }
{
    match call {
        Call::SetAttr { handle, attr } => Call::SetAttr {
            handle,
            attr: cut_attr(attr),
        },
        Call::Create { dir, name, attr } => Call::Create {
            dir,
            name,
            attr: cut_attr(attr),
        },
        Call::SymLink {
            dir,
            name,
            text,
            attr,
        } => Call::SymLink {
            dir,
            name,
            text,
            attr: cut_attr(attr),
        },
        Call::MkDir { dir, name, attr } => Call::MkDir {
            dir,
            name,
            attr: cut_attr(attr),
        },
        other => other,
    }
}
