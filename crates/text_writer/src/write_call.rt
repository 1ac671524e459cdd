//! Calls that are written.

ghost use Rattle.std.specs.Prelude.{◌≡◌, ◌++◌, ◌∷◌, [], codes, decimal, OnOk};
ghost use Rattle.harp_types.specs.Procedures.{procedure_of, procedure_name};
ghost use Rattle.text_spelling.specs.Text.{spaced, hex_text, set_attr_text, fields_text, call_text};

use crate::digits::put_name;
use crate::put::{put_number, put_three};
use crate::write_attr::put_set_attr;
use harp_types::{Bounded, Call, Procedure, SetAttr};
use std::alloc::{AllocError, Global};

/// A handle, an offset, a count or a cookie, behind a space.
fn put_field(out: &mut Vec<u8>, n: u32) -> Result<(), AllocError>
    ensures { OnOk result (out.new.items ≡ out.old.items ++ spaced (decimal n)) }
{
    put_number(out, u64::from(n))
}

/// Three of them.
fn put_fields(out: &mut Vec<u8>, first: u32, second: u32, third: u32) -> Result<(), AllocError>
    ensures { OnOk result (out.new.items ≡ out.old.items
        ++ spaced (decimal first) ++ spaced (decimal second) ++ spaced (decimal third)) }
{
    put_three(out, u64::from(first), u64::from(second), u64::from(third))
}

/// A handle, and attributes to set.
fn put_change(
    alloc: Global,
    out: &mut Vec<u8>,
    handle: u32,
    attr: &SetAttr,
) -> Result<(), AllocError>
    ensures { OnOk result (out.new.items ≡ out.old.items
        ++ spaced (decimal handle) ++ spaced (set_attr_text attr.now)) }
{
    put_field(out, handle)?;
    put_set_attr(out, attr)
}

/// A handle, an offset and the bytes of a write.
fn put_write(
    alloc: Global,
    out: &mut Vec<u8>,
    handle: u32,
    offset: u32,
    bytes: &Bounded<8192>,
) -> Result<(), AllocError>
    ensures { OnOk result (out.new.items ≡ out.old.items
        ++ spaced (decimal handle) ++ spaced (decimal offset) ++ spaced (hex_text bytes.now)) }
{
    put_field(out, handle)?;
    put_field(out, offset)?;
    put_name(alloc, out, bytes.as_slice())
}

/// A directory and a name in it.
fn put_entry(
    alloc: Global,
    out: &mut Vec<u8>,
    dir: u32,
    name: &Bounded<4096>,
) -> Result<(), AllocError>
    ensures { OnOk result (out.new.items ≡ out.old.items
        ++ spaced (decimal dir) ++ spaced (hex_text name.now)) }
{
    put_field(out, dir)?;
    put_name(alloc, out, name.as_slice())
}

/// A directory, a name in it, and attributes of what is made there.
fn put_made(
    alloc: Global,
    out: &mut Vec<u8>,
    dir: u32,
    name: &Bounded<4096>,
    attr: &SetAttr,
) -> Result<(), AllocError>
    ensures { OnOk result (out.new.items ≡ out.old.items
        ++ spaced (decimal dir) ++ spaced (hex_text name.now)
        ++ spaced (set_attr_text attr.now)) }
{
    put_entry(alloc, out, dir, name)?;
    put_set_attr(out, attr)
}

/// A directory and a name in it, and where it goes.
fn put_rename(
    alloc: Global,
    out: &mut Vec<u8>,
    dir: u32,
    name: &Bounded<4096>,
    to_dir: u32,
    to_name: &Bounded<4096>,
) -> Result<(), AllocError>
    ensures { OnOk result (out.new.items ≡ out.old.items
        ++ spaced (decimal dir) ++ spaced (hex_text name.now)
        ++ spaced (decimal to_dir) ++ spaced (hex_text to_name.now)) }
{
    put_entry(alloc, out, dir, name)?;
    put_entry(alloc, out, to_dir, to_name)
}

/// A handle, and a directory and a name in it.
fn put_link(
    alloc: Global,
    out: &mut Vec<u8>,
    handle: u32,
    dir: u32,
    name: &Bounded<4096>,
) -> Result<(), AllocError>
    ensures { OnOk result (out.new.items ≡ out.old.items
        ++ spaced (decimal handle) ++ spaced (decimal dir) ++ spaced (hex_text name.now)) }
{
    put_field(out, handle)?;
    put_entry(alloc, out, dir, name)
}

/// A directory, a name in it, a link's text, and its attributes.
fn put_symlink(
    alloc: Global,
    out: &mut Vec<u8>,
    dir: u32,
    name: &Bounded<4096>,
    text: &Bounded<4096>,
    attr: &SetAttr,
) -> Result<(), AllocError>
    ensures { OnOk result (out.new.items ≡ out.old.items
        ++ spaced (decimal dir) ++ spaced (hex_text name.now) ++ spaced (hex_text text.now)
        ++ spaced (set_attr_text attr.now)) }
{
    put_entry(alloc, out, dir, name)?;
    put_name(alloc, out, text.as_slice())?;
    put_set_attr(out, attr)
}

/// The fields of a call.
fn put_call_fields(alloc: Global, out: &mut Vec<u8>, call: &Call) -> Result<(), AllocError>
    ensures { OnOk result (out.new.items ≡ out.old.items ++ fields_text call.now) }
{
    match call {
        Call::Null => Ok(()),
        Call::GetAttr { handle } => put_field(out, *handle),
        Call::SetAttr { handle, attr } => put_change(alloc, out, *handle, attr),
        Call::Lookup { dir, name } => put_entry(alloc, out, *dir, name),
        Call::ReadLink { handle } => put_field(out, *handle),
        Call::Read {
            handle,
            offset,
            count,
        } => put_fields(out, *handle, *offset, *count),
        Call::Write {
            handle,
            offset,
            bytes,
        } => put_write(alloc, out, *handle, *offset, bytes),
        Call::Create { dir, name, attr } => put_made(alloc, out, *dir, name, attr),
        Call::Remove { dir, name } => put_entry(alloc, out, *dir, name),
        Call::Rename {
            dir,
            name,
            to_dir,
            to_name,
        } => put_rename(alloc, out, *dir, name, *to_dir, to_name),
        Call::Link { handle, dir, name } => put_link(alloc, out, *handle, *dir, name),
        Call::SymLink {
            dir,
            name,
            text,
            attr,
        } => put_symlink(alloc, out, *dir, name, text, attr),
        Call::MkDir { dir, name, attr } => put_made(alloc, out, *dir, name, attr),
        Call::RmDir { dir, name } => put_entry(alloc, out, *dir, name),
        Call::ReadDir { dir, cookie, count } => put_fields(out, *dir, *cookie, *count),
        Call::StatFs { handle } => put_field(out, *handle),
    }
}

/// The name of a call's procedure, and the fields.
#[tactic(auto, unfolding(text_spelling::specs::Text::call_text))]
pub fn put_call(alloc: Global, out: &mut Vec<u8>, call: &Call) -> Result<(), AllocError>
    ensures { OnOk result (out.new.items ≡ out.old.items ++ call_text call.now) }
{
    out.extend_from_slice(Procedure::of(call).name())?;
    put_call_fields(alloc, out, call)
}
