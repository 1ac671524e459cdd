//! Calls that are written.

ghost use Rattle.std.specs.Prelude.{◌≡◌, ◌<◌, ◌^◌, ◌++◌, OnOk, OnErr, IfOk, true, false};
ghost use Rattle.harp_base.specs.Fields.{u32_bytes, counted_bytes};
ghost use Rattle.harp_types.specs.Update.{changes_entries, is_update};
ghost use Rattle.harp_base.specs.Calls.{fields_of, call_bytes, NameFits, CallFits};

use crate::attr_fields::put_set_attr;
use crate::field::{put_bytes, put_u32};
use harp_types::{Bounded, Bytes, Call, LONGEST_ARGUMENT, Procedure, changes_entries, is_update};
use std::alloc::{AllocError, Global};

/// A directory and a name in it.
fn put_entry(
    out: &mut Vec<u8>,
    dir: u32,
    name: &Bounded<LONGEST_ARGUMENT>,
) -> Result<(), AllocError>
    ensures value { OnOk result (out.new.items ≡ out.old.items ++ u32_bytes dir
        ++ counted_bytes name.now) }
    ensures fits { OnOk result ((dir < 2 ^ 32) × NameFits name.now) }
{
    put_u32(out, dir)?;
    put_bytes(out, name)
}

/// The fields of a read.
fn put_read(out: &mut Vec<u8>, call: &Call) -> Result<(), AllocError>
    requires { is_update call.now ≡ false }
    ensures value { OnOk result (out.new.items ≡ out.old.items ++ fields_of call.now) }
    ensures fits { OnOk result (CallFits call.now) }
{
    match call {
        Call::Null => Ok(()),
        Call::GetAttr { handle } | Call::ReadLink { handle } | Call::StatFs { handle } => {
            put_u32(out, *handle)
        }
        Call::Lookup { dir, name } => put_entry(out, *dir, name),
        Call::Read {
            handle,
            offset,
            count,
        } => {
            put_u32(out, *handle)?;
            put_u32(out, *offset)?;
            put_u32(out, *count)
        }
        Call::ReadDir { dir, cookie, count } => {
            put_u32(out, *dir)?;
            put_u32(out, *cookie)?;
            put_u32(out, *count)
        }
        _ => unreachable!(),
    }
}

/// The fields of an update that changes entries alone.
fn put_of_entries(out: &mut Vec<u8>, call: &Call) -> Result<(), AllocError>
    requires { changes_entries call.now ≡ true }
    ensures value { OnOk result (out.new.items ≡ out.old.items ++ fields_of call.now) }
    ensures fits { OnOk result (CallFits call.now) }
{
    match call {
        Call::Remove { dir, name } | Call::RmDir { dir, name } => put_entry(out, *dir, name),
        Call::Rename {
            dir,
            name,
            to_dir,
            to_name,
        } => {
            put_entry(out, *dir, name)?;
            put_entry(out, *to_dir, to_name)
        }
        Call::Link { handle, dir, name } => {
            put_u32(out, *handle)?;
            put_entry(out, *dir, name)
        }
        _ => unreachable!(),
    }
}

/// The fields of an update that sets attributes or bytes.
fn put_of_content(out: &mut Vec<u8>, call: &Call) -> Result<(), AllocError>
    requires update { is_update call.now ≡ true }
    requires content { changes_entries call.now ≡ false }
    ensures value { OnOk result (out.new.items ≡ out.old.items ++ fields_of call.now) }
    ensures fits { OnOk result (CallFits call.now) }
{
    match call {
        Call::SetAttr { handle, attr } => {
            put_u32(out, *handle)?;
            put_set_attr(out, attr)
        }
        Call::Write {
            handle,
            offset,
            bytes,
        } => {
            put_u32(out, *handle)?;
            put_u32(out, *offset)?;
            put_bytes(out, bytes)
        }
        Call::Create { dir, name, attr } | Call::MkDir { dir, name, attr } => {
            put_entry(out, *dir, name)?;
            put_set_attr(out, attr)
        }
        Call::SymLink {
            dir,
            name,
            text,
            attr,
        } => {
            put_entry(out, *dir, name)?;
            put_bytes(out, text)?;
            put_set_attr(out, attr)
        }
        _ => unreachable!(),
    }
}

fn put_fields(out: &mut Vec<u8>, call: &Call) -> Result<(), AllocError>
    ensures value { OnOk result (out.new.items ≡ out.old.items ++ fields_of call.now) }
    ensures fits { OnOk result (CallFits call.now) }
{
    if !is_update(call) {
        put_read(out, call)
    } else if changes_entries(call) {
        put_of_entries(out, call)
    } else {
        put_of_content(out, call)
    }
}

/// Appends the one spelling of a call. Where memory runs out, any bytes may have been appended.
pub fn put_call(out: &mut Vec<u8>, call: &Call) -> Result<(), AllocError>
    ensures value { OnOk result (out.new.items ≡ out.old.items ++ call_bytes call.now) }
    ensures fits { OnOk result (CallFits call.now) }
{
    out.push(Procedure::of(call).number())?;
    put_fields(out, call)
}

/// Appends the one spelling of a call. Where memory runs out, nothing is appended.
pub fn write_call(alloc: Global, call: &Call, into: &mut Bytes) -> Result<(), AllocError>
    ensures appended { OnOk result (into.new ≡ into.old ++ call_bytes call.now) }
    ensures fits { OnOk result (CallFits call.now) }
    ensures kept { OnErr result (into.new ≡ into.old) }
{
    let mut spelled = Vec::new(alloc);
    put_call(&mut spelled, call)?;
    into.extend(&spelled)
}
