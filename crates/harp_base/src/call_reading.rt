//! Calls that are read.

ghost use Rattle.std.specs.Prelude.{◌≡◌, ◌≤◌, ◌++◌, ℕ, List, length, IfOk, Ok};
ghost use Rattle.harp_types.specs.declared.call.Call.{Call};
ghost use Rattle.harp_types.specs.declared.procedure.Procedure.TheVariants as procedure;
ghost use Rattle.harp_base.specs.Fields.{Gives, Spells, Tells, at_front, tag_at};
ghost use Rattle.harp_types.specs.Procedures.{procedure_number, procedures};
ghost use Rattle.harp_base.specs.Calls.{fields_at, call_at, call_bytes, CallFits};

use crate::attr_fields::set_attr_at;
use crate::field::{FieldFault, Misread, byte_at, bytes_at, told, u32_at};
use harp_types::{Call, Procedure};
use std::alloc::Global;

/// The procedure of the number at a place, and the place after it.
fn procedure_at(bytes: &[u8], at: usize) -> Result<(Procedure, usize), Misread>
    requires { at ≤ length bytes.now }
    ensures step { result ≡ tag_at procedure_number procedures bytes.now at }
    ensures within { IfOk result (λ x. x.1 ≤ length bytes.now) }
{
    let (number, next) = byte_at(bytes, at)?;
    match Procedure::numbered(number) {
        Some(procedure) => Ok((procedure, next)),
        None => Err(Misread::BadTag(at)),
    }
}

#[tactic(auto, unfolding(crate::specs::Calls::fields_at))]
fn get_attr_call(bytes: &[u8], at: usize) -> Result<(Call, usize), Misread>
    requires { at ≤ length bytes.now }
    ensures { result ≡ fields_at procedure.GetAttr bytes.now at }
{
    let (handle, at) = u32_at(bytes, at)?;
    Ok((Call::GetAttr { handle }, at))
}

#[tactic(auto, unfolding(crate::specs::Calls::fields_at))]
fn set_attr_call(bytes: &[u8], at: usize) -> Result<(Call, usize), Misread>
    requires { at ≤ length bytes.now }
    ensures { result ≡ fields_at procedure.SetAttr bytes.now at }
{
    let (handle, at) = u32_at(bytes, at)?;
    let (attr, at) = set_attr_at(bytes, at)?;
    Ok((Call::SetAttr { handle, attr }, at))
}

#[tactic(auto, unfolding(crate::specs::Calls::fields_at))]
fn lookup_call(alloc: Global, bytes: &[u8], at: usize) -> Result<(Call, usize), Misread>
    requires { at ≤ length bytes.now }
    ensures { Gives result (fields_at procedure.Lookup bytes.now at) }
{
    let (dir, at) = u32_at(bytes, at)?;
    let (name, at) = bytes_at(alloc, bytes, at)?;
    Ok((Call::Lookup { dir, name }, at))
}

#[tactic(auto, unfolding(crate::specs::Calls::fields_at))]
fn read_link_call(bytes: &[u8], at: usize) -> Result<(Call, usize), Misread>
    requires { at ≤ length bytes.now }
    ensures { result ≡ fields_at procedure.ReadLink bytes.now at }
{
    let (handle, at) = u32_at(bytes, at)?;
    Ok((Call::ReadLink { handle }, at))
}

#[tactic(auto, unfolding(crate::specs::Calls::fields_at))]
fn read_file_call(bytes: &[u8], at: usize) -> Result<(Call, usize), Misread>
    requires { at ≤ length bytes.now }
    ensures { result ≡ fields_at procedure.Read bytes.now at }
{
    let (handle, at) = u32_at(bytes, at)?;
    let (offset, at) = u32_at(bytes, at)?;
    let (count, at) = u32_at(bytes, at)?;
    Ok((
        Call::Read {
            handle,
            offset,
            count,
        },
        at,
    ))
}

#[tactic(auto, unfolding(crate::specs::Calls::fields_at))]
fn write_file_call(alloc: Global, bytes: &[u8], at: usize) -> Result<(Call, usize), Misread>
    requires { at ≤ length bytes.now }
    ensures { Gives result (fields_at procedure.Write bytes.now at) }
{
    let (handle, at) = u32_at(bytes, at)?;
    let (offset, at) = u32_at(bytes, at)?;
    let (placed, at) = bytes_at(alloc, bytes, at)?;
    Ok((
        Call::Write {
            handle,
            offset,
            bytes: placed,
        },
        at,
    ))
}

#[tactic(auto, unfolding(crate::specs::Calls::fields_at))]
fn create_call(alloc: Global, bytes: &[u8], at: usize) -> Result<(Call, usize), Misread>
    requires { at ≤ length bytes.now }
    ensures { Gives result (fields_at procedure.Create bytes.now at) }
{
    let (dir, at) = u32_at(bytes, at)?;
    let (name, at) = bytes_at(alloc, bytes, at)?;
    let (attr, at) = set_attr_at(bytes, at)?;
    Ok((Call::Create { dir, name, attr }, at))
}

#[tactic(auto, unfolding(crate::specs::Calls::fields_at))]
fn remove_call(alloc: Global, bytes: &[u8], at: usize) -> Result<(Call, usize), Misread>
    requires { at ≤ length bytes.now }
    ensures { Gives result (fields_at procedure.Remove bytes.now at) }
{
    let (dir, at) = u32_at(bytes, at)?;
    let (name, at) = bytes_at(alloc, bytes, at)?;
    Ok((Call::Remove { dir, name }, at))
}

#[tactic(auto, unfolding(crate::specs::Calls::fields_at))]
fn rename_call(alloc: Global, bytes: &[u8], at: usize) -> Result<(Call, usize), Misread>
    requires { at ≤ length bytes.now }
    ensures { Gives result (fields_at procedure.Rename bytes.now at) }
{
    let (dir, at) = u32_at(bytes, at)?;
    let (name, at) = bytes_at(alloc, bytes, at)?;
    let (to_dir, at) = u32_at(bytes, at)?;
    let (to_name, at) = bytes_at(alloc, bytes, at)?;
    Ok((
        Call::Rename {
            dir,
            name,
            to_dir,
            to_name,
        },
        at,
    ))
}

#[tactic(auto, unfolding(crate::specs::Calls::fields_at))]
fn link_call(alloc: Global, bytes: &[u8], at: usize) -> Result<(Call, usize), Misread>
    requires { at ≤ length bytes.now }
    ensures { Gives result (fields_at procedure.Link bytes.now at) }
{
    let (handle, at) = u32_at(bytes, at)?;
    let (dir, at) = u32_at(bytes, at)?;
    let (name, at) = bytes_at(alloc, bytes, at)?;
    Ok((Call::Link { handle, dir, name }, at))
}

#[tactic(auto, unfolding(crate::specs::Calls::fields_at))]
fn symlink_call(alloc: Global, bytes: &[u8], at: usize) -> Result<(Call, usize), Misread>
    requires { at ≤ length bytes.now }
    ensures { Gives result (fields_at procedure.SymLink bytes.now at) }
{
    let (dir, at) = u32_at(bytes, at)?;
    let (name, at) = bytes_at(alloc, bytes, at)?;
    let (text, at) = bytes_at(alloc, bytes, at)?;
    let (attr, at) = set_attr_at(bytes, at)?;
    Ok((
        Call::SymLink {
            dir,
            name,
            text,
            attr,
        },
        at,
    ))
}

#[tactic(auto, unfolding(crate::specs::Calls::fields_at))]
fn mkdir_call(alloc: Global, bytes: &[u8], at: usize) -> Result<(Call, usize), Misread>
    requires { at ≤ length bytes.now }
    ensures { Gives result (fields_at procedure.MkDir bytes.now at) }
{
    let (dir, at) = u32_at(bytes, at)?;
    let (name, at) = bytes_at(alloc, bytes, at)?;
    let (attr, at) = set_attr_at(bytes, at)?;
    Ok((Call::MkDir { dir, name, attr }, at))
}

#[tactic(auto, unfolding(crate::specs::Calls::fields_at))]
fn rmdir_call(alloc: Global, bytes: &[u8], at: usize) -> Result<(Call, usize), Misread>
    requires { at ≤ length bytes.now }
    ensures { Gives result (fields_at procedure.RmDir bytes.now at) }
{
    let (dir, at) = u32_at(bytes, at)?;
    let (name, at) = bytes_at(alloc, bytes, at)?;
    Ok((Call::RmDir { dir, name }, at))
}

#[tactic(auto, unfolding(crate::specs::Calls::fields_at))]
fn read_dir_call(bytes: &[u8], at: usize) -> Result<(Call, usize), Misread>
    requires { at ≤ length bytes.now }
    ensures { result ≡ fields_at procedure.ReadDir bytes.now at }
{
    let (dir, at) = u32_at(bytes, at)?;
    let (cookie, at) = u32_at(bytes, at)?;
    let (count, at) = u32_at(bytes, at)?;
    Ok((Call::ReadDir { dir, cookie, count }, at))
}

#[tactic(auto, unfolding(crate::specs::Calls::fields_at))]
fn stat_fs_call(bytes: &[u8], at: usize) -> Result<(Call, usize), Misread>
    requires { at ≤ length bytes.now }
    ensures { result ≡ fields_at procedure.StatFs bytes.now at }
{
    let (handle, at) = u32_at(bytes, at)?;
    Ok((Call::StatFs { handle }, at))
}

#[tactic(auto, unfolding(crate::specs::Calls::fields_at))]
fn fields_at(
    alloc: Global,
    procedure: Procedure,
    bytes: &[u8],
    at: usize,
) -> Result<(Call, usize), Misread>
    requires { at ≤ length bytes.now }
    ensures { Gives result (fields_at procedure bytes.now at) }
{
    match procedure {
        Procedure::Null => Ok((Call::Null, at)),
        Procedure::GetAttr => get_attr_call(bytes, at),
        Procedure::SetAttr => set_attr_call(bytes, at),
        Procedure::Lookup => lookup_call(alloc, bytes, at),
        Procedure::ReadLink => read_link_call(bytes, at),
        Procedure::Read => read_file_call(bytes, at),
        Procedure::Write => write_file_call(alloc, bytes, at),
        Procedure::Create => create_call(alloc, bytes, at),
        Procedure::Remove => remove_call(alloc, bytes, at),
        Procedure::Rename => rename_call(alloc, bytes, at),
        Procedure::Link => link_call(alloc, bytes, at),
        Procedure::SymLink => symlink_call(alloc, bytes, at),
        Procedure::MkDir => mkdir_call(alloc, bytes, at),
        Procedure::RmDir => rmdir_call(alloc, bytes, at),
        Procedure::ReadDir => read_dir_call(bytes, at),
        Procedure::StatFs => stat_fs_call(bytes, at),
    }
}

/// A call that begins at a place, and the place after it.
#[tactic(auto, unfolding(crate::specs::Calls::call_at))]
pub fn call_at(alloc: Global, bytes: &[u8], at: usize) -> Result<(Call, usize), Misread>
    requires { at ≤ length bytes.now }
    ensures step { Gives result (call_at bytes.now at) }
    ensures within { IfOk result (λ x. x.1 ≤ length bytes.now) }
{
    let (procedure, at) = procedure_at(bytes, at)?;
    fields_at(alloc, procedure, bytes, at)
}

/// The call at the front of the bytes, and its length.
pub fn read_call(alloc: Global, bytes: &[u8]) -> Result<(Call, usize), FieldFault>
    // What is read is spelled so.
    ensures found { IfOk result (λ x. Spells bytes.now 0 (call_bytes x.0) x.1 × CallFits x.0) }
    // What is spelled so is read, whatever follows, unless memory runs out.
    ensures only { (c : Call) (rest : List ℕ) → CallFits c → bytes.now ≡ call_bytes c ++ rest
        → Tells result (Ok (c, length (call_bytes c))) }
    // Which fault it is, and where.
    ensures exact { Tells result (at_front call_at bytes.now) }
{
    told(call_at(alloc, bytes, 0), bytes.len())
}
