//! The arguments of calls.

ghost use Rattle.std.specs.Prelude.{◌≡◌, ◌≤◌, length};
ghost use Rattle.harp_types.specs.declared.procedure.Procedure.TheVariants as procedure;
ghost use Rattle.harp_base.specs.Attributes.{set_attr_at};
ghost use Rattle.harp_base.specs.Fields.{Gives};
ghost use Rattle.rpc_door.specs.Arguments.{arguments_at};

use crate::xdr::{handle_at, opaque_at};
use harp_base::Misread;
use harp_base::fields::{time_at, u32_at};
use harp_types::{Call, Procedure, SetAttr};
use std::alloc::Global;

/// Attributes to set (`sattr`, RFC 1094, section 2.3.6), and the place after them.
#[tactic(auto, unfolding(harp_base::specs::Attributes::set_attr_at))]
fn set_attr_at(bytes: &[u8], at: usize) -> Result<(SetAttr, usize), Misread>
    requires { at ≤ length bytes.now }
    ensures { result ≡ set_attr_at bytes.now at }
{
    let (mode, at) = u32_at(bytes, at)?;
    let (uid, at) = u32_at(bytes, at)?;
    let (gid, at) = u32_at(bytes, at)?;
    let (size, at) = u32_at(bytes, at)?;
    let (atime, at) = time_at(bytes, at)?;
    let (mtime, at) = time_at(bytes, at)?;
    let attr = SetAttr {
        mode,
        uid,
        gid,
        size,
        atime,
        mtime,
    };
    Ok((attr, at))
}

#[tactic(auto, unfolding(crate::specs::Arguments::arguments_at))]
fn get_attr_call(bytes: &[u8], at: usize) -> Result<(Call, usize), Misread>
    requires { at ≤ length bytes.now }
    ensures { result ≡ arguments_at procedure.GetAttr bytes.now at }
{
    let (handle, at) = handle_at(bytes, at)?;
    Ok((Call::GetAttr { handle }, at))
}

#[tactic(auto, unfolding(crate::specs::Arguments::arguments_at))]
fn set_attr_call(bytes: &[u8], at: usize) -> Result<(Call, usize), Misread>
    requires { at ≤ length bytes.now }
    ensures { result ≡ arguments_at procedure.SetAttr bytes.now at }
{
    let (handle, at) = handle_at(bytes, at)?;
    let (attr, at) = set_attr_at(bytes, at)?;
    Ok((Call::SetAttr { handle, attr }, at))
}

#[tactic(auto, unfolding(crate::specs::Arguments::arguments_at))]
fn lookup_call(alloc: Global, bytes: &[u8], at: usize) -> Result<(Call, usize), Misread>
    requires { at ≤ length bytes.now }
    ensures { Gives result (arguments_at procedure.Lookup bytes.now at) }
{
    let (dir, at) = handle_at(bytes, at)?;
    let (name, at) = opaque_at(alloc, bytes, at)?;
    Ok((Call::Lookup { dir, name }, at))
}

#[tactic(auto, unfolding(crate::specs::Arguments::arguments_at))]
fn read_link_call(bytes: &[u8], at: usize) -> Result<(Call, usize), Misread>
    requires { at ≤ length bytes.now }
    ensures { result ≡ arguments_at procedure.ReadLink bytes.now at }
{
    let (handle, at) = handle_at(bytes, at)?;
    Ok((Call::ReadLink { handle }, at))
}

#[tactic(auto, unfolding(crate::specs::Arguments::arguments_at))]
fn read_call(bytes: &[u8], at: usize) -> Result<(Call, usize), Misread>
    requires { at ≤ length bytes.now }
    ensures { result ≡ arguments_at procedure.Read bytes.now at }
{
    let (handle, at) = handle_at(bytes, at)?;
    let (offset, at) = u32_at(bytes, at)?;
    let (count, at) = u32_at(bytes, at)?;
    let (_, at) = u32_at(bytes, at)?;
    let call = Call::Read {
        handle,
        offset,
        count,
    };
    Ok((call, at))
}

#[tactic(auto, unfolding(crate::specs::Arguments::arguments_at))]
fn write_call(alloc: Global, bytes: &[u8], at: usize) -> Result<(Call, usize), Misread>
    requires { at ≤ length bytes.now }
    ensures { Gives result (arguments_at procedure.Write bytes.now at) }
{
    let (handle, at) = handle_at(bytes, at)?;
    let (_, at) = u32_at(bytes, at)?;
    let (offset, at) = u32_at(bytes, at)?;
    let (_, at) = u32_at(bytes, at)?;
    let (placed, at) = opaque_at(alloc, bytes, at)?;
    let call = Call::Write {
        handle,
        offset,
        bytes: placed,
    };
    Ok((call, at))
}

#[tactic(auto, unfolding(crate::specs::Arguments::arguments_at))]
fn create_call(alloc: Global, bytes: &[u8], at: usize) -> Result<(Call, usize), Misread>
    requires { at ≤ length bytes.now }
    ensures { Gives result (arguments_at procedure.Create bytes.now at) }
{
    let (dir, at) = handle_at(bytes, at)?;
    let (name, at) = opaque_at(alloc, bytes, at)?;
    let (attr, at) = set_attr_at(bytes, at)?;
    Ok((Call::Create { dir, name, attr }, at))
}

#[tactic(auto, unfolding(crate::specs::Arguments::arguments_at))]
fn remove_call(alloc: Global, bytes: &[u8], at: usize) -> Result<(Call, usize), Misread>
    requires { at ≤ length bytes.now }
    ensures { Gives result (arguments_at procedure.Remove bytes.now at) }
{
    let (dir, at) = handle_at(bytes, at)?;
    let (name, at) = opaque_at(alloc, bytes, at)?;
    Ok((Call::Remove { dir, name }, at))
}

#[tactic(auto, unfolding(crate::specs::Arguments::arguments_at))]
fn rename_call(alloc: Global, bytes: &[u8], at: usize) -> Result<(Call, usize), Misread>
    requires { at ≤ length bytes.now }
    ensures { Gives result (arguments_at procedure.Rename bytes.now at) }
{
    let (dir, at) = handle_at(bytes, at)?;
    let (name, at) = opaque_at(alloc, bytes, at)?;
    let (to_dir, at) = handle_at(bytes, at)?;
    let (to_name, at) = opaque_at(alloc, bytes, at)?;
    let call = Call::Rename {
        dir,
        name,
        to_dir,
        to_name,
    };
    Ok((call, at))
}

#[tactic(auto, unfolding(crate::specs::Arguments::arguments_at))]
fn link_call(alloc: Global, bytes: &[u8], at: usize) -> Result<(Call, usize), Misread>
    requires { at ≤ length bytes.now }
    ensures { Gives result (arguments_at procedure.Link bytes.now at) }
{
    let (handle, at) = handle_at(bytes, at)?;
    let (dir, at) = handle_at(bytes, at)?;
    let (name, at) = opaque_at(alloc, bytes, at)?;
    Ok((Call::Link { handle, dir, name }, at))
}

#[tactic(auto, unfolding(crate::specs::Arguments::arguments_at))]
fn symlink_call(alloc: Global, bytes: &[u8], at: usize) -> Result<(Call, usize), Misread>
    requires { at ≤ length bytes.now }
    ensures { Gives result (arguments_at procedure.SymLink bytes.now at) }
{
    let (dir, at) = handle_at(bytes, at)?;
    let (name, at) = opaque_at(alloc, bytes, at)?;
    let (text, at) = opaque_at(alloc, bytes, at)?;
    let (attr, at) = set_attr_at(bytes, at)?;
    let call = Call::SymLink {
        dir,
        name,
        text,
        attr,
    };
    Ok((call, at))
}

#[tactic(auto, unfolding(crate::specs::Arguments::arguments_at))]
fn mkdir_call(alloc: Global, bytes: &[u8], at: usize) -> Result<(Call, usize), Misread>
    requires { at ≤ length bytes.now }
    ensures { Gives result (arguments_at procedure.MkDir bytes.now at) }
{
    let (dir, at) = handle_at(bytes, at)?;
    let (name, at) = opaque_at(alloc, bytes, at)?;
    let (attr, at) = set_attr_at(bytes, at)?;
    Ok((Call::MkDir { dir, name, attr }, at))
}

#[tactic(auto, unfolding(crate::specs::Arguments::arguments_at))]
fn rmdir_call(alloc: Global, bytes: &[u8], at: usize) -> Result<(Call, usize), Misread>
    requires { at ≤ length bytes.now }
    ensures { Gives result (arguments_at procedure.RmDir bytes.now at) }
{
    let (dir, at) = handle_at(bytes, at)?;
    let (name, at) = opaque_at(alloc, bytes, at)?;
    Ok((Call::RmDir { dir, name }, at))
}

#[tactic(auto, unfolding(crate::specs::Arguments::arguments_at))]
fn read_dir_call(bytes: &[u8], at: usize) -> Result<(Call, usize), Misread>
    requires { at ≤ length bytes.now }
    ensures { result ≡ arguments_at procedure.ReadDir bytes.now at }
{
    let (dir, at) = handle_at(bytes, at)?;
    let (cookie, at) = u32_at(bytes, at)?;
    let (count, at) = u32_at(bytes, at)?;
    Ok((Call::ReadDir { dir, cookie, count }, at))
}

#[tactic(auto, unfolding(crate::specs::Arguments::arguments_at))]
fn stat_fs_call(bytes: &[u8], at: usize) -> Result<(Call, usize), Misread>
    requires { at ≤ length bytes.now }
    ensures { result ≡ arguments_at procedure.StatFs bytes.now at }
{
    let (handle, at) = handle_at(bytes, at)?;
    Ok((Call::StatFs { handle }, at))
}

/// The call of a procedure whose arguments begin at a place, and the place after them.
#[tactic(auto, unfolding(crate::specs::Arguments::arguments_at))]
pub fn arguments_at(
    alloc: Global,
    procedure: Procedure,
    bytes: &[u8],
    at: usize,
) -> Result<(Call, usize), Misread>
    requires { at ≤ length bytes.now }
    ensures { Gives result (arguments_at procedure bytes.now at) }
{
    match procedure {
        Procedure::Null => Ok((Call::Null, at)),
        Procedure::GetAttr => get_attr_call(bytes, at),
        Procedure::SetAttr => set_attr_call(bytes, at),
        Procedure::Lookup => lookup_call(alloc, bytes, at),
        Procedure::ReadLink => read_link_call(bytes, at),
        Procedure::Read => read_call(bytes, at),
        Procedure::Write => write_call(alloc, bytes, at),
        Procedure::Create => create_call(alloc, bytes, at),
        Procedure::Remove => remove_call(alloc, bytes, at),
        Procedure::Rename => rename_call(alloc, bytes, at),
        Procedure::Link => link_call(alloc, bytes, at),
        Procedure::SymLink => symlink_call(alloc, bytes, at),
        Procedure::MkDir => mkdir_call(alloc, bytes, at),
        Procedure::RmDir => rmdir_call(alloc, bytes, at),
        Procedure::ReadDir => read_dir_call(bytes, at),
        Procedure::StatFs => stat_fs_call(bytes, at),
    }
}
