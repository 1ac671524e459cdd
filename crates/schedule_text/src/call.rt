//! Calls that are read, behind their names.

ghost use Rattle.std.specs.Prelude.{◌≡◌, ◌+◌, ◌≤◌, ◌<◌, ◌^◌, length};
ghost use Rattle.harp_types.specs.declared.procedure.Procedure.TheVariants as procedure;
ghost use Rattle.schedule_text.specs.Fields.{Gives};
ghost use Rattle.schedule_text.specs.Reading.{fields_at, call_names, asked_names, call_at};
ghost use Rattle.schedule_text.specs.Words.{farthest};

use crate::fault::TextFault;
use crate::field::{
    entry_at, numbers_at, spaced_attr_at, spaced_bytes_at, spaced_name_at, spaced_u32_at,
};
use crate::number::word_at;
use crate::word::farther;
use harp_types::{Call, Procedure};
use std::alloc::Global;

#[tactic(auto, unfolding(crate::specs::Reading::fields_at))]
fn get_attr_at(line: &[u8], at: usize) -> Result<(Call, usize), TextFault>
    ensures { Gives (λ x. x) result (fields_at procedure.GetAttr line.now at) }
{
    let (handle, at) = spaced_u32_at(line, at)?;
    Ok((Call::GetAttr { handle }, at))
}

#[tactic(auto, unfolding(crate::specs::Reading::fields_at))]
fn set_attr_at(line: &[u8], at: usize) -> Result<(Call, usize), TextFault>
    ensures { Gives (λ x. x) result (fields_at procedure.SetAttr line.now at) }
{
    let (handle, at) = spaced_u32_at(line, at)?;
    let (attr, at) = spaced_attr_at(line, at)?;
    Ok((Call::SetAttr { handle, attr }, at))
}

#[tactic(auto, unfolding(crate::specs::Reading::fields_at))]
fn lookup_at(alloc: Global, line: &[u8], at: usize) -> Result<(Call, usize), TextFault>
    ensures { Gives (λ x. x) result (fields_at procedure.Lookup line.now at) }
{
    let ((dir, name), at) = entry_at(alloc, line, at)?;
    Ok((Call::Lookup { dir, name }, at))
}

#[tactic(auto, unfolding(crate::specs::Reading::fields_at))]
fn read_link_at(line: &[u8], at: usize) -> Result<(Call, usize), TextFault>
    ensures { Gives (λ x. x) result (fields_at procedure.ReadLink line.now at) }
{
    let (handle, at) = spaced_u32_at(line, at)?;
    Ok((Call::ReadLink { handle }, at))
}

#[tactic(auto, unfolding(crate::specs::Reading::fields_at))]
fn read_at(line: &[u8], at: usize) -> Result<(Call, usize), TextFault>
    ensures { Gives (λ x. x) result (fields_at procedure.Read line.now at) }
{
    let ((handle, offset), at) = numbers_at(line, at)?;
    let (count, at) = spaced_u32_at(line, at)?;
    let call = Call::Read {
        handle,
        offset,
        count,
    };
    Ok((call, at))
}

#[tactic(auto, unfolding(crate::specs::Reading::fields_at))]
fn write_at(alloc: Global, line: &[u8], at: usize) -> Result<(Call, usize), TextFault>
    ensures { Gives (λ x. x) result (fields_at procedure.Write line.now at) }
{
    let ((handle, offset), at) = numbers_at(line, at)?;
    let (bytes, at) = spaced_bytes_at(alloc, line, at)?;
    let call = Call::Write {
        handle,
        offset,
        bytes,
    };
    Ok((call, at))
}

#[tactic(auto, unfolding(crate::specs::Reading::fields_at))]
fn create_at(alloc: Global, line: &[u8], at: usize) -> Result<(Call, usize), TextFault>
    ensures { Gives (λ x. x) result (fields_at procedure.Create line.now at) }
{
    let ((dir, name), at) = entry_at(alloc, line, at)?;
    let (attr, at) = spaced_attr_at(line, at)?;
    Ok((Call::Create { dir, name, attr }, at))
}

#[tactic(auto, unfolding(crate::specs::Reading::fields_at))]
fn remove_at(alloc: Global, line: &[u8], at: usize) -> Result<(Call, usize), TextFault>
    ensures { Gives (λ x. x) result (fields_at procedure.Remove line.now at) }
{
    let ((dir, name), at) = entry_at(alloc, line, at)?;
    Ok((Call::Remove { dir, name }, at))
}

#[tactic(auto, unfolding(crate::specs::Reading::fields_at))]
fn rename_at(alloc: Global, line: &[u8], at: usize) -> Result<(Call, usize), TextFault>
    ensures { Gives (λ x. x) result (fields_at procedure.Rename line.now at) }
{
    let ((dir, name), at) = entry_at(alloc, line, at)?;
    let (to_dir, at) = spaced_u32_at(line, at)?;
    let (to_name, at) = spaced_name_at(alloc, line, at)?;
    let call = Call::Rename {
        dir,
        name,
        to_dir,
        to_name,
    };
    Ok((call, at))
}

#[tactic(auto, unfolding(crate::specs::Reading::fields_at))]
fn link_at(alloc: Global, line: &[u8], at: usize) -> Result<(Call, usize), TextFault>
    ensures { Gives (λ x. x) result (fields_at procedure.Link line.now at) }
{
    let ((handle, dir), at) = numbers_at(line, at)?;
    let (name, at) = spaced_name_at(alloc, line, at)?;
    Ok((Call::Link { handle, dir, name }, at))
}

#[tactic(auto, unfolding(crate::specs::Reading::fields_at))]
fn symlink_at(alloc: Global, line: &[u8], at: usize) -> Result<(Call, usize), TextFault>
    ensures { Gives (λ x. x) result (fields_at procedure.SymLink line.now at) }
{
    let ((dir, name), at) = entry_at(alloc, line, at)?;
    let (text, at) = spaced_name_at(alloc, line, at)?;
    let (attr, at) = spaced_attr_at(line, at)?;
    let call = Call::SymLink {
        dir,
        name,
        text,
        attr,
    };
    Ok((call, at))
}

#[tactic(auto, unfolding(crate::specs::Reading::fields_at))]
fn make_dir_at(alloc: Global, line: &[u8], at: usize) -> Result<(Call, usize), TextFault>
    ensures { Gives (λ x. x) result (fields_at procedure.MkDir line.now at) }
{
    let ((dir, name), at) = entry_at(alloc, line, at)?;
    let (attr, at) = spaced_attr_at(line, at)?;
    Ok((Call::MkDir { dir, name, attr }, at))
}

#[tactic(auto, unfolding(crate::specs::Reading::fields_at))]
fn remove_dir_at(alloc: Global, line: &[u8], at: usize) -> Result<(Call, usize), TextFault>
    ensures { Gives (λ x. x) result (fields_at procedure.RmDir line.now at) }
{
    let ((dir, name), at) = entry_at(alloc, line, at)?;
    Ok((Call::RmDir { dir, name }, at))
}

#[tactic(auto, unfolding(crate::specs::Reading::fields_at))]
fn read_dir_at(line: &[u8], at: usize) -> Result<(Call, usize), TextFault>
    ensures { Gives (λ x. x) result (fields_at procedure.ReadDir line.now at) }
{
    let ((dir, cookie), at) = numbers_at(line, at)?;
    let (count, at) = spaced_u32_at(line, at)?;
    Ok((Call::ReadDir { dir, cookie, count }, at))
}

#[tactic(auto, unfolding(crate::specs::Reading::fields_at))]
fn stat_fs_at(line: &[u8], at: usize) -> Result<(Call, usize), TextFault>
    ensures { Gives (λ x. x) result (fields_at procedure.StatFs line.now at) }
{
    let (handle, at) = spaced_u32_at(line, at)?;
    Ok((Call::StatFs { handle }, at))
}

/// The fields of a call of this procedure.
#[tactic(auto, unfolding(crate::specs::Reading::fields_at))]
fn fields_at(
    alloc: Global,
    procedure: Procedure,
    line: &[u8],
    at: usize,
) -> Result<(Call, usize), TextFault>
    ensures { Gives (λ x. x) result (fields_at procedure line.now at) }
{
    match procedure {
        Procedure::Null => Ok((Call::Null, at)),
        Procedure::GetAttr => get_attr_at(line, at),
        Procedure::SetAttr => set_attr_at(line, at),
        Procedure::Lookup => lookup_at(alloc, line, at),
        Procedure::ReadLink => read_link_at(line, at),
        Procedure::Read => read_at(line, at),
        Procedure::Write => write_at(alloc, line, at),
        Procedure::Create => create_at(alloc, line, at),
        Procedure::Remove => remove_at(alloc, line, at),
        Procedure::Rename => rename_at(alloc, line, at),
        Procedure::Link => link_at(alloc, line, at),
        Procedure::SymLink => symlink_at(alloc, line, at),
        Procedure::MkDir => make_dir_at(alloc, line, at),
        Procedure::RmDir => remove_dir_at(alloc, line, at),
        Procedure::ReadDir => read_dir_at(line, at),
        Procedure::StatFs => stat_fs_at(line, at),
    }
}

/// How far a word goes along with the name of a procedure, where it went so far along with others.
fn far_along_calls(word: &[u8], reached: usize) -> usize
    requires { reached ≤ length word.now }
    ensures value { result ≡ farthest call_names word.now reached }
    ensures within { result ≤ length word.now }
{
    let far = farther(b"null", word, reached);
    let far = farther(b"getattr", word, far);
    let far = farther(b"setattr", word, far);
    let far = farther(b"lookup", word, far);
    let far = farther(b"readlink", word, far);
    let far = farther(b"read", word, far);
    let far = farther(b"write", word, far);
    let far = farther(b"create", word, far);
    let far = farther(b"remove", word, far);
    let far = farther(b"rename", word, far);
    let far = farther(b"link", word, far);
    let far = farther(b"symlink", word, far);
    let far = farther(b"mkdir", word, far);
    let far = farther(b"rmdir", word, far);
    let far = farther(b"readdir", word, far);
    farther(b"statfs", word, far)
}

/// The place of the fault of a word that names no procedure. Where no credential is told yet, it
/// may be `as` too.
fn no_call(word: &[u8], told: bool, at: usize) -> usize
    requires { at + length word.now < 2 ^ 64 }
    ensures { result ≡ at + farthest (asked_names told) word.now 0 }
{
    if told {
        return at + far_along_calls(word, 0);
    }
    at + far_along_calls(word, farther(b"as", word, 0))
}

/// A call. Where no credential is told yet, `as` may stand here too.
#[tactic(auto, unfolding(crate::specs::Reading::call_at))]
pub fn call_at(
    alloc: Global,
    line: &[u8],
    told: bool,
    at: usize,
) -> Result<(Call, usize), TextFault>
    requires { at ≤ length line.now }
    ensures { Gives (λ x. x) result (call_at told line.now at) }
{
    let word = word_at(line, at);
    match Procedure::named(word) {
        None => Err(TextFault::Grammar(no_call(word, told, at))),
        Some(procedure) => fields_at(alloc, procedure, line, at + word.len()),
    }
}
