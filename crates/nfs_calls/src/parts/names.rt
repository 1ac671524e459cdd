//! Names, and refusals by a test.

ghost use Rattle.std.specs.Prelude.{◌≡◌, IfOk};
ghost use Rattle.std.specs.List.{list_any};
ghost use Rattle.file_tree.specs.Tries.{refuse, is_dot, is_dot_dot, is_dots, is_odd_byte, is_odd, check_name, entry_name};
ghost use Rattle.nfs_calls.specs.NewEntries.{FitsName};

use harp_types::{LONGEST_NAME, Status};

/// A refusal, where its cause holds.
pub fn refuse(status: Status, when: bool) -> Result<(), Status>
    ensures { result ≡ refuse status when }
{
    if when { Err(status) } else { Ok(()) }
}

pub fn is_dot(name: &[u8]) -> bool
    ensures { result ≡ is_dot name.now }
{
    name == b".".as_slice()
}

pub fn is_dot_dot(name: &[u8]) -> bool
    ensures { result ≡ is_dot_dot name.now }
{
    name == b"..".as_slice()
}

/// `.` or `..`.
pub fn is_dots(name: &[u8]) -> bool
    ensures { result ≡ is_dots name.now }
{
    is_dot(name) || is_dot_dot(name)
}

fn is_odd_byte(b: u8) -> bool
    ensures { result ≡ is_odd_byte b }
{
    b == b'/' || b == 0
}

fn has_odd_byte(name: &[u8]) -> bool
    ensures { result ≡ list_any is_odd_byte name.now }
{
    name.iter().any(|b| is_odd_byte(*b))
}

fn is_odd(name: &[u8]) -> bool
    ensures { result ≡ is_odd name.now }
{
    name.is_empty() || has_odd_byte(name)
}

/// A name of 1 to 255 bytes without a slash or a zero.
pub fn check_name(name: &[u8]) -> Result<(), Status>
    ensures step { result ≡ check_name name.now }
    ensures fits { IfOk result (λ _. FitsName name.now) }
{
    refuse(Status::NameTooLong, name.len() > LONGEST_NAME)?;
    refuse(Status::Acces, is_odd(name))?;
    Ok(())
}

/// A name that an entry can have.
pub fn entry_name(name: &[u8]) -> Result<(), Status>
    ensures step { result ≡ entry_name name.now }
    ensures fits { IfOk result (λ _. FitsName name.now) }
{
    check_name(name)?;
    refuse(Status::Exist, is_dots(name))?;
    Ok(())
}
