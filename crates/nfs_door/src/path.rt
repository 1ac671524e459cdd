//! The names of a path.

ghost use Rattle.std.specs.Prelude.{◌≡◌, ◌∷◌, [], ◌≤◌, not, length, IfOk, MatchOption};
ghost use Rattle.std.specs.List.{position_or_len};
ghost use Rattle.nfs_door.specs.Paths.{is_absolute, is_slash, names_in};

use harp_types::{Bounded, LONGEST_ARGUMENT, LONGEST_PATH};
use std::alloc::{AllocError, Global};
use std::marker::Model;

const SLASH: u8 = b'/';

/// Whether a path begins with a slash.
pub(crate) fn is_absolute(path: &[u8]) -> bool
    ensures { result ≡ is_absolute path.now }
{
    match path.first() {
        Some(byte) => *byte == SLASH,
        None => false,
    }
}

/// How many slashes a path begins with.
fn slashes(path: &[u8]) -> usize
    ensures value { result ≡ position_or_len (λ b. not (is_slash b)) path.now }
    ensures few { result ≤ length path.now }
{
    for (place, byte) in path.iter().enumerate() {
        if *byte != SLASH {
            return place;
        }
    }
    path.len()
}

/// How many bytes a path has before its first slash.
fn name_length(path: &[u8]) -> usize
    ensures value { result ≡ position_or_len is_slash path.now }
    ensures few { result ≤ length path.now }
{
    for (place, byte) in path.iter().enumerate() {
        if *byte == SLASH {
            return place;
        }
    }
    path.len()
}

/// The names of a path that are still to be looked up. It holds the rest of the path.
#[derive(Drop)]
pub struct Names {
    path: Bounded<LONGEST_PATH>,
}

impl Model for Names {
    ghost use Rattle.std.specs.Prelude.{ℕ, List};
    ghost use Rattle.nfs_door.specs.Paths.{names_in};

    ghost Value = { List (List ℕ) };

    ghost view = { λ n. names_in n.path };
}

impl Names {
    /// The names of a path.
    pub fn of(path: Bounded<LONGEST_PATH>) -> Names
        ensures { result ≡ names_in path }
    {
        Names { path }
    }

    /// The first name, and the others.
    pub fn split_first(
        &self,
        alloc: Global,
    ) -> Result<Option<(Bounded<LONGEST_ARGUMENT>, Names)>, AllocError>
        ensures { IfOk result (λ first. MatchOption first (self.now ≡ [])
            (λ x. self.now ≡ x.0 ∷ x.1)) }
    {
        let path = self.path.as_slice();
        let rest = &path[slashes(path)..];
        let count = name_length(rest);
        if count == 0 {
            return Ok(None);
        }
        let name = Vec::from_slice(alloc, &rest[..count])?;
        let others = Vec::from_slice(alloc, &rest[count..])?;
        let names = Names {
            path: Bounded::new(others),
        };
        Ok(Some((Bounded::new(name), names)))
    }
}
