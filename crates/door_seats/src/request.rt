//! Records that are told apart.

ghost use Rattle.std.specs.Prelude.{◌≡◌};
ghost use Rattle.std.proofs.Common.{ap};
ghost use Rattle.std.specs.Cmp.{partial_equiv_from_equiv};
ghost use Rattle.std.specs.Cmp.Lexicographic.{bytes_decides, nat_list_eq_equiv};
ghost use Rattle.std.specs.Hash as fed;
ghost use Rattle.door_seats.specs.Kept.{hashed, is_bytes};

use std::hash::{Hash, Hasher};
use std::marker::Model;

/// So many bytes of a record are hashed. The number that its sender gave it is among them.
const HASHED: usize = 64;

/// A record. Two are the same where all of their bytes are; but hashed are only the first ones,
/// and how many there are.
#[derive(Drop)]
pub struct Request {
    bytes: Vec<u8>,
}

impl Model for Request {
    ghost use Rattle.std.specs.Prelude.{ℕ, List};

    ghost Value = { List ℕ };

    ghost view = { λ r. r.bytes.items };
}

impl Request {
    /// The record of these bytes, which aren't copied.
    pub fn new(bytes: Vec<u8>) -> Request
        ensures { result ≡ bytes.items }
    {
        Request { bytes }
    }

    /// Its bytes.
    pub fn as_slice(&self) -> &[u8]
        ensures { result.now ≡ self.now }
    {
        self.bytes.as_slice()
    }
}

impl PartialEq for Request {
    ghost eq = { is_bytes };

    ghost laws = { partial_equiv_from_equiv nat_list_eq_equiv };

    fn eq(&self, other: &Request) -> bool {
        self.bytes == other.bytes
    }
}

impl Eq for Request {
    ghost laws = { nat_list_eq_equiv };
}

impl Hash for Request {
    ghost hash_input = { hashed };

    ghost respects_eq = { λ x y same. ap hashed ((bytes_decides x y).0 same) };

    fn hash<H: Hasher>(&self, state: &mut H) {
        let count = self.bytes.len();
        self.bytes[..count.min(HASHED)].hash(state);
        count.hash(state);
    }
}
