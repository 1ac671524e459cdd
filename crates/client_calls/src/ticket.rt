//! What a call is known by.

ghost use Rattle.std.specs.Prelude.{◌≡◌, ◌==◌, ◌&&◌};

use harp_types::Cred;

/// Of which servers a call is asked, by the port of the first, for which client, and under which
/// number.
#[derive(Clone, Copy)]
pub struct Ticket {
    pub port: u16,
    pub client: u32,
    pub number: u64,
    pub cred: Cred,
}

impl Ticket {
    /// Whether it is this client's, and has this number.
    pub fn is_of(self, client: u32, number: u64) -> bool
        ensures { result ≡ ((client == self.client) && (number == self.number)) }
    {
        client == self.client && number == self.number
    }
}
