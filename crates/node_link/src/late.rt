//! Invites of the witness, which are given late.

ghost use Rattle.std.specs.Prelude.{◌≡◌, None, Some};
ghost use Rattle.node_link.specs.Lateness.{begins_invite, from_when, given_at, is_invite, left_at};

use crate::link::Datagram;
use harp_types::Peer;

/// The first byte of an Invite.
const INVITE: u8 = 1;

/// How many milliseconds late an Invite is given.
const LATE_BY: u64 = 100;

/// The Invite that came to the witness and is kept back, and from which reading of a clock on it is
/// given, in milliseconds.
#[derive(Drop)]
pub struct Late {
    from: u64,
    kept: Option<Datagram>,
}

impl Late {
    /// Nothing is kept back.
    pub fn new() -> Late
        ensures { result ≡ record { from = 0; kept = None } }
    {
        Late {
            from: 0,
            kept: None,
        }
    }

    /// What is kept back, once its time has come.
    pub fn take(&mut self, now: u64) -> Option<Datagram>
        ensures given { result ≡ given_at now self.old }
        ensures left { self.new ≡ left_at now self.old }
    {
        if self.from <= now {
            self.kept.take()
        } else {
            None
        }
    }

    /// Keeps an Invite back that came at this reading. One that is kept back is lost for it.
    pub fn keep(&mut self, now: u64, invite: Datagram)
        ensures { self.new ≡ record { from = from_when now self.old; kept = Some invite } }
    {
        if self.kept.is_none() {
            self.from = now.saturating_add(LATE_BY);
        }
        self.kept = Some(invite);
    }
}

// Whether the first byte is that of an Invite.
fn begins_invite(bytes: &[u8]) -> bool
    ensures { result ≡ begins_invite bytes.now }
{
    match bytes.first() {
        Some(byte) => *byte == INVITE,
        None => false,
    }
}

/// Whether a datagram is a server's Invite.
pub fn is_invite(datagram: &Datagram) -> bool
    ensures { result ≡ is_invite datagram.now.from datagram.now.bytes }
{
    match datagram.from {
        Peer::Server(_) => begins_invite(datagram.bytes.as_slice()),
        Peer::Local => false,
        Peer::Other { .. } => false,
    }
}
