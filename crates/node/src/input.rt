//! What a server is given.

ghost use Rattle.std.specs.Prelude.{◌≡◌, is_some};
ghost use Rattle.node.specs.Input.{input_of};
ghost use Rattle.node_outputs.specs.Messages.{heard};

use harp_types::{Call, Cred, Peer, ServerId};
use wire::Message;

/// What a server is given.
#[derive(Drop)]
pub enum Input {
    /// Its time has come to send again what may be lost.
    Tick,
    /// It heard too little of the other storer of its view.
    Suspect,
    /// A server's message.
    Message {
        from: ServerId,
        message: Message,
    },
    /// A client's call. The client numbers its calls.
    Ask {
        peer: Peer,
        client: u32,
        number: u64,
        cred: Cred,
        call: Call,
    },
    /// So many updates are put on the disk, at most.
    Apply {
        most: u32,
    },
    /// The disk is synced, and its mark says so.
    Flush,
    /// Its tree is listed.
    List,
}

impl Input {
    /// Whether a server does something with it. A client's message comes by another way, and is
    /// nothing as a server's.
    pub(crate) fn is_heeded(&self) -> bool
        ensures { result ≡ is_some (input_of self.now) }
    {
        match self {
            Input::Tick => true,
            Input::Suspect => true,
            Input::Message { message, .. } => is_heard(message),
            Input::Ask { .. } => true,
            Input::Apply { .. } => true,
            Input::Flush => true,
            Input::List => true,
        }
    }
}

/// Whether a message is one between servers.
fn is_heard(message: &Message) -> bool
    ensures { result ≡ is_some (heard message.now) }
{
    match message {
        Message::Invite { .. } => true,
        Message::Join { .. } => true,
        Message::Form { .. } => true,
        Message::Fetch { .. } => true,
        Message::Give { .. } => true,
        Message::Formed { .. } => true,
        Message::Event { .. } => true,
        Message::Beat { .. } => true,
        Message::Ack { .. } => true,
        Message::Demote { .. } => true,
        Message::Ask { .. } => false,
        Message::Answer { .. } => false,
        Message::CannotServe { .. } => false,
    }
}
