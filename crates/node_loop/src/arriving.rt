//! Datagrams that come.

ghost use Rattle.std.specs.Prelude.{◌≡◌, IfOk};
ghost use Rattle.node_loop.specs.Arriving.{Arrives, from_server, input_of};

use harp_types::Peer;
use node::Input;
use node_link::Datagram;
use std::alloc::{AllocError, Global};
use wire::{DecodeFault, Message, decode};

// A server's message, where a server sent it.
fn from_server(from: Peer, message: Message) -> Option<Input>
    ensures { result ≡ from_server from message }
{
    match from {
        Peer::Server(from) => Some(Input::Message { from, message }),
        Peer::Local | Peer::Other { .. } => None,
    }
}

// What a message from a peer gives to a server: a call whoever asks it, and a server's message
// where a server sent it. An answer gives nothing.
fn input_of(from: Peer, message: Message) -> Option<Input>
    ensures { result ≡ input_of from message }
{
    match message {
        Message::Ask {
            client,
            number,
            cred,
            call,
        } => Some(Input::Ask {
            peer: from,
            client,
            number,
            cred,
            call,
        }),
        Message::Answer { .. } => None,
        Message::CannotServe { .. } => None,
        message => from_server(from, message),
    }
}

/// What a datagram gives to a server; None where its bytes are no message, or one that gives
/// nothing.
pub fn arrived(alloc: Global, datagram: &Datagram) -> Result<Option<Input>, AllocError>
    ensures { IfOk result (λ input. Arrives datagram.now input) }
{
    match decode(alloc, datagram.bytes.as_slice()) {
        Ok(message) => Ok(input_of(datagram.from, message)),
        Err(DecodeFault::NoMemory) => Err(AllocError),
        Err(DecodeFault::Short(_)) => Ok(None),
        Err(DecodeFault::BadTag(_)) => Ok(None),
        Err(DecodeFault::Trailing(_)) => Ok(None),
        Err(DecodeFault::TooLong(_)) => Ok(None),
    }
}
