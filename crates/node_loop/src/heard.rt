//! What a server sends to the program that it runs in.

ghost use Rattle.std.specs.Prelude.{◌≡◌};
ghost use Rattle.node_loop.specs.Outgoing.{answer_heard, refusal_heard, told_of};

use harp_types::{Cause, Reply};
use node_outputs::{Answered, Refused};
use wire::Message;

/// What a server says of a call to who asked it.
#[derive(Drop)]
pub enum Heard {
    /// The answer to a client's call: of an update its place among the updates, from 1; of a read
    /// how many updates are committed.
    Answer {
        client: u32,
        number: u64,
        index: u64,
        reply: Reply,
    },
    /// A client's call is refused. The cause may hint at who leads.
    CannotServe {
        client: u32,
        number: u64,
        cause: Cause,
    },
}

impl Heard {
    /// An answer.
    pub(crate) fn answer(answer: Answered) -> Heard
        ensures { result ≡ answer_heard answer }
    {
        Heard::Answer {
            client: answer.client,
            number: answer.number,
            index: answer.index,
            reply: answer.reply,
        }
    }

    /// A refusal.
    pub(crate) fn refusal(refusal: Refused) -> Heard
        ensures { result ≡ refusal_heard refusal }
    {
        Heard::CannotServe {
            client: refusal.client,
            number: refusal.number,
            cause: refusal.cause,
        }
    }

    /// As another program is told it.
    pub(crate) fn told(self) -> Message
        ensures { result ≡ told_of self }
    {
        match self {
            Heard::Answer {
                client,
                number,
                index,
                reply,
            } => Message::Answer {
                client,
                number,
                index,
                reply,
            },
            Heard::CannotServe {
                client,
                number,
                cause,
            } => Message::CannotServe {
                client,
                number,
                cause,
            },
        }
    }
}
