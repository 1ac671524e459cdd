//! How many bytes messages have.

ghost use Rattle.std.specs.Prelude.{◌≡◌, length};
ghost use Rattle.wire.specs.Messages.{message_bytes};

use event_record::fields::{call_size, record_size, records_size, reply_size};
use wire::Message;

/// How many bytes a message has. It isn't spelled.
#[tactic(auto, using(crate::proofs::Sizes::sizes))]
pub(crate) fn message_size(message: &Message) -> u64
    ensures { result ≡ length (message_bytes message.now) }
{
    match message {
        Message::Event { record, .. } => 26 + record_size(record) as u64,
        Message::Give { records, .. } => 20 + records_size(records.as_slice()) as u64,
        Message::Invite { .. } | Message::Demote { .. } => 10,
        Message::Fetch { .. } | Message::Formed { .. } => 18,
        Message::Beat { .. } => 26,
        Message::Ack { .. } => 34,
        Message::Form { .. } => 45,
        Message::Join { .. } => 60,
        Message::Ask { call, .. } => 21 + call_size(call) as u64,
        Message::Answer { reply, .. } => 21 + reply_size(reply) as u64,
        Message::CannotServe { .. } => 15,
    }
}
