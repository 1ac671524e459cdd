//! What a trace shows of messages.

ghost use Rattle.std.specs.Prelude.{◌≡◌, option_map};
ghost use Rattle.group_trace.specs.Shown.{message_shown};
ghost use Rattle.node_outputs.specs.Messages.{heard};

use trace_types::ShownMessage;
use wire::Message;

/// What a trace shows of a message between servers; nothing of one of a client.
#[tactic(auto, using(crate::proofs::Messages::id_back, crate::proofs::Messages::held_back, crate::proofs::Messages::leader_back, crate::proofs::Messages::partner_back, view_form::proofs::Views::view_back))]
pub fn shown(message: &Message) -> Option<ShownMessage>
    ensures { result ≡ option_map message_shown (heard message.now) }
{
    match message {
        Message::Invite { view } => Some(ShownMessage::Invite { view: *view }),
        Message::Join {
            view,
            held,
            accepted,
            base,
            lb,
            cp,
            top,
            horizon,
        } => Some(ShownMessage::Join {
            view: *view,
            held: *held,
            accepted: *accepted,
            base: *base,
            lb: *lb,
            cp: *cp,
            top: *top,
            horizon: horizon.get(),
        }),
        Message::Form {
            view,
            storers,
            source,
            base,
            cp,
            start,
            horizon,
        } => Some(ShownMessage::Form {
            view: *view,
            leader: storers.leader(),
            partner: storers.partner(),
            source: *source,
            base: *base,
            cp: *cp,
            start: *start,
            horizon: horizon.get(),
        }),
        Message::Fetch { view, first } => Some(ShownMessage::Fetch {
            view: *view,
            first: *first,
        }),
        Message::Give {
            view,
            first,
            records,
        } => Some(ShownMessage::Give {
            view: *view,
            first: *first,
            records: records.as_slice().len() as u64,
        }),
        Message::Formed { view, lb } => Some(ShownMessage::Formed {
            view: *view,
            lb: *lb,
        }),
        Message::Event {
            view,
            cp,
            base,
            record,
        } => {
            let record = record.fields();
            Some(ShownMessage::Event {
                view: *view,
                index: record.index.get(),
                cp: *cp,
                base: *base,
                client: record.client,
                number: record.number,
            })
        }
        Message::Beat { view, cp, base } => Some(ShownMessage::Beat {
            view: *view,
            cp: *cp,
            base: *base,
        }),
        Message::Ack {
            view,
            top,
            lb,
            until,
        } => Some(ShownMessage::Ack {
            view: *view,
            top: *top,
            lb: *lb,
            until: until.get(),
        }),
        Message::Demote { view } => Some(ShownMessage::Demote { view: *view }),
        Message::Ask { .. } => None,
        Message::Answer { .. } => None,
        Message::CannotServe { .. } => None,
    }
}
