//! Messages as values.

ghost use Rattle.std.specs.Prelude.{◌≡◌, IfOk};

use crate::records::Records;
use crate::storers::Storers;
use event_record::Record;
use harp_types::{Call, Cause, Cred, Held, Reply, ServerId, ViewNo};
use promise::Deadline;
use std::alloc::{AllocError, Global};

/// A message: one datagram between two servers, or between a client and a server. The counts of
/// updates are those of the sender: `base` of those dropped from the log, `lb` on disk, `cp` known
/// committed, `top` held.
#[derive(Drop)]
pub enum Message {
    /// The coordinator of a view change invites a server to a view.
    Invite {
        view: ViewNo,
    },
    /// A server joins a view, and tells what it has: its log or its want of one, the view that it
    /// accepted, its counts, and until when it promised to help no other view.
    Join {
        view: ViewNo,
        held: Held,
        accepted: ViewNo,
        base: u64,
        lb: u64,
        cp: u64,
        top: u64,
        horizon: Deadline,
    },
    /// The coordinator's choice: the storers, the server that has the updates up to `start`, the
    /// view's base and CP, and the moment before which the view doesn't open.
    Form {
        view: ViewNo,
        storers: Storers,
        source: ServerId,
        base: u64,
        cp: u64,
        start: u64,
        horizon: Deadline,
    },
    /// A storer wants the source's records from this index on.
    Fetch {
        view: ViewNo,
        first: u64,
    },
    /// The source's records from this index on.
    Give {
        view: ViewNo,
        first: u64,
        records: Records,
    },
    /// The partner has all that the view begins with.
    Formed {
        view: ViewNo,
        lb: u64,
    },
    /// A record that the leader appended, for the partner to append to its log (Harp paper).
    Event {
        view: ViewNo,
        cp: u64,
        base: u64,
        record: Record,
    },
    /// What an Event tells beside its record. It renews the partner's promise where no calls come.
    Beat {
        view: ViewNo,
        cp: u64,
        base: u64,
    },
    /// The partner's answer to an Event or a Beat. It acknowledges all records up to its top, and
    /// promises to help no other view before a moment (Harp paper).
    Ack {
        view: ViewNo,
        top: u64,
        lb: u64,
        until: Deadline,
    },
    /// The view has opened without the witness, which may drop its log.
    Demote {
        view: ViewNo,
    },
    /// A client's call. The client numbers its calls.
    Ask {
        client: u32,
        number: u64,
        cred: Cred,
        call: Call,
    },
    /// The reply to a call, with the index of an update, or the CP at which a read was answered.
    Answer {
        client: u32,
        number: u64,
        index: u64,
        reply: Reply,
    },
    /// A call that is refused.
    CannotServe {
        client: u32,
        number: u64,
        cause: Cause,
    },
}

impl Message {
    /// An equal message.
    pub fn copy(&self, alloc: Global) -> Result<Message, AllocError>
        ensures { IfOk result (λ copy. copy ≡ self.now) }
    {
        match self {
            Message::Give {
                view,
                first,
                records,
            } => Ok(Message::Give {
                view: *view,
                first: *first,
                records: records.copy(alloc)?,
            }),
            Message::Event {
                view,
                cp,
                base,
                record,
            } => Ok(Message::Event {
                view: *view,
                cp: *cp,
                base: *base,
                record: record.copy(alloc)?,
            }),
            Message::Ask {
                client,
                number,
                cred,
                call,
            } => Ok(Message::Ask {
                client: *client,
                number: *number,
                cred: *cred,
                call: call.copy(alloc)?,
            }),
            Message::Answer {
                client,
                number,
                index,
                reply,
            } => Ok(Message::Answer {
                client: *client,
                number: *number,
                index: *index,
                reply: reply.copy(alloc)?,
            }),
            Message::Invite { view } => Ok(Message::Invite { view: *view }),
            Message::Join {
                view,
                held,
                accepted,
                base,
                lb,
                cp,
                top,
                horizon,
            } => Ok(Message::Join {
                view: *view,
                held: *held,
                accepted: *accepted,
                base: *base,
                lb: *lb,
                cp: *cp,
                top: *top,
                horizon: *horizon,
            }),
            Message::Form {
                view,
                storers,
                source,
                base,
                cp,
                start,
                horizon,
            } => Ok(Message::Form {
                view: *view,
                storers: *storers,
                source: *source,
                base: *base,
                cp: *cp,
                start: *start,
                horizon: *horizon,
            }),
            Message::Fetch { view, first } => Ok(Message::Fetch {
                view: *view,
                first: *first,
            }),
            Message::Formed { view, lb } => Ok(Message::Formed {
                view: *view,
                lb: *lb,
            }),
            Message::Beat { view, cp, base } => Ok(Message::Beat {
                view: *view,
                cp: *cp,
                base: *base,
            }),
            Message::Ack {
                view,
                top,
                lb,
                until,
            } => Ok(Message::Ack {
                view: *view,
                top: *top,
                lb: *lb,
                until: *until,
            }),
            Message::Demote { view } => Ok(Message::Demote { view: *view }),
            Message::CannotServe {
                client,
                number,
                cause,
            } => Ok(Message::CannotServe {
                client: *client,
                number: *number,
                cause: *cause,
            }),
        }
    }
}
