//! A call that is asked, and what is outside of who asks it.

ghost use Rattle.std.specs.Prelude.{◌≡◌, ◌≤◌, IfOk};
ghost use Rattle.wire.specs.Messages.{message_bytes};
ghost use Rattle.group_client.specs.Rule.{ask_message, asked};

use client_calls::Ticket;
use harp_types::{Bytes, Call};
use std::alloc::{AllocError, Global};
use wire::{Message, encode};

/// A call that is asked, and the bytes of its ask.
#[derive(Drop)]
pub struct Asking<'a> {
    pub ticket: Ticket,
    pub call: &'a Call,
    pub bytes: Bytes,
    ghost port: { ticket.port ≤ 65533 },
    ghost spelled: { bytes ≡ message_bytes (ask_message (asked ticket call.now)) },
}

/// What a client sends and takes datagrams by, and what tells it the time.
#[derive(Drop)]
pub struct Outside<L, C> {
    pub link: L,
    pub clock: C,
}

/// The bytes of a message, which is let go by a call: what each form holds is dropped nowhere else.
fn encoded(alloc: Global, message: Message) -> Result<Bytes, AllocError>
    ensures { IfOk result (λ bytes. bytes ≡ message_bytes message) }
{
    let bytes = encode(alloc, &message);
    drop(message);
    bytes
}

/// The bytes of the message that asks a call.
pub fn ask_bytes(alloc: Global, ticket: Ticket, call: &Call) -> Result<Bytes, AllocError>
    ensures { IfOk result (λ bytes. bytes ≡ message_bytes (ask_message (asked ticket call.now))) }
{
    let call = call.copy(alloc)?;
    let bytes = encoded(
        alloc,
        Message::Ask {
            client: ticket.client,
            number: ticket.number,
            cred: ticket.cred,
            call,
        },
    )?;
    Ok(bytes)
}
