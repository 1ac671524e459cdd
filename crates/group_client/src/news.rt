//! What datagrams say of a call.

ghost use Rattle.std.specs.Prelude.{◌≡◌, ◌≤◌, IfOk};
ghost use Rattle.node_link.specs.Traffic.{last_port};
ghost use Rattle.group_client.specs.Rule.{AnswersRightly, answer_said, asked, news, refusal_said};
ghost use Rattle.group_client.specs.Rule.{said};

use client_calls::{Ticket, server_of};
use harp_types::{Call, Cause, Reply, ServerId};
use node_link::Datagram;
use rpc_door::is_reply_to;
use std::alloc::{AllocError, Global};
use wire::{DecodeFault, Message, decode};

/// A reply, and the server that it is from.
#[derive(Drop)]
pub struct Replied {
    pub by: ServerId,
    pub reply: Reply,
}

/// What a datagram says of a call.
#[derive(Drop)]
pub enum News {
    Nothing,
    /// A server can't serve it.
    Refused { by: ServerId, cause: Cause },
    /// A server answers it.
    Answered(Replied),
}

/// What an answer of a server says of a call: nothing where it is of another one, or no reply to
/// this one.
fn answered(
    server: ServerId,
    ticket: Ticket,
    call: &Call,
    client: u32,
    number: u64,
    reply: Reply,
) -> News
    ensures said { result ≡ answer_said server (asked ticket call.now) client number reply }
    ensures form { AnswersRightly call.now result }
{
    if ticket.is_of(client, number) && is_reply_to(call, &reply) {
        News::Answered(Replied { by: server, reply })
    } else {
        News::Nothing
    }
}

/// What a refusal says of it.
fn refused(server: ServerId, ticket: Ticket, client: u32, number: u64, cause: Cause) -> News
    ensures { result ≡ refusal_said server ticket client number cause }
{
    if ticket.is_of(client, number) {
        News::Refused { by: server, cause }
    } else {
        News::Nothing
    }
}

/// What a message of a server says of a call.
pub fn said(server: ServerId, ticket: Ticket, call: &Call, message: Message) -> News
    ensures said { result ≡ said server (asked ticket call.now) message }
    ensures form { AnswersRightly call.now result }
{
    match message {
        Message::Answer {
            client,
            number,
            reply,
            ..
        } => answered(server, ticket, call, client, number, reply),
        Message::CannotServe {
            client,
            number,
            cause,
        } => refused(server, ticket, client, number, cause),
        other => {
            drop(other);
            News::Nothing
        }
    }
}

/// What a datagram says of a call.
pub fn heard_in(
    alloc: Global,
    ticket: Ticket,
    call: &Call,
    datagram: &Datagram,
) -> Result<News, AllocError>
    requires { ticket.port ≤ last_port }
    ensures news { IfOk result (λ n. n ≡ news (asked ticket call.now) datagram.now) }
    ensures form { IfOk result (λ n. AnswersRightly call.now n) }
{
    let Some(server) = server_of(ticket.port, datagram.from) else {
        return Ok(News::Nothing);
    };
    match decode(alloc, datagram.bytes.as_slice()) {
        Ok(message) => Ok(said(server, ticket, call, message)),
        Err(DecodeFault::NoMemory) => Err(AllocError),
        Err(_) => Ok(News::Nothing),
    }
}
