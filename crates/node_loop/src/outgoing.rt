//! What goes out of a step.

ghost use Rattle.std.specs.Prelude.{◌≡◌, ◌++◌, ◌∷◌, [], All, flat_map, map, IfOk, OnOk};
ghost use Rattle.wire.specs.Messages.{MessageFits};
ghost use Rattle.node_loop.specs.Outgoing.{AreSpelled, answer_sent, datagram, datagrams, heard_answer, heard_by};
ghost use Rattle.node_loop.specs.Outgoing.{heard_refusal, heards, message_sent, refusal_sent, sent_to};

use crate::heard::Heard;
use harp_types::{Peer, ServerId};
use node_link::SentDatagram;
use node_outputs::{Answered, Outputs, Refused, Sent};
use std::alloc::{AllocError, Global};
use std::collections::VecDeque;
use wire::{Message, encode};

/// The datagram of a message.
fn datagram(
    alloc: Global,
    place: ServerId,
    to: Peer,
    message: &Message,
) -> Result<SentDatagram, AllocError>
    ensures made { IfOk result (λ d. d ≡ datagram place to message.now) }
    ensures fits { OnOk result (MessageFits message.now) }
{
    let bytes = encode(alloc, message)?;
    Ok(SentDatagram { place, to, bytes })
}

/// A message goes out to a peer.
fn put(
    alloc: Global,
    place: ServerId,
    to: Peer,
    message: Message,
    out: &mut Vec<SentDatagram>,
) -> Result<(), AllocError>
    ensures out { OnOk result (out.new.items ≡ out.old.items ++ datagram place to message ∷ []) }
    ensures fits { OnOk result (MessageFits message) }
{
    let datagram = datagram(alloc, place, to, &message)?;
    out.push(datagram)?;
    Ok(())
}

/// Says something to who asked: the own program hears it, and another one gets a datagram.
fn tell(
    alloc: Global,
    place: ServerId,
    to: Peer,
    said: Heard,
    out: &mut Vec<SentDatagram>,
    heard: &mut VecDeque<Heard>,
) -> Result<(), AllocError>
    ensures sent { OnOk result (out.new.items ≡ out.old.items ++ sent_to place to said) }
    ensures heard { OnOk result (heard.new.items ≡ heard.old.items ++ heard_by to said) }
{
    match to {
        Peer::Local => {
            heard.push_back(said)?;
            Ok(())
        }
        Peer::Server(_) | Peer::Other { .. } => put(alloc, place, to, said.told(), out),
    }
}

/// The answers go to who asked.
fn tell_answers(
    alloc: Global,
    place: ServerId,
    answers: Vec<Answered>,
    out: &mut Vec<SentDatagram>,
    heard: &mut VecDeque<Heard>,
) -> Result<(), AllocError>
    ensures sent { OnOk result (out.new.items ≡ out.old.items
        ++ flat_map (answer_sent place) answers.items) }
    ensures heard { OnOk result (heard.new.items ≡ heard.old.items
        ++ flat_map heard_answer answers.items) }
{
    for answer in answers {
        let to = answer.peer;
        let said = Heard::answer(answer);
        tell(alloc, place, to, said, out, heard)?;
    }
    Ok(())
}

/// The refusals go to who asked.
fn tell_refusals(
    alloc: Global,
    place: ServerId,
    refusals: Vec<Refused>,
    out: &mut Vec<SentDatagram>,
    heard: &mut VecDeque<Heard>,
) -> Result<(), AllocError>
    ensures sent { OnOk result (out.new.items ≡ out.old.items
        ++ flat_map (refusal_sent place) refusals.items) }
    ensures heard { OnOk result (heard.new.items ≡ heard.old.items
        ++ flat_map heard_refusal refusals.items) }
{
    for refusal in refusals {
        let said = Heard::refusal(refusal);
        tell(alloc, place, refusal.peer, said, out, heard)?;
    }
    Ok(())
}

/// The messages go to their servers.
fn put_messages(
    alloc: Global,
    place: ServerId,
    sends: Vec<Sent>,
    out: &mut Vec<SentDatagram>,
) -> Result<(), AllocError>
    ensures sent { OnOk result (out.new.items ≡ out.old.items
        ++ map (message_sent place) sends.items) }
    ensures fit { OnOk result (All (λ s. MessageFits s.message) sends.items) }
{
    for sent in sends {
        put(alloc, place, Peer::Server(sent.to), sent.message, out)?;
    }
    Ok(())
}

/// The datagrams of a step's outputs, in the order in which they are sent: answers, refusals, and
/// messages to other servers. What goes to the own program is heard.
pub fn datagrams_of(
    alloc: Global,
    place: ServerId,
    outs: Outputs,
    heard: &mut VecDeque<Heard>,
) -> Result<Vec<SentDatagram>, AllocError>
    ensures sent { IfOk result (λ out. out.items ≡ datagrams place outs) }
    ensures heard { OnOk result (heard.new.items ≡ heard.old.items ++ heards outs) }
    ensures spelled { OnOk result (AreSpelled outs) }
{
    let Outputs {
        answers,
        refusals,
        sends,
        ..
    } = outs;
    let mut out = Vec::new(alloc);
    tell_answers(alloc, place, answers, &mut out, heard)?;
    tell_refusals(alloc, place, refusals, &mut out, heard)?;
    put_messages(alloc, place, sends, &mut out)?;
    Ok(out)
}
