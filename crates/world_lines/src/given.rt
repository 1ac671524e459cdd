//! The lines that a server's step gives, and what it puts into the book and among the packets.

ghost use Rattle.std.specs.Prelude.{◌≡◌, ◌++◌, ◌∷◌, [], length, None, IfOk, OnOk};
ghost use Rattle.node_outputs.specs.Said.{said};
ghost use Rattle.world_lines.specs.Given.{answered_line, answered_lines, book_given, lines_given, packet_of, packets_of, refused_line, refused_lines, sent_line, sent_lines};

use crate::book::Book;
use crate::packets::Packets;
use crate::shown::shown;
use harp_types::ServerId;
use node_outputs::{Answered, Outputs, Refused, Sent};
use std::alloc::{AllocError, Global};
use trace_types::Line;
use tree_listing::Listing;

/// The line of an answer.
fn show_answer(server: ServerId, answer: Answered, lines: &mut Vec<Line>) -> Result<(), AllocError>
    ensures { OnOk result (lines.new.items ≡ lines.old.items
        ++ answered_line server answer ∷ []) }
{
    lines.push(Line::Answered {
        server,
        client: answer.client,
        number: answer.number,
        index: answer.index,
        reply: answer.reply,
    })?;
    Ok(())
}

/// The lines of the answers, which are taken out.
fn show_answers(
    server: ServerId,
    answers: &mut Vec<Answered>,
    lines: &mut Vec<Line>,
) -> Result<(), AllocError>
    ensures lines { OnOk result (lines.new.items ≡ lines.old.items
        ++ answered_lines server answers.old.items) }
    ensures left { OnOk result (answers.new.items ≡ []) }
{
    for answer in answers.drain(..) {
        show_answer(server, answer, lines)?;
    }
    Ok(())
}

/// The line of a refusal.
fn show_refusal(server: ServerId, refusal: Refused, lines: &mut Vec<Line>) -> Result<(), AllocError>
    ensures { OnOk result (lines.new.items ≡ lines.old.items ++ refused_line server refusal ∷ []) }
{
    lines.push(Line::Refused {
        server,
        client: refusal.client,
        number: refusal.number,
        cause: refusal.cause,
    })?;
    Ok(())
}

/// The lines of the refusals.
fn show_refusals(
    server: ServerId,
    refusals: &[Refused],
    lines: &mut Vec<Line>,
) -> Result<(), AllocError>
    ensures { OnOk result (lines.new.items ≡ lines.old.items ++ refused_lines server refusals.now) }
{
    for refusal in refusals {
        show_refusal(server, *refusal, lines)?;
    }
    Ok(())
}

/// A message between servers goes among the packets, with its line.
fn post(
    from: ServerId,
    send: Sent,
    packets: &mut Packets,
    lines: &mut Vec<Line>,
) -> Result<(), AllocError>
    ensures packets { OnOk result (packets.new ≡ packets.old ++ packet_of from send) }
    ensures lines { OnOk result (lines.new.items ≡ lines.old.items
        ++ sent_line from (length packets.old) send) }
{
    let Some(message) = shown(&send.message) else {
        return Ok(());
    };
    lines.push(Line::Sent {
        packet: packets.count(),
        from,
        to: send.to,
        message,
    })?;
    packets.send(from, send.to, send.message)?;
    Ok(())
}

/// The messages are taken out and go among the packets, with their lines.
fn post_all(
    from: ServerId,
    sends: &mut Vec<Sent>,
    packets: &mut Packets,
    lines: &mut Vec<Line>,
) -> Result<(), AllocError>
    ensures packets { OnOk result (packets.new ≡ packets.old ++ packets_of from sends.old.items) }
    ensures lines { OnOk result (lines.new.items ≡ lines.old.items
        ++ sent_lines from (length packets.old) sends.old.items) }
    ensures left { OnOk result (sends.new.items ≡ []) }
{
    for send in sends.drain(..) {
        post(from, send, packets, lines)?;
    }
    Ok(())
}

/// Puts a server's outputs, which are taken out, into the book, among the packets and into lines,
/// in the order of a trace, and gives back the tree that it listed.
pub fn give(
    alloc: Global,
    server: ServerId,
    outs: &mut Outputs,
    book: &mut Book,
    packets: &mut Packets,
    lines: &mut Vec<Line>,
) -> Result<Option<Listing>, AllocError>
    ensures book { OnOk result (book.new ≡ book_given book.old outs.old) }
    ensures packets { OnOk result (packets.new ≡ packets.old
        ++ packets_of server outs.old.sends.items) }
    ensures lines { OnOk result (lines.new.items ≡ lines.old.items
        ++ lines_given server book.old (length packets.old) outs.old) }
    ensures listed { IfOk result (λ listing. listing ≡ outs.old.listing) }
    // Of the outputs the refusals are left, and the views.
    ensures left { OnOk result (said outs.new ≡ record (said outs.old) {
      committed = [];
      answers = [];
      sends = [];
      listed = None;
    }) }
{
    book.enter_updates(alloc, &mut outs.committed, lines)?;
    book.enter_reads(alloc, outs.answers.as_slice(), lines)?;
    show_answers(server, &mut outs.answers, lines)?;
    show_refusals(server, outs.refusals.as_slice(), lines)?;
    post_all(server, &mut outs.sends, packets, lines)?;
    Ok(outs.listing.take())
}
