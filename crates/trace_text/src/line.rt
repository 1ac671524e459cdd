//! Lines that are read, behind their names.

ghost use Rattle.std.specs.Prelude.{◌≡◌, ◌≤◌, ◌+◌, length, find, map, codes, IfOk};
ghost use Rattle.std.specs.Str.{bytes_eq};
ghost use Rattle.text_spelling.specs.TraceLines.{fault_text};
ghost use Rattle.schedule_text.specs.Fields.{Gives, spaced_at};
ghost use Rattle.schedule_text.specs.Words.{farthest};
ghost use Rattle.trace_text.specs.declared.form.LineForm.TheVariants as forms;
ghost use Rattle.trace_text.specs.Fields.{value_named};
ghost use Rattle.trace_text.specs.Reading.{entry_at, faults, fault_at, form_at};

use crate::cause::spaced_cause_at;
use crate::elementary::spaced_elementary_at;
use crate::field::sign_at;
use crate::form::LineForm;
use crate::listing::{block_at, listed_at, object_at, slot_at, text_at, unlisted_at};
use crate::message::spaced_message_at;
use crate::reply::spaced_reply_at;
use crate::state::state_at;
use harp_types::BookEntry;
use schedule_text::{
    TextFault, asked_at, asker_at, farther, space_at, spaced_count_at, spaced_server_at,
    spaced_u32_at, word_at,
};
use std::alloc::Global;
use trace_types::{Line, LineFault};

#[tactic(auto, unfolding(crate::specs::Reading::form_at))]
fn event_at(alloc: Global, line: &[u8], at: usize) -> Result<(Line, usize), TextFault>
    ensures { Gives (λ x. x) result (form_at forms.Event line.now at) }
{
    let (step, at) = spaced_elementary_at(alloc, line, at)?;
    Ok((Line::Event { step }, at))
}

/// An entry of the book, behind its place.
#[tactic(auto, unfolding(crate::specs::Reading::entry_at))]
fn entry_at(alloc: Global, line: &[u8], at: usize) -> Result<(BookEntry, usize), TextFault>
    ensures { Gives (λ x. x) result (entry_at line.now at) }
{
    let (index, at) = spaced_count_at(line, at)?;
    let (client, at) = spaced_u32_at(line, at)?;
    let (number, at) = spaced_count_at(line, at)?;
    let (stamp, at) = spaced_count_at(line, at)?;
    let ((cred, call), at) = asked_at(alloc, line, at)?;
    let at = space_at(line, at)?;
    let at = sign_at(line, b'=', at)?;
    let (reply, at) = spaced_reply_at(alloc, line, at)?;
    let entry = BookEntry {
        index,
        client,
        number,
        cred,
        stamp,
        call,
        reply,
    };
    Ok((entry, at))
}

#[tactic(auto, unfolding(crate::specs::Reading::form_at))]
fn entered_at(alloc: Global, line: &[u8], at: usize) -> Result<(Line, usize), TextFault>
    ensures { Gives (λ x. x) result (form_at forms.Entered line.now at) }
{
    let (place, at) = spaced_count_at(line, at)?;
    let (entry, at) = entry_at(alloc, line, at)?;
    Ok((Line::Entered { place, entry }, at))
}

#[tactic(auto, unfolding(crate::specs::Reading::form_at))]
fn answered_at(alloc: Global, line: &[u8], at: usize) -> Result<(Line, usize), TextFault>
    ensures { Gives (λ x. x) result (form_at forms.Answered line.now at) }
{
    let (((server, client), number), at) = asker_at(line, at)?;
    let (index, at) = spaced_count_at(line, at)?;
    let (reply, at) = spaced_reply_at(alloc, line, at)?;
    let answered = Line::Answered {
        server,
        client,
        number,
        index,
        reply,
    };
    Ok((answered, at))
}

#[tactic(auto, unfolding(crate::specs::Reading::form_at))]
fn refused_at(line: &[u8], at: usize) -> Result<(Line, usize), TextFault>
    ensures { Gives (λ x. x) result (form_at forms.Refused line.now at) }
{
    let (((server, client), number), at) = asker_at(line, at)?;
    let (cause, at) = spaced_cause_at(line, at)?;
    let refused = Line::Refused {
        server,
        client,
        number,
        cause,
    };
    Ok((refused, at))
}

#[tactic(auto, unfolding(crate::specs::Reading::form_at))]
fn sent_at(line: &[u8], at: usize) -> Result<(Line, usize), TextFault>
    ensures { Gives (λ x. x) result (form_at forms.Sent line.now at) }
{
    let (packet, at) = spaced_count_at(line, at)?;
    let (from, at) = spaced_server_at(line, at)?;
    let (to, at) = spaced_server_at(line, at)?;
    let (message, at) = spaced_message_at(line, at)?;
    let sent = Line::Sent {
        packet,
        from,
        to,
        message,
    };
    Ok((sent, at))
}

const FAULTS: [LineFault; 10] = [
    LineFault::Grammar,
    LineFault::TooLong,
    LineFault::TooMany,
    LineFault::NoPacket,
    LineFault::ServerDown,
    LineFault::ServerUp,
    LineFault::ClockBack,
    LineFault::ClockApart,
    LineFault::NoiseIsMessage,
    LineFault::NetFull,
];

fn fault_name(fault: LineFault) -> &'static [u8]
    ensures { result.now ≡ fault_text fault }
{
    match fault {
        LineFault::Grammar => b"grammar",
        LineFault::TooLong => b"too-long",
        LineFault::TooMany => b"too-many",
        LineFault::NoPacket => b"no-packet",
        LineFault::ServerDown => b"server-down",
        LineFault::ServerUp => b"server-up",
        LineFault::ClockBack => b"clock-back",
        LineFault::ClockApart => b"clock-apart",
        LineFault::NoiseIsMessage => b"noise-is-message",
        LineFault::NetFull => b"net-full",
    }
}

fn fault_named(word: &[u8]) -> Option<LineFault>
    ensures { result ≡ value_named fault_text faults word.now }
{
    FAULTS
        .iter()
        .copied()
        .find(|fault| word == fault_name(*fault))
}

/// How far a word goes along with the name of a cause.
fn far_along_faults(word: &[u8]) -> usize
    ensures value { result ≡ farthest (map fault_text faults) word.now 0 }
    ensures within { result ≤ length word.now }
{
    let far = farther(b"grammar", word, 0);
    let far = farther(b"too-long", word, far);
    let far = farther(b"too-many", word, far);
    let far = farther(b"no-packet", word, far);
    let far = farther(b"server-down", word, far);
    let far = farther(b"server-up", word, far);
    let far = farther(b"clock-back", word, far);
    let far = farther(b"clock-apart", word, far);
    let far = farther(b"noise-is-message", word, far);
    farther(b"net-full", word, far)
}

/// The cause for which a line of a schedule was refused, behind a space.
fn spaced_fault_at(line: &[u8], at: usize) -> Result<(LineFault, usize), TextFault>
    ensures { Gives (λ x. x) result (spaced_at fault_at line.now at) }
{
    let at = space_at(line, at)?;
    let word = word_at(line, at);
    match fault_named(word) {
        None => Err(TextFault::Grammar(at + far_along_faults(word))),
        Some(fault) => Ok((fault, at + word.len())),
    }
}

#[tactic(auto, unfolding(crate::specs::Reading::form_at))]
fn bad_at(line: &[u8], at: usize) -> Result<(Line, usize), TextFault>
    ensures { Gives (λ x. x) result (form_at forms.Bad line.now at) }
{
    let (place, at) = spaced_count_at(line, at)?;
    let (fault, at) = spaced_fault_at(line, at)?;
    Ok((Line::Bad { line: place, fault }, at))
}

#[tactic(auto, unfolding(crate::specs::Reading::form_at))]
fn last_at(line: &[u8], at: usize) -> Result<(Line, usize), TextFault>
    ensures { Gives (λ x. x) result (form_at forms.End line.now at) }
{
    let (entered, at) = spaced_count_at(line, at)?;
    Ok((Line::End { entered }, at))
}

/// A line of a form, behind its name.
#[tactic(auto, unfolding(crate::specs::Reading::form_at))]
pub fn form_at(
    alloc: Global,
    form: LineForm,
    line: &[u8],
    at: usize,
) -> Result<(Line, usize), TextFault>
    ensures { Gives (λ x. x) result (form_at form line.now at) }
{
    match form {
        LineForm::Event => event_at(alloc, line, at),
        LineForm::Entered => entered_at(alloc, line, at),
        LineForm::Answered => answered_at(alloc, line, at),
        LineForm::Refused => refused_at(line, at),
        LineForm::Sent => sent_at(line, at),
        LineForm::State => state_at(line, at),
        LineForm::Listed => listed_at(line, at),
        LineForm::Unlisted => unlisted_at(line, at),
        LineForm::Object => object_at(line, at),
        LineForm::Slot => slot_at(alloc, line, at),
        LineForm::Block => block_at(alloc, line, at),
        LineForm::Text => text_at(alloc, line, at),
        LineForm::Bad => bad_at(line, at),
        LineForm::End => last_at(line, at),
    }
}
