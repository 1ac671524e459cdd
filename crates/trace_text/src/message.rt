//! Messages that are read.

ghost use Rattle.std.specs.Prelude.{◌≡◌, ◌≤◌, ◌<◌, ◌^◌, length, IfOk};
ghost use Rattle.schedule_text.specs.Fields.{Gives, spaced_at};
ghost use Rattle.trace_text.specs.declared.message_form.MessageForm.TheVariants as forms;
ghost use Rattle.trace_text.specs.Messages.{storers_at, spaced_index_at, three_at, message_fields_at, message_at};

use crate::field::{spaced_held_at, spaced_view_at};
use crate::message_form::{MessageForm, form_at};
use harp_types::ServerId;
use schedule_text::{
    TextFault, ranged_at, space_at, spaced_count_at, spaced_server_at, spaced_u32_at,
};
use trace_types::ShownMessage;

/// The two storers of a view, in the order of their numbers.
#[tactic(auto, unfolding(crate::specs::Messages::storers_at))]
fn storers_at(line: &[u8], at: usize) -> Result<((ServerId, ServerId), usize), TextFault>
    ensures { Gives (λ x. x) result (storers_at line.now at) }
{
    let (leader, next) = spaced_server_at(line, at)?;
    if leader.number() >= 2 {
        return Err(TextFault::Grammar(at + 1));
    }
    let (partner, end) = spaced_server_at(line, next)?;
    if leader.number() >= partner.number() {
        return Err(TextFault::Grammar(next + 1));
    }
    Ok(((leader, partner), end))
}

/// An index of a record, from 1.
fn spaced_index_at(line: &[u8], at: usize) -> Result<(u64, usize), TextFault>
    ensures { Gives (λ x. x) result (spaced_index_at line.now at) }
{
    let at = space_at(line, at)?;
    ranged_at(line, 1, 999999999999999999, at)
}

/// Three numbers.
pub fn three_at(line: &[u8], at: usize) -> Result<(((u64, u64), u64), usize), TextFault>
    ensures { Gives (λ x. x) result (three_at line.now at) }
{
    let (first, at) = spaced_count_at(line, at)?;
    let (second, at) = spaced_count_at(line, at)?;
    let (third, at) = spaced_count_at(line, at)?;
    Ok((((first, second), third), at))
}

#[tactic(auto, unfolding(crate::specs::Messages::message_fields_at))]
fn invite_at(line: &[u8], at: usize) -> Result<(ShownMessage, usize), TextFault>
    ensures { Gives (λ x. x) result (message_fields_at forms.Invite line.now at) }
{
    let (view, at) = spaced_view_at(line, at)?;
    Ok((ShownMessage::Invite { view }, at))
}

#[tactic(auto, unfolding(crate::specs::Messages::message_fields_at))]
fn join_at(line: &[u8], at: usize) -> Result<(ShownMessage, usize), TextFault>
    ensures { Gives (λ x. x) result (message_fields_at forms.Join line.now at) }
{
    let (view, at) = spaced_view_at(line, at)?;
    let (held, at) = spaced_held_at(line, at)?;
    let (accepted, at) = spaced_view_at(line, at)?;
    let (((base, lb), cp), at) = three_at(line, at)?;
    let (top, at) = spaced_count_at(line, at)?;
    let (horizon, at) = spaced_count_at(line, at)?;
    let join = ShownMessage::Join {
        view,
        held,
        accepted,
        base,
        lb,
        cp,
        top,
        horizon,
    };
    Ok((join, at))
}

#[tactic(auto, unfolding(crate::specs::Messages::message_fields_at))]
fn choice_at(line: &[u8], at: usize) -> Result<(ShownMessage, usize), TextFault>
    ensures { Gives (λ x. x) result (message_fields_at forms.Form line.now at) }
{
    let (view, at) = spaced_view_at(line, at)?;
    let ((leader, partner), at) = storers_at(line, at)?;
    let (source, at) = spaced_server_at(line, at)?;
    let (((base, cp), start), at) = three_at(line, at)?;
    let (horizon, at) = spaced_count_at(line, at)?;
    let form = ShownMessage::Form {
        view,
        leader,
        partner,
        source,
        base,
        cp,
        start,
        horizon,
    };
    Ok((form, at))
}

#[tactic(auto, unfolding(crate::specs::Messages::message_fields_at))]
fn fetch_at(line: &[u8], at: usize) -> Result<(ShownMessage, usize), TextFault>
    ensures { Gives (λ x. x) result (message_fields_at forms.Fetch line.now at) }
{
    let (view, at) = spaced_view_at(line, at)?;
    let (first, at) = spaced_count_at(line, at)?;
    Ok((ShownMessage::Fetch { view, first }, at))
}

#[tactic(auto, unfolding(crate::specs::Messages::message_fields_at))]
fn give_at(line: &[u8], at: usize) -> Result<(ShownMessage, usize), TextFault>
    ensures { Gives (λ x. x) result (message_fields_at forms.Give line.now at) }
{
    let (view, at) = spaced_view_at(line, at)?;
    let (first, at) = spaced_count_at(line, at)?;
    let at = space_at(line, at)?;
    let (records, at) = ranged_at(line, 1, 65535, at)?;
    let give = ShownMessage::Give {
        view,
        first,
        records,
    };
    Ok((give, at))
}

#[tactic(auto, unfolding(crate::specs::Messages::message_fields_at))]
fn formed_at(line: &[u8], at: usize) -> Result<(ShownMessage, usize), TextFault>
    ensures { Gives (λ x. x) result (message_fields_at forms.Formed line.now at) }
{
    let (view, at) = spaced_view_at(line, at)?;
    let (lb, at) = spaced_count_at(line, at)?;
    Ok((ShownMessage::Formed { view, lb }, at))
}

#[tactic(auto, unfolding(crate::specs::Messages::message_fields_at))]
fn event_at(line: &[u8], at: usize) -> Result<(ShownMessage, usize), TextFault>
    ensures { Gives (λ x. x) result (message_fields_at forms.Event line.now at) }
{
    let (view, at) = spaced_view_at(line, at)?;
    let (index, at) = spaced_index_at(line, at)?;
    let (cp, at) = spaced_count_at(line, at)?;
    let (base, at) = spaced_count_at(line, at)?;
    let (client, at) = spaced_u32_at(line, at)?;
    let (number, at) = spaced_count_at(line, at)?;
    let event = ShownMessage::Event {
        view,
        index,
        cp,
        base,
        client,
        number,
    };
    Ok((event, at))
}

#[tactic(auto, unfolding(crate::specs::Messages::message_fields_at))]
fn beat_at(line: &[u8], at: usize) -> Result<(ShownMessage, usize), TextFault>
    ensures { Gives (λ x. x) result (message_fields_at forms.Beat line.now at) }
{
    let (view, at) = spaced_view_at(line, at)?;
    let (cp, at) = spaced_count_at(line, at)?;
    let (base, at) = spaced_count_at(line, at)?;
    Ok((ShownMessage::Beat { view, cp, base }, at))
}

#[tactic(auto, unfolding(crate::specs::Messages::message_fields_at))]
fn ack_at(line: &[u8], at: usize) -> Result<(ShownMessage, usize), TextFault>
    ensures { Gives (λ x. x) result (message_fields_at forms.Ack line.now at) }
{
    let (view, at) = spaced_view_at(line, at)?;
    let (top, at) = spaced_count_at(line, at)?;
    let (lb, at) = spaced_count_at(line, at)?;
    let (until, at) = spaced_count_at(line, at)?;
    let ack = ShownMessage::Ack {
        view,
        top,
        lb,
        until,
    };
    Ok((ack, at))
}

#[tactic(auto, unfolding(crate::specs::Messages::message_fields_at))]
fn demote_at(line: &[u8], at: usize) -> Result<(ShownMessage, usize), TextFault>
    ensures { Gives (λ x. x) result (message_fields_at forms.Demote line.now at) }
{
    let (view, at) = spaced_view_at(line, at)?;
    Ok((ShownMessage::Demote { view }, at))
}

/// A message of a form, behind its name.
#[tactic(auto, unfolding(crate::specs::Messages::message_fields_at))]
fn fields_at(form: MessageForm, line: &[u8], at: usize) -> Result<(ShownMessage, usize), TextFault>
    ensures { Gives (λ x. x) result (message_fields_at form line.now at) }
{
    match form {
        MessageForm::Invite => invite_at(line, at),
        MessageForm::Join => join_at(line, at),
        MessageForm::Form => choice_at(line, at),
        MessageForm::Fetch => fetch_at(line, at),
        MessageForm::Give => give_at(line, at),
        MessageForm::Formed => formed_at(line, at),
        MessageForm::Event => event_at(line, at),
        MessageForm::Beat => beat_at(line, at),
        MessageForm::Ack => ack_at(line, at),
        MessageForm::Demote => demote_at(line, at),
    }
}

/// A message behind a space.
#[tactic(auto, unfolding(crate::specs::Messages::message_at))]
pub fn spaced_message_at(line: &[u8], at: usize) -> Result<(ShownMessage, usize), TextFault>
    ensures { Gives (λ x. x) result (spaced_at message_at line.now at) }
{
    let at = space_at(line, at)?;
    let (form, at) = form_at(line, at)?;
    fields_at(form, line, at)
}
