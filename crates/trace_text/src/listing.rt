//! The lines of a listing that are read, behind their names.

ghost use Rattle.std.specs.Prelude.{◌≡◌, ◌≤◌, length, IfOk};
ghost use Rattle.schedule_text.specs.Fields.{Gives};
ghost use Rattle.trace_text.specs.declared.form.LineForm.TheVariants as forms;
ghost use Rattle.trace_text.specs.Reading.{form_at};

use crate::attr::spaced_attr_at;
use crate::field::{spaced_hex_at, spaced_some_hex_at};
use schedule_text::{TextFault, spaced_count_at, spaced_server_at, spaced_u32_at};
use std::alloc::Global;
use trace_types::Line;

#[tactic(auto, unfolding(crate::specs::Reading::form_at))]
pub fn listed_at(line: &[u8], at: usize) -> Result<(Line, usize), TextFault>
    ensures { Gives (λ x. x) result (form_at forms.Listed line.now at) }
{
    let (server, at) = spaced_server_at(line, at)?;
    let (cp, at) = spaced_count_at(line, at)?;
    let (objects, at) = spaced_count_at(line, at)?;
    let listed = Line::Listed {
        server,
        cp,
        objects,
    };
    Ok((listed, at))
}

#[tactic(auto, unfolding(crate::specs::Reading::form_at))]
pub fn unlisted_at(line: &[u8], at: usize) -> Result<(Line, usize), TextFault>
    ensures { Gives (λ x. x) result (form_at forms.Unlisted line.now at) }
{
    let (server, at) = spaced_server_at(line, at)?;
    Ok((Line::Unlisted { server }, at))
}

#[tactic(auto, unfolding(crate::specs::Reading::form_at))]
pub fn object_at(line: &[u8], at: usize) -> Result<(Line, usize), TextFault>
    ensures { Gives (λ x. x) result (form_at forms.Object line.now at) }
{
    let (attr, at) = spaced_attr_at(line, at)?;
    Ok((Line::Object { attr }, at))
}

#[tactic(auto, unfolding(crate::specs::Reading::form_at))]
pub fn slot_at(alloc: Global, line: &[u8], at: usize) -> Result<(Line, usize), TextFault>
    ensures { Gives (λ x. x) result (form_at forms.Slot line.now at) }
{
    let (dir, at) = spaced_u32_at(line, at)?;
    let (slot, at) = spaced_u32_at(line, at)?;
    let (number, at) = spaced_u32_at(line, at)?;
    let (name, at) = spaced_some_hex_at(alloc, line, at)?;
    let slot = Line::Slot {
        dir,
        slot,
        number,
        name,
    };
    Ok((slot, at))
}

#[tactic(auto, unfolding(crate::specs::Reading::form_at))]
pub fn block_at(alloc: Global, line: &[u8], at: usize) -> Result<(Line, usize), TextFault>
    ensures { Gives (λ x. x) result (form_at forms.Block line.now at) }
{
    let (file, at) = spaced_u32_at(line, at)?;
    let (block, at) = spaced_u32_at(line, at)?;
    let (bytes, at) = spaced_some_hex_at(alloc, line, at)?;
    Ok((Line::Block { file, block, bytes }, at))
}

#[tactic(auto, unfolding(crate::specs::Reading::form_at))]
pub fn text_at(alloc: Global, line: &[u8], at: usize) -> Result<(Line, usize), TextFault>
    ensures { Gives (λ x. x) result (form_at forms.Text line.now at) }
{
    let (link, at) = spaced_u32_at(line, at)?;
    let (text, at) = spaced_hex_at(alloc, line, at)?;
    Ok((Line::Text { link, text }, at))
}
