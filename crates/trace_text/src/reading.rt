//! Lines of traces that are read.

ghost use Rattle.std.specs.Prelude.{◌≡◌, ◌≤◌, length, Ok, IfOk};
ghost use Rattle.trace_types.specs.declared.line.Line.{Line};
ghost use Rattle.schedule_text.specs.Fields.{Gives};
ghost use Rattle.trace_text.specs.Reading.{meaning_of};
ghost use Rattle.trace_text.specs.Grammar.{IsTraceLine, Explains};

use crate::form::first_form;
use crate::line::form_at;
use schedule_text::{TextFault, end_at};
use std::alloc::Global;
use trace_types::Line;

/// What a line means, but for what memory refuses.
#[tactic(auto, unfolding(crate::specs::Reading::meaning_of))]
fn meaning_of(alloc: Global, line: &[u8]) -> Result<Line, TextFault>
    ensures { Gives (λ x. x) result (meaning_of line.now) }
{
    let (form, at) = first_form(line)?;
    let (read, at) = form_at(alloc, form, line, at)?;
    end_at(line, at)?;
    Ok(read)
}

/// The line of a trace, without its line end.
///
/// Every line that is none is Grammar, with the first place at which no line goes on.
pub fn read_line(alloc: Global, line: &[u8]) -> Result<Line, TextFault>
    // A line means one thing, and that is answered unless memory runs out.
    ensures exact { Gives (λ x. x) result (meaning_of line.now) }
    // What is read is spelled so, and has a spelling.
    ensures found { IfOk result (λ l. IsTraceLine line.now l) }
    // What a meaning says of the line.
    ensures grammar { Explains line.now (meaning_of line.now) }
    // What the line is says what is answered.
    ensures only { (l : Line) → IsTraceLine line.now l → Gives (λ x. x) result (Ok l) }
{
    meaning_of(alloc, line)
}
