//! The lines of a server's state and of its listing.

ghost use Rattle.std.specs.Prelude.{◌≡◌, ◌++◌, ◌∷◌, [], OnOk};
ghost use Rattle.group_rules.specs.Names.{place_of};
ghost use Rattle.group_trace.specs.Lines.{state_lines};
ghost use Rattle.trace_types.specs.declared.line.Line.TheVariants as line;
ghost use Rattle.world_lines.specs.Given.{listing_shown};

use crate::lines_of_listing;
use harp_types::{ServerId, StateLine};
use std::alloc::{AllocError, Global};
use trace_types::Line;
use tree_listing::Listing;

/// The line of a server's state, where it isn't the one before. A server that is down has none. It
/// goes into its callers: most steps change no state, and then nothing is moved.
#[tactic(auto, unfolding(group_rules::specs::Shown::same_state))]
#[inline(always)]
pub fn show_state(
    server: ServerId,
    before: &Option<StateLine>,
    now: &Option<StateLine>,
    lines: &mut Vec<Line>,
) -> Result<(), AllocError>
    ensures { OnOk result (lines.new.items ≡ lines.old.items
        ++ state_lines (place_of server) before.now now.now) }
{
    match (before, now) {
        (None, None) => Ok(()),
        (Some(_), None) => push_down(server, lines),
        (None, Some(state)) => push_state(server, state, lines),
        (Some(before), Some(state)) => {
            if *before == *state {
                return Ok(());
            }
            push_state(server, state, lines)
        }
    }
}

/// The line that a server is down.
fn push_down(server: ServerId, lines: &mut Vec<Line>) -> Result<(), AllocError>
    ensures { OnOk result (lines.new.items ≡ lines.old.items ++ line.Down server ∷ []) }
{
    lines.push(Line::Down { server })?;
    Ok(())
}

/// The line of a state.
fn push_state(server: ServerId, state: &StateLine, lines: &mut Vec<Line>) -> Result<(), AllocError>
    ensures { OnOk result (lines.new.items ≡ lines.old.items
        ++ line.State server state.now ∷ []) }
{
    lines.push(Line::State {
        server,
        state: *state,
    })?;
    Ok(())
}

/// The lines of a listing that a server was asked for.
pub fn show_listing(
    alloc: Global,
    server: ServerId,
    listing: Option<Listing>,
    lines: &mut Vec<Line>,
) -> Result<(), AllocError>
    ensures { OnOk result (lines.new.items ≡ lines.old.items ++ listing_shown server listing) }
{
    match listing {
        None => {
            lines.push(Line::Unlisted { server })?;
            Ok(())
        }
        Some(listing) => {
            let mut shown = lines_of_listing(alloc, server, listing)?;
            lines.append(&mut shown)?;
            Ok(())
        }
    }
}
