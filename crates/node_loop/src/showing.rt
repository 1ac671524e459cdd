//! What a running server shows behind its turns.

ghost use Rattle.std.specs.Prelude.{◌≡◌, ◌↔◌, ◌∷◌, [], IsTrue, false};
ghost use Rattle.node_loop.specs.Watch.{AreAlike, Showed, ShowsBehind, sight, state_shown, without_numbers};

use crate::running::Running;
use crate::watcher::{Sight, Watcher};
use harp_types::{ServerId, StateLine};
use node::Node;

/// A state but for its numbers.
fn without_numbers(state: &StateLine) -> StateLine
    ensures { result ≡ without_numbers state.now }
{
    StateLine {
        mode: state.mode,
        promised: state.promised,
        accepted: state.accepted,
        role: state.role,
        held: state.held,
        base: 0,
        lb: 0,
        ap: 0,
        cp: 0,
        top: 0,
    }
}

/// Whether two states are one, but for their numbers.
fn are_alike(state: &StateLine, other: &StateLine) -> bool
    ensures { IsTrue result ↔ AreAlike state.now other.now }
{
    without_numbers(state).is_same(&without_numbers(other))
}

/// What a server that isn't halted shows.
pub fn state_shown(node: &Node) -> StateLine
    requires { node.now.halted ≡ false }
    ensures { result ≡ state_shown node.now }
{
    node.state_line()
}

/// A server that was just booted shows itself.
pub fn show_first<W: Watcher>(place: ServerId, running: &Running, watcher: &mut W)
    requires { running.now.node.halted ≡ false }
    ensures { Showed (sight place running.now.pace.due running.now.node ∷ [])
        (W.told watcher.old) (W.told watcher.new) }
{
    watcher.see(Sight {
        place,
        millis: running.pace.due(),
        state: state_shown(&running.node),
    });
}

/// Behind a turn to this reading a server shows itself, where its state is another one than this,
/// but for its numbers. Gives its state.
pub fn show_new<W: Watcher>(
    place: ServerId,
    millis: u64,
    before: &StateLine,
    node: &Node,
    watcher: &mut W,
) -> StateLine
    requires { node.now.halted ≡ false }
    ensures state { result ≡ state_shown node.now }
    ensures shows { ShowsBehind place millis before.now (state_shown node.now)
        (W.told watcher.old) (W.told watcher.new) }
{
    let state = state_shown(node);
    if are_alike(before, &state) {
        return state;
    }
    watcher.see(Sight {
        place,
        millis,
        state,
    });
    state
}
