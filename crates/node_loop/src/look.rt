//! What a server sees of itself as it takes a turn.

ghost use Rattle.std.specs.Prelude.{◌≡◌, ◌-◌, ◌&&◌, ◌||◌, ◌==◌, [], false, true};
ghost use Rattle.harp_types.specs.Server.{same_server};
ghost use Rattle.node_loop.specs.Looks.{is_in_view, is_settled, is_told_in, look_of, same_view, seen, view_told};

use harp_types::{Mode, Role, StateLine, ViewNo};
use node::Node;
use wire::Message;

/// What a server sees of itself: its role in the view that it accepted, that view, the one that it
/// promised, whether it stands in an open view, how many records its log has, and how many of them
/// aren't known to be committed, which are those of a leader that its partner hasn't acknowledged.
#[derive(Clone, Copy, PartialEq, Eq)]
pub struct Look {
    pub role: Role,
    pub accepted: ViewNo,
    pub promised: ViewNo,
    pub is_open: bool,
    pub records: u64,
    pub unacknowledged: u64,
}

impl Look {
    /// What a server that isn't halted sees of itself.
    pub fn of(node: &Node) -> Look
        requires { node.now.halted ≡ false }
        ensures { result ≡ look_of node.now }
    {
        let role = node.role();
        let line = node.state_line();
        seen(role, &line)
    }

    /// Whether a message tells of the view that it accepted, or of the one that it promised.
    pub(crate) fn is_told(&self, message: &Message) -> bool
        ensures { result ≡ is_told_in self.now (view_told message.now) }
    {
        match view_told(message) {
            Some(view) => is_in_view(view, self),
            None => false,
        }
    }
}

// What a server with this role sees of itself, which shows this.
fn seen(role: Role, line: &StateLine) -> Look
    ensures { result ≡ seen role line.now }
{
    Look {
        role,
        accepted: line.accepted,
        promised: line.promised,
        is_open: is_settled(line.mode),
        records: line.top.saturating_sub(line.base),
        unacknowledged: line.top.saturating_sub(line.cp),
    }
}

// Whether a server at this stands in an open view.
fn is_settled(mode: Mode) -> bool
    ensures { result ≡ is_settled mode }
{
    match mode {
        Mode::Open => true,
        Mode::Live => true,
        Mode::Rests => false,
        Mode::Calls => false,
        Mode::Joined => false,
        Mode::Pulls => false,
        Mode::Waits => false,
    }
}

// The view that a server's message tells of.
fn view_told(message: &Message) -> Option<ViewNo>
    ensures { result ≡ view_told message.now }
{
    match message {
        Message::Invite { view } => Some(*view),
        Message::Join { view, .. } => Some(*view),
        Message::Form { view, .. } => Some(*view),
        Message::Fetch { view, .. } => Some(*view),
        Message::Give { view, .. } => Some(*view),
        Message::Formed { view, .. } => Some(*view),
        Message::Event { view, .. } => Some(*view),
        Message::Beat { view, .. } => Some(*view),
        Message::Ack { view, .. } => Some(*view),
        Message::Demote { view } => Some(*view),
        Message::Ask { .. } => None,
        Message::Answer { .. } => None,
        Message::CannotServe { .. } => None,
    }
}

// Whether two views are one.
fn same_view(view: ViewNo, other: ViewNo) -> bool
    ensures { result ≡ same_view view other }
{
    view.count() == other.count() && view.coordinator().is(other.coordinator())
}

// Whether a view is the accepted one or the promised one.
fn is_in_view(view: ViewNo, look: &Look) -> bool
    ensures { result ≡ is_in_view look.now view }
{
    same_view(view, look.accepted) || same_view(view, look.promised)
}
