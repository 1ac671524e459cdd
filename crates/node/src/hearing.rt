//! The Formed of other servers.

ghost use Rattle.node.specs.Stock.{stock};
ghost use Rattle.std.specs.Prelude.{◌≡◌, List, false, true, ℕ, Some};
ghost use Rattle.file_tree.specs.Book.{Entry};
ghost use Rattle.group_rules.specs.Misfits.{heard_tests};
ghost use Rattle.group_rules.specs.Moves.{acts};
ghost use Rattle.group_rules.specs.Names.{number_of_view, place_of};
ghost use Rattle.group_rules.specs.Open.{on_formed};
ghost use Rattle.group_rules.specs.Places.{all_of, same, with_at};
ghost use Rattle.group_rules.specs.Replicate.{is_in_view};
ghost use Rattle.node.specs.Node.{server};
ghost use Rattle.node.specs.State.{heard_of};

use crate::node::Node;
use crate::state::{Joining, State};
use harp_types::{ServerId, ViewNo};

impl Node {
    /// A Formed of another server, which is the partner with an LB within the start where this
    /// server is active in the view: a server that joined the view keeps it, and so does a leader
    /// that waits. Of each sender the last one counts.
    #[tactic(auto, using(crate::proofs::Hears::hears_on), unfolding(group_rules::specs::Places::all_of))]
    pub(crate) fn formed(&mut self, from: ServerId, view: ViewNo, lb: u64)
        requires up { self.old.halted ≡ false }
        requires other { same (place_of from) self.old.me ≡ false }
        requires proper { is_in_view self.old.plain (number_of_view view) ≡ true
            → all_of (heard_tests self.old.plain (place_of from) lb) ≡ true }
        ensures state { (items : List Entry) (clock : ℕ) → let s = server self.old items in
            server self.new items ≡ acts self.old.me clock s
            (on_formed s (place_of from) (number_of_view view) lb) }
        ensures me { self.new.me ≡ self.old.me }
        ensures stock { stock self.new ≡ stock self.old }
        ensures cached { self.new.cached ≡ self.old.cached }
        ensures mark { self.new.mark ≡ self.old.mark }
        ensures up { self.new.halted ≡ false }
    {
        if !self.has_promised(view) {
            return;
        }
        match &mut self.state {
            State::Joined(_, joining) => {
                hear(joining, from, lb);
                return;
            }
            State::Pulls(_, joining, _, _) => {
                hear(joining, from, lb);
                return;
            }
            State::Leads(leader, _) => {
                leader.formed(lb);
                return;
            }
            State::Gone => return,
            State::Rests(_) => return,
            State::Follows(_, _) => return,
        }
    }
}

/// Keeps a Formed.
fn hear(joining: &mut Joining, from: ServerId, lb: u64)
    ensures told { joining.new.told ≡ joining.old.told }
    ensures heard { heard_of joining.new.formed
        ≡ with_at (heard_of joining.old.formed) (place_of from) (Some lb) }
{
    match from {
        ServerId::Zero => joining.formed.zero = Some(lb),
        ServerId::One => joining.formed.one = Some(lb),
        ServerId::Two => joining.formed.two = Some(lb),
    }
}
