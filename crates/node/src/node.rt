//! One server.

ghost use Rattle.std.specs.Prelude.{◌≡◌, [], List, false, true};
ghost use Rattle.file_tree.specs.Book.{Entry};
ghost use Rattle.group_rules.specs.Names.{place_of};
ghost use Rattle.node.specs.Boot.{IsFresh};
ghost use Rattle.node.specs.Node.{IsServer, rested_with, server};
ghost use Rattle.node.specs.State.{IsKept};
ghost use Rattle.node.specs.Stock.{stock, stock_kept};

use crate::state::{State, Task};
use harp_store::Mark;
use harp_types::ServerId;
use idle_log::Kept;
use promise::Horizon;
use std::marker::Model;

/// One server of a group. Its contracts see it as a server of the group's rules.
#[derive(Drop)]
pub struct Node {
    pub(crate) me: ServerId,
    /// As it stands on the disk.
    pub(crate) mark: Mark,
    pub(crate) horizon: Horizon,
    /// How many entries of its accepted view it serves.
    pub(crate) served: u64,
    pub(crate) duty: Task,
    pub(crate) state: State,
}

impl Model for Node {
    ghost use Rattle.group_rules.specs.Names.{place_of};
    ghost use Rattle.node.specs.Node.{NodeValue, value};
    ghost use Rattle.node.specs.State.{CollectsStill, Fits};

    ghost Value = { NodeValue };

    ghost view = { λ n. value n.me n.mark n.horizon n.served n.duty n.state };

    ghost invariant = { λ n. CollectsStill n.duty × Fits (place_of n.me) n.mark n.state };
}

impl Node {
    /// A server that rests with this mark, which is the one on its disk, with what it keeps of the
    /// list of updates, whose LB is the mark's, and with its promises of before.
    pub fn resting(me: ServerId, mark: Mark, horizon: Horizon, kept: Kept) -> Node
        requires { IsKept (place_of me) mark kept }
        ensures fresh { IsFresh me result }
        ensures mark { result.mark ≡ mark }
        ensures server { (items : List Entry) → server result items
            ≡ rested_with items mark horizon kept }
        ensures stock { stock result ≡ stock_kept kept [] }
    {
        Node {
            me,
            mark,
            horizon,
            served: 0,
            duty: Task::Free,
            state: State::Rests(kept),
        }
    }

    /// Whether an earlier call failed. Then none gives anything any more.
    pub fn is_halted(&self) -> bool
        ensures value { result ≡ self.now.halted }
        ensures is_server { IsServer self.now }
    {
        match &self.state {
            State::Gone => true,
            State::Rests(_) => false,
            State::Joined(_, _) => false,
            State::Pulls(_, _, _, _) => false,
            State::Leads(_, _) => false,
            State::Follows(_, _) => false,
        }
    }
}
