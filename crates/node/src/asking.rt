//! Asks of clients. After an error the server is halted.

ghost use Rattle.std.specs.Prelude.{◌≡◌, ◌<◌, ◌^◌, ◌++◌, ◌∷◌, [], List, OnOk, false, option_map, true};
ghost use Rattle.cell_cache.specs.Entries.{AreOf};
ghost use Rattle.file_tree.specs.Book.{Entry};
ghost use Rattle.group_rules.specs.Ask.{hint_of, on_ask};
ghost use Rattle.group_rules.specs.Names.{id_of, place_of};
ghost use Rattle.group_rules.specs.Shown.{cause_of};
ghost use Rattle.harp_store.specs.Disk.{cells_told};
ghost use Rattle.node.specs.Asking.{Asked, cause_away, reads_tree};
ghost use Rattle.node.specs.Node.{server};
ghost use Rattle.node.specs.Outcomes.{FailsOnce, Keeps, Runs};
ghost use Rattle.node.specs.State.{role_of};
ghost use Rattle.node.specs.Stored.{log_of};
ghost use Rattle.node_outputs.specs.Records.{records_sent};
ghost use Rattle.node_outputs.specs.Said.{said};
ghost use Rattle.tree_log.specs.Reading.{HoldsTree};

use crate::fault::NodeFault;
use crate::node::Node;
use crate::state::State;
use harp_store::Store;
use harp_types::{Call, Cause, LAST_CLIENT, Role, ServerId};
use node_outputs::{Asker, Outputs};
use std::alloc::{AllocError, Global};

impl Node {
    /// Deals with a client's call, by the client's own number of it. The open leader of a view
    /// appends an update of a new number, answers a repeat of the client's last one where it is
    /// committed, and a read while its partner's promise runs. Each other server refuses, with the
    /// leader of its accepted view where it is a storer of that.
    pub(crate) fn ask<D: Store>(
        &mut self,
        alloc: Global,
        asker: Asker,
        call: &Call,
        now: u64,
        store: &mut D,
        outs: &mut Outputs,
    ) -> Result<(), NodeFault>
        requires up { self.old.halted ≡ false }
        requires cached { AreOf (cells_told (D.told store.old)) self.old.cached }
        requires now { now < 2 ^ 62 }
        ensures asked { OnOk result ((items list : List Entry)
            → (reads_tree self.old asker.client call.now now ≡ true
            → HoldsTree list self.old.plain.cp (log_of self.old) (D.told store.old))
            → Asked now list (on_ask self.old.me now list (server self.old items) asker.client
            asker.number asker.cred call.now) asker.peer items self.old self.new
            outs.old outs.new) }
        ensures pulled { OnOk result (self.new.pulled ≡ self.old.pulled) }
        ensures keeps { Keeps self.old self.new (D.told store.old) (D.told store.new) }
        ensures runs { OnOk result (Runs self.new (D.told store.new)) }
        ensures faults { FailsOnce result (D.faults store.old) (D.faults store.new) }
    {
        let State::Leads(leader, _) = &mut self.state else {
            turn_away(self.me, self.mark.role(), asker, outs)?;
            return Ok(());
        };
        leader.ask(alloc, asker, call, now, store, outs)?;
        Ok(())
    }
}

/// A server that doesn't lead refuses an ask.
fn turn_away(me: ServerId, role: Role, asker: Asker, outs: &mut Outputs) -> Result<(), AllocError>
    ensures said { OnOk result (said outs.new ≡ record (said outs.old) {
      refusals = (said outs.old).refusals ++ (record {
        peer = asker.peer;
        client = asker.client;
        number = asker.number;
        cause = cause_of (cause_away (place_of me) (role_of role) asker.client);
      }) ∷ [];
    }) }
    ensures records { records_sent outs.new ≡ records_sent outs.old }
{
    if asker.client > LAST_CLIENT {
        return outs.refuse(asker, Cause::BadClient);
    }
    let hint = hint(me, role);
    outs.refuse(asker, Cause::NotLeader { hint })
}

/// The leader of a server's accepted view, where the server is one of its storers.
#[tactic(auto, using(crate::proofs::Shown::id_back))]
fn hint(me: ServerId, role: Role) -> Option<ServerId>
    ensures { result ≡ option_map id_of (hint_of (place_of me) (role_of role)) }
{
    match role {
        Role::Leads(_) => Some(me),
        Role::Follows(leader) => Some(leader),
        Role::Outside => None,
    }
}
