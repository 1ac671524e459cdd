//! The steps of a server.

ghost use Rattle.std.specs.Prelude.{◌≡◌, ◌<◌, ◌^◌, ◌++◌, [], List, ℕ, Err, None, OnOk, false};
ghost use Rattle.cell_cache.specs.Entries.{AreOf};
ghost use Rattle.event_record.specs.declared.record.RecordFields.{RecordFields};
ghost use Rattle.file_tree.specs.Book.{Entry};
ghost use Rattle.group_rules.specs.Moves.{acts};
ghost use Rattle.group_rules.specs.Open.{rebase};
ghost use Rattle.harp_store.specs.Disk.{cells_told};
ghost use Rattle.idle_log.specs.Gives.{StandIn};
ghost use Rattle.node.specs.Input.{FillsInput, FillsSized, came, input_of, peers_of};
ghost use Rattle.node.specs.Node.{IsServer, server};
ghost use Rattle.node.specs.Outcomes.{Brings, FailsOnce, Halts, Runs};
ghost use Rattle.node.specs.Serving.{entry_size};
ghost use Rattle.node.specs.Step.{ListsFor, StepsWhole};
ghost use Rattle.node.specs.Stock.{Stocks, stock, stock_after};
ghost use Rattle.node.specs.Taking.{ruled, stepped};
ghost use Rattle.node_outputs.specs.Makes.{Makes};
ghost use Rattle.node_outputs.specs.Records.{records_sent};
ghost use Rattle.node_outputs.specs.Said.{nothing, said};
ghost use Rattle.replica.specs.Asking.{recorded};
ghost use Rattle.tree_log.specs.Storing.{CountsFaults};

use crate::fault::NodeFault;
use crate::input::Input;
use crate::node::Node;
use crate::state::State;
use harp_store::Store;
use node_outputs::{Asker, Outputs};
use std::alloc::Global;

impl Node {
    /// A step of the server, at this reading of its clock, which is below 2^62: it does what the
    /// rules of the group say of what it is given, and its outputs, which come where none are yet,
    /// are just what the rules say. A client's message in place of a server's changes nothing. The
    /// cells that the server keeps in memory are those of its store. After an error the server is
    /// halted, and then each step is Halted; its disk has a part of what the step makes of it.
    pub fn step_into<D: Store>(
        &mut self,
        alloc: Global,
        input: Input,
        now: u64,
        store: &mut D,
        outs: &mut Outputs,
    ) -> Result<(), NodeFault>
        requires none { said outs.old ≡ nothing }
        requires cached { AreOf (cells_told (D.told store.old)) self.old.cached }
        requires now { now < 2 ^ 62 }
        ensures steps { OnOk result ((items list : List Entry)
            → FillsInput list self.old now (D.told store.old) input
            → StepsWhole now list items input
            (stepped entry_size self.old.me now list (server self.old items) (input_of input))
            self.old self.new outs.new) }
        ensures listing { OnOk result (ListsFor input self.old (D.told store.old) None
            outs.new.listing) }
        ensures is_server { OnOk result (IsServer self.new) }
        ensures cached { AreOf (cells_told (D.told store.new)) self.new.cached }
        ensures halts { Halts result self.old self.new (D.told store.old) (D.told store.new) }
        ensures brings { Brings result
            (λ size list. stepped size self.old.me now list self.old.plain (input_of input))
            (input_of input) self.old self.new (D.told store.old) (D.told store.new) }
        ensures faults { CountsFaults (result ≡ Err NodeFault.StoreFailed) (D.faults store.old)
            (D.faults store.new) }
    {
        if self.is_halted() {
            return Err(NodeFault::Halted);
        }
        if !input.is_heeded() {
            return Ok(());
        }
        match self.rule(alloc, input, now, store, outs) {
            Ok(()) => {}
            Err(fault) => {
                self.state.halt();
                return Err(fault);
            }
        }
        self.rebase();
        Ok(())
    }

    /// A step but for the base: what the server does with what it is given. An error leaves a part
    /// of what this makes of the disk.
    fn rule<D: Store>(
        &mut self,
        alloc: Global,
        input: Input,
        now: u64,
        store: &mut D,
        outs: &mut Outputs,
    ) -> Result<(), NodeFault>
        requires up { self.old.halted ≡ false }
        requires cached { AreOf (cells_told (D.told store.old)) self.old.cached }
        requires now { now < 2 ^ 62 }
        ensures makes { OnOk result ((items : List Entry) (size : List Entry → Entry → ℕ)
            (list : List Entry) → FillsSized size list self.old now (D.told store.old) input
            → let s = server self.old items in Makes self.old.me now
            (ruled size self.old.me now list s (input_of input)) (peers_of self.old input) s
            (server self.new items) outs.old outs.new) }
        ensures stock { OnOk result ((items : List Entry) (size : List Entry → Entry → ℕ)
            (list : List Entry) → FillsSized size list self.old now (D.told store.old) input
            → let s = server self.old items in stock self.new ≡ stock_after self.old.me now list
            (came input) (peers_of self.old input) s
            (ruled size self.old.me now list s (input_of input)) (stock self.old)) }
        ensures sent { OnOk result ((items : List Entry) (size : List Entry → Entry → ℕ)
            (list : List Entry) → FillsSized size list self.old now (D.told store.old) input
            → said outs.old ≡ nothing → records_sent outs.old ≡ []
            → StandIn (self.old.records ++ recorded self.old.plain.accepted list
            (ruled size self.old.me now list (server self.old items) (input_of input)))
            (records_sent outs.new)) }
        ensures listing { OnOk result (ListsFor input self.old (D.told store.old)
            outs.old.listing outs.new.listing) }
        ensures runs { OnOk result (Runs self.new (D.told store.new)) }
        ensures brings { Brings result
            (λ size list. ruled size self.old.me now list self.old.plain (input_of input))
            (input_of input) self.old self.new (D.told store.old) (D.told store.new) }
        ensures faults { FailsOnce result (D.faults store.old) (D.faults store.new) }
    {
        match input {
            Input::Tick => {
                self.tick(alloc, now, outs)?;
                Ok(())
            }
            Input::Suspect => self.suspicion(alloc, store, outs),
            Input::Message { from, message } => {
                self.take_message(alloc, from, message, now, store, outs)
            }
            Input::Ask {
                peer,
                client,
                number,
                cred,
                call,
            } => {
                let asker = Asker {
                    peer,
                    client,
                    number,
                    cred,
                };
                self.ask(alloc, asker, &call, now, store, outs)
            }
            Input::Apply { most } => self.apply(alloc, most, store),
            Input::Flush => self.flush(alloc, store),
            Input::List => self.list(alloc, store, outs),
        }
    }

    /// The base of an open leader moves where that is due.
    #[tactic(auto, unfolding(group_rules::specs::Places::all_of))]
    fn rebase(&mut self)
        requires { self.old.halted ≡ false }
        ensures state { (items : List Entry) (clock : ℕ) → let s = server self.old items in
            server self.new items ≡ acts self.old.me clock s (rebase s) }
        ensures stock { (came : List RecordFields) (items : List Entry)
            → let s = server self.old items in
            Stocks came self.old.me s (rebase s) (stock self.old) (stock self.new) }
        ensures me { self.new.me ≡ self.old.me }
        ensures is_server { IsServer self.new }
        ensures cached { self.new.cached ≡ self.old.cached }
        ensures mark { self.new.mark ≡ self.old.mark }
        ensures up { self.new.halted ≡ false }
    {
        match &mut self.state {
            State::Leads(leader, _) => leader.rebase(),
            State::Follows(_, _) => return,
            State::Gone => return,
            State::Rests(_) => return,
            State::Joined(_, _) => return,
            State::Pulls(_, _, _, _) => return,
        }
    }
}
