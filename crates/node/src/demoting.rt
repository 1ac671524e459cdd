//! How the witness leaves its view.

ghost use Rattle.node.specs.Stock.{Stocks, stock};
ghost use Rattle.std.specs.Prelude.{◌≡◌, ◌≤◌, [], List, ℕ, Err, OnErr, OnOk, false, if◌then◌else◌, nat_lt, true, ◌∷◌, ⊤};
ghost use Rattle.file_tree.specs.Book.{Entry};
ghost use Rattle.group_rules.specs.Disk.{on_demote};
ghost use Rattle.group_rules.specs.Effects.{demoted};
ghost use Rattle.group_rules.specs.Moves.{Demoting};
ghost use Rattle.group_rules.specs.Places.{is_p2};
ghost use Rattle.harp_types.specs.View.{above};
ghost use Rattle.group_rules.specs.Names.{number_of_view};
ghost use Rattle.harp_types.specs.Streams.{Rose};
ghost use Rattle.node.specs.Cached.{IsCachedAs};
ghost use Rattle.node.specs.Disk.{MayLeave, disk_after, marked, marked_by};
ghost use Rattle.node.specs.Node.{server};
ghost use Rattle.node_outputs.specs.Makes.{Makes};
ghost use Rattle.node.specs.Handles.{Handles};
ghost use Rattle.node_outputs.specs.declared.outputs.Outputs.{Outputs};
ghost use Rattle.node.specs.Demoting.{LeavesFor};

use crate::fault::NodeFault;
use crate::node::Node;
use crate::state::{State, Task};
use harp_store::{Mark, Store};
use harp_types::{Role, ViewNo};
use node_outputs::Outputs;
use std::alloc::Global;
use std::mem;
use view_form::is_witness;

impl Node {
    /// Deals with a Demote of a view. Server 2 heeds one of a view above its accepted one: it drops
    /// its log. Where it promised a view above that one its part there goes on; else it promises
    /// that one, and rests. The mark is written first, and an error leaves the disk as it was or
    /// with that mark.
    pub(crate) fn demote<D: Store>(
        &mut self,
        alloc: Global,
        view: ViewNo,
        store: &mut D,
    ) -> Result<(), NodeFault>
        requires up { self.old.halted ≡ false }
        ensures handles { (clock : ℕ) (outs : Outputs) → Handles result ⊤ clock
            (λ q s. on_demote q s (number_of_view view)) [] [] self.old self.new
            outs outs (D.told store.old) (D.told store.new) (D.faults store.old)
            (D.faults store.new) }
        ensures count { D.faults store.old ≤ D.faults store.new }
    {
        if !is_witness(self.me) {
            return Ok(());
        }
        if !view.is_above(self.mark.accepted()) {
            return Ok(());
        }
        let mark = demoted_mark(self.mark, view);
        store.write_mark(alloc, &mark)?;
        if self.mark.promised().is_above(view) {
            self.go_on(mark, view);
            return Ok(());
        }
        self.rest(mark, view);
        Ok(())
    }

    /// A server that promised a view above the one that it is demoted of drops its log, and its
    /// part there goes on.
    fn go_on(&mut self, mark: Mark, view: ViewNo)
        requires up { self.old.halted ≡ false }
        requires witness { is_p2 self.old.me ≡ true }
        requires above { nat_lt (number_of_view self.old.mark.accepted) (number_of_view view)
            ≡ true }
        requires below { nat_lt (number_of_view view) (number_of_view self.old.mark.promised)
            ≡ true }
        requires mark { mark ≡ marked self.old.mark (Demoting (number_of_view view)) }
        ensures { LeavesFor (number_of_view view) mark self.old self.new }
    {
        self.mark = mark;
        self.served = 0;
        self.state = mem::replace(&mut self.state, State::Gone).without_log();
    }

    /// A server that promised no view above the one that it is demoted of drops its log, and rests.
    fn rest(&mut self, mark: Mark, view: ViewNo)
        requires up { self.old.halted ≡ false }
        requires witness { is_p2 self.old.me ≡ true }
        requires below { nat_lt (number_of_view view) (number_of_view self.old.mark.promised)
            ≡ false }
        requires mark { mark ≡ marked self.old.mark (Demoting (number_of_view view)) }
        ensures { LeavesFor (number_of_view view) mark self.old self.new }
    {
        self.mark = mark;
        self.served = 0;
        self.duty = Task::Free;
        let kept = mem::replace(&mut self.state, State::Gone).into_kept();
        self.state = State::Rests(kept.forget());
    }
}

/// The mark of a server that is demoted of this view, which is above its accepted one.
#[tactic(auto, using(view_form::proofs::Views::view_back))]
fn demoted_mark(mark: Mark, view: ViewNo) -> Mark
    requires { nat_lt (number_of_view mark.accepted) (number_of_view view) ≡ true }
    ensures { result ≡ marked mark (Demoting (number_of_view view)) }
{
    let promised = later(mark.promised(), view);
    Mark::new(
        promised,
        view,
        Role::Outside,
        mark.lb(),
        mark.longest(),
        None,
    )
}

/// The greater of two views.
fn later(promised: ViewNo, view: ViewNo) -> ViewNo
    ensures value { result ≡ (if nat_lt (number_of_view view) (number_of_view promised)
        then promised else view) }
    ensures above { above view result ≡ false }
{
    if promised.is_above(view) {
        return promised;
    }
    view
}
