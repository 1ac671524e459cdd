//! What a server shows of what is wanted of it.

ghost use Rattle.std.specs.Prelude.{◌≡◌, ◌↔◌, ◌<◌, ◌≤◌, ◌^◌, Err, IfOk, IfSome, OnOk, OnErr, false, true};
ghost use Rattle.cell_cache.specs.Entries.{AreOf};
ghost use Rattle.harp_types.specs.Streams.{Rose};
ghost use Rattle.harp_cells.specs.Effect.{Reads};
ghost use Rattle.harp_store.specs.Disk.{cells_told};
ghost use Rattle.node.specs.Active.{is_active};
ghost use Rattle.node.specs.State.{cached_in};
ghost use Rattle.node.specs.Stored.{log_in, with_log};
ghost use Rattle.node.specs.Wants.{LeavesShown, OnlyCaches, Shows, ShowsCell, records_shown};
ghost use Rattle.shown.specs.Truth.{IsLowShown};
ghost use Rattle.tree_log.specs.Committed.{committed_over};

use crate::fault::NodeFault;
use crate::node::Node;
use crate::state::State;
use harp_cells::{Cell, CellFault, Value};
use harp_store::Store;
use shown::{Shown, Want, records_active, records_kept};
use std::alloc::{AllocError, Global};
use volatile_log::ActiveLog;

impl Node {
    /// Shows what is wanted: a cell, at a settled data server, with its value after the committed
    /// updates; or committed records, at a server that holds a log. Nothing is shown of a cell by
    /// another server, of records by one without a log, and of an index that is 0 or above CP. It
    /// changes nothing but which cells the server keeps in memory. After an error it is halted.
    pub fn show<D: Store>(
        &mut self,
        alloc: Global,
        want: &Want,
        store: &mut D,
    ) -> Result<Option<Shown>, NodeFault>
        requires { AreOf (cells_told (D.told store.old)) self.old.cached }
        ensures shown { IfOk result (Shows self.old (cells_told (D.told store.old)) want.now) }
        ensures low { IfOk result (λ o. IfSome o IsLowShown) }
        ensures leaves { LeavesShown result self.old self.new (D.told store.old)
            (D.told store.new) }
        ensures halted { (result ≡ Err NodeFault.Halted) ↔ (self.old.halted ≡ true) }
        ensures rose { result ≡ Err NodeFault.StoreFailed → Rose (D.faults store.old)
            (D.faults store.new) }
        ensures count { D.faults store.old ≤ D.faults store.new }
    {
        if self.is_halted() {
            return Err(NodeFault::Halted);
        }
        match self.shown(alloc, want, store) {
            Ok(shown) => Ok(shown),
            Err(fault) => {
                self.state.halt();
                Err(fault)
            }
        }
    }

    /// The same of a server that isn't halted. It doesn't halt it.
    fn shown<D: Store>(
        &mut self,
        alloc: Global,
        want: &Want,
        store: &mut D,
    ) -> Result<Option<Shown>, NodeFault>
        requires up { self.old.halted ≡ false }
        requires cached { AreOf (cells_told (D.told store.old)) self.old.cached }
        ensures shown { IfOk result (Shows self.old (cells_told (D.told store.old)) want.now) }
        ensures low { IfOk result (λ o. IfSome o IsLowShown) }
        ensures leaves { OnlyCaches result self.old self.new (D.told store.old)
            (D.told store.new) }
        ensures rose { result ≡ Err NodeFault.StoreFailed → Rose (D.faults store.old)
            (D.faults store.new) }
        ensures count { D.faults store.old ≤ D.faults store.new }
    {
        match want {
            Want::Cell { cell } => self.show_cell(alloc, *cell, store),
            Want::Records { first } => Ok(self.show_records(alloc, *first)?),
        }
    }

    /// A settled data server shows a cell. Each other server shows nothing of it.
    fn show_cell<D: Store>(
        &mut self,
        alloc: Global,
        cell: Cell,
        store: &mut D,
    ) -> Result<Option<Shown>, NodeFault>
        requires up { self.old.halted ≡ false }
        requires cached { AreOf (cells_told (D.told store.old)) self.old.cached }
        ensures shown { IfOk result (ShowsCell self.old (cells_told (D.told store.old)) cell) }
        ensures low { IfOk result (λ o. IfSome o IsLowShown) }
        ensures leaves { OnlyCaches result self.old self.new (D.told store.old)
            (D.told store.new) }
        ensures rose { result ≡ Err NodeFault.StoreFailed → Rose (D.faults store.old)
            (D.faults store.new) }
        ensures count { D.faults store.old ≤ D.faults store.new }
    {
        if !self.stores() {
            return Ok(None);
        }
        let cp = log_cp(&self.state);
        let value = log_cell::<D>(alloc, &mut self.state, cell, store)?;
        Ok(Some(Shown::Cell { cell, value, cp }))
    }

    /// A server that holds a log shows its committed records from an index on.
    fn show_records(&self, alloc: Global, first: u64) -> Result<Option<Shown>, AllocError>
        requires { self.now.halted ≡ false }
        ensures shown { IfOk result (λ o. o ≡ records_shown self.now first) }
        ensures low { IfOk result (λ o. IfSome o IsLowShown) }
    {
        match &self.state {
            State::Gone => unreachable!(),
            State::Rests(kept) => records_kept(alloc, kept, first),
            State::Joined(kept, _) => records_kept(alloc, kept, first),
            State::Pulls(kept, _, _, _) => records_kept(alloc, kept, first),
            State::Leads(leader, _) => records_active(alloc, leader.log(), first),
            State::Follows(partner, _) => records_active(alloc, partner.log(), first),
        }
    }
}

/// CP of a leader or a partner.
fn log_cp(state: &State) -> u64
    requires { is_active state.now ≡ true }
    ensures value { result ≡ (log_in state.now).cp }
    ensures low { result < 2 ^ 62 }
{
    match state {
        State::Leads(leader, _) => active_cp(leader.log()),
        State::Follows(partner, _) => active_cp(partner.log()),
        State::Gone => unreachable!(),
        State::Rests(_) => unreachable!(),
        State::Joined(_, _) => unreachable!(),
        State::Pulls(_, _, _, _) => unreachable!(),
    }
}

/// CP of a log, which is below 2^62.
fn active_cp(log: &ActiveLog) -> u64
    ensures value { result ≡ log.now.cp }
    ensures low { result < 2 ^ 62 }
{
    let _ = log.top();
    log.cp()
}

/// What a cell holds at CP of a leader or a partner.
fn log_cell<D: Store>(
    alloc: Global,
    state: &mut State,
    cell: Cell,
    store: &mut D,
) -> Result<Option<Value>, CellFault>
    requires active { is_active state.old ≡ true }
    requires cached { AreOf (cells_told (D.told store.old)) (cached_in state.old) }
    ensures value { IfOk result (Reads (committed_over (log_in state.old)
        (cells_told (D.told store.old))) cell) }
    ensures same { state.new ≡ with_log state.old (log_in state.old) (cached_in state.new) }
    ensures cached { AreOf (cells_told (D.told store.new)) (cached_in state.new) }
    ensures kept { D.told store.new ≡ D.told store.old }
    ensures rose { result ≡ Err CellFault.StoreFailed
        → Rose (D.faults store.old) (D.faults store.new) }
    ensures count { D.faults store.old ≤ D.faults store.new }
{
    match state {
        State::Leads(leader, _) => leader.cell(alloc, store, cell),
        State::Follows(partner, _) => partner.cell(alloc, store, cell),
        State::Gone => unreachable!(),
        State::Rests(_) => unreachable!(),
        State::Joined(_, _) => unreachable!(),
        State::Pulls(_, _, _, _) => unreachable!(),
    }
}
