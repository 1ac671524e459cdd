//! The leader's answers to reads.

ghost use Rattle.std.specs.Prelude.{◌≡◌, ℕ, ◌≤◌, ◌∷◌, [], List, nat_lt, take, Err, IfOk, OnErr, OnOk, Some, true, false};
ghost use Rattle.cell_cache.specs.Entries.{AreOf};
ghost use Rattle.file_tree.specs.Book.{Entry, tree_after};
ghost use Rattle.file_tree.specs.Calls.{outcome};
ghost use Rattle.group_rules.specs.Ask.{read_entry, read_moves};
ghost use Rattle.group_rules.specs.Moves.{Reading};
ghost use Rattle.harp_types.specs.Streams.{Rose};
ghost use Rattle.harp_types.specs.Update.{is_update};
ghost use Rattle.harp_store.specs.Disk.{cells_told};
ghost use Rattle.tree_log.specs.Reading.{HoldsTree};
ghost use Rattle.replica.specs.Asking.{Asked, IsGrown};
ghost use Rattle.replica.specs.Leading.{Outer, led};

use crate::leader::Leader;
use crate::leader::asks::refuse;
use harp_cells::CellFault;
use harp_store::Store;
use harp_types::{Call, Cause, Cred, Reply, is_update};
use node_outputs::{Answered, AskedRead, Asker, Outputs};
use std::alloc::Global;

impl Leader {
    /// A read is answered while the partner's promise runs.
    pub(crate) fn read<D: Store>(
        &mut self,
        alloc: Global,
        asker: Asker,
        call: &Call,
        now: u64,
        store: &mut D,
        outs: &mut Outputs,
    ) -> Result<(), CellFault>
        requires cached { AreOf (cells_told (D.told store.old)) self.old.cached }
        requires read { is_update call.now ≡ false }
        ensures asked { OnOk result ((o : Outer) (list : List Entry)
            → (nat_lt now self.old.grant ≡ true
            → HoldsTree list self.old.log.cp self.old.log (D.told store.old))
            → Asked now list (read_moves now (led self.old o) (read_entry self.old.log.cp list
            asker.client asker.number asker.cred call.now)) asker.peer o self.old self.new
            outs.old outs.new) }
        ensures grown { IsGrown self.old self.new }
        ensures still { OnErr result (self.new ≡ record self.old { cached = self.new.cached }) }
        ensures cached { AreOf (cells_told (D.told store.new)) self.new.cached }
        ensures kept { D.told store.new ≡ D.told store.old }
        ensures rose { result ≡ Err CellFault.StoreFailed
            → Rose (D.faults store.old) (D.faults store.new) }
        ensures count { D.faults store.old ≤ D.faults store.new }
    {
        let _ = self.log.top();
        if !self.grant.allows(now) {
            return refuse(outs, asker, Cause::NoPromise);
        }
        self.answer(alloc, asker, call, store, outs)
    }

    /// A read is answered on the tree at CP.
    fn answer<D: Store>(
        &mut self,
        alloc: Global,
        asker: Asker,
        call: &Call,
        store: &mut D,
        outs: &mut Outputs,
    ) -> Result<(), CellFault>
        requires cached { AreOf (cells_told (D.told store.old)) self.old.cached }
        requires read { is_update call.now ≡ false }
        ensures asked { OnOk result ((o : Outer) (list : List Entry) (now : ℕ)
            → HoldsTree list self.old.log.cp self.old.log (D.told store.old)
            → Asked now list (Reading self.old.log.cp (read_entry self.old.log.cp list
            asker.client asker.number asker.cred call.now) ∷ []) asker.peer o self.old self.new
            outs.old outs.new) }
        ensures grown { IsGrown self.old self.new }
        ensures still { OnErr result (self.new ≡ record self.old { cached = self.new.cached }) }
        ensures cached { AreOf (cells_told (D.told store.new)) self.new.cached }
        ensures kept { D.told store.new ≡ D.told store.old }
        ensures rose { result ≡ Err CellFault.StoreFailed
            → Rose (D.faults store.old) (D.faults store.new) }
        ensures count { D.faults store.old ≤ D.faults store.new }
    {
        let index = self.log.cp();
        let asked = AskedRead {
            cred: asker.cred,
            call: call.copy(alloc)?,
        };
        let reply = self.reply(alloc, asker.cred, call, store)?;
        outs.answer(Answered {
            peer: asker.peer,
            client: asker.client,
            number: asker.number,
            index,
            reply,
            asked: Some(asked),
        })?;
        Ok(())
    }

    /// The reply to a read.
    fn reply<D: Store>(
        &mut self,
        alloc: Global,
        cred: Cred,
        call: &Call,
        store: &mut D,
    ) -> Result<Reply, CellFault>
        requires cached { AreOf (cells_told (D.told store.old)) self.old.cached }
        requires read { is_update call.now ≡ false }
        ensures reply { (list : List Entry)
            → HoldsTree list self.old.log.cp self.old.log (D.told store.old)
            → IfOk result (λ reply. reply
            ≡ (outcome (tree_after (take self.old.log.cp list)) cred call.now 0).0) }
        ensures same { self.new ≡ record self.old { cached = self.new.cached } }
        ensures cached { AreOf (cells_told (D.told store.new)) self.new.cached }
        ensures kept { D.told store.new ≡ D.told store.old }
        ensures rose { result ≡ Err CellFault.StoreFailed
            → Rose (D.faults store.old) (D.faults store.new) }
        ensures count { D.faults store.old ≤ D.faults store.new }
    {
        let _ = self.log.top();
        self.log.answer(alloc, store, cred, call)
    }
}
