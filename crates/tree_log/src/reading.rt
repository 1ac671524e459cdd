//! What is read of the tree after some records of a log.

ghost use Rattle.std.specs.Prelude.{◌≡◌, ◌+◌, ◌≤◌, List, length, take, IfOk, Err, Some, false};
ghost use Rattle.cell_cache.specs.Entries.{AreOf};
ghost use Rattle.dedup.specs.Repeats.{seen_after};
ghost use Rattle.file_tree.specs.Book.{Entry, last_of, tree_after};
ghost use Rattle.file_tree.specs.Calls.{outcome};
ghost use Rattle.harp_types.specs.Streams.{Rose};
ghost use Rattle.harp_types.specs.Update.{is_update};
ghost use Rattle.harp_cells.specs.CellsOfTree.{StandForBook};
ghost use Rattle.harp_cells.specs.Effect.{Cells};
ghost use Rattle.harp_store.specs.Disk.{cells_told};
ghost use Rattle.nfs_calls.specs.Forms.{IsReplyTo};
ghost use Rattle.overlay.specs.Index.{IsIndexOf};
ghost use Rattle.overlay.specs.Overlay.{told_over};
ghost use Rattle.tree_log.specs.Reading.{HoldsTree};
ghost use Rattle.tree_log.specs.TreeLog.{changes_in};
ghost use Rattle.volatile_log.specs.Log.{top};

use crate::tree_log::{TreeLog, follow};
use cell_cache::Cached;
use dedup::Seen;
use harp_cells::{CellFault, CellRead};
use harp_store::Store;
use harp_types::{Call, Cred, Reply};
use overlay::{At, CellIndex};
use std::alloc::Global;
use volatile_log::ActiveLog;

// What an update is beside its client's last one in the log, over other cells.
fn seen_over<U: CellRead>(
    alloc: Global,
    under: &mut U,
    index: &CellIndex,
    log: &ActiveLog,
    client: u32,
    number: u64,
) -> Result<Seen, CellFault>
    requires { IsIndexOf index.now log.now.base (changes_in log.now.records) }
    ensures seen { (held : Cells) (list : List Entry)
        → told_over log.now.base (changes_in log.now.records) (top log.now) (U.cells under.old)
        ≡ Some held → StandForBook held list
        → IfOk result (λ s. s ≡ seen_after (last_of client list) number log.now.cp) }
    ensures left { U.left under.new ≡ U.left under.old }
    ensures rose { result ≡ Err CellFault.StoreFailed
        → Rose (U.faults under.old) (U.faults under.new) }
    ensures count { U.faults under.old ≤ U.faults under.new }
{
    let mut at = At::new(under, index, log, log.top());
    dedup::seen(alloc, &mut at, client, number, log.cp())
}

// The reply to a read after the committed records of a log, over other cells.
fn answer_over<U: CellRead>(
    alloc: Global,
    under: &mut U,
    index: &CellIndex,
    log: &ActiveLog,
    cred: Cred,
    call: &Call,
) -> Result<Reply, CellFault>
    requires index { IsIndexOf index.now log.now.base (changes_in log.now.records) }
    requires read { is_update call.now ≡ false }
    ensures reply { (held : Cells) (list : List Entry)
        → told_over log.now.base (changes_in log.now.records) log.now.cp (U.cells under.old)
        ≡ Some held → StandForBook held list
        → IfOk result (λ reply. reply ≡ (outcome (tree_after list) cred call.now 0).0) }
    ensures form { IfOk result (IsReplyTo call.now) }
    ensures left { U.left under.new ≡ U.left under.old }
    ensures rose { result ≡ Err CellFault.StoreFailed
        → Rose (U.faults under.old) (U.faults under.new) }
    ensures count { U.faults under.old ≤ U.faults under.new }
{
    let mut at = At::new(under, index, log, log.cp());
    nfs_calls::answer(alloc, &mut at, cred, call)
}

impl TreeLog {
    /// What an update is beside the last one of its client, among all updates up to top.
    pub fn seen<D: Store>(
        &mut self,
        alloc: Global,
        store: &mut D,
        client: u32,
        number: u64,
    ) -> Result<Seen, CellFault>
        requires { AreOf (cells_told (D.told store.old)) self.old.cached }
        ensures seen { (list : List Entry)
            → HoldsTree list (top self.old.log) self.old.log (D.told store.old)
            → IfOk result (λ s. s ≡ seen_after (last_of client list) number self.old.log.cp) }
        ensures log { self.new.log ≡ self.old.log }
        ensures cached { AreOf (cells_told (D.told store.new)) self.new.cached }
        ensures kept { D.told store.new ≡ D.told store.old }
        ensures rose { result ≡ Err CellFault.StoreFailed
            → Rose (D.faults store.old) (D.faults store.new) }
        ensures count { D.faults store.old ≤ D.faults store.new }
    {
        let _ = self.log.top();
        follow(&mut self.index, &mut self.indexed, &self.log)?;
        let mut cached = Cached::new(alloc, store, &mut self.cache);
        seen_over(alloc, &mut cached, &self.index, &self.log, client, number)
    }

    /// The reply to a read, on the tree after the committed updates.
    pub fn answer<D: Store>(
        &mut self,
        alloc: Global,
        store: &mut D,
        cred: Cred,
        call: &Call,
    ) -> Result<Reply, CellFault>
        requires read { is_update call.now ≡ false }
        requires cached { AreOf (cells_told (D.told store.old)) self.old.cached }
        ensures reply { (list : List Entry)
            → HoldsTree list self.old.log.cp self.old.log (D.told store.old)
            → IfOk result (λ reply. reply
            ≡ (outcome (tree_after (take self.old.log.cp list)) cred call.now 0).0) }
        ensures form { IfOk result (IsReplyTo call.now) }
        ensures log { self.new.log ≡ self.old.log }
        ensures cached { AreOf (cells_told (D.told store.new)) self.new.cached }
        ensures kept { D.told store.new ≡ D.told store.old }
        ensures rose { result ≡ Err CellFault.StoreFailed
            → Rose (D.faults store.old) (D.faults store.new) }
        ensures count { D.faults store.old ≤ D.faults store.new }
    {
        let _ = self.log.top();
        follow(&mut self.index, &mut self.indexed, &self.log)?;
        let mut cached = Cached::new(alloc, store, &mut self.cache);
        answer_over(alloc, &mut cached, &self.index, &self.log, cred, call)
    }
}
