//! The leader's answers to asks, and its appends.

ghost use Rattle.std.specs.Prelude.{◌≡◌, ℕ, ◌+◌, ◌<◌, ◌≤◌, ◌^◌, ◌++◌, ◌∷◌, ◌||◌, [], List, length, nat_le, Err, IfOk, OnErr, OnOk, Some, Option, true, false};
ghost use Rattle.cell_cache.specs.Entries.{AreOf};
ghost use Rattle.dedup.specs.Repeats.{seen_after};
ghost use Rattle.event_record.specs.Record.{entry_of};
ghost use Rattle.file_tree.specs.Book.{Entry, last_of};
ghost use Rattle.group_rules.specs.Ask.{append, new_entry, on_ask, update_moves};
ghost use Rattle.group_rules.specs.Limits.{limit, room as most};
ghost use Rattle.group_rules.specs.Names.{view_of};
ghost use Rattle.group_rules.specs.State.{Event};
ghost use Rattle.harp_types.specs.Streams.{Rose};
ghost use Rattle.harp_types.specs.Update.{is_update};
ghost use Rattle.harp_store.specs.Disk.{Moments, cells_told};
ghost use Rattle.node_outputs.specs.Records.{records_sent};
ghost use Rattle.node_outputs.specs.Said.{said};
ghost use Rattle.tree_log.specs.Planning.{next_record};
ghost use Rattle.tree_log.specs.Reading.{HoldsTree, IsNextRecord};
ghost use Rattle.replica.specs.Asking.{Asked, IsGrown, reads_tree};
ghost use Rattle.replica.specs.Leading.{Outer, led, partner_of, place_led};
ghost use Rattle.volatile_log.specs.Log.{room, top, with_record};

use crate::leader::Leader;
use crate::records::event_of;
use dedup::Seen;
use event_record::Record;
use harp_cells::CellFault;
use harp_store::Store;
use harp_types::{Call, Cause, LAST_CLIENT, LOG_ROOM, Peer, Reply, is_update};
use node_outputs::{Answered, Asker, Outputs};
use std::alloc::{AllocError, Global};

/// The greatest index.
const LAST_INDEX: u64 = (1 << 62) - 1;

/// An ask is refused.
pub(crate) fn refuse(outs: &mut Outputs, asker: Asker, cause: Cause) -> Result<(), CellFault>
    ensures said { OnOk result (said outs.new ≡ record (said outs.old) {
      refusals = (said outs.old).refusals ++ (record {
        peer = asker.peer;
        client = asker.client;
        number = asker.number;
        cause = cause;
      }) ∷ [];
    }) }
    ensures records { records_sent outs.new ≡ records_sent outs.old }
    ensures memory { result ≡ Err CellFault.StoreFailed → ⊥ }
{
    outs.refuse(asker, cause)?;
    Ok(())
}

/// An update is answered with its kept reply.
fn answer_again(outs: &mut Outputs, asker: Asker, index: u64, reply: Reply) -> Result<(), CellFault>
    ensures said { OnOk result (said outs.new ≡ record (said outs.old) {
      answers = (said outs.old).answers ++ (record {
        peer = asker.peer;
        client = asker.client;
        number = asker.number;
        index = index;
        reply = reply;
        asked = None;
      }) ∷ [];
    }) }
    ensures records { records_sent outs.new ≡ records_sent outs.old }
    ensures memory { result ≡ Err CellFault.StoreFailed → ⊥ }
{
    outs.answer(Answered {
        peer: asker.peer,
        client: asker.client,
        number: asker.number,
        index,
        reply,
        asked: None,
    })?;
    Ok(())
}

impl Leader {
    /// Deals with a client's call, by the client's own number of it. An update of a new number goes
    /// to the log and to the partner, and the peer waits for its commit; a repeat of the client's
    /// last one gets its reply where it is committed; a read is answered on the tree at CP while
    /// the partner's promise runs. An ask is refused where the client's number is above 4095, the
    /// view isn't open, no promise runs, the update is older than the client's last one, or the log
    /// has 32,768 records or the greatest index. After an error the leader is as before.
    pub fn ask<D: Store>(
        &mut self,
        alloc: Global,
        asker: Asker,
        call: &Call,
        now: u64,
        store: &mut D,
        outs: &mut Outputs,
    ) -> Result<(), CellFault>
        requires cached { AreOf (cells_told (D.told store.old)) self.old.cached }
        requires now { now < 2 ^ 62 }
        ensures asked { OnOk result ((o : Outer) (list : List Entry)
            → (reads_tree self.old asker.client call.now now ≡ true
            → HoldsTree list self.old.log.cp self.old.log (D.told store.old))
            → Asked now list (on_ask (place_led self.old o) now list (led self.old o) asker.client
            asker.number asker.cred call.now) asker.peer o self.old self.new outs.old outs.new) }
        ensures grown { IsGrown self.old self.new }
        ensures still { OnErr result (self.new ≡ record self.old { cached = self.new.cached }) }
        ensures cached { AreOf (cells_told (D.told store.new)) self.new.cached }
        ensures kept { D.told store.new ≡ D.told store.old }
        ensures rose { result ≡ Err CellFault.StoreFailed
            → Rose (D.faults store.old) (D.faults store.new) }
        ensures count { D.faults store.old ≤ D.faults store.new }
    {
        // The contract speaks of the whole leader, so its model is opened here.
        let _ = &self.log;
        if asker.client > LAST_CLIENT {
            return refuse(outs, asker, Cause::BadClient);
        }
        if !self.opened {
            return refuse(outs, asker, Cause::NotYetOpen);
        }
        if is_update(call) {
            self.update(alloc, asker, call, now, store, outs)
        } else {
            self.read(alloc, asker, call, now, store, outs)
        }
    }

    /// An update is a repeat of the client's last one, older than it, or new. A repeat is answered
    /// where the update is committed; else its answer comes with the commit.
    fn update<D: Store>(
        &mut self,
        alloc: Global,
        asker: Asker,
        call: &Call,
        now: u64,
        store: &mut D,
        outs: &mut Outputs,
    ) -> Result<(), CellFault>
        requires cached { AreOf (cells_told (D.told store.old)) self.old.cached }
        requires opened { self.old.opened ≡ true }
        requires update { is_update call.now ≡ true }
        requires now { now < 2 ^ 62 }
        ensures asked { OnOk result ((o : Outer) (list : List Entry)
            → HoldsTree list self.old.log.cp self.old.log (D.told store.old)
            → Asked now list (update_moves (led self.old o) (new_entry now list asker.client
            asker.number asker.cred call.now) (last_of asker.client list)) asker.peer o
            self.old self.new outs.old outs.new) }
        ensures grown { IsGrown self.old self.new }
        ensures still { OnErr result (self.new ≡ record self.old { cached = self.new.cached }) }
        ensures cached { AreOf (cells_told (D.told store.new)) self.new.cached }
        ensures kept { D.told store.new ≡ D.told store.old }
        ensures rose { result ≡ Err CellFault.StoreFailed
            → Rose (D.faults store.old) (D.faults store.new) }
        ensures count { D.faults store.old ≤ D.faults store.new }
    {
        match self.seen(alloc, asker, store)? {
            Seen::New => self.append(alloc, asker, call, now, store, outs),
            Seen::Kept { index, reply } => answer_again(outs, asker, index, reply),
            Seen::Pending => Ok(()),
            Seen::Old => refuse(outs, asker, Cause::Old),
        }
    }

    /// What an update is beside its client's last one.
    fn seen<D: Store>(
        &mut self,
        alloc: Global,
        asker: Asker,
        store: &mut D,
    ) -> Result<Seen, CellFault>
        requires { AreOf (cells_told (D.told store.old)) self.old.cached }
        ensures seen { (list : List Entry)
            → HoldsTree list self.old.log.cp self.old.log (D.told store.old)
            → IfOk result (λ s. s
            ≡ seen_after (last_of asker.client list) asker.number self.old.log.cp) }
        ensures same { self.new ≡ record self.old { cached = self.new.cached } }
        ensures cached { AreOf (cells_told (D.told store.new)) self.new.cached }
        ensures kept { D.told store.new ≡ D.told store.old }
        ensures rose { result ≡ Err CellFault.StoreFailed
            → Rose (D.faults store.old) (D.faults store.new) }
        ensures count { D.faults store.old ≤ D.faults store.new }
    {
        let _ = self.log.top();
        self.log.seen(alloc, store, asker.client, asker.number)
    }

    /// A new update is refused where the log is full. Else its record goes to the log and, in an
    /// Event, to the partner.
    fn append<D: Store>(
        &mut self,
        alloc: Global,
        asker: Asker,
        call: &Call,
        now: u64,
        store: &mut D,
        outs: &mut Outputs,
    ) -> Result<(), CellFault>
        requires cached { AreOf (cells_told (D.told store.old)) self.old.cached }
        requires opened { self.old.opened ≡ true }
        requires update { is_update call.now ≡ true }
        requires now { now < 2 ^ 62 }
        ensures asked { OnOk result ((o : Outer) (list : List Entry)
            → HoldsTree list self.old.log.cp self.old.log (D.told store.old)
            → Asked now list (append (led self.old o) (new_entry now list asker.client asker.number
            asker.cred call.now)) asker.peer o self.old self.new outs.old outs.new) }
        ensures grown { IsGrown self.old self.new }
        ensures still { OnErr result (self.new ≡ record self.old { cached = self.new.cached }) }
        ensures cached { AreOf (cells_told (D.told store.new)) self.new.cached }
        ensures kept { D.told store.new ≡ D.told store.old }
        ensures rose { result ≡ Err CellFault.StoreFailed
            → Rose (D.faults store.old) (D.faults store.new) }
        ensures count { D.faults store.old ≤ D.faults store.new }
    {
        if self.is_full() {
            return refuse(outs, asker, Cause::LogFull);
        }
        let item = self.next_record(alloc, asker, call, now, store)?;
        let copy = item.copy(alloc)?;
        self.append_record(asker.peer, item, copy, outs)?;
        Ok(())
    }

    /// Whether the log has room for no record, or the greatest index.
    #[tactic(auto, unfolding(group_rules::specs::Limits::room, group_rules::specs::Limits::limit))]
    fn is_full(&self) -> bool
        ensures tests { result
            ≡ (nat_le most (length self.now.log.records) || nat_le limit (top self.now.log)) }
        ensures room { result ≡ false → length self.now.log.records < room }
        ensures index { result ≡ false → top self.now.log + 1 < 2 ^ 62 }
    {
        let top = self.log.top();
        if top - self.log.base() >= LOG_ROOM as u64 {
            return true;
        }
        top >= LAST_INDEX
    }

    /// The record of a new update.
    fn next_record<D: Store>(
        &mut self,
        alloc: Global,
        asker: Asker,
        call: &Call,
        now: u64,
        store: &mut D,
    ) -> Result<Record, CellFault>
        requires cached { AreOf (cells_told (D.told store.old)) self.old.cached }
        requires update { is_update call.now ≡ true }
        requires index { top self.old.log + 1 < 2 ^ 62 }
        requires now { now < 2 ^ 62 }
        ensures record { (list : List Entry)
            → HoldsTree list self.old.log.cp self.old.log (D.told store.old)
            → IfOk result (λ r. r ≡ next_record (view_of self.old.view) now list asker.client
            asker.number asker.cred call.now) }
        ensures index { IfOk result (λ r. r.index ≡ top self.old.log + 1) }
        ensures same { self.new ≡ record self.old { cached = self.new.cached } }
        ensures cached { AreOf (cells_told (D.told store.new)) self.new.cached }
        ensures kept { D.told store.new ≡ D.told store.old }
        ensures rose { result ≡ Err CellFault.StoreFailed
            → Rose (D.faults store.old) (D.faults store.new) }
        ensures count { D.faults store.old ≤ D.faults store.new }
    {
        let _ = self.log.top();
        self.log.next_record(
            alloc,
            store,
            self.view,
            asker.client,
            asker.number,
            asker.cred,
            call,
            now,
        )
    }

    /// The next record goes to the log and, as a copy in an Event, to the partner. The peer waits
    /// for its commit.
    fn append_record(
        &mut self,
        peer: Peer,
        item: Record,
        copy: Record,
        outs: &mut Outputs,
    ) -> Result<(), AllocError>
        requires opened { self.old.opened ≡ true }
        requires room { length self.old.log.records < room }
        requires next { item.index ≡ top self.old.log + 1 }
        requires limit { item.index < 2 ^ 62 }
        requires copy { copy ≡ item }
        ensures state { OnOk result (self.new ≡ record self.old {
          log = with_record self.old.log item;
          peers = self.old.peers ++ peer ∷ [];
        }) }
        ensures still { OnErr result (self.new ≡ self.old) }
        ensures said { OnOk result (let l = self.old in said outs.new ≡ record (said outs.old) {
          sends = (said outs.old).sends ++ (
            partner_of l.beside,
            Some (Event l.view item.index l.log.cp l.log.base (entry_of item)),
          ) ∷ [];
        }) }
        ensures records { OnOk result (records_sent outs.new
            ≡ records_sent outs.old ++ item ∷ []) }
        ensures tree { (list : List Entry) (upto : ℕ) (told : Option Moments) (e : Entry)
            → upto ≤ top self.old.log → IsNextRecord list e item → is_update e.call ≡ true
            → HoldsTree list upto self.old.log told
            → OnOk result (HoldsTree (list ++ e ∷ []) upto self.new.log told) }
    {
        let _ = self.log.top();
        let event = event_of(self.view, self.log.cp(), self.log.base(), copy);
        outs.send(self.beside.partner(), event)?;
        self.log.append(item)?;
        self.waiting.push_back_reserved(peer);
        Ok(())
    }
}
