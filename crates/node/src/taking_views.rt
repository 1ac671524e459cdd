//! Messages of a view that is being formed, from their tests to the test of opening. After an error
//! the server is halted.

ghost use Rattle.node.specs.Stock.{stock, Stocks};
ghost use Rattle.std.specs.Prelude.{◌≡◌, ◌≤◌, [], List, ℕ, Err, OnErr, OnOk, false, map, ⊤};
ghost use Rattle.event_record.specs.Record.{entry_of};
ghost use Rattle.file_tree.specs.Book.{Entry};
ghost use Rattle.group_rules.specs.Names.{number_of_view, place_of};
ghost use Rattle.group_rules.specs.State.{Demote, Form as SendsForm, Formed, Give, Invite, Join};
ghost use Rattle.group_rules.specs.Step.{Comes, rule};
ghost use Rattle.harp_types.specs.Streams.{Rose};
ghost use Rattle.idle_log.specs.Kept.{plan_of};
ghost use Rattle.node.specs.Cached.{IsCachedAs};
ghost use Rattle.node.specs.Disk.{MayLeave, disk_after, marked_by};
ghost use Rattle.node.specs.Node.{server};
ghost use Rattle.node.specs.Taking.{coming};
ghost use Rattle.node_outputs.specs.Makes.{Makes};
ghost use Rattle.view_form.specs.Choice.{report};
ghost use Rattle.node.specs.Handles.{Handles};

use crate::fault::NodeFault;
use crate::node::Node;
use harp_store::Store;
use harp_types::{ServerId, ViewNo};
use idle_log::Form;
use node_outputs::Outputs;
use std::alloc::{AllocError, Global};
use view_form::JoinInfo;
use wire::Records;

impl Node {
    /// An Invite that has come: a misfit changes nothing. An error leaves the mark on the disk as
    /// it was, or with the view promised.
    pub(crate) fn take_invite<D: Store>(
        &mut self,
        alloc: Global,
        from: ServerId,
        view: ViewNo,
        now: u64,
        store: &mut D,
        outs: &mut Outputs,
    ) -> Result<(), NodeFault>
        requires up { self.old.halted ≡ false }
        ensures handles { (size : List Entry → Entry → ℕ) (list : List Entry)
            → Handles result ⊤ now (λ q s. rule size q now list s (Comes (place_of from)
            (Invite (number_of_view view)))) [] [] self.old self.new
            outs.old outs.new (D.told store.old) (D.told store.new) (D.faults store.old)
            (D.faults store.new) }
        ensures count { D.faults store.old ≤ D.faults store.new }
    {
        if self.misfits_invite(from, view) {
            return Ok(());
        }
        self.invite(alloc, from, view, store, outs)?;
        self.try_open(alloc, now, outs)?;
        Ok(())
    }

    /// A Join that has come: a misfit changes nothing. An error leaves the mark on the disk as it
    /// was, or with the view accepted.
    pub(crate) fn take_join<D: Store>(
        &mut self,
        alloc: Global,
        from: ServerId,
        view: ViewNo,
        info: JoinInfo,
        now: u64,
        store: &mut D,
        outs: &mut Outputs,
    ) -> Result<(), NodeFault>
        requires up { self.old.halted ≡ false }
        ensures handles { (size : List Entry → Entry → ℕ) (list : List Entry)
            → Handles result ⊤ now (λ q s. rule size q now list s (Comes (place_of from)
            (Join (number_of_view view) (report info)))) [] [] self.old self.new
            outs.old outs.new (D.told store.old) (D.told store.new) (D.faults store.old)
            (D.faults store.new) }
        ensures count { D.faults store.old ≤ D.faults store.new }
    {
        if self.misfits_join(from, view, &info) {
            return Ok(());
        }
        self.collect(alloc, from, view, info, store, outs)?;
        self.try_open(alloc, now, outs)?;
        Ok(())
    }

    /// A Form that has come: a misfit changes nothing. An error leaves the mark on the disk as it
    /// was, or with the view accepted.
    pub(crate) fn take_form<D: Store>(
        &mut self,
        alloc: Global,
        from: ServerId,
        view: ViewNo,
        form: Form,
        now: u64,
        store: &mut D,
        outs: &mut Outputs,
    ) -> Result<(), NodeFault>
        requires up { self.old.halted ≡ false }
        ensures handles { (size : List Entry → Entry → ℕ) (list : List Entry)
            → Handles result ⊤ now (λ q s. rule size q now list s (Comes (place_of from)
            (SendsForm (number_of_view view) (plan_of form)))) [] [] self.old self.new
            outs.old outs.new (D.told store.old) (D.told store.new) (D.faults store.old)
            (D.faults store.new) }
        ensures count { D.faults store.old ≤ D.faults store.new }
    {
        if self.misfits_form(from, view, &form) {
            return Ok(());
        }
        self.form(alloc, view, form, store, outs)?;
        self.try_open(alloc, now, outs)?;
        Ok(())
    }

    /// A Give that has come: a misfit changes nothing. An error leaves the mark on the disk as it
    /// was, or with the view accepted.
    pub(crate) fn take_give<D: Store>(
        &mut self,
        alloc: Global,
        from: ServerId,
        view: ViewNo,
        first: u64,
        records: Records,
        now: u64,
        store: &mut D,
        outs: &mut Outputs,
    ) -> Result<(), NodeFault>
        requires up { self.old.halted ≡ false }
        ensures handles { (size : List Entry → Entry → ℕ) (list : List Entry)
            → Handles result ⊤ now (λ q s. rule size q now list s (Comes (place_of from)
            (Give (number_of_view view) first (map entry_of records)))) records [] self.old self.new
            outs.old outs.new (D.told store.old) (D.told store.new) (D.faults store.old)
            (D.faults store.new) }
        ensures count { D.faults store.old ≤ D.faults store.new }
    {
        if self.misfits_give(from, view, first, &records) {
            return Ok(());
        }
        self.give(alloc, view, first, records, store, outs)?;
        self.try_open(alloc, now, outs)?;
        Ok(())
    }

    /// A Demote that has come: a misfit changes nothing. An error leaves the mark on the disk as it
    /// was, or with the view left.
    pub(crate) fn take_demote<D: Store>(
        &mut self,
        alloc: Global,
        from: ServerId,
        view: ViewNo,
        now: u64,
        store: &mut D,
        outs: &mut Outputs,
    ) -> Result<(), NodeFault>
        requires up { self.old.halted ≡ false }
        ensures handles { (size : List Entry → Entry → ℕ) (list : List Entry)
            → Handles result ⊤ now (λ q s. rule size q now list s (Comes (place_of from)
            (Demote (number_of_view view)))) [] [] self.old self.new
            outs.old outs.new (D.told store.old) (D.told store.new) (D.faults store.old)
            (D.faults store.new) }
        ensures count { D.faults store.old ≤ D.faults store.new }
    {
        if self.misfits_demote(from, view) {
            return Ok(());
        }
        self.demote(alloc, view, store)?;
        self.try_open(alloc, now, outs)?;
        Ok(())
    }

    /// A Formed that has come: a misfit changes nothing.
    pub(crate) fn take_formed(
        &mut self,
        alloc: Global,
        from: ServerId,
        view: ViewNo,
        lb: u64,
        now: u64,
        outs: &mut Outputs,
    ) -> Result<(), AllocError>
        requires { self.old.halted ≡ false }
        ensures makes { OnOk result ((items : List Entry) (size : List Entry → Entry → ℕ)
            (list : List Entry) → let s = server self.old items in Makes self.old.me now
            (rule size self.old.me now list s
            (Comes (place_of from) (Formed (number_of_view view) lb)))
            [] s (server self.new items) outs.old outs.new) }
        ensures me { self.new.me ≡ self.old.me }
        ensures stock { OnOk result (stock self.new ≡ stock self.old) }
        ensures cached { OnOk result (IsCachedAs self.old.cached self.new.cached) }
        ensures mark { self.new.mark ≡ self.old.mark }
        ensures up { OnOk result (self.new.halted ≡ false) }
    {
        if self.misfits_formed(from, view, lb) {
            return Ok(());
        }
        self.formed(from, view, lb);
        self.try_open(alloc, now, outs)
    }
}
