//! Messages of a running view, from their tests to the test of opening. After an error the server
//! is halted.

ghost use Rattle.idle_log.specs.Gives.{StandIn};
ghost use Rattle.node_outputs.specs.Records.{records_sent};
ghost use Rattle.node.specs.Stock.{stock, Stocks};
ghost use Rattle.std.specs.Prelude.{◌≡◌, ◌<◌, ◌≤◌, ◌^◌, [], List, ℕ, OnOk, false, ◌∷◌, ◌++◌};
ghost use Rattle.event_record.specs.Record.{entry_of};
ghost use Rattle.file_tree.specs.Book.{Entry};
ghost use Rattle.group_rules.specs.Names.{number_of_view, place_of};
ghost use Rattle.group_rules.specs.State.{Ack, Beat, Event, Fetch, top as top_of};
ghost use Rattle.group_rules.specs.Step.{Comes, rule};
ghost use Rattle.node.specs.Node.{server};
ghost use Rattle.node.specs.Serving.{IsSized};
ghost use Rattle.node_outputs.specs.Makes.{Makes};

use crate::node::Node;
use event_record::Record;
use harp_types::{ServerId, ViewNo};
use node_outputs::Outputs;
use promise::Deadline;
use std::alloc::{AllocError, Global};

impl Node {
    /// A Fetch that has come: a misfit changes nothing.
    pub(crate) fn take_fetch(
        &mut self,
        alloc: Global,
        from: ServerId,
        view: ViewNo,
        first: u64,
        now: u64,
        outs: &mut Outputs,
    ) -> Result<(), AllocError>
        requires { self.old.halted ≡ false }
        ensures makes { OnOk result ((items : List Entry) (size : List Entry → Entry → ℕ)
            (list : List Entry) → self.old.plain.served ≤ top_of self.old.plain
            → IsSized size list self.old (number_of_view view) first
            → let s = server self.old items in Makes self.old.me now
            (rule size self.old.me now list s
            (Comes (place_of from) (Fetch (number_of_view view) first)))
            [] s (server self.new items) outs.old outs.new) }
        ensures me { self.new.me ≡ self.old.me }
        ensures stock { OnOk result (stock self.new ≡ stock self.old) }
        ensures sent { OnOk result (StandIn (records_sent outs.old ++ self.old.records)
            (records_sent outs.new)) }
        ensures cached { OnOk result (self.new.cached ≡ self.old.cached) }
        ensures mark { self.new.mark ≡ self.old.mark }
        ensures up { OnOk result (self.new.halted ≡ false) }
    {
        if self.misfits_fetch(from, view, first) {
            return Ok(());
        }
        self.heed_fetch(alloc, from, view, first, outs)?;
        self.try_open(alloc, now, outs)
    }

    /// An Event that has come: a misfit changes nothing.
    pub(crate) fn take_event(
        &mut self,
        alloc: Global,
        from: ServerId,
        view: ViewNo,
        cp: u64,
        base: u64,
        item: Record,
        now: u64,
        outs: &mut Outputs,
    ) -> Result<(), AllocError>
        requires up { self.old.halted ≡ false }
        requires now { now < 2 ^ 62 }
        ensures makes { OnOk result ((items : List Entry) (size : List Entry → Entry → ℕ)
            (list : List Entry) → let s = server self.old items in Makes self.old.me now
            (rule size self.old.me now list s (Comes (place_of from)
            (Event (number_of_view view) item.index cp base (entry_of item))))
            [] s (server self.new items) outs.old outs.new) }
        ensures me { self.new.me ≡ self.old.me }
        ensures stock { OnOk result ((items : List Entry) (size : List Entry → Entry → ℕ)
            (list : List Entry) → let s = server self.old items in Stocks (item ∷ []) self.old.me s
            (rule size self.old.me now list s (Comes (place_of from)
            (Event (number_of_view view) item.index cp base (entry_of item))))
            (stock self.old) (stock self.new)) }
        ensures cached { OnOk result (self.new.cached ≡ self.old.cached) }
        ensures mark { self.new.mark ≡ self.old.mark }
        ensures up { OnOk result (self.new.halted ≡ false) }
    {
        if self.misfits_event(from, view, cp, base, &item) {
            return Ok(());
        }
        self.heed_event(view, cp, base, item, now, outs)?;
        self.try_open(alloc, now, outs)
    }

    /// A Beat that has come: a misfit changes nothing.
    pub(crate) fn take_beat(
        &mut self,
        alloc: Global,
        from: ServerId,
        view: ViewNo,
        cp: u64,
        base: u64,
        now: u64,
        outs: &mut Outputs,
    ) -> Result<(), AllocError>
        requires up { self.old.halted ≡ false }
        requires now { now < 2 ^ 62 }
        ensures makes { OnOk result ((items : List Entry) (size : List Entry → Entry → ℕ)
            (list : List Entry) → let s = server self.old items in Makes self.old.me now
            (rule size self.old.me now list s
            (Comes (place_of from) (Beat (number_of_view view) cp base)))
            [] s (server self.new items) outs.old outs.new) }
        ensures me { self.new.me ≡ self.old.me }
        ensures stock { OnOk result ((items : List Entry) (size : List Entry → Entry → ℕ)
            (list : List Entry) → let s = server self.old items in Stocks [] self.old.me s
            (rule size self.old.me now list s (Comes (place_of from)
            (Beat (number_of_view view) cp base))) (stock self.old) (stock self.new)) }
        ensures cached { OnOk result (self.new.cached ≡ self.old.cached) }
        ensures mark { self.new.mark ≡ self.old.mark }
        ensures up { OnOk result (self.new.halted ≡ false) }
    {
        if self.misfits_beat(from, view, cp, base) {
            return Ok(());
        }
        self.heed_beat(view, cp, base, now, outs)?;
        self.try_open(alloc, now, outs)
    }

    /// An Ack that has come: a misfit changes nothing.
    pub(crate) fn take_ack(
        &mut self,
        alloc: Global,
        from: ServerId,
        view: ViewNo,
        top: u64,
        lb: u64,
        until: Deadline,
        now: u64,
        outs: &mut Outputs,
    ) -> Result<(), AllocError>
        requires { self.old.halted ≡ false }
        ensures makes { OnOk result ((items : List Entry) (size : List Entry → Entry → ℕ)
            (list : List Entry) → let s = server self.old items in Makes self.old.me now
            (rule size self.old.me now list s
            (Comes (place_of from) (Ack (number_of_view view) top lb until)))
            self.old.peers s (server self.new items) outs.old outs.new) }
        ensures me { self.new.me ≡ self.old.me }
        ensures stock { OnOk result ((items : List Entry) (size : List Entry → Entry → ℕ)
            (list : List Entry) → let s = server self.old items in Stocks [] self.old.me s
            (rule size self.old.me now list s (Comes (place_of from)
            (Ack (number_of_view view) top lb until))) (stock self.old) (stock self.new)) }
        ensures cached { OnOk result (self.new.cached ≡ self.old.cached) }
        ensures mark { self.new.mark ≡ self.old.mark }
        ensures up { OnOk result (self.new.halted ≡ false) }
    {
        if self.misfits_ack(from, view, top, lb, until) {
            return Ok(());
        }
        self.heed_ack(alloc, view, top, lb, until, outs)?;
        self.try_open(alloc, now, outs)
    }
}
