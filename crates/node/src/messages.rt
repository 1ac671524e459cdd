//! A message that has come, by its form. After an error the server is halted.

ghost use Rattle.idle_log.specs.Gives.{StandIn};
ghost use Rattle.node_outputs.specs.Records.{carried, records_sent};
ghost use Rattle.node.specs.Stock.{IsFetch};
ghost use Rattle.std.specs.Prelude.{◌≡◌, ◌<◌, ◌≤◌, ◌^◌, List, ℕ, OnOk, false, ◌++◌};
ghost use Rattle.file_tree.specs.Book.{Entry};
ghost use Rattle.node.specs.Handles.{Handles};
ghost use Rattle.node.specs.Taking.{Fills, input_in, ruled};

use crate::fault::NodeFault;
use crate::node::Node;
use harp_store::Store;
use harp_types::ServerId;
use idle_log::Form;
use node_outputs::Outputs;
use std::alloc::Global;
use view_form::JoinInfo;
use wire::Message;

impl Node {
    /// Deals with a message that has come, from its tests to the test of opening: a misfit changes
    /// nothing, nor does a client's message. An error leaves the mark on the disk as it was, or as
    /// the message's moves write it.
    pub(crate) fn take_message<D: Store>(
        &mut self,
        alloc: Global,
        from: ServerId,
        message: Message,
        now: u64,
        store: &mut D,
        outs: &mut Outputs,
    ) -> Result<(), NodeFault>
        requires up { self.old.halted ≡ false }
        requires now { now < 2 ^ 62 }
        ensures handles { (size : List Entry → Entry → ℕ) (list : List Entry)
            → Handles result (Fills size list self.old message) now
            (λ q s. ruled size q now list s (input_in from message)) (carried message)
            self.old.peers self.old self.new
            outs.old outs.new (D.told store.old) (D.told store.new) (D.faults store.old)
            (D.faults store.new) }
        ensures sent { OnOk result (IsFetch message → StandIn (records_sent outs.old
            ++ self.old.records) (records_sent outs.new)) }
        ensures count { D.faults store.old ≤ D.faults store.new }
    {
        match message {
            Message::Invite { view } => self.take_invite(alloc, from, view, now, store, outs),
            Message::Join {
                view,
                held,
                accepted,
                base,
                lb,
                cp,
                top,
                horizon,
            } => {
                let info = JoinInfo {
                    held,
                    accepted,
                    base,
                    lb,
                    cp,
                    top,
                    horizon,
                };
                self.take_join(alloc, from, view, info, now, store, outs)
            }
            Message::Form {
                view,
                storers,
                source,
                base,
                cp,
                start,
                horizon,
            } => {
                let form = Form {
                    storers,
                    source,
                    base,
                    cp,
                    start,
                    horizon,
                };
                self.take_form(alloc, from, view, form, now, store, outs)
            }
            Message::Fetch { view, first } => {
                self.take_fetch(alloc, from, view, first, now, outs)?;
                Ok(())
            }
            Message::Give {
                view,
                first,
                records,
            } => self.take_give(alloc, from, view, first, records, now, store, outs),
            Message::Formed { view, lb } => {
                self.take_formed(alloc, from, view, lb, now, outs)?;
                Ok(())
            }
            Message::Event {
                view,
                cp,
                base,
                record: item,
            } => {
                self.take_event(alloc, from, view, cp, base, item, now, outs)?;
                Ok(())
            }
            Message::Beat { view, cp, base } => {
                self.take_beat(alloc, from, view, cp, base, now, outs)?;
                Ok(())
            }
            Message::Ack {
                view,
                top,
                lb,
                until,
            } => {
                self.take_ack(alloc, from, view, top, lb, until, now, outs)?;
                Ok(())
            }
            Message::Demote { view } => self.take_demote(alloc, from, view, now, store, outs),
            Message::Ask { .. } => Ok(()),
            Message::Answer { .. } => Ok(()),
            Message::CannotServe { .. } => Ok(()),
        }
    }
}
