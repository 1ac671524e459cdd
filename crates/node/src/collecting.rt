//! The joins of a coordinator's view, and its choice.

ghost use Rattle.node.specs.Stock.{Stocks, stock};
ghost use Rattle.std.specs.Prelude.{◌≡◌, ◌∷◌, [], ◌≤◌, List, Option, Some, false, ℕ, Err, OnErr, OnOk, if◌then◌else◌, ⊤};
ghost use Rattle.file_tree.specs.Book.{Entry};
ghost use Rattle.group_rules.specs.Joining.{on_join, to_each};
ghost use Rattle.group_rules.specs.Names.{number_of_view, place_of, view_of};
ghost use Rattle.group_rules.specs.Places.{Trio, other_storers, same};
ghost use Rattle.group_rules.specs.State.{Form as FormTold, Plan as Chosen, Report, Server};
ghost use Rattle.harp_types.specs.Streams.{Rose};
ghost use Rattle.idle_log.specs.Kept.{plan_of};
ghost use Rattle.node.specs.Cached.{IsCachedAs};
ghost use Rattle.node.specs.Disk.{MayLeave, disk_after, marked_by};
ghost use Rattle.node.specs.Collecting.{choosing};
ghost use Rattle.node.specs.Node.{server};
ghost use Rattle.node_outputs.specs.Makes.{Makes};
ghost use Rattle.view_form.specs.Choice.{plan, report};
ghost use Rattle.node.specs.Handles.{Handles};

use crate::fault::NodeFault;
use crate::node::Node;
use crate::state::Task;
use harp_store::Store;
use harp_types::{ServerId, ViewNo};
use idle_log::Form;
use node_outputs::Outputs;
use std::alloc::{AllocError, Global};
use std::mem;
use view_form::{JoinInfo, Plan, is_one};
use wire::Message;

impl Node {
    /// A Join: a coordinator that still collects the joins of this view takes it. The first joins
    /// that allow a choice form the view. An error leaves the mark on the disk as it was, or with
    /// the view accepted.
    pub(crate) fn collect<D: Store>(
        &mut self,
        alloc: Global,
        from: ServerId,
        view: ViewNo,
        info: JoinInfo,
        store: &mut D,
        outs: &mut Outputs,
    ) -> Result<(), NodeFault>
        requires up { self.old.halted ≡ false }
        ensures handles { (clock : ℕ) → Handles result ⊤ clock
            (λ q s. on_join q s (place_of from) (number_of_view view) (report info) s.duty) [] []
            self.old self.new
            outs.old outs.new (D.told store.old) (D.told store.new) (D.faults store.old)
            (D.faults store.new) }
        ensures count { D.faults store.old ≤ D.faults store.new }
    {
        if !self.has_promised(view) {
            return Ok(());
        }
        match mem::replace(&mut self.duty, Task::Free) {
            Task::Free => Ok(()),
            Task::Chose(of, form) => {
                self.duty = Task::Chose(of, form);
                Ok(())
            }
            Task::Collects(mut collector) => {
                let chosen = collector.join(from, info);
                match &chosen {
                    None => {
                        self.duty = Task::Collects(collector);
                        Ok(())
                    }
                    Some(choice) => self.choose(alloc, choice, store, outs),
                }
            }
        }
    }

    /// The coordinator chooses its promised view: Forms go to the other storers, and then it takes
    /// its own part.
    fn choose<D: Store>(
        &mut self,
        alloc: Global,
        choice: &Plan,
        store: &mut D,
        outs: &mut Outputs,
    ) -> Result<(), NodeFault>
        requires up { self.old.halted ≡ false }
        ensures handles { (clock : ℕ) (reports : Trio (Option Report)) (from : ℕ)
            (chosen : Chosen) → choice.now ≡ plan (view_of from) chosen
            → Handles result ⊤ clock
            (λ q s. choosing q s reports chosen from) [] [] self.old self.new
            outs.old outs.new (D.told store.old) (D.told store.new) (D.faults store.old)
            (D.faults store.new) }
        ensures count { D.faults store.old ≤ D.faults store.new }
    {
        let view = self.mark.promised();
        let form = Form::of(choice);
        self.duty = Task::Chose(view, form);
        outs.choose(view, choice.from);
        self.send_forms(&form, outs)?;
        self.form_part(alloc, form, store, outs)
    }

    /// The coordinator sends Forms of its promised view to the storers other than itself, to the
    /// leader first.
    pub(crate) fn send_forms(&self, form: &Form, outs: &mut Outputs) -> Result<(), AllocError>
        ensures { OnOk result ((s : Server Entry) (clock : ℕ) → Makes self.now.me clock
            (to_each (FormTold self.now.plain.promised (plan_of form.now))
            (other_storers self.now.me (plan_of form.now).storers)) [] s s outs.old outs.new) }
    {
        self.send_form(form.storers.leader(), form, outs)?;
        self.send_form(form.storers.partner(), form, outs)?;
        Ok(())
    }

    /// A Form goes to a server, where that is another one.
    fn send_form(&self, to: ServerId, form: &Form, outs: &mut Outputs) -> Result<(), AllocError>
        ensures { OnOk result ((s : Server Entry) (clock : ℕ) → Makes self.now.me clock
            (to_each (FormTold self.now.plain.promised (plan_of form.now))
            (if same self.now.me (place_of to) then [] else place_of to ∷ [])) [] s s
            outs.old outs.new) }
    {
        if is_one(self.me, to) {
            return Ok(());
        }
        outs.send(
            to,
            Message::Form {
                view: self.mark.promised(),
                storers: form.storers,
                source: form.source,
                base: form.base,
                cp: form.cp,
                start: form.start,
                horizon: form.horizon,
            },
        )
    }
}
