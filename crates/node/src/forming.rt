//! The part of a storer that a Form gives.

ghost use Rattle.node.specs.Stock.{Stocks, stock, stock_kept};
ghost use Rattle.std.specs.Prelude.{◌≡◌, ◌∷◌, [], ◌≤◌, List, false, ℕ, Err, OnErr, OnOk, ⊤};
ghost use Rattle.file_tree.specs.Book.{Entry};
ghost use Rattle.group_rules.specs.Form.{form_moves, on_form};
ghost use Rattle.group_rules.specs.Moves.{Sending};
ghost use Rattle.group_rules.specs.Names.{number_of_view};
ghost use Rattle.group_rules.specs.State.{Fetch, Server};
ghost use Rattle.harp_types.specs.Streams.{Rose};
ghost use Rattle.idle_log.specs.Kept.{plan_of};
ghost use Rattle.idle_log.specs.declared.kept.Kept.{Kept};
ghost use Rattle.node.specs.Cached.{IsCachedAs};
ghost use Rattle.node.specs.Disk.{MayLeave, disk_after, marked_by};
ghost use Rattle.node.specs.Forming.{joined_with, pulling_with, Fetches, joined_node};
ghost use Rattle.node.specs.Node.{server};
ghost use Rattle.node.specs.State.{HearsOthers, IsKept, IsPulling};
ghost use Rattle.node_outputs.specs.Makes.{Makes};
ghost use Rattle.volatile_log.specs.Log.{next};
ghost use Rattle.node.specs.Handles.{Handles};

use crate::fault::NodeFault;
use crate::node::Node;
use crate::pull::Pull;
use crate::state::{Joining, State};
use harp_store::Store;
use harp_types::ViewNo;
use idle_log::{Form, Kept};
use node_outputs::Outputs;
use std::alloc::{AllocError, Global};
use std::mem;
use wire::Message;

impl Node {
    /// A Form: of the promised view the server takes the part that it gives. An error leaves the
    /// mark on the disk as it was, or with the view accepted.
    pub(crate) fn form<D: Store>(
        &mut self,
        alloc: Global,
        view: ViewNo,
        form: Form,
        store: &mut D,
        outs: &mut Outputs,
    ) -> Result<(), NodeFault>
        requires up { self.old.halted ≡ false }
        ensures handles { (clock : ℕ) → Handles result ⊤ clock
            (λ q s. on_form q s (number_of_view view) (plan_of form)) [] [] self.old self.new
            outs.old outs.new (D.told store.old) (D.told store.new) (D.faults store.old)
            (D.faults store.new) }
        ensures count { D.faults store.old ≤ D.faults store.new }
    {
        if !self.has_promised(view) {
            return Ok(());
        }
        self.form_part(alloc, form, store, outs)
    }

    /// The storer's part in the promised view, which it joined in this boot and hasn't accepted:
    /// it accepts at once where it is the source or wants nothing, and else begins to pull.
    #[tactic(auto, unfolding(group_rules::specs::Places::all_of))]
    pub(crate) fn form_part<D: Store>(
        &mut self,
        alloc: Global,
        form: Form,
        store: &mut D,
        outs: &mut Outputs,
    ) -> Result<(), NodeFault>
        requires up { self.old.halted ≡ false }
        ensures handles { (clock : ℕ) → Handles result ⊤ clock
            (λ q s. form_moves q s (plan_of form)) [] [] self.old self.new
            outs.old outs.new (D.told store.old) (D.told store.new) (D.faults store.old)
            (D.faults store.new) }
        ensures count { D.faults store.old ≤ D.faults store.new }
    {
        if !self.is_joined() {
            return Ok(());
        }
        let part = mem::replace(&mut self.state, State::Gone).into_joined();
        self.take_part(alloc, part.0, part.1, form, store, outs)
    }

    /// The part of a server that joined the view with this.
    fn take_part<D: Store>(
        &mut self,
        alloc: Global,
        kept: Kept,
        joining: Joining,
        form: Form,
        store: &mut D,
        outs: &mut Outputs,
    ) -> Result<(), NodeFault>
        requires kept { IsKept self.old.me self.old.mark kept }
        requires others { HearsOthers self.old.me joining }
        ensures handles { (clock : ℕ) → Handles result ⊤ clock
            (λ q s. form_moves q s (plan_of form)) [] [] (joined_node self.old kept joining)
            self.new
            outs.old outs.new (D.told store.old) (D.told store.new) (D.faults store.old)
            (D.faults store.new) }
        ensures count { D.faults store.old ≤ D.faults store.new }
    {
        if !kept.fits(self.me, self.mark.lb(), &form) {
            self.state = State::Joined(kept, joining);
            return Ok(());
        }
        let staged = kept.stage(alloc, self.me, &form)?;
        let full = staged.is_full();
        let pull = Pull {
            kept,
            joining,
            form,
            staged,
        };
        if full {
            return self.accept(alloc, pull, store, outs);
        }
        self.fetch(pull, outs)?;
        Ok(())
    }

    /// The server asks the source for the next record, and waits for it.
    pub(crate) fn fetch(&mut self, pull: Pull, outs: &mut Outputs) -> Result<(), AllocError>
        requires kept { IsKept self.old.me self.old.mark pull.kept }
        requires others { HearsOthers self.old.me pull.joining }
        requires pulls { IsPulling self.old.me pull.kept (plan_of pull.form) pull.staged }
        ensures fetches { OnOk result (Fetches pull self.old self.new outs.old outs.new) }
        ensures me { self.new.me ≡ self.old.me }
    {
        let Pull {
            kept,
            joining,
            form,
            staged,
        } = pull;
        let view = self.mark.promised();
        let first = staged.next();
        let source = form.source;
        self.state = State::Pulls(kept, joining, form, staged);
        outs.send(source, Message::Fetch { view, first })?;
        Ok(())
    }
}
