//! How a storer accepts its view.

ghost use Rattle.node.specs.Stock.{StartsWith, stock};
ghost use Rattle.std.specs.Prelude.{◌≡◌, [], ◌<◌, ◌≤◌, ◌^◌, List, None, false, true, map, ℕ, Err, IfOk, OnErr, OnOk, ⊤, ◌∷◌};
ghost use Rattle.event_record.specs.Record.{entry_of};
ghost use Rattle.file_tree.specs.Book.{Entry};
ghost use Rattle.group_rules.specs.Effects.{fitting};
ghost use Rattle.group_rules.specs.Form.{accept_moves, role_of};
ghost use Rattle.group_rules.specs.Names.{number_of_view, place_of};
ghost use Rattle.group_rules.specs.Places.{get, is_in, leader, partner, same};
ghost use Rattle.group_rules.specs.State.{Server};
ghost use Rattle.harp_types.specs.Streams.{Rose};
ghost use Rattle.idle_log.specs.Kept.{AtBase, plan_of, log_in};
ghost use Rattle.idle_log.specs.Pulls.{CanTake, IsFor, adopted_records};
ghost use Rattle.node.specs.Disk.{MayLeave, disk_after, marked_by, part_of};
ghost use Rattle.node.specs.Forming.{Accepted, accepted_mark, joined_with, kept_from, telling, CanAccept, joined_node};
ghost use Rattle.node.specs.Node.{server};
ghost use Rattle.node.specs.State.{HearsOthers, IsKept, cached_in, heard_of};
ghost use Rattle.node_outputs.specs.Makes.{Makes};
ghost use Rattle.volatile_log.specs.Log.{next, top};
ghost use Rattle.node.specs.Handles.{Handles};

use crate::fault::NodeFault;
use crate::node::Node;
use crate::pull::Pull;
use crate::state::{Joining, State};
use harp_store::{Mark, Store};
use harp_types::{Role, ServerId, ViewNo};
use idle_log::Form;
use node_outputs::Outputs;
use replica::{Leader, Partner};
use std::alloc::{AllocError, Global};
use view_form::is_one;
use volatile_log::ActiveLog;
use wire::Message;

impl Node {
    /// The server accepts its promised view, with all records that the view starts with. The
    /// partner tells it to the leader. An error leaves the mark on the disk as it was, or with the
    /// view accepted.
    pub(crate) fn accept<D: Store>(
        &mut self,
        alloc: Global,
        pull: Pull,
        store: &mut D,
        outs: &mut Outputs,
    ) -> Result<(), NodeFault>
        requires { CanAccept self.old.me self.old.mark pull }
        ensures handles { (clock : ℕ) → Handles result ⊤ clock
            (λ q s. accept_moves q s (plan_of pull.form)
            (map entry_of pull.staged.records)) pull.staged.records [] (joined_node self.old
            pull.kept pull.joining) self.new
            outs.old outs.new (D.told store.old) (D.told store.new) (D.faults store.old)
            (D.faults store.new) }
        ensures count { D.faults store.old ≤ D.faults store.new }
        ensures stock { OnOk result (stock self.new ≡ record {
          log = adopted_records self.old.me (joined_with self.old.plain pull.kept pull.joining)
              (plan_of pull.form) (log_in pull.kept).records pull.staged.records;
          pulled = [];
          waits = [];
        }) }
    {
        let Pull {
            kept,
            joining,
            form,
            staged,
        } = pull;
        let log = match kept.take_up(self.me, &form, staged) {
            Ok(log) => log,
            Err(_) => return Err(NodeFault::NoMemory),
        };
        let view = self.mark.promised();
        let lb = log.lb();
        let mark = accepted_mark(self.mark, self.me, &form, lb);
        let state = active(alloc, self.me, view, log, form, &joining)?;
        store.write_mark(alloc, &mark)?;
        self.mark = mark;
        self.served = form.start;
        self.state = state;
        tell_formed(self.me, view, &form, lb, outs)?;
        Ok(())
    }
}

/// The mark with the promised view accepted, in which the server has its part of the plan, with
/// this LB and no saved log.
fn accepted_mark(mark: Mark, me: ServerId, form: &Form, lb: u64) -> Mark
    requires { lb < 2 ^ 62 }
    ensures { result
        ≡ accepted_mark mark (role_of (plan_of form.now).storers (place_of me)) lb }
{
    mark.with_accepted(part(me, form))
        .with_lb(lb)
        .with_saved(None)
}

/// A storer's role in a view of this plan.
fn part(me: ServerId, form: &Form) -> Role
    ensures { result ≡ part_of (role_of (plan_of form.now).storers (place_of me)) }
{
    if leads(me, form) {
        Role::Leads(form.storers.partner())
    } else {
        Role::Follows(form.storers.leader())
    }
}

/// Whether a server leads in this plan.
fn leads(me: ServerId, form: &Form) -> bool
    ensures { result ≡ same (place_of me) (leader (plan_of form.now).storers) }
{
    is_one(me, form.storers.leader())
}

/// Whether a server is the partner in this plan.
fn follows(me: ServerId, form: &Form) -> bool
    ensures { result ≡ same (place_of me) (partner (plan_of form.now).storers) }
{
    is_one(me, form.storers.partner())
}

/// A storer that has just accepted a view of this plan, with this log. It fails for want of
/// memory.
fn active(
    alloc: Global,
    me: ServerId,
    view: ViewNo,
    log: ActiveLog,
    form: Form,
    joining: &Joining,
) -> Result<State, AllocError>
    requires storer { is_in (plan_of form).storers (place_of me) ≡ true }
    requires start { top log ≡ form.start }
    requires base { AtBase (place_of me) log }
    requires others { HearsOthers (place_of me) joining.now }
    ensures accepted { IfOk result (λ state. Accepted me (number_of_view view) form log
        joining.now state) }
    ensures stock { IfOk result (StartsWith log.records) }
    ensures cached { IfOk result (λ state. cached_in state ≡ []) }
{
    if leads(me, &form) {
        return leading(alloc, me, view, log, form, joining);
    }
    match Partner::of(alloc, log, view, form.storers.leader(), form.start) {
        Ok(partner) => Ok(State::Follows(partner, form)),
        Err(_) => Err(AllocError),
    }
}

/// The leader, with its partner's Formed where that was heard and its LB is within the start.
fn leading(
    alloc: Global,
    me: ServerId,
    view: ViewNo,
    log: ActiveLog,
    form: Form,
    joining: &Joining,
) -> Result<State, AllocError>
    requires leads { same (place_of me) (leader (plan_of form).storers) ≡ true }
    requires start { top log ≡ form.start }
    ensures accepted { IfOk result (λ state. Accepted me (number_of_view view) form log
        joining.now state) }
    ensures stock { IfOk result (StartsWith log.records) }
    ensures cached { IfOk result (λ state. cached_in state ≡ []) }
{
    let partner = form.storers.partner();
    let heard = fitting(&form, joining);
    match Leader::of(alloc, log, view, partner, form.start, form.horizon) {
        Ok(mut leader) => match heard {
            Some(lb) => {
                leader.formed(lb);
                Ok(State::Leads(leader, form))
            }
            None => Ok(State::Leads(leader, form)),
        },
        Err(_) => Err(AllocError),
    }
}

/// The LB of the partner's Formed, where that was heard and is within the start.
fn fitting(form: &Form, joining: &Joining) -> Option<u64>
    ensures { let plan = plan_of form.now in kept_from (partner plan.storers) result
        ≡ fitting plan (get (heard_of joining.now.formed) (partner plan.storers)) }
{
    match *joining.formed.get(form.storers.partner()) {
        Some(lb) => { if lb <= form.start { Some(lb) } else { None } }
        None => None,
    }
}

/// The partner tells the leader that it accepted the view, with its LB.
fn tell_formed(
    me: ServerId,
    view: ViewNo,
    form: &Form,
    lb: u64,
    outs: &mut Outputs,
) -> Result<(), AllocError>
    ensures { OnOk result ((s : Server Entry) (clock : ℕ) → Makes (place_of me) clock
        (telling (place_of me) (number_of_view view) (plan_of form.now) lb) [] s s
        outs.old outs.new) }
{
    if follows(me, form) {
        outs.send(form.storers.leader(), Message::Formed { view, lb })?;
    }
    Ok(())
}
