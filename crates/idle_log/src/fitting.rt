//! Whether a server can take its part in a view.

ghost use Rattle.std.specs.Prelude.{◌≡◌, ℕ, ◌+◌, ◌∷◌, [], ◌==◌, nat_le, true, false, if◌then◌else◌};
ghost use Rattle.file_tree.specs.Book.{Entry};
ghost use Rattle.group_rules.specs.Form.{fits};
ghost use Rattle.group_rules.specs.Limits.{by_held, is_log, limit, room as most};
ghost use Rattle.group_rules.specs.Names.{place_of};
ghost use Rattle.group_rules.specs.Places.{all_of, is_in, is_p2, same};
ghost use Rattle.group_rules.specs.State.{Server};
ghost use Rattle.idle_log.specs.Kept.{IsPlaced, base_in, cp_in, held_in, lb_in, plan_of, top_in, with_kept};
ghost use Rattle.idle_log.specs.Pulls.{CanTake, keeps_of};

use crate::form::Form;
use crate::kept::Kept;
use harp_types::{LOG_ROOM, ServerId};
use view_form::{is_one, is_witness};

/// The greatest index.
const LIMIT: u64 = (1 << 62) - 1;

impl Kept {
    /// Whether the server can take the part of a storer that a Form gives it. The Form's numbers
    /// stand in their order and within their limits, its start covers what the server knows as
    /// committed, its base is on a data server's disk and not below that of a log that goes on, and
    /// a named source holds the start as its top. `lb` is the mark's LB, which counts where the
    /// server has no log.
    pub fn fits(&self, me: ServerId, lb: u64, form: &Form) -> bool
        requires { IsPlaced (place_of me) self.now }
        ensures test { (s : Server Entry) → result
            ≡ fits (place_of me) (with_kept (record s { lb = lb }) self.now) (plan_of form.now) }
        ensures can { result ≡ true → CanTake (place_of me) self.now (plan_of form.now) }
    {
        self.passes(me, lb, form)
    }

    /// The tests.
    #[tactic(auto, unfolding(group_rules::specs::Places::all_of))]
    fn passes(&self, me: ServerId, lb: u64, form: &Form) -> bool
        ensures { (s : Server Entry) → result
            ≡ fits (place_of me) (with_kept (record s { lb = lb }) self.now) (plan_of form.now) }
    {
        is_storer(form, me)
            && numbers_stand(form)
            && self.covers(form.start)
            && self.has_on_disk(me, lb, form.base)
            && self.goes_on(me, form)
            && self.is_whole(me, form)
    }

    /// Whether a start covers what the server knows as committed.
    fn covers(&self, start: u64) -> bool
        ensures { (lb : ℕ) → result
            ≡ nat_le (by_held (held_in self.now) (cp_in self.now) (lb_in lb self.now)) start }
    {
        match self {
            Kept::Held(log) => log.cp() <= start,
            Kept::Lost(log) => log.lb() <= start,
            Kept::Empty(_) => true,
        }
    }

    /// Whether a base is on this server's disk, where it is a data server.
    fn has_on_disk(&self, me: ServerId, lb: u64, base: u64) -> bool
        ensures { result ≡ (if is_p2 (place_of me) then true else nat_le base (lb_in lb self.now)) }
    {
        if is_witness(me) {
            return true;
        }
        match self {
            Kept::Held(log) => base <= log.lb(),
            Kept::Lost(log) => base <= log.lb(),
            Kept::Empty(_) => base <= lb,
        }
    }

    /// Whether a base isn't below that of a log that goes on.
    fn goes_on(&self, me: ServerId, form: &Form) -> bool
        ensures { result ≡ (if keeps_of (place_of me) self.now (plan_of form.now)
            then nat_le (base_in self.now) form.now.base else true) }
    {
        match self {
            Kept::Held(log) => {
                if is_witness(me) && !is_one(me, form.source) {
                    return true;
                }
                log.base() <= form.base
            }
            Kept::Lost(_) => true,
            Kept::Empty(_) => true,
        }
    }

    /// Whether a named source is held, with the start as its top.
    #[tactic(auto, unfolding(group_rules::specs::Places::all_of))]
    fn is_whole(&self, me: ServerId, form: &Form) -> bool
        ensures { result ≡ (if same (place_of me) (place_of form.now.source)
            then all_of (is_log (held_in self.now) ∷ (top_in self.now == form.now.start) ∷ [])
            else true) }
    {
        if !is_one(me, form.source) {
            return true;
        }
        match self {
            Kept::Held(log) => log.top() == form.start,
            Kept::Lost(_) => false,
            Kept::Empty(_) => false,
        }
    }
}

/// Whether a server is a storer of a view.
fn is_storer(form: &Form, me: ServerId) -> bool
    ensures { result ≡ is_in (plan_of form.now).storers (place_of me) }
{
    is_one(me, form.storers.leader()) || is_one(me, form.storers.partner())
}

/// Whether a Form's own numbers stand in their order and within their limits.
#[tactic(auto, unfolding(group_rules::specs::Places::all_of, group_rules::specs::Limits::limit, group_rules::specs::Limits::room))]
fn numbers_stand(form: &Form) -> bool
    ensures { result ≡ all_of (nat_le form.now.base form.now.start
        ∷ nat_le form.now.cp form.now.start ∷ nat_le form.now.start limit
        ∷ nat_le form.now.start (form.now.base + most) ∷ []) }
{
    form.base <= form.start
        && form.cp <= form.start
        && form.start <= LIMIT
        && form.start <= form.base + LOG_ROOM as u64
}
