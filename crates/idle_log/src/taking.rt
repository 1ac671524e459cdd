//! What a storer pulls, and the log that it goes on with when it accepts.

ghost use Rattle.std.specs.Prelude.{◌≡◌, ◌+◌, ◌<◌, ◌≤◌, ◌^◌, ◌↔◌, ◌||◌, ◌==◌, [], true, false, IfOk, IfErr, IsTrue};
ghost use Rattle.file_tree.specs.Book.{Entry};
ghost use Rattle.group_rules.specs.Form.{wanted};
ghost use Rattle.group_rules.specs.Names.{place_of};
ghost use Rattle.group_rules.specs.Places.{is_p2, same};
ghost use Rattle.group_rules.specs.State.{Server};
ghost use Rattle.idle_log.specs.Kept.{plan_of, with_kept};
ghost use Rattle.idle_log.specs.declared.kept.Kept.TheVariants as kept;
ghost use Rattle.idle_log.specs.Pulls.{CanTake, IsFor, TakesUp, needless};
ghost use Rattle.volatile_log.specs.Log.{next, room};

use crate::form::Form;
use crate::kept::Kept;
use harp_types::ServerId;
use std::alloc::{AllocError, Global};
use view_form::{is_one, is_witness};
use volatile_log::{ActiveLog, EmptyLog, FrozenLog, LostLog, Staged};
use witness::promote;

impl Kept {
    /// How many records of the view the server doesn't pull: the source none, a held data server
    /// those above its own CP, and another server those above the base.
    fn needless(&self, me: ServerId, form: &Form) -> u64
        requires { CanTake (place_of me) self.now (plan_of form.now) }
        ensures value { result ≡ needless (place_of me) self.now (plan_of form.now) }
        ensures within { (form.now.base ≤ result) × (result ≤ form.now.start) }
        ensures start { (form.now.start < result + room + 1) × (form.now.start < 2 ^ 62) }
    {
        if is_one(me, form.source) {
            return form.start;
        }
        if is_witness(me) {
            return form.base;
        }
        match self {
            Kept::Held(log) => log.cp(),
            Kept::Lost(_) => form.base,
            Kept::Empty(_) => form.base,
        }
    }

    /// An empty list for the records that the server pulls. It is full at once exactly where the
    /// server pulls none, and accepts.
    pub fn stage(&self, alloc: Global, me: ServerId, form: &Form) -> Result<Staged, AllocError>
        requires { CanTake (place_of me) self.now (plan_of form.now) }
        ensures list { IfOk result (λ staged. IsFor (place_of me) self.now (plan_of form.now) staged
            × (staged.records ≡ [])) }
        ensures wanted { (s : Server Entry) → same (place_of me) (place_of form.now.source) ≡ false
            → needless (place_of me) self.now (plan_of form.now)
            ≡ wanted (place_of me) (with_kept s self.now) (plan_of form.now) }
        ensures none { IfOk result (λ staged. (s : Server Entry)
            → IsTrue (same (place_of me) (place_of form.now.source)
            || (wanted (place_of me) (with_kept s self.now) (plan_of form.now) == form.now.start))
            ↔ (staged.start < next staged)) }
    {
        let staged = Staged::new(alloc, self.needless(me, form) + 1, form.start)?;
        Ok(staged)
    }

    /// The log of a storer that accepts the view, from the records that it keeps and those that it
    /// pulled: the list is full. It takes memory only, and for want of it both come back.
    pub fn take_up(
        self,
        me: ServerId,
        form: &Form,
        staged: Staged,
    ) -> Result<ActiveLog, (Kept, Staged)>
        requires can { CanTake (place_of me) self (plan_of form.now) }
        requires pulled { IsFor (place_of me) self (plan_of form.now) staged }
        requires full { staged.start < next staged }
        ensures ok { IfOk result
            (λ log. TakesUp (place_of me) self (plan_of form.now) staged.records log) }
        ensures err { IfErr result (λ both. (both.0 ≡ self) × (both.1 ≡ staged)) }
    {
        let _ = staged.next();
        match self {
            Kept::Held(log) => {
                if is_one(me, form.source) {
                    return resume(me, log, form, staged);
                }
                if is_witness(me) {
                    return replace(me, Kept::Held(log), form, staged);
                }
                adopt(me, log, form, staged)
            }
            Kept::Lost(log) => {
                if is_witness(me) {
                    return replace(me, Kept::Lost(log), form, staged);
                }
                adopt_lost(me, log, form, staged)
            }
            Kept::Empty(log) => replace(me, Kept::Empty(log), form, staged),
        }
    }
}

/// The source's log, which goes on.
fn resume(
    me: ServerId,
    log: FrozenLog,
    form: &Form,
    staged: Staged,
) -> Result<ActiveLog, (Kept, Staged)>
    requires can { CanTake (place_of me) (kept.Held log) (plan_of form.now) }
    requires source { same (place_of me) (place_of form.now.source) ≡ true }
    ensures ok { IfOk result
        (λ new. TakesUp (place_of me) (kept.Held log) (plan_of form.now) staged.records new) }
    ensures err { IfErr result (λ both. (both.0 ≡ kept.Held log) × (both.1 ≡ staged)) }
{
    let _ = log.cp();
    match log.resume(form.base) {
        Ok(mut log) => {
            log.commit_to(log.cp().max(form.cp));
            Ok(log)
        }
        Err(log) => Err((Kept::Held(log), staged)),
    }
}

/// The log of a held data server that isn't the source: what it knows as committed, and the
/// records that it pulled.
fn adopt(
    me: ServerId,
    log: FrozenLog,
    form: &Form,
    staged: Staged,
) -> Result<ActiveLog, (Kept, Staged)>
    requires can { CanTake (place_of me) (kept.Held log) (plan_of form.now) }
    requires other { same (place_of me) (place_of form.now.source) ≡ false }
    requires stores { is_p2 (place_of me) ≡ false }
    requires pulled { IsFor (place_of me) (kept.Held log) (plan_of form.now) staged }
    requires full { next staged ≡ staged.start + 1 }
    ensures ok { IfOk result
        (λ new. TakesUp (place_of me) (kept.Held log) (plan_of form.now) staged.records new) }
    ensures err { IfErr result (λ both. (both.0 ≡ kept.Held log) × (both.1 ≡ staged)) }
{
    let _ = log.cp();
    match log.adopt(staged, form.base, form.cp) {
        Ok(log) => Ok(log),
        Err((log, staged)) => Err((Kept::Held(log), staged)),
    }
}

/// The log of a data server that lost its own: the records that it pulled.
fn adopt_lost(
    me: ServerId,
    log: LostLog,
    form: &Form,
    staged: Staged,
) -> Result<ActiveLog, (Kept, Staged)>
    requires can { CanTake (place_of me) (kept.Lost log) (plan_of form.now) }
    requires other { same (place_of me) (place_of form.now.source) ≡ false }
    requires stores { is_p2 (place_of me) ≡ false }
    requires pulled { IsFor (place_of me) (kept.Lost log) (plan_of form.now) staged }
    requires full { next staged ≡ staged.start + 1 }
    ensures ok { IfOk result
        (λ new. TakesUp (place_of me) (kept.Lost log) (plan_of form.now) staged.records new) }
    ensures err { IfErr result (λ both. (both.0 ≡ kept.Lost log) × (both.1 ≡ staged)) }
{
    match log.adopt(staged, form.base, form.cp) {
        Ok(log) => Ok(log),
        Err((log, staged)) => Err((Kept::Lost(log), staged)),
    }
}

/// The log of a witness that isn't the source: the records that it pulled, in place of what it
/// held.
fn replace(
    me: ServerId,
    kept: Kept,
    form: &Form,
    staged: Staged,
) -> Result<ActiveLog, (Kept, Staged)>
    requires can { CanTake (place_of me) kept (plan_of form.now) }
    requires other { same (place_of me) (place_of form.now.source) ≡ false }
    requires witness { is_p2 (place_of me) ≡ true }
    requires pulled { IsFor (place_of me) kept (plan_of form.now) staged }
    requires full { next staged ≡ staged.start + 1 }
    ensures ok { IfOk result
        (λ new. TakesUp (place_of me) kept (plan_of form.now) staged.records new) }
    ensures err { IfErr result (λ both. (both.0 ≡ kept) × (both.1 ≡ staged)) }
{
    let cp = kept.cp().max(form.cp);
    match promote(EmptyLog::new(), staged, form.base, cp) {
        Ok(log) => Ok(log),
        Err((_, staged)) => Err((kept, staged)),
    }
}
